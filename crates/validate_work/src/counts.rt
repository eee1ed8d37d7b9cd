//! Counts of a table of routes.

ghost use Rattle.std.specs.Prelude.{◌≡◌, ◌≤◌, ◌<◌, ◌+◌, [], OnOk};
ghost use Rattle.validate_work.specs.PrivateCounts.{CountsLine, CountsRoute};
ghost use Rattle.validate_work.specs.RouteStates.{no_turns};
ghost use Rattle.validate_work.specs.RoutesCounted.{CountsLines, no_counts, total_of};
ghost use Rattle.validate_work.specs.RoutesCounted.{with_refused, with_validity};

use crate::lines::{Ending, Stop, read_line};
use crate::lists::Lists;
use crate::origins::count_origin;
use crate::refusals::Refusals;
use crate::route_text::TableRoute;
use crate::states::{States, Turns};
use crate::table::{Table, read_table};
use data_validation::Validity;
use list_lines::Line;
use rtr_base::asn::Asn;
use rtr_units::fault::Fault;
use rtr_units::source::Source;
use std::alloc::{AllocError, Global};
use std::collections::BTreeMap;

/// The numbers of routes of each validity, and of refused lines.
#[derive(Clone, Copy, Debug, PartialEq, Eq)]
pub struct Counts {
    /// Routes that a VRP matches.
    pub valid: u64,
    /// Routes that VRPs cover, but none matches.
    pub invalid: u64,
    /// Routes that no VRP covers.
    pub not_found: u64,
    /// Lines that aren't routes.
    pub refused: u64,
}

impl Counts {
    /// All counts zero.
    pub fn new() -> Counts
        ensures { result ≡ no_counts }
    {
        Counts {
            valid: 0,
            invalid: 0,
            not_found: 0,
            refused: 0,
        }
    }

    /// The counts with one more route of this validity.
    fn with(self, state: Validity) -> Counts
        requires { total_of self < 18446744073709551615 }
        ensures { result ≡ with_validity state self }
    {
        match state {
            Validity::Valid => Counts {
                valid: self.valid + 1,
                ..self
            },
            Validity::Invalid => Counts {
                invalid: self.invalid + 1,
                ..self
            },
            Validity::NotFound => Counts {
                not_found: self.not_found + 1,
                ..self
            },
        }
    }

    /// The counts with one more refused line.
    fn with_refused(self) -> Counts
        requires { total_of self < 18446744073709551615 }
        ensures { result ≡ with_refused self }
    {
        Counts {
            refused: self.refused + 1,
            ..self
        }
    }
}

/// The counts of a table of routes.
#[derive(Drop)]
pub struct Summary {
    /// The numbers of routes of each validity by the list in use, and of refused lines.
    pub counts: Counts,
    /// The numbers of routes of each validity by their origin AS; empty if two lists are compared.
    pub origins: BTreeMap<Asn, States>,
    /// How many routes change from each validity to each other, if two lists are compared.
    pub turns: Turns,
}

impl Summary {
    /// The summary of no lines.
    pub fn new(alloc: Global) -> Summary
        ensures counts { result.counts ≡ no_counts }
        ensures origins { result.origins.entries ≡ [] }
        ensures turns { result.turns ≡ no_turns }
    {
        Summary {
            counts: Counts::new(),
            origins: BTreeMap::new(alloc),
            turns: Turns::new(),
        }
    }
}

/// Reads routes, one on a line, up to the end of the input, and counts those of each validity, by
/// origin AS too, or if two lists are compared, the changes of validity. A line that is refused is
/// reported to `refusals`, with its number, and counted; a strict run ends at the first one
/// instead. The faults are `Reader` and `Memory`, and `TooMany` after 2^64 - 1 lines. It allocates
/// for the longest line and for each origin AS.
pub fn count_lines<R: Source, T: Refusals>(
    alloc: Global,
    program: &str,
    strict: bool,
    table: Table,
    lists: Lists<'_>,
    input: &mut R,
    refusals: &mut T,
) -> Result<Summary, Stop>
    ensures { CountsLines T.hears strict table lists.entry result
        (R.state input.old) (R.state input.new) refusals.old refusals.new }
{
    let mut text = Line::new(alloc);
    let mut summary = Summary::new(alloc);
    'lines: for count in 0..u64::MAX {
        let ending = match read_line(input, &mut text) {
            Ok(ending) => ending,
            Err(fault) => return Err(Stop::Fault(fault)),
        };
        let line = text.as_bytes();
        let number = count + 1;
        match count_line(
            program,
            strict,
            table,
            lists,
            number,
            line,
            &mut summary,
            refusals,
        ) {
            Ok(()) => {}
            Err(stop) => return Err(stop),
        }
        match ending {
            Ending::Feed => {}
            Ending::Input => return Ok(summary),
        }
    }
    Err(Stop::Fault(Fault::TooMany))
}

/// Counts the line of this number. A refused one is reported, unless the run is strict. The only
/// fault is `Memory`.
fn count_line<T: Refusals>(
    program: &str,
    strict: bool,
    table: Table,
    lists: Lists<'_>,
    number: u64,
    text: &[u8],
    summary: &mut Summary,
    refusals: &mut T,
) -> Result<(), Stop>
    requires { total_of summary.old.counts < number }
    ensures counts { CountsLine T.hears strict table lists.entry number text.now summary.old
        summary.new result refusals.old refusals.new }
    ensures most { OnOk result (total_of summary.new.counts ≤ number) }
{
    match read_table(table, text) {
        Ok(Some(route)) => match count_route(lists, &route, summary) {
            Ok(()) => Ok(()),
            Err(_) => Err(Stop::Fault(Fault::Memory)),
        },
        Ok(None) => Ok(()),
        Err(error) if strict => Err(Stop::Line(number, error)),
        Err(error) => {
            refusals.tell(program, number, &error);
            summary.counts = summary.counts.with_refused();
            Ok(())
        }
    }
}

/// Counts a route.
fn count_route(
    lists: Lists<'_>,
    route: &TableRoute,
    summary: &mut Summary,
) -> Result<(), AllocError>
    requires { total_of summary.old.counts < 18446744073709551615 }
    ensures counts { OnOk result (CountsRoute lists.entry route.now summary.old summary.new) }
    ensures most { OnOk result
        (total_of summary.new.counts ≡ total_of summary.old.counts + 1) }
{
    let asked = route.to_route();
    let state = lists.used.validity(&asked);
    summary.counts = summary.counts.with(state);
    match lists.other {
        None => count_origin(&mut summary.origins, route.origin, state),
        Some(other) => {
            summary.turns = summary.turns.with(state, other.validity(&asked));
            Ok(())
        }
    }
}
