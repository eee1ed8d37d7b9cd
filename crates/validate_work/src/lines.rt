//! Reading routes line by line, and writing the answers.

ghost use Rattle.std.specs.Prelude.{◌≡◌, ◌≤◌, IfOk};
ghost use Rattle.validate_work.specs.LinesAnswered.{AnswersLines, AnswersRoute};
ghost use Rattle.validate_work.specs.PrivateLines.{AnswersLine, PassesLine, TakesByte, TakesLine};

use crate::form::{Form, Formats};
use crate::lists::Lists;
use crate::refusals::Refusals;
use crate::route_text::{RouteError, TableRoute};
use crate::table::read_table;
use crate::turn::add_list_answer;
use list_lines::Line;
use rtr_units::fault::Fault;
use rtr_units::piece::put;
use rtr_units::source::{Sink, Source};
use std::alloc::Global;

/// The byte that ends a line.
const LINE_FEED: u8 = b'\n';

/// Why not all routes were answered.
#[derive(Debug, Drop)]
pub enum Stop {
    /// In a strict run: the line of this number, of which the first is 1, isn't a route.
    Line(u64, RouteError),
    /// Reading, writing or memory failed.
    Fault(Fault),
}

/// How a line ends.
#[derive(Clone, Copy, Debug, PartialEq, Eq)]
pub(crate) enum Ending {
    /// By a line feed.
    Feed,
    /// By the end of the input.
    Input,
}

/// Reads routes, one on a line, up to the end of the input, and writes the answer on each, by
/// `add_list_answer`, before the next line is read. A line without a route, such as a blank one,
/// has no answer. A refused line is reported to `refusals`, with its number, and skipped; the
/// number of these is returned. A strict run stops at the first refused line instead, with its
/// number, after the answers on the lines before it. The faults are `Reader`, `Writer` and
/// `Memory`, and `TooMany` after 2^64 - 1 lines. It allocates for the longest line, and for the
/// longest answer.
pub fn answer_lines<R: Source, W: Sink, T: Refusals>(
    alloc: Global,
    program: &str,
    strict: bool,
    formats: Formats,
    lists: Lists<'_>,
    input: &mut R,
    output: &mut W,
    refusals: &mut T,
) -> Result<u64, Stop>
    ensures { AnswersLines T.hears strict formats lists.entry result
        (R.state input.old) (R.state input.new) (W.state output.old) (W.state output.new)
        refusals.old refusals.new }
{
    let mut text = Line::new(alloc);
    let mut answer = Line::new(alloc);
    let mut refused = 0;
    'lines: for count in 0..u64::MAX {
        let ending = match read_line(input, &mut text) {
            Ok(ending) => ending,
            Err(fault) => return Err(Stop::Fault(fault)),
        };
        let line = text.as_bytes();
        let number = count + 1;
        match pass_line(
            program,
            strict,
            formats,
            lists,
            number,
            line,
            &mut answer,
            output,
            refusals,
        ) {
            Ok(more) => refused += more,
            Err(stop) => return Err(stop),
        }
        match ending {
            Ending::Feed => {}
            Ending::Input => return Ok(refused),
        }
    }
    Err(Stop::Fault(Fault::TooMany))
}

/// Writes the answer on the route of the line of this number, unless it is blank. A line that isn't
/// a route is reported, unless the run is strict. Returns how many were reported. The faults are
/// `Writer` and `Memory`.
fn pass_line<W: Sink, T: Refusals>(
    program: &str,
    strict: bool,
    formats: Formats,
    lists: Lists<'_>,
    number: u64,
    text: &[u8],
    answer: &mut Line,
    output: &mut W,
    refusals: &mut T,
) -> Result<u64, Stop>
    ensures passes { PassesLine T.hears strict formats lists.entry number text.now result
        (W.state output.old) (W.state output.new) refusals.old refusals.new }
    ensures most { IfOk result (λ n. n ≤ 1) }
{
    match answer_line(formats, lists, number, text, answer, output) {
        Ok(()) => Ok(0),
        Err(Stop::Line(number, error)) if !strict => {
            refusals.tell(program, number, &error);
            Ok(1)
        }
        Err(stop) => Err(stop),
    }
}

/// Reads a line, without its line feed, and returns how it ended. The faults are `Reader` and
/// `Memory`.
pub(crate) fn read_line<R: Source>(input: &mut R, line: &mut Line) -> Result<Ending, Fault>
    ensures { TakesLine result line.new (R.state input.old) (R.state input.new) }
{
    line.clear();
    'bytes: for _count in 0..u64::MAX {
        match next_byte(input) {
            Ok(Some(LINE_FEED)) => return Ok(Ending::Feed),
            Ok(Some(byte)) => match line.byte(byte) {
                Ok(()) => {}
                Err(_) => return Err(Fault::Memory),
            },
            Ok(None) => return Ok(Ending::Input),
            Err(fault) => return Err(fault),
        }
    }
    Err(Fault::Memory)
}

/// The next byte, unless the input ends. The only fault is `Reader`.
#[inline(always)]
fn next_byte<R: Source>(input: &mut R) -> Result<Option<u8>, Fault>
    ensures { TakesByte result (R.state input.old) (R.state input.new) }
{
    let mut piece = [0];
    match input.read(&mut piece) {
        Ok(0) => Ok(None),
        Ok(_) => Ok(Some(piece[0])),
        Err(error) => Err(Fault::Reader(error)),
    }
}

/// Writes the answer on the route of the line of this number, unless it is blank. The faults are
/// `Writer` and `Memory`.
fn answer_line<W: Sink>(
    formats: Formats,
    lists: Lists<'_>,
    number: u64,
    text: &[u8],
    answer: &mut Line,
    output: &mut W,
) -> Result<(), Stop>
    ensures { AnswersLine formats lists.entry number text.now result
        (W.state output.old) (W.state output.new) }
{
    let route = match read_table(formats.table, text) {
        Ok(Some(route)) => route,
        Ok(None) => return Ok(()),
        Err(error) => return Err(Stop::Line(number, error)),
    };
    match answer_route(formats.form, lists, &route, answer, output) {
        Ok(()) => Ok(()),
        Err(fault) => Err(Stop::Fault(fault)),
    }
}

/// Writes the answer on a route, in memory that is reused. The faults are `Writer` and `Memory`.
pub(crate) fn answer_route<W: Sink>(
    form: Form,
    lists: Lists<'_>,
    route: &TableRoute,
    answer: &mut Line,
    output: &mut W,
) -> Result<(), Fault>
    ensures { AnswersRoute form lists.entry route.now.prefix route.now.origin result
        (W.state output.old) (W.state output.new) }
{
    answer.clear();
    match add_list_answer(answer, form, lists, route) {
        Ok(()) => put(output, answer.as_bytes()),
        Err(_) => Err(Fault::Memory),
    }
}
