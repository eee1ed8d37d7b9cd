//! Writing the sequence of the gathered items.

ghost use Rattle.std.specs.Prelude.{◌≡◌, ◌&&◌, not, ◌≤◌, ◌<◌, ◌^◌, ◌++◌};
ghost use Rattle.rtr_units.specs.AnyEnd.{end_bytes};
ghost use Rattle.rtr_units.specs.End.{IsEndMeaning, end_list};
ghost use Rattle.rtr_units.specs.Stream.{PutsForm};
ghost use Rattle.data_memory.specs.Deltas.{all_for, change_forms};
ghost use Rattle.make_work.specs.Making.{asked_end};
ghost use Rattle.make_work.specs.Taking.{WritesGathered};

use crate::gathering::{Gathered, has_none};
use crate::item::{Place, Reason, Refusal};
use crate::words::Request;
use data_memory::Data;
use rtr_base::timing::Timing;
use rtr_units::end::EndOfData;
use rtr_units::fault::Fault;
use rtr_units::source::Sink;

/// Why no sequence was written, or not all of it.
#[derive(Debug, Drop)]
pub enum Trouble<'a> {
    /// The input is refused, or memory ran out.
    Input(Refusal<'a>),
    /// The writer failed.
    Output(Fault),
}

/// Writes the units that announce the payloads that were gathered for the request, each once and in
/// order, and the end of data of the request. Returns how many payloads were left out. On a refusal
/// nothing is written: the reason is that of the first refused item, or `NoPayloads` if there would
/// be no payloads and the request doesn't allow an empty sequence.
pub fn write_sequence<'a, W: Sink>(
    asked: &Request,
    gathered: Result<Gathered, Refusal<'a>>,
    output: &mut W,
) -> Result<usize, Trouble<'a>>
    ensures { WritesGathered asked.now gathered.entry result (W.state output.old)
        (W.state output.new) }
{
    let version = asked.version.number();
    let gathered = match gathered {
        Ok(gathered) => gathered,
        Err(refusal) => return Err(Trouble::Input(refusal)),
    };
    if lacks_payloads(asked.takes_empty, has_none(version, &gathered.payloads)) {
        return Err(Trouble::Input(no_payloads()));
    }
    let end = end_of(asked);
    match put_sequence(version, &gathered.payloads, &end, output) {
        Ok(()) => Ok(gathered.left_out),
        Err(fault) => Err(Trouble::Output(fault)),
    }
}

/// Whether payloads are required and there are none.
fn lacks_payloads(takes_empty: bool, has_none: bool) -> bool
    ensures { result ≡ (not takes_empty && has_none) }
{
    !takes_empty && has_none
}

/// The refusal of an input without payloads that the version has.
fn no_payloads<'a>() -> Refusal<'a>
    ensures { result.reason ≡ Reason.NoPayloads }
{
    Refusal {
        place: Place::Input,
        reason: Reason::NoPayloads,
    }
}

/// The end of data of the request.
fn end_of(asked: &Request) -> EndOfData
    ensures bytes { end_bytes result ≡ end_list (asked_end asked.now) }
    ensures fits { IsEndMeaning (asked_end asked.now) }
{
    let _session = asked.state.session();
    let _serial = asked.state.serial();
    in_range(asked.timing);
    EndOfData::new(asked.version.number(), asked.state, asked.timing)
}

/// The timings are in their ranges. It has no effect.
fn in_range(timing: Timing)
    ensures refresh { timing.refresh < 2 ^ 32 }
    ensures retry { timing.retry < 2 ^ 32 }
    ensures expire { timing.expire < 2 ^ 32 }
{
    is_small(timing.refresh);
    is_small(timing.retry);
    is_small(timing.expire);
}

fn is_small(number: u32)
    ensures { number < 2 ^ 32 }
{}

/// Writes the units of this version that announce the payloads, and the end of data.
fn put_sequence<W: Sink>(
    version: u8,
    payloads: &Data,
    end: &EndOfData,
    output: &mut W,
) -> Result<(), Fault>
    requires { version ≤ 2 }
    ensures { PutsForm result (W.state output.old) (W.state output.new)
        (change_forms version (all_for version payloads.now) ++ end_bytes end.now) }
{
    payloads.write_all(version, output)?;
    end.write(output)
}
