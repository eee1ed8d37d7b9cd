//! Calls over whole sequences.

ghost use Rattle.std.specs.Prelude.{◌≡◌, ◌≢◌, ◌+◌, ◌≤◌, ◌<◌, Result, Err, length, drop};
ghost use Rattle.rtr_wire.specs.Into.{NormalisesInto, RefusesVersion};
ghost use Rattle.rtr_wire.specs.Sequences.{everything, for_version};
ghost use Rattle.rtr_wire.specs.declared.into.IntoFault.{IntoFault};
ghost use Rattle.rtr_wire.specs.declared.into.Progress.{Progress};
ghost use Rattle.rtr_c.specs.Answers.{Tells, CallSucceeds, CallSucceedsOnly};
ghost use Rattle.rtr_c.specs.Answers.{run_wanted, rtr_no_room};

use crate::answer::{ACCEPTED, RtrAnswer, stop_detail, stop_status};
use crate::next::wanted;
use rtr_wire::pdu::ViewFault;
use rtr_wire::{IntoFault, Progress, normalise_for_into, normalise_into};

/// As `rtr_wire::normalise_into`. `taken` counts whole units: no byte of the unit at which a call
/// stops, whereas `rtr_wire::normalise` has consumed some of its reader, such as the header.
#[unsafe(no_mangle)]
pub extern "C" fn rtr_normalise_slice_nonnull(
    input: &[u8],
    output: &mut [u8],
    limit: u64,
    answer: &mut RtrAnswer,
) -> u8
    ensures told { (p : Progress) × (r : Result Unit IntoFault)
        × NormalisesInto everything limit r input.now output.old output.new p
        × Tells input.now p r answer.new result }
    ensures room { length input.now ≤ length output.old → result ≢ rtr_no_room }
    ensures succeeds { CallSucceeds everything limit (length input.now)
        input.now output.old output.new answer.new result }
    ensures succeeds_only { CallSucceedsOnly everything limit input.now output.old output.new
        answer.new result }
{
    let (progress, end) = normalise_into(input, output, limit);
    *answer = answer_of(input, progress, end);
    answer.status
}

/// As `rtr_wire::normalise_for_into`.
#[unsafe(no_mangle)]
pub extern "C" fn rtr_normalise_for_slice_nonnull(
    input: &[u8],
    output: &mut [u8],
    limit: u64,
    version: u8,
    answer: &mut RtrAnswer,
) -> u8
    ensures known { version ≤ 2 → (p : Progress) × (r : Result Unit IntoFault)
        × NormalisesInto (for_version version) limit r input.now output.old output.new p
        × Tells input.now p r answer.new result }
    ensures room { version ≤ 2 → length input.now + 12 ≤ length output.old → result ≢ rtr_no_room }
    ensures succeeds { version ≤ 2 →
        CallSucceeds (for_version version) limit (length input.now + 12)
        input.now output.old output.new answer.new result }
    ensures succeeds_only { CallSucceedsOnly (for_version version) limit
        input.now output.old output.new answer.new result }
    ensures unknown { 2 < version → (p : Progress) × (r : Result Unit IntoFault)
        × RefusesVersion version p r output.old output.new
        × Tells input.now p r answer.new result }
{
    let (progress, end) = normalise_for_into(input, output, limit, version);
    *answer = answer_of(input, progress, end);
    answer.status
}

/// The answer of a run over this input.
#[inline(always)]
fn answer_of(input: &[u8], progress: Progress, end: Result<(), IntoFault>) -> RtrAnswer
    requires { progress.taken ≤ length input.now }
    ensures { Tells input.now progress end result result.status }
{
    let (status, detail, wanted) = match &end {
        Ok(()) => (ACCEPTED, 0, 0),
        Err(stop) => (
            stop_status(stop),
            stop_detail(stop),
            stop_wanted(stop, input, progress.taken),
        ),
    };
    RtrAnswer {
        units: progress.units,
        forms: progress.forms,
        taken: progress.taken,
        written: progress.written,
        wanted,
        status,
        detail,
    }
}

/// The least number of bytes needed from here on, if a run stopped because there are too few.
#[inline(always)]
fn stop_wanted(stop: &IntoFault, input: &[u8], taken: usize) -> usize
    requires { taken ≤ length input.now }
    ensures { result ≡ run_wanted (Err stop.now) (drop taken input.now) }
{
    match stop {
        IntoFault::Refused(ViewFault::Short) => wanted(&input[taken..]),
        _ => 0,
    }
}
