//! Applying the effect of each unit of a recording.

ghost use Rattle.std.specs.Prelude.{◌≡◌, ◌≤◌, ◌+◌, ℕ, Err, Some, drop, length, min, take};
ghost use Rattle.data_loading.specs.Loading.{RefusesLoad};
ghost use Rattle.data_loading.specs.PrivateLoading.{IsRightReason, Sees, Settles};
ghost use Rattle.data_loading.specs.PrivateLoading.{StandsAt, TookUnit};
ghost use Rattle.data_loading.specs.declared.seen.Seen.TheVariants as seens;

use crate::closing::{close, settle};
use crate::fault::{LoadFault, LoadReason};
use crate::held::Held;
use crate::seen::Seen;
use data_recordings::Refusal;
use data_slices::{is_of, put_offset};

/// Takes the unit of this size at the offset.
pub(crate) fn take_unit(
    held: &mut Held,
    seen: &Seen,
    size: usize,
    at: usize,
    input: &[u8],
    index: &mut [usize],
    work: &mut [u8],
    output: &mut [u8],
) -> Result<(), LoadFault>
    requires stands { StandsAt held.old at input.now index.old output.old }
    requires unit { Sees seen.now (take size (drop at input.now)) }
    requires within { at + size ≤ length input.now }
    ensures takes { TookUnit result held.new (at + size) input.now index.new output.new
        (min (length work.old) (length output.old)) }
    ensures index { length index.new ≡ length index.old }
    ensures work { length work.new ≡ length work.old }
    ensures output { length output.new ≡ length output.old }
{
    match seen {
        Seen::Payload(version) => gather(held, *version, size, at, input, index, output),
        Seen::End(end) => close(held, end, size, at, input, index, work, output),
        Seen::Response(session) => respond(held, *session, size, at, input, index, output),
        Seen::Reset => reset(held, size, at, input, index, output),
        Seen::Report => report(held, size, at, input, index, output),
        Seen::AsksAll => {
            held.asks_all = Some(true);
            Ok(())
        }
        Seen::AsksChanges => {
            held.asks_all = Some(false);
            Ok(())
        }
        Seen::Notifies => Ok(()),
    }
}

/// The fault of the bytes at the offset, unless the open answer has an earlier one.
pub(crate) fn refuse(
    held: &Held,
    at: usize,
    reason: LoadReason,
    input: &[u8],
    index: &mut [usize],
    output: &[u8],
) -> LoadFault
    requires stands { StandsAt held.now at input.now index.old output.now }
    requires right { IsRightReason reason held.now input.now at }
    ensures refuses { (room : ℕ) → RefusesLoad result input.now (length index.old) room }
    ensures index { length index.new ≡ length index.old }
{
    match settle(held, input, index, output) {
        Some(fault) => fault,
        None => LoadFault::Refused { offset: at, reason },
    }
}

/// Takes a payload unit of this version.
fn gather(
    held: &mut Held,
    version: u8,
    size: usize,
    at: usize,
    input: &[u8],
    index: &mut [usize],
    output: &[u8],
) -> Result<(), LoadFault>
    requires stands { StandsAt held.old at input.now index.old output.now }
    requires unit { Sees (seens.Payload version) (take size (drop at input.now)) }
    requires within { at + size ≤ length input.now }
    ensures takes { (room : ℕ) →
        TookUnit result held.new (at + size) input.now index.new output.now room }
    ensures index { length index.new ≡ length index.old }
{
    let mut answer = held.current();
    if !is_of(answer.version, version) {
        let reason = LoadReason::UnitVersion(version);
        return Err(refuse(held, at, reason, input, index, output));
    }
    put_offset(index, answer.count, at);
    answer.count += 1;
    answer.version = Some(version);
    held.asks_all = held.asked_since();
    held.pending = Some(answer);
    Ok(())
}

/// Takes a cache response of this session.
fn respond(
    held: &mut Held,
    session: u16,
    size: usize,
    at: usize,
    input: &[u8],
    index: &mut [usize],
    output: &[u8],
) -> Result<(), LoadFault>
    requires stands { StandsAt held.old at input.now index.old output.now }
    requires unit { Sees (seens.Response session) (take size (drop at input.now)) }
    requires within { at + size ≤ length input.now }
    ensures takes { (room : ℕ) →
        TookUnit result held.new (at + size) input.now index.new output.now room }
    ensures index { length index.new ≡ length index.old }
{
    match settle(held, input, index, output) {
        Some(fault) => Err(fault),
        None => {
            held.respond(session);
            Ok(())
        }
    }
}

/// Takes a cache reset, which is not allowed inside an answer.
fn reset(
    held: &mut Held,
    size: usize,
    at: usize,
    input: &[u8],
    index: &mut [usize],
    output: &[u8],
) -> Result<(), LoadFault>
    requires stands { StandsAt held.old at input.now index.old output.now }
    requires unit { Sees seens.Reset (take size (drop at input.now)) }
    requires within { at + size ≤ length input.now }
    ensures takes { (room : ℕ) →
        TookUnit result held.new (at + size) input.now index.new output.now room }
    ensures index { length index.new ≡ length index.old }
{
    match held.pending {
        Some(_) => {
            let reason = LoadReason::Refused(Refusal::CacheReset);
            Err(refuse(held, at, reason, input, index, output))
        }
        None => {
            held.asks_all = Some(true);
            Ok(())
        }
    }
}

/// Takes an error report, which is not allowed inside an answer.
fn report(
    held: &mut Held,
    size: usize,
    at: usize,
    input: &[u8],
    index: &mut [usize],
    output: &[u8],
) -> Result<(), LoadFault>
    requires stands { StandsAt held.old at input.now index.old output.now }
    requires unit { Sees seens.Report (take size (drop at input.now)) }
    requires within { at + size ≤ length input.now }
    ensures takes { (room : ℕ) →
        TookUnit result held.new (at + size) input.now index.new output.now room }
    ensures index { length index.new ≡ length index.old }
{
    match held.pending {
        Some(_) => {
            let reason = LoadReason::Refused(Refusal::ErrorReport);
            Err(refuse(held, at, reason, input, index, output))
        }
        None => Ok(()),
    }
}
