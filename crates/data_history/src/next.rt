//! The history after newer data.

ghost use Rattle.std.specs.Prelude.{◌≡◌, ◌-◌, ◌++◌, ◌<◌, ◌≤◌, ◌^◌, ℕ, IfErr, IfOk, IfSome, List};
ghost use Rattle.std.specs.Prelude.{Some, length, take};
ghost use Rattle.std.specs.Prelude.{◌+◌, ◌*◌, Err, IsSome};
ghost use Rattle.rtr_units.specs.AnyEnd.{end_bytes, end_meaning};
ghost use Rattle.rtr_units.specs.End.{IsEnd};
ghost use Rattle.rtr_payload.specs.Payloads.{Payload};
ghost use Rattle.data_slices.specs.Canonical.{HoldsData, PlacesFront};
ghost use Rattle.data_history.specs.Snapshots.{Snapshot, HoldsHistory};
ghost use Rattle.data_history.specs.Next.{Advances, AdvancesOf, AloneOf, ChecksFirst, IsFlawIn};
ghost use Rattle.data_history.specs.Next.{IsShortForNewer, LaterOf, LongestOf, StartsOf};
ghost use Rattle.data_history.specs.PrivateRefusals.{NamesWhy};
ghost use Rattle.data_history.specs.Parts.{HasPart, part_bytes, part_form};

use crate::kept::{is_earlier, kept_front};
use crate::part::{HEAD, first_part, head, length_of};
use crate::room::{Room, wanted_of};
use data_slices::{Flaw, check_data, delta_into};
use rtr_units::end::EndOfData;
use unit_views::placing::place;

/// Limits on the steps back that a history keeps.
#[derive(Clone, Copy, Debug, PartialEq, Eq)]
pub struct Limits {
    /// How long a step is kept after it was made, in milliseconds.
    pub time: u64,
    /// The greatest number of bytes of the steps, with the 16 bytes before each.
    pub bytes: usize,
}

/// Why no history was written.
#[derive(Debug, Drop)]
pub enum Refused {
    /// The new data aren't in canonical form.
    Flaw(Flaw),
    /// The new data are of this protocol version, and the history is of another.
    UnitVersion(u8),
    /// The new data equal the present ones.
    Same,
    /// The new data equal the present ones, with the same serial number, but have other times.
    Times,
    /// The serial number of the new data isn't later than the present one.
    Serial,
    /// The old bytes are not a history.
    Malformed,
    /// This slice is too short. `wanted` elements or bytes suffice for these data.
    NoRoom { room: Room, wanted: usize },
}

/// Writes a history of only these data, and returns its length.
pub fn first_into(new: &[u8], now: u64, output: &mut [u8]) -> Result<usize, Refused>
    ensures data { StartsOf result new.now output.old output.new }
    ensures form { IfOk result (λ n. take n output.new ≡ part_form now new.now) }
    ensures flaw { ChecksFirst result new.now }
    ensures within { IfOk result (λ n. n ≤ length output.old) }
    ensures rooms { IsShortForNewer result 0 (16 + length new.now) 0 (length output.old) }
{
    match check_data(new) {
        Ok(_) => begin(new, now, output),
        Err(flaw) => Err(Refused::Flaw(flaw)),
    }
}

/// As `first_into`, for data that were checked.
pub fn begin(new: &[u8], now: u64, output: &mut [u8]) -> Result<usize, Refused>
    ensures data { StartsOf result new.now output.old output.new }
    ensures form { IfOk result (λ n. take n output.new ≡ part_form now new.now) }
    ensures flaw { IfErr result (IsFlawIn new.now) }
    ensures within { IfOk result (λ n. n ≤ length output.old) }
    ensures rooms { IsShortForNewer result 0 (16 + length new.now) 0 (length output.old) }
{
    match place(&head(now, length_of(new)), new, output) {
        Some(size) => Ok(size),
        None => Err(no_room(Room::Output, HEAD + new.len())),
    }
}

/// The refusal of a slice that is too short, with the length that suffices.
fn no_room(room: Room, wanted: usize) -> Refused
    ensures { result ≡ Refused.NoRoom room wanted }
{
    Refused::NoRoom { room, wanted }
}

/// The refusal of an output that is too short for new data, a step and the kept steps, of these
/// lengths.
fn no_output(output: &[u8], new: usize, step: usize, kept: usize) -> Refused
    ensures rooms { (buffer most have : ℕ) → length output.now < 32 + new + step + kept →
        32 + new + step + kept ≤ most →
        IsShortForNewer (Err result) buffer most have (length output.now) }
    ensures advances { (since most : ℕ) (z x : Snapshot) (ys : List Snapshot)
        (before after : List ℕ) → Advances since most (Err result) z x ys before after }
    ensures no_flaw { (b : List ℕ) → IsFlawIn b result }
{
    let wanted = wanted_of(output, HEAD + HEAD, new, step, kept);
    no_room(Room::Output, wanted)
}

/// Writes the history after newer data, and returns its length: these data, a step back to the
/// present ones, and as many of the earlier steps as the limits allow. Data of another session
/// begin a new history.
///
/// A buffer as long as the old bytes and the new together always suffices, and so does an output of
/// twice that length and 32 bytes.
pub fn next_into(
    old: &[u8],
    new: &[u8],
    now: u64,
    limits: &Limits,
    buffer: &mut [u8],
    output: &mut [u8],
) -> Result<usize, Refused>
    ensures data { AdvancesOf (now - limits.now.time) limits.now.bytes result old.now new.now
        output.old output.new }
    ensures flaw { ChecksFirst result new.now }
    ensures within { IfOk result (λ n. n ≤ length output.old) }
    ensures longest { LongestOf now (now - limits.now.time) limits.now.bytes result old.now
        new.now output.new }
    ensures alone { AloneOf now result old.now new.now output.new }
    ensures newer { LaterOf result old.now new.now }
    ensures rooms { IsShortForNewer result (length old.now + length new.now)
        (32 + 2 * (length old.now + length new.now)) (length buffer.old) (length output.old) }
{
    let end = match check_data(new) {
        Ok(end) => end,
        Err(flaw) => return Err(Refused::Flaw(flaw)),
    };
    match present_end(old) {
        Some(before) => advance(old, new, &before, &end, now, limits, buffer, output),
        None => Err(Refused::Malformed),
    }
}

/// Returns the end of the present data of a history, if they are in canonical form.
pub fn present_end(history: &[u8]) -> Option<EndOfData>
    ensures holds { IfSome result (λ before. HasPart history.now × (d : List Payload)
        × HoldsData (part_bytes history.now) d (end_meaning before)) }
    ensures end { IfSome result (λ before. IsEnd (end_bytes before) (end_meaning before)) }
    ensures finds { (x : Snapshot) (ys : List Snapshot) → HoldsHistory history.now x ys →
        IsSome result }
{
    let (_, present, _) = match first_part(history) {
        Some(part) => part,
        None => return None,
    };
    match check_data(present) {
        Ok(end) => Some(end),
        Err(_) => None,
    }
}

/// As `next_into`, for present and new data that were checked, whose ends these are.
pub fn advance(
    old: &[u8],
    new: &[u8],
    before: &EndOfData,
    end: &EndOfData,
    now: u64,
    limits: &Limits,
    buffer: &mut [u8],
    output: &mut [u8],
) -> Result<usize, Refused>
    requires present { HasPart old.now × (d : List Payload)
        × HoldsData (part_bytes old.now) d (end_meaning before.now) }
    requires before { IsEnd (end_bytes before.now) (end_meaning before.now) }
    requires new { (d : List Payload) × HoldsData new.now d (end_meaning end.now) }
    requires end { IsEnd (end_bytes end.now) (end_meaning end.now) }
    ensures data { AdvancesOf (now - limits.now.time) limits.now.bytes result old.now new.now
        output.old output.new }
    ensures flaw { IfErr result (IsFlawIn new.now) }
    ensures within { IfOk result (λ n. n ≤ length output.old) }
    ensures longest { LongestOf now (now - limits.now.time) limits.now.bytes result old.now
        new.now output.new }
    ensures alone { AloneOf now result old.now new.now output.new }
    ensures newer { LaterOf result old.now new.now }
    ensures rooms { IsShortForNewer result (length old.now + length new.now)
        (32 + 2 * (length old.now + length new.now)) (length buffer.old) (length output.old) }
{
    let (_, present, steps) = match first_part(old) {
        Some(part) => part,
        None => return Err(Refused::Malformed),
    };
    if before.session() != end.session() {
        return begin(new, now, output);
    }
    if before.version() != end.version() {
        return Err(Refused::UnitVersion(end.version()));
    }
    let size = match delta_into(new, present, buffer) {
        Ok(size) => size,
        Err(_) => return Err(no_room(Room::Buffer, old.len() + new.len())),
    };
    if !is_earlier(before.serial(), end.serial()) {
        return Err(not_later(before, end, size));
    }
    if limits.bytes < HEAD {
        return begin(new, now, output);
    }
    let most = limits.bytes - HEAD;
    if size > most {
        return begin(new, now, output);
    }
    let since = now.saturating_sub(limits.time);
    let kept = kept_front(steps, end.serial(), since, most - size);
    match place_history(new, &buffer[..size], &steps[..kept], now, output) {
        Some(size) => Ok(size),
        None => Err(no_output(output, new.len(), size, kept)),
    }
}

/// Why data are refused whose serial number isn't later, given the ends of both data and the length
/// of the delta between them.
fn not_later(before: &EndOfData, end: &EndOfData, size: usize) -> Refused
    ensures why { NamesWhy result before.now end.now size }
    ensures no_flaw { (b : List ℕ) → IsFlawIn b result }
    ensures rooms { (b o have out : ℕ) → IsShortForNewer (Err result) b o have out }
{
    if before.serial().0 != end.serial().0 {
        return Refused::Serial;
    }
    if size > before.as_ref().len() {
        return Refused::Serial;
    }
    if before.as_ref() == end.as_ref() {
        return Refused::Same;
    }
    Refused::Times
}

/// Writes the parts of a history.
fn place_history(new: &[u8], step: &[u8], kept: &[u8], now: u64, output: &mut [u8]) -> Option<usize>
    ensures bytes { IfSome result (λ n. PlacesFront (Some n)
        (part_form now new.now ++ (part_form now step.now ++ kept.now)) output.old output.new) }
    ensures new { length new.now < 2 ^ 64 }
    ensures step { length step.now < 2 ^ 64 }
    ensures enough { 32 + length new.now + length step.now + length kept.now ≤ length output.old →
        IsSome result }
{
    let _step_size = length_of(step);
    let first = place(&head(now, length_of(new)), new, output)?;
    let rest = place_steps(step, kept, now, &mut output[first..])?;
    Some(first + rest)
}

/// Writes the steps of a history.
fn place_steps(step: &[u8], kept: &[u8], now: u64, output: &mut [u8]) -> Option<usize>
    ensures bytes { IfSome result (λ n. PlacesFront (Some n)
        (part_form now step.now ++ kept.now) output.old output.new) }
    ensures within { IfSome result (λ n. n ≤ length output.old) }
    ensures enough { 16 + length step.now + length kept.now ≤ length output.old → IsSome result }
{
    let first = place(&head(now, length_of(step)), step, output)?;
    let rest = place(kept, &[], &mut output[first..])?;
    Some(first + rest)
}
