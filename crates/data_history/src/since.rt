//! The answer to a serial query.

ghost use Rattle.std.specs.Prelude.{◌≡◌, ◌<◌, ◌≤◌, ◌+◌, Err, ℕ, List, Some, length};
ghost use Rattle.data_history.specs.declared.since.SinceFault.TheVariants.{UnitVersion};
ghost use Rattle.data_slices.specs.Canonical.{HoldsData};
ghost use Rattle.data_history.specs.Snapshots.{AreAlike, Snapshot, HoldsHistory, snapshot_at};
ghost use Rattle.data_history.specs.Since.{IsShortForAnswer, WritesChangesSince};
ghost use Rattle.data_history.specs.PrivateJoins.{JoinedTo, LacksOutput, LacksSpare, Returns};
ghost use Rattle.data_history.specs.PrivateJoins.{grown};

use crate::join::{SHORTEST, join_into};
use crate::part::first_part;
use crate::room::Room;
use data_slices::{apply_in_order, check_data, delta_into};
use rtr_base::state::Serial;
use rtr_units::header::LAST_VERSION;
use rtr_wire::normalise_for_into;

/// The number of bytes by which an end of data is longer in versions 1 and 2 than in version 0.
const LONGER: usize = 12;

/// Why the changes for a router can't be written.
#[derive(Clone, Copy, Debug, PartialEq, Eq)]
pub enum SinceFault {
    /// The history has no data of this serial number.
    Unknown,
    /// The protocol version is above 2.
    UnitVersion,
    /// The bytes are not a history.
    Malformed,
    /// This slice is too short. `wanted` elements or bytes suffice for this history.
    NoRoom { room: Room, wanted: usize },
}

/// Writes the changes that lead a router of a version from the data of a serial number to the
/// present ones, in canonical form, with the end of the present data (RFC 8210 section 8.2), and
/// returns their length. It allocates nothing: it uses an index and two buffers as work space,
/// whose content is undefined afterwards. However many steps lead back to the data, it makes one
/// pass over the data.
///
/// An index of one element for each 12 bytes of the history, a buffer twice as long as the history,
/// a spare one as long as it, and an output 12 bytes longer than the buffer always suffice.
///
/// `UnitVersion` comes first, for a version above 2, and otherwise `Unknown`, if the history has no
/// data of the serial number, both with nothing written. Whether it has may show only once the
/// buffer is long enough: a short buffer comes before `Unknown`.
pub fn since_into(
    history: &[u8],
    serial: Serial,
    version: u8,
    index: &mut [usize],
    buffer: &mut [u8],
    spare: &mut [u8],
    output: &mut [u8],
) -> Result<usize, SinceFault>
    ensures writes { (x : Snapshot) (ys : List Snapshot) → HoldsHistory history.now x ys →
        WritesChangesSince version result (snapshot_at serial.0 x ys) x output.old output.new }
    ensures rooms { (x : Snapshot) (ys : List Snapshot) → HoldsHistory history.now x ys →
        IsShortForAnswer result (length history.now) (length index.old) (length buffer.old)
        (length spare.old) (length output.old) }
    ensures version { 2 < version →
        (result ≡ Err UnitVersion) × (output.new ≡ output.old) }
{
    if version > LAST_VERSION {
        return Err(SinceFault::UnitVersion);
    }
    let (_, present, steps) = match first_part(history) {
        Some(part) => part,
        None => return Err(SinceFault::Malformed),
    };
    let end = match check_data(present) {
        Ok(end) => end,
        Err(_) => return Err(SinceFault::Malformed),
    };
    let wanted = history.len() + history.len();
    if end.serial().0 == serial.0 {
        return tell(present, present, version, wanted, buffer, output);
    }
    let size = match join_into(steps, serial.0, buffer) {
        Ok(size) => size,
        Err(fault) => return Err(enlarged(fault, wanted)),
    };
    match return_to(present, &buffer[..size], history.len(), index, spare) {
        Ok(_) => tell(spare, present, version, wanted, buffer, output),
        Err(fault) => Err(fault),
    }
}

/// The fault of steps that couldn't be joined, with `wanted` as the length of the buffer that
/// suffices.
fn enlarged(fault: SinceFault, wanted: usize) -> SinceFault
    ensures { result ≡ grown fault wanted }
{
    match fault {
        SinceFault::NoRoom { room, wanted: _ } => SinceFault::NoRoom { room, wanted },
        SinceFault::Unknown => SinceFault::Unknown,
        SinceFault::UnitVersion => SinceFault::UnitVersion,
        SinceFault::Malformed => SinceFault::Malformed,
    }
}

/// Writes the data that result from applying the joined steps back to the present data, and returns
/// their length.
fn return_to(
    present: &[u8],
    changes: &[u8],
    wanted: usize,
    index: &mut [usize],
    spare: &mut [u8],
) -> Result<usize, SinceFault>
    ensures returns { (x y : Snapshot) → HoldsData present.now x.payloads x.end →
        JoinedTo changes.now x y → Returns result y spare.new }
    ensures rooms { (x y : Snapshot) → HoldsData present.now x.payloads x.end →
        JoinedTo changes.now x y → length present.now + length changes.now ≤ wanted →
        LacksSpare result (length changes.now) wanted (length index.old) (length spare.old) }
{
    let places = changes.len() / SHORTEST;
    if index.len() < places {
        return Err(SinceFault::NoRoom {
            room: Room::Index,
            wanted: places,
        });
    }
    match apply_in_order(present, changes, index, spare) {
        Ok(size) => Ok(size),
        Err(_) => Err(SinceFault::NoRoom {
            room: Room::Spare,
            wanted,
        }),
    }
}

/// Writes the changes from the old data to the present ones.
fn tell(
    old: &[u8],
    present: &[u8],
    version: u8,
    wanted: usize,
    buffer: &mut [u8],
    output: &mut [u8],
) -> Result<usize, SinceFault>
    requires { version ≤ 2 }
    ensures writes { (x y : Snapshot) → HoldsData old.now y.payloads y.end →
        HoldsData present.now x.payloads x.end → AreAlike x y →
        WritesChangesSince version result (Some y) x output.old output.new }
    ensures rooms { (x y : Snapshot) (b : List ℕ) → HoldsData old.now y.payloads y.end →
        HoldsData b y.payloads y.end → HoldsData present.now x.payloads x.end → AreAlike x y →
        length b + length present.now ≤ wanted →
        LacksOutput result wanted (length buffer.old) (length output.old) }
{
    let size = match delta_into(old, present, buffer) {
        Ok(size) => size,
        Err(_) => {
            return Err(SinceFault::NoRoom {
                room: Room::Buffer,
                wanted,
            });
        }
    };
    let (progress, result) = normalise_for_into(&buffer[..size], output, u64::MAX, version);
    match result {
        Ok(()) => Ok(progress.written),
        Err(_) => Err(SinceFault::NoRoom {
            room: Room::Output,
            wanted: size + LONGER,
        }),
    }
}
