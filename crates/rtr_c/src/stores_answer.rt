//! The result of a call on the stores of a cache, in numbers.

ghost use Rattle.std.specs.Prelude.{◌≡◌, Err};
ghost use Rattle.rtr_c.specs.StoresAnswers.{check_told, flaw_answer, no_room_answer};
ghost use Rattle.rtr_c.specs.StoresAnswers.{refused_answer, room_number, since_told, taking_told};
ghost use Rattle.rtr_c.specs.StoresAnswers.{checked_told, untaken_answer, wrote_answer};

use crate::data_answer::{reason_detail, reason_status};
use crate::stores::OK;
use data_history::{CheckFault, Refused, Room, SinceFault, Untaken};
use data_slices::Flaw;

/// A store is pending until it is saved.
const WAITS: u8 = 3;
/// The data aren't in canonical form.
const FLAW: u8 = 4;
/// The cache doesn't save, and the data are of another session than that of its start.
const OTHER_SESSION: u8 = 5;
/// The cache has already left the session of the data.
const SESSION_LEFT: u8 = 6;
/// The data are of another protocol version than those before.
const OTHER_VERSION: u8 = 7;
/// The data equal the served ones.
const SAME_DATA: u8 = 8;
/// Only the times differ from those of the served data.
const OTHER_TIMES: u8 = 9;
/// The serial number of the data isn't later than that of the data before.
const OLD_SERIAL: u8 = 10;
/// The bytes aren't a store, or aren't a history.
const MALFORMED: u8 = 11;
/// A buffer is too short.
const NO_ROOM: u8 = 12;
/// The history has no data of this serial number.
const UNKNOWN_SERIAL: u8 = 13;
/// The protocol version is above 2.
const UNIT_VERSION: u8 = 14;

/// The numbers of the buffers that may be too short.
const INDEX: u8 = 1;

const BUFFER: u8 = 2;

const SPARE: u8 = 3;

const OUTPUT: u8 = 4;

const FIRST: u8 = 5;

const SECOND: u8 = 6;

/// The result of a call on the stores of a cache.
#[repr(C)]
#[derive(Drop)]
pub struct RtrStoresAnswer {
    /// The length of the store or the changes that were written, or the number of serial numbers.
    pub length: usize,
    /// After RTR_STORES_FLAW, the offset of the unit at fault in the data.
    pub offset: usize,
    /// After RTR_STORES_NO_ROOM, the length that suffices for this call; of the index and of serial
    /// numbers in entries.
    pub wanted: usize,
    /// The result of the call, an rtr_stores_status.
    pub status: u8,
    /// After RTR_STORES_NO_ROOM, the buffer that is too short, an rtr_room.
    pub room: u8,
    /// After RTR_STORES_FLAW, why the unit is refused, an rtr_status.
    pub flaw: u8,
    /// After RTR_STORES_FLAW, the detail of that, as in an rtr_data_answer; after
    /// RTR_STORES_OTHER_VERSION, the version of the data.
    pub detail: u8,
}

// The fields stand one after the other, and four bytes are left at the end.
const _: () = prove!(size_of::<RtrStoresAnswer>() == 32);

impl RtrStoresAnswer {
    /// The call succeeded, and wrote this number of bytes.
    pub(crate) fn wrote(length: usize) -> Self
        ensures { result ≡ wrote_answer length }
    {
        RtrStoresAnswer {
            length,
            offset: 0,
            wanted: 0,
            status: OK,
            room: 0,
            flaw: 0,
            detail: 0,
        }
    }

    /// The call was refused.
    pub(crate) fn refused(status: u8) -> Self
        ensures { result ≡ refused_answer status }
    {
        RtrStoresAnswer {
            length: 0,
            offset: 0,
            wanted: 0,
            status,
            room: 0,
            flaw: 0,
            detail: 0,
        }
    }

    /// A buffer is too short.
    fn no_room(room: u8, wanted: usize) -> Self
        ensures { result ≡ no_room_answer room wanted }
    {
        RtrStoresAnswer {
            length: 0,
            offset: 0,
            wanted,
            status: NO_ROOM,
            room,
            flaw: 0,
            detail: 0,
        }
    }

    /// The data have this flaw.
    fn of_flaw(flaw: &Flaw) -> Self
        ensures { result ≡ flaw_answer flaw.now }
    {
        RtrStoresAnswer {
            length: 0,
            offset: flaw.offset,
            wanted: 0,
            status: FLAW,
            room: 0,
            flaw: reason_status(&flaw.reason),
            detail: reason_detail(&flaw.reason),
        }
    }

    /// The result of taking data, given whether the served store is in the second buffer.
    pub(crate) fn of_taking(taken: &Result<usize, Untaken>, second: bool) -> Self
        ensures { result ≡ taking_told second taken.now }
    {
        match taken {
            Ok(length) => RtrStoresAnswer::wrote(*length),
            Err(Untaken::Waits) => RtrStoresAnswer::refused(WAITS),
            Err(Untaken::OtherSession) => RtrStoresAnswer::refused(OTHER_SESSION),
            Err(Untaken::SessionLeft) => RtrStoresAnswer::refused(SESSION_LEFT),
            Err(Untaken::Refused(why)) => RtrStoresAnswer::of_refused(why),
            Err(Untaken::Malformed) => RtrStoresAnswer::refused(MALFORMED),
            Err(Untaken::NoRoom { wanted }) => {
                RtrStoresAnswer::no_room(if second { FIRST } else { SECOND }, *wanted)
            }
        }
    }

    /// Why data can't follow the previous ones in a history, which is written to the spare buffer.
    fn of_refused(why: &Refused) -> Self
        ensures { result ≡ untaken_answer why.now }
    {
        match why {
            Refused::Flaw(flaw) => RtrStoresAnswer::of_flaw(flaw),
            Refused::UnitVersion(version) => {
                let mut answer = RtrStoresAnswer::refused(OTHER_VERSION);
                answer.detail = *version;
                answer
            }
            Refused::Same => RtrStoresAnswer::refused(SAME_DATA),
            Refused::Times => RtrStoresAnswer::refused(OTHER_TIMES),
            Refused::Serial => RtrStoresAnswer::refused(OLD_SERIAL),
            Refused::Malformed => RtrStoresAnswer::refused(MALFORMED),
            Refused::NoRoom { room, wanted } => match room {
                Room::Index => RtrStoresAnswer::no_room(INDEX, *wanted),
                Room::Buffer => RtrStoresAnswer::no_room(BUFFER, *wanted),
                Room::Spare => RtrStoresAnswer::no_room(SPARE, *wanted),
                Room::Output => RtrStoresAnswer::no_room(SPARE, *wanted),
            },
        }
    }

    /// The result of writing changes.
    pub(crate) fn of_since(written: &Result<usize, SinceFault>) -> Self
        ensures { result ≡ since_told written.now }
    {
        match written {
            Ok(length) => RtrStoresAnswer::wrote(*length),
            Err(SinceFault::Unknown) => RtrStoresAnswer::refused(UNKNOWN_SERIAL),
            Err(SinceFault::UnitVersion) => RtrStoresAnswer::refused(UNIT_VERSION),
            Err(SinceFault::Malformed) => RtrStoresAnswer::refused(MALFORMED),
            Err(SinceFault::NoRoom { room, wanted }) => {
                RtrStoresAnswer::no_room(room_number(*room), *wanted)
            }
        }
    }

    /// The result of writing this number of bytes, or why nothing was written.
    pub(crate) fn of_written(written: &Result<usize, CheckFault>) -> Self
        ensures { result ≡ checked_told written.now }
    {
        match written {
            Ok(length) => RtrStoresAnswer::wrote(*length),
            Err(fault) => RtrStoresAnswer::of_check(fault),
        }
    }

    /// Why starting from a store failed.
    pub(crate) fn of_check(fault: &CheckFault) -> Self
        ensures { result ≡ check_told fault.now }
    {
        match fault {
            CheckFault::Malformed => RtrStoresAnswer::refused(MALFORMED),
            CheckFault::NoRoom { room, wanted } => {
                RtrStoresAnswer::no_room(room_number(*room), *wanted)
            }
        }
    }
}

/// The number of a buffer.
fn room_number(room: Room) -> u8
    ensures { result ≡ room_number room }
{
    match room {
        Room::Index => INDEX,
        Room::Buffer => BUFFER,
        Room::Spare => SPARE,
        Room::Output => OUTPUT,
    }
}
