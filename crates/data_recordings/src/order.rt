//! The sessions and serial numbers in which answers may follow each other.

ghost use Rattle.std.specs.Prelude.{◌≡◌};
ghost use Rattle.rtr_units.specs.AnyEnd.{end_meaning};
ghost use Rattle.data_recordings.specs.Recordings.{is_before, is_other, refused_in, refused_since};

use crate::stop::Refusal;
use rtr_base::state::Serial;
use rtr_units::end::EndOfData;
use std::cmp::Ordering;

/// Why an end of data can't close an answer that began with this session, if it has one, and that
/// changes data of this serial number, if it changes any.
pub fn refused_in(session: Option<u16>, since: Option<u32>, end: &EndOfData) -> Option<Refusal>
    ensures { result ≡ refused_in session since (end_meaning end.now) }
{
    let ended = end.session();
    match session {
        Some(begun) if begun != ended => Some(Refusal::Session(ended, begun)),
        _ => refused_since(since, end.serial().0),
    }
}

/// Why changes of data with one serial number can't end with another.
fn refused_since(since: Option<u32>, serial: u32) -> Option<Refusal>
    ensures { result ≡ refused_since since serial }
{
    match since {
        Some(last) if is_before(serial, last) => Some(Refusal::Serial(serial, last)),
        _ => None,
    }
}

/// Whether a session differs from the one before it.
pub fn is_other(last: Option<u16>, session: Option<u16>) -> bool
    ensures { result ≡ is_other last session }
{
    match (last, session) {
        (Some(last), Some(session)) => last != session,
        _ => false,
    }
}

/// Whether a serial number comes before another (RFC 1982).
fn is_before(serial: u32, last: u32) -> bool
    ensures { result ≡ is_before serial last }
{
    match Serial(serial).partial_cmp(&Serial(last)) {
        Some(Ordering::Less) => true,
        _ => false,
    }
}
