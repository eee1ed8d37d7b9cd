//! The length of a unit, by its header alone.

ghost use Rattle.rtr_units.specs.Reading.{exact_length, least_length};
ghost use Rattle.rtr_payload.specs.FirstFault.{header_fault};
ghost use Rattle.unit_any.specs.SessionKinds.{any_header_fault};
ghost use Rattle.unit_any.specs.Lengths.{SaysLength};
ghost use Rattle.unit_any.specs.PrivateHeaders.{SaysSize};

use crate::report::{MIN_SIZE, Report};
use rtr_payload::pdu::{Aspa, RouterKey};
use rtr_units::end::{EndOfData, EndOfDataV0, EndOfDataV1};
use rtr_units::header::{HEADER_SIZE, LAST_VERSION, MAX_SIZE};
use rtr_units::numbers::u32_at;
use rtr_units::prefixes::{Ipv4Prefix, Ipv6Prefix};
use rtr_units::queries::{CacheReset, CacheResponse, ResetQuery, SerialNotify, SerialQuery};
use rtr_units::unit::Unit;
use unit_views::fault::ViewFault;

/// Returns the size of the unit at the front of the bytes, by its header (RFC 8210 section 5.1), or
/// none if there are fewer than the eight bytes of a header. What follows the header isn't read,
/// and may be missing. Nothing is allocated.
///
/// The result is the size of the type if that is fixed; for a router key, an error report or an
/// ASPA unit it is at most 65535. So no impossible length is trusted.
///
/// Faults, in this order: `UnitType` for a type that no unit has; `UnitVersion` for an end of data
/// of a version above 2; `TooLong` for a router key, an ASPA unit or an error report of more than
/// 65535 bytes; `UnitLength`; `EmptyProviders` for an announced ASPA without providers.
#[inline(always)]
pub fn unit_length(bytes: &[u8]) -> Result<Option<usize>, ViewFault>
    ensures { SaysLength bytes.now result }
{
    if bytes.len() < HEADER_SIZE {
        return Ok(None);
    }
    match header_size(bytes[0], bytes[1], bytes[2], u32_at(bytes, 4)) {
        Ok(size) => Ok(Some(size as usize)),
        Err(e) => Err(e),
    }
}

/// The size in a header with this version, type, byte 2 and length field.
#[inline(always)]
fn header_size(version: u8, pdu: u8, flags: u8, size: u32) -> Result<u32, ViewFault>
    ensures { SaysSize size (any_header_fault version pdu flags size) result }
{
    match pdu {
        SerialNotify::PDU => exact(size, SerialNotify::size()),
        SerialQuery::PDU => exact(size, SerialQuery::size()),
        ResetQuery::PDU => exact(size, ResetQuery::size()),
        CacheResponse::PDU => exact(size, CacheResponse::size()),
        Ipv4Prefix::PDU => exact(size, Ipv4Prefix::size()),
        Ipv6Prefix::PDU => exact(size, Ipv6Prefix::size()),
        EndOfData::PDU => end_size(version, size),
        CacheReset::PDU => exact(size, CacheReset::size()),
        RouterKey::PDU => at_least(size, RouterKey::FIXED as u32),
        Report::PDU => at_least(size, MIN_SIZE),
        Aspa::PDU => aspa_size(flags, size),
        pdu => Err(ViewFault::UnitType(pdu)),
    }
}

/// The size in a header, which must be this.
#[inline(always)]
fn exact(size: u32, want: u32) -> Result<u32, ViewFault>
    ensures { SaysSize size (exact_length want size) result }
{
    if size == want {
        Ok(size)
    } else {
        Err(ViewFault::UnitLength)
    }
}

/// The size in a header, which must be at least this, and at most 65535.
#[inline(always)]
fn at_least(size: u32, least: u32) -> Result<u32, ViewFault>
    ensures { SaysSize size (least_length least size) result }
{
    if size > MAX_SIZE {
        return Err(ViewFault::TooLong);
    }
    if size < least {
        return Err(ViewFault::UnitLength);
    }
    Ok(size)
}

/// The size in the header of an end of data of this version.
#[inline(always)]
fn end_size(version: u8, size: u32) -> Result<u32, ViewFault>
    ensures { SaysSize size (header_fault version 7 0 size) result }
{
    if version > LAST_VERSION {
        return Err(ViewFault::UnitVersion(version));
    }
    if version == 0 {
        exact(size, EndOfDataV0::size())
    } else {
        exact(size, EndOfDataV1::size())
    }
}

/// The size in the header of an ASPA unit with these flags.
///
/// `Aspa` and `AspaView` have the same tests over their own faults, inlined into their code: a call
/// whose fault they had to convert would cost instructions at each unit. All three are proved to
/// agree with `header_fault`.
#[inline(always)]
fn aspa_size(flags: u8, size: u32) -> Result<u32, ViewFault>
    ensures { SaysSize size (header_fault 0 11 flags size) result }
{
    if size > MAX_SIZE {
        return Err(ViewFault::TooLong);
    }
    if size < Aspa::FIXED as u32 || size % 4 != 0 {
        return Err(ViewFault::UnitLength);
    }
    if size == Aspa::FIXED as u32 && flags % 2 == 1 {
        return Err(ViewFault::EmptyProviders);
    }
    Ok(size)
}
