//! Units written from their fields.

ghost use Rattle.std.specs.Prelude.{◌≡◌, ◌∷◌, ◌++◌, Ok, IfSome};
ghost use Rattle.std.specs.Option.{option_copied};
ghost use Rattle.rtr_base.specs.Addresses.{ip_version};
ghost use Rattle.rtr_base.specs.Bytes.{be, IsBytes};
ghost use Rattle.rtr_c.specs.WrittenUnits.{Writes, TellsWritten, said, part_said};
ghost use Rattle.rtr_c.specs.WrittenUnits.{prefix_said, key_said, aspa_said, end_said};
ghost use Rattle.rtr_c.specs.WrittenUnits.{plain_said, report_said, session_said, text_said};
ghost use Rattle.rtr_c.specs.WrittenUnits.{piece_said};
ghost use Rattle.unit_any.specs.HeldReports.{held_report};

use crate::answer::{
    ACCEPTED, EMPTY_PROVIDERS, NO_FORM, NO_ROOM, PREFIX, TOO_LONG, UNIT_LENGTH, UNIT_TYPE,
    UNIT_VERSION,
};
use crate::next::REPORT_FIXED;
use crate::unit::RtrUnit;
use rtr_payload::pdu::{PrefixUnit, flagged_header};
use rtr_units::header::{LAST_VERSION, MAX_SIZE};
use rtr_wire::base::Asn;
use rtr_wire::payload::{RouteOrigin, Timing};
use rtr_wire::pdu::{
    Aspa, CacheReset, CacheResponse, EndOfData, Error, ErrorCode, Ipv4Prefix, Ipv6Prefix,
    ProviderAsns, ResetQuery, RouterKey, SerialNotify, SerialQuery, Unit,
};
use rtr_wire::state::{Serial, State};
use unit_any::placing::place_report;
use unit_views::placing::place;

/// The greatest number of bytes of key info in a router key that is read.
const MAX_KEY_INFO: usize = MAX_SIZE as usize - RouterKey::FIXED;
/// The greatest number of bytes of an error report beside its fixed fields: those of its unit and
/// its text.
const MAX_REPORTED: usize = MAX_SIZE as usize - REPORT_FIXED;
/// The greatest number of bytes of providers in an ASPA unit.
const MAX_PROVIDERS: usize = 4 * ProviderAsns::MAX_COUNT;

/// Writes the form of the unit to the front of the output. Key info, providers, and the unit and
/// the text of an error report are in the input, at the offsets in the unit.
///
/// Statuses, in this order, with nothing written:
/// - `UNIT_TYPE` for an unknown kind of unit;
/// - `NO_FORM` for an action above 1, or above 0 for a unit without a payload, a family that isn't
///   that of the kind, or key info, providers, or the unit or the text of a report outside the
///   input;
/// - `PREFIX`;
/// - `TOO_LONG` for more than 65503 bytes of key info, 65519 of unit and text of a report or,
///   announced, 65520 of providers;
/// - `UNIT_LENGTH` for announced providers that aren't four bytes each;
/// - `EMPTY_PROVIDERS` for an announcement without providers;
/// - `UNIT_VERSION` for an end of data of a version above 2;
/// - `NO_ROOM`.
#[unsafe(no_mangle)]
pub extern "C" fn rtr_write_unit_nonnull(
    unit: &RtrUnit,
    input: &[u8],
    output: &mut [u8],
    written: &mut usize,
) -> u8
    ensures { TellsWritten (said unit.now input.now) output.old output.new written.new result }
{
    let end = match unit.kind {
        Ipv4Prefix::PDU => write_prefix::<Ipv4Prefix>(unit, 4, output),
        Ipv6Prefix::PDU => write_prefix::<Ipv6Prefix>(unit, 6, output),
        EndOfData::PDU => write_end(unit, output),
        RouterKey::PDU => write_key(unit, input, output),
        Aspa::PDU => write_aspa(unit, input, output),
        _ => write_session(unit, input, output),
    };
    match end {
        Ok(size) => {
            *written = size;
            ACCEPTED
        }
        Err(status) => {
            *written = 0;
            status
        }
    }
}

/// Writes the form of a unit that isn't a payload unit or an end of data, and returns its length.
#[tactic(auto, unfolding(crate::specs::WrittenUnits::session_said))]
fn write_session(unit: &RtrUnit, input: &[u8], output: &mut [u8]) -> Result<usize, u8>
    ensures { Writes (session_said unit.now input.now) result output.old output.new }
{
    let (version, state) = (unit.version, state_of(unit));
    match unit.kind {
        SerialNotify::PDU => write_plain(unit, &SerialNotify::new(version, state), output),
        SerialQuery::PDU => write_plain(unit, &SerialQuery::new(version, state), output),
        ResetQuery::PDU => write_plain(unit, &ResetQuery::new(version), output),
        CacheResponse::PDU => write_plain(unit, &CacheResponse::new(version, state), output),
        CacheReset::PDU => write_plain(unit, &CacheReset::new(version), output),
        Error::PDU => write_report(unit, input, output),
        _ => Err(UNIT_TYPE),
    }
}

/// Writes the form of a unit that has no payload, and returns its length.
fn write_plain<U: Unit>(unit: &RtrUnit, form: &U, output: &mut [u8]) -> Result<usize, u8>
    ensures { Writes (plain_said unit.now (U.bytes form.now)) result output.old output.new }
{
    if unit.action > 0 {
        return Err(NO_FORM);
    }
    placed(form.as_ref(), &[], output)
}

/// The session and the serial number.
fn state_of(unit: &RtrUnit) -> State
    ensures { result ≡ record { session = unit.now.session; serial = unit.now.serial } }
{
    State::from_parts(unit.session, Serial(unit.serial))
}

/// Writes an error report, and returns its length.
fn write_report(unit: &RtrUnit, input: &[u8], output: &mut [u8]) -> Result<usize, u8>
    ensures { Writes (report_said unit.now (part_said unit.now input.now)
        (text_said unit.now input.now)) result output.old output.new }
{
    let Some(pdu) = part_of(unit, input) else {
        return Err(NO_FORM);
    };
    let Some(text) = piece_of(unit.text_start, unit.text_length, input) else {
        return Err(NO_FORM);
    };
    if unit.action > 0 {
        return Err(NO_FORM);
    }
    if pdu.len() + text.len() > MAX_REPORTED {
        return Err(TOO_LONG);
    }
    placed_report(unit, pdu, text, output)
}

/// Writes an error report with these parts, or nothing if there is no room for it.
fn placed_report(unit: &RtrUnit, pdu: &[u8], text: &[u8], output: &mut [u8]) -> Result<usize, u8>
    ensures { Writes (Ok (held_report unit.now.version unit.now.code pdu.now text.now)) result
        output.old output.new }
{
    match place_report(unit.version, ErrorCode(unit.code), pdu, text, output) {
        Some(size) => Ok(size),
        None => Err(NO_ROOM),
    }
}

/// Writes the form of a prefix of the family of this number, and returns its length.
fn write_prefix<U: PrefixUnit>(unit: &RtrUnit, family: u8, output: &mut [u8]) -> Result<usize, u8>
    requires { family ≡ ip_version U.family }
    ensures { Writes (prefix_said U.family unit.now) result output.old output.new }
{
    if unit.action > 1 || unit.family != family {
        return Err(NO_FORM);
    }
    let Ok(prefix) = U::prefix_of(&unit.address, unit.prefix_length, unit.max_length) else {
        return Err(PREFIX);
    };
    let origin = RouteOrigin::new(prefix, Asn::from_u32(unit.asn));
    let form = U::from_origin(unit.version, unit.action, origin);
    placed(form.as_ref(), &[], output)
}

/// Writes an end of data, and returns its length.
fn write_end(unit: &RtrUnit, output: &mut [u8]) -> Result<usize, u8>
    ensures { Writes (end_said unit.now) result output.old output.new }
{
    if unit.action > 0 {
        return Err(NO_FORM);
    }
    if unit.version > LAST_VERSION {
        return Err(UNIT_VERSION);
    }
    let timing = Timing {
        refresh: unit.refresh,
        retry: unit.retry,
        expire: unit.expire,
    };
    let end = EndOfData::new(unit.version, state_of(unit), timing);
    placed(end.as_ref(), &[], output)
}

/// Writes the form of a router key, and returns its length.
fn write_key(unit: &RtrUnit, input: &[u8], output: &mut [u8]) -> Result<usize, u8>
    ensures { Writes (key_said unit.now (part_said unit.now input.now)) result
        output.old output.new }
{
    let Some(info) = part_of(unit, input) else {
        return Err(NO_FORM);
    };
    if unit.action > 1 {
        return Err(NO_FORM);
    }
    if info.len() > MAX_KEY_INFO {
        return Err(TOO_LONG);
    }
    placed(
        &key_front(unit, (RouterKey::FIXED + info.len()) as u32),
        info,
        output,
    )
}

/// The bytes before the key info in the form of a router key of this size.
fn key_front(unit: &RtrUnit, size: u32) -> [u8; RouterKey::FIXED]
    ensures { result ≡ (unit.now.version ∷ 9 ∷ unit.now.action ∷ 0 ∷ be size 4)
        ++ (unit.now.key_identifier ++ be unit.now.asn 4) }
{
    let mut front = [0; RouterKey::FIXED];
    let header = flagged_header(unit.version, RouterKey::PDU, unit.action, size);
    front[..8].copy_from_slice(&header);
    front[8..28].copy_from_slice(&unit.key_identifier);
    front[28..].copy_from_slice(&unit.asn.to_be_bytes());
    front
}

/// Writes the form of an ASPA unit, and returns its length.
fn write_aspa(unit: &RtrUnit, input: &[u8], output: &mut [u8]) -> Result<usize, u8>
    ensures { Writes (aspa_said unit.now (part_said unit.now input.now)) result
        output.old output.new }
{
    let Some(providers) = part_of(unit, input) else {
        return Err(NO_FORM);
    };
    if unit.action > 1 {
        return Err(NO_FORM);
    }
    if unit.action == 0 {
        return placed(&aspa_front(unit, Aspa::FIXED as u32), &[], output);
    }
    if providers.len() > MAX_PROVIDERS {
        return Err(TOO_LONG);
    }
    if providers.len() % 4 != 0 {
        return Err(UNIT_LENGTH);
    }
    if providers.is_empty() {
        return Err(EMPTY_PROVIDERS);
    }
    placed(
        &aspa_front(unit, (Aspa::FIXED + providers.len()) as u32),
        providers,
        output,
    )
}

/// The bytes before the providers in the form of an ASPA unit of this size.
fn aspa_front(unit: &RtrUnit, size: u32) -> [u8; Aspa::FIXED]
    ensures { result ≡ unit.now.version ∷ 11 ∷ unit.now.action ∷ 0 ∷ be size 4
        ++ be unit.now.customer 4 }
{
    let mut front = [0; Aspa::FIXED];
    let header = flagged_header(unit.version, Aspa::PDU, unit.action, size);
    front[..8].copy_from_slice(&header);
    front[8..].copy_from_slice(&unit.customer.to_be_bytes());
    front
}

/// The key info, the providers or the unit that a report is about, if they are in the input.
#[inline(always)]
pub(crate) fn part_of<'a>(unit: &RtrUnit, input: &'a [u8]) -> Option<&'a [u8]>
    ensures part { option_copied result ≡ part_said unit.now input.now }
    ensures bytes { IfSome result (λ part. IsBytes part.now) }
{
    piece_of(unit.part_start, unit.part_length, input)
}

/// This number of bytes of the input from this offset on, if they are in it.
#[inline(always)]
fn piece_of(start: usize, size: usize, input: &[u8]) -> Option<&[u8]>
    ensures piece { option_copied result ≡ piece_said start size input.now }
    ensures bytes { IfSome result (λ piece. IsBytes piece.now) }
{
    if start > input.len() || size > input.len() - start {
        return None;
    }
    Some(&input[start..start + size])
}

/// Writes the two pieces, or nothing if they don't both fit.
#[inline(always)]
fn placed(front: &[u8], back: &[u8], output: &mut [u8]) -> Result<usize, u8>
    ensures { Writes (Ok (front.now ++ back.now)) result output.old output.new }
{
    match place(front, back, output) {
        Some(size) => Ok(size),
        None => Err(NO_ROOM),
    }
}
