//! A session's units, read and written one after the other.

ghost use Rattle.std.specs.Prelude.{◌≡◌, ◌∷◌, [], IfOk, IfErr};
ghost use Rattle.rtr_units.specs.AnyEnd.{end_bytes, end_meaning};
ghost use Rattle.rtr_units.specs.End.{end_list, IsEnd};
ghost use Rattle.rtr_units.specs.StopCauses.{by_cause, cause_of, reader_count, writer_count};
ghost use Rattle.rtr_units.specs.Stream.{PutsForm};
ghost use Rattle.rtr_payload.specs.Meanings.{payload_of};
ghost use Rattle.rtr_payload.specs.Payloads.{smallest_version as smallest};
ghost use Rattle.rtr_payload.specs.UnitBytes.{HasNoPayload, unit_fields};
ghost use Rattle.rtr_payload.specs.UnitFields.{LengthsAgree, meaning};
ghost use Rattle.unit_any.specs.AnyFields.{HasAnyFields};
ghost use Rattle.unit_any.specs.AnyUnits.{any_bytes, any_fields};
ghost use Rattle.rtr_wire.specs.Sequences.{forms, written_units};
ghost use Rattle.rtr_clean.specs.CleanForms.{KeepsRule, clean_form, ends_answer as ends};
ghost use Rattle.rtr_clean.specs.Cleaning.{Cleans};
ghost use Rattle.rtr_clean.specs.PrivateClean.{HasNoForm, PassesUnit, bytes_to_write};
ghost use Rattle.rtr_clean.specs.PrivateClean.{form_held};

use crate::flushing::{Flushed, flush};
use crate::wanted::WantedForm;
use rtr_payload::payload;
use rtr_payload::pdu::{Aspa, Payload, PayloadUnit, RouterKey};
use rtr_units::end::EndOfData;
use rtr_units::fault::Fault;
use rtr_units::prefixes::Ipv4Prefix;
use rtr_units::queries::{CacheReset, ResetQuery};
use rtr_units::source::{Sink, Source};
use rtr_units::unit::Unit;
use std::alloc::Global;
use unit_any::AnyUnit;

/// Reads units up to the end of the input, and writes the requested form of each before it reads
/// the next. It allocates one unit at a time.
///
/// The output is flushed after each unit that ends an answer: all units except a cache response and
/// payload units, which an end of data follows. So a unit that a peer waits for is never held back.
/// The clause states about flushes only that they add no byte, and when one of them failed: that
/// they are made is tested.
///
/// The sizes of units that were passed on are added to the offset, which saturates at 2^64 - 1.
///
/// Faults are those of `AnyUnit::read` and `pdu::Payload::into_payload`, with nothing written of
/// the unit, `Writer`, and `TooMany` after 2^64 - 1 units.
pub fn clean<R: Source, W: Sink>(
    alloc: Global,
    wanted: WantedForm,
    offset: &mut u64,
    input: &mut R,
    output: &mut W,
) -> Result<(), Fault>
    ensures { Cleans (form_held wanted) result
        (R.state input.old) (R.state input.new) (W.state output.old) (W.state output.new) }
{
    for count in 0..u64::MAX {
        match pass(alloc, wanted, offset, input, output) {
            Ok(Some(_)) => {}
            Ok(None) => return Ok(()),
            Err(fault) => return Err(fault),
        }
    }
    Err(Fault::TooMany)
}

/// A unit that was passed on.
#[derive(Drop)]
pub enum PassedUnit {
    /// A unit that is followed by more of the same answer.
    Part,
    /// A unit that ends an answer. The output was flushed after it.
    Answer(Flushed),
}

/// Reads a unit and writes the requested form of it, and adds its size to the offset. Returns none
/// at the end of the input.
fn pass<R: Source, W: Sink>(
    alloc: Global,
    wanted: WantedForm,
    offset: &mut u64,
    input: &mut R,
    output: &mut W,
) -> Result<Option<PassedUnit>, Fault>
    ensures bytes { PassesUnit (form_held wanted) result
        (R.state input.old).left (R.state input.new).left
        (W.state output.old).held (W.state output.new).held }
    ensures reads { (R.state input.new).failed ≡
        reader_count (by_cause result) (R.state input.old).failed }
    ensures writes { (W.state output.new).failed ≡
        writer_count (by_cause result) (W.state output.old).failed }
{
    let unit = match AnyUnit::read(alloc, input) {
        Ok(Some(unit)) => unit,
        Ok(None) => return Ok(None),
        Err(fault) => return Err(fault),
    };
    let is_last = ends_answer(&unit);
    let size = unit.size();
    let clean = match form(alloc, wanted, unit) {
        Ok(clean) => clean,
        Err(fault) => return Err(fault),
    };
    match write(clean, output) {
        Ok(()) => {}
        Err(fault) => return Err(fault),
    }
    *offset = offset.saturating_add(u64::from(size));
    if !is_last {
        return Ok(Some(PassedUnit::Part));
    }
    match flush(output) {
        Ok(flushed) => Ok(Some(PassedUnit::Answer(flushed))),
        Err(fault) => Err(fault),
    }
}

/// Writes the unit, if there is one.
fn write<W: Sink>(unit: Option<AnyUnit>, output: &mut W) -> Result<(), Fault>
    ensures { PutsForm result (W.state output.old) (W.state output.new) (bytes_to_write unit) }
{
    match unit {
        Some(unit) => unit.write(output),
        None => Ok(()),
    }
}

/// Whether the unit ends an answer.
fn ends_answer(unit: &AnyUnit) -> bool
    ensures { result ≡ ends (any_fields unit.now) }
{
    match unit {
        AnyUnit::CacheResponse(_) | AnyUnit::Payload(_) => false,
        AnyUnit::SerialNotify(_)
        | AnyUnit::SerialQuery(_)
        | AnyUnit::ResetQuery(_)
        | AnyUnit::EndOfData(_)
        | AnyUnit::CacheReset(_)
        | AnyUnit::Error(_) => true,
    }
}

/// The unit to write for this unit, or none.
fn form(alloc: Global, wanted: WantedForm, unit: AnyUnit) -> Result<Option<AnyUnit>, Fault>
    requires { HasAnyFields (any_bytes unit) (any_fields unit) }
    ensures written { IfOk result (λ o. KeepsRule (any_fields unit) ×
        (bytes_to_write o ≡ clean_form (form_held wanted) (any_fields unit))) }
    ensures fault { IfErr result (λ e. HasNoForm unit (cause_of e)) }
{
    match unit {
        AnyUnit::Payload(unit) => payload_form(alloc, wanted, unit),
        AnyUnit::EndOfData(unit) => Ok(Some(AnyUnit::EndOfData(end_form(wanted, unit)))),
        AnyUnit::ResetQuery(unit) => {
            Ok(Some(AnyUnit::ResetQuery(ResetQuery::new(unit.version()))))
        }
        AnyUnit::CacheReset(unit) => {
            Ok(Some(AnyUnit::CacheReset(CacheReset::new(unit.version()))))
        }
        AnyUnit::SerialNotify(unit) => Ok(Some(AnyUnit::SerialNotify(unit))),
        AnyUnit::SerialQuery(unit) => Ok(Some(AnyUnit::SerialQuery(unit))),
        AnyUnit::CacheResponse(unit) => Ok(Some(AnyUnit::CacheResponse(unit))),
        AnyUnit::Error(report) => Ok(Some(AnyUnit::Error(report))),
    }
}

/// The end of data to write for this one.
fn end_form(wanted: WantedForm, end: EndOfData) -> EndOfData
    requires { IsEnd (end_bytes end) (end_meaning end) }
    ensures { end_bytes result ≡ end_list ((form_held wanted).end (end_meaning end)) }
{
    match wanted {
        WantedForm::Everything => end,
        WantedForm::Version(version) => {
            EndOfData::new(version, end.state(), end.timing().unwrap_or_default())
        }
    }
}

/// The payload unit to write for this one, or none if the requested version doesn't have its
/// payload.
fn payload_form(alloc: Global, wanted: WantedForm, unit: Payload) -> Result<Option<AnyUnit>, Fault>
    ensures written { IfOk result (λ o. LengthsAgree (unit_fields unit) × (bytes_to_write o ≡
        forms (written_units (form_held wanted) (meaning (unit_fields unit) ∷ [])))) }
    ensures fault { IfErr result (λ e. HasNoPayload unit (cause_of e)) }
{
    let came_in = unit.version();
    let (action, payload) = match unit.into_payload(alloc) {
        Ok(meaning) => meaning,
        Err(fault) => return Err(fault),
    };
    let version = match wanted {
        WantedForm::Everything => came_in,
        WantedForm::Version(version) => {
            if version < smallest_version(&payload) {
                return Ok(None);
            }
            version
        }
    };
    let unit = Payload::from_payload(version, action.into_flags(), payload);
    Ok(Some(AnyUnit::Payload(unit)))
}

/// The smallest version of the protocol that has the payload, by the constants of its kind of unit.
/// `rtr_payload` computes this for a borrowed payload, and `rtr_wire` for a view: each has a type
/// of its own, which one `match` has to take apart.
fn smallest_version(payload: &payload::Payload) -> u8
    ensures { result ≡ smallest (payload_of payload.now) }
{
    match payload {
        payload::Payload::Origin(_) => Ipv4Prefix::SMALLEST_VERSION,
        payload::Payload::RouterKey(_) => RouterKey::SMALLEST_VERSION,
        payload::Payload::Aspa(_) => Aspa::SMALLEST_VERSION,
    }
}
