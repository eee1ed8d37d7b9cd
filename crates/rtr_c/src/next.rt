//! Units one after the other.

ghost use Rattle.std.specs.Prelude.{◌≡◌, ℕ, List, Result, length};
ghost use Rattle.rtr_units.specs.AnyEnd.{end_meaning};
ghost use Rattle.rtr_units.specs.FixedUnits.{fixed_bytes};
ghost use Rattle.rtr_units.specs.Header.{version_field};
ghost use Rattle.unit_views.specs.declared.fault.ViewFault.{ViewFault};
ghost use Rattle.unit_views.specs.declared.view.UnitView.TheVariants as views;
ghost use Rattle.unit_any.specs.AnyFields.{AnyFields};
ghost use Rattle.unit_any.specs.SessionViews.{IsSessionFault};
ghost use Rattle.rtr_c.specs.Answers.{wanted};
ghost use Rattle.rtr_c.specs.PrivateShown.{ShowsView, IsOfSize, shown, serial_at, CallRefuses};
ghost use Rattle.rtr_c.specs.ShownUnits.{ShowsFirst, ShowsReport, none, bare_shown, end_shown};

use crate::answer::{ACCEPTED, fault_detail, fault_status};
use crate::unit::RtrUnit;
use rtr_units::fixed_unit::FixedUnit;
use rtr_units::header::HEADER_SIZE;
use rtr_units::numbers::{u32_at, u128_bytes};
use rtr_wire::payload::Action;
use rtr_wire::pdu::{
    Aspa, AspaView, CacheResponse, EndOfData, Error, Ipv4Prefix, Ipv6Prefix, OriginView, RouterKey,
    RouterKeyView, SerialNotify, SerialQuery, Unit, UnitView, ViewFault,
};
use unit_any::{ReportView, SessionFault, SessionView};

/// The number of bytes of a report beside its parts: a header and two lengths.
pub(crate) const REPORT_FIXED: usize = 16;
/// The offset of the unit that a report is about.
const PART_OF_REPORT: usize = 12;

/// The unit at the front of the input, as `unit_any::SessionView::first`.
#[unsafe(no_mangle)]
pub extern "C" fn rtr_next_nonnull(input: &[u8], unit: &mut RtrUnit) -> u8
    ensures { (r : Result (List ℕ × AnyFields) ViewFault) ×
        ShowsFirst r input.now unit.new result }
{
    let unit_type = if input.len() < HEADER_SIZE {
        255
    } else {
        input[1]
    };
    // All arms make the same call, which is compiled for each type by itself: see `show_first`.
    match unit_type {
        SerialNotify::PDU => show_first::<{ SerialNotify::PDU }>(input, unit),
        SerialQuery::PDU => show_first::<{ SerialQuery::PDU }>(input, unit),
        CacheResponse::PDU => show_first::<{ CacheResponse::PDU }>(input, unit),
        Ipv4Prefix::PDU => show_first::<{ Ipv4Prefix::PDU }>(input, unit),
        Ipv6Prefix::PDU => show_first::<{ Ipv6Prefix::PDU }>(input, unit),
        EndOfData::PDU => show_first::<{ EndOfData::PDU }>(input, unit),
        RouterKey::PDU => show_first::<{ RouterKey::PDU }>(input, unit),
        Error::PDU => show_first::<{ Error::PDU }>(input, unit),
        Aspa::PDU => show_first::<{ Aspa::PDU }>(input, unit),
        _ => show_first::<255>(input, unit),
    }
}

/// Shows the unit at the front of the input, of one type or of any other: the type is a parameter
/// so that each has code of its own, in which the compiler knows the kind of the view.
#[inline(always)]
fn show_first<const TYPE: u8>(input: &[u8], unit: &mut RtrUnit) -> u8
    ensures { (r : Result (List ℕ × AnyFields) ViewFault) ×
        ShowsFirst r input.now unit.new result }
{
    match SessionView::first(input) {
        Ok((view, size)) => {
            *unit = RtrUnit::none();
            show(&view, size, unit);
            ACCEPTED
        }
        Err(refusal) => {
            *unit = RtrUnit::none();
            refuse(&refusal, input, unit)
        }
    }
}

/// Shows why a unit can't be shown.
#[inline(always)]
fn refuse(refusal: &SessionFault, input: &[u8], unit: &mut RtrUnit) -> u8
    requires { IsSessionFault input.now refusal.now.fault refusal.now.size }
    ensures { unit.old ≡ none → CallRefuses refusal.now.fault input.now unit.new result }
{
    unit.detail = fault_detail(&refusal.fault);
    unit.size = refusal.size.unwrap_or(0);
    if let ViewFault::Short = refusal.fault {
        unit.wanted = wanted(input);
    }
    fault_status(&refusal.fault)
}

/// The least number of bytes needed of a unit that is incomplete: those of a header, and then the
/// length in it.
#[inline(always)]
pub(crate) fn wanted(input: &[u8]) -> usize
    ensures { result ≡ wanted input.now }
{
    if input.len() < HEADER_SIZE {
        return HEADER_SIZE;
    }
    u32_at(input, 4) as usize
}

/// Writes a view of this size to a unit of no kind.
#[inline(always)]
fn show(view: &SessionView<'_>, size: usize, unit: &mut RtrUnit)
    requires { IsOfSize view.now size }
    ensures { unit.old ≡ none → ShowsView view.now size unit.new }
{
    match view {
        SessionView::SerialNotify(view) => show_serial(view, size, unit),
        SessionView::SerialQuery(view) => show_serial(view, size, unit),
        SessionView::ResetQuery(view) => show_bare(view, 0, size, unit),
        SessionView::CacheResponse(view) => show_bare(view, view.session(), size, unit),
        SessionView::Data(view) => show_data(view, size, unit),
        SessionView::CacheReset(view) => show_bare(view, 0, size, unit),
        SessionView::Error(view) => show_report(view, size, unit),
    }
}

/// Shows a serial notify or a serial query.
#[inline(always)]
fn show_serial<const TYPE: u8>(view: &FixedUnit<TYPE, 12>, size: usize, unit: &mut RtrUnit)
    ensures { unit.old ≡ none → unit.new ≡ serial_at TYPE size (fixed_bytes view.now) }
{
    unit.size = size;
    unit.serial = view.serial().0;
    unit.session = view.session();
    unit.kind = TYPE;
    unit.version = view.version();
}

/// Shows a unit that is only a header, with its session, or 0 if it has none.
#[inline(always)]
fn show_bare<const TYPE: u8>(
    view: &FixedUnit<TYPE, 8>,
    session: u16,
    size: usize,
    unit: &mut RtrUnit,
)
    ensures { unit.old ≡ none →
        unit.new ≡ bare_shown TYPE size (version_field (fixed_bytes view.now)) session }
{
    unit.size = size;
    unit.session = session;
    unit.kind = TYPE;
    unit.version = view.version();
}

/// Shows an error report, with its parts if its inner lengths fit.
#[inline(always)]
fn show_report(view: &ReportView<'_>, size: usize, unit: &mut RtrUnit)
    requires { length view.now.unit.now ≡ size }
    ensures { unit.old ≡ none → ShowsReport view.now.unit.now unit.new }
{
    unit.size = size;
    unit.code = view.code().0;
    unit.kind = Error::PDU;
    unit.version = view.version();
    if let Some(pdu) = view.pdu() {
        unit.part_start = PART_OF_REPORT;
        unit.part_length = pdu.len();
        unit.text_start = REPORT_FIXED + pdu.len();
        unit.text_length = size - REPORT_FIXED - pdu.len();
    }
}

/// Shows a payload unit or an end of data.
#[inline(always)]
fn show_data(view: &UnitView<'_>, size: usize, unit: &mut RtrUnit)
    ensures { unit.old ≡ none → unit.new ≡ shown view.now size }
{
    match view {
        UnitView::Origin(view) => show_origin(view, size, unit),
        UnitView::RouterKey(view) => show_key(view, size, unit),
        UnitView::Aspa(view) => show_aspa(view, size, unit),
        UnitView::End(end) => show_end(end, size, unit),
    }
}

/// Shows a prefix.
#[inline(always)]
fn show_origin(view: &OriginView, size: usize, unit: &mut RtrUnit)
    ensures { unit.old ≡ none → unit.new ≡ shown (views.Origin view.now) size }
{
    let origin = view.origin();
    let prefix = origin.prefix.prefix();
    unit.size = size;
    unit.asn = origin.asn.into_u32();
    unit.version = view.version();
    unit.action = Action::from_flags(view.flags()).into_flags();
    unit.prefix_length = prefix.len();
    unit.max_length = origin.prefix.resolved_max_len();
    if prefix.is_v4() {
        unit.kind = Ipv4Prefix::PDU;
        unit.family = 4;
        unit.address[..4].copy_from_slice(&(prefix.bits() as u32).to_be_bytes());
    } else {
        unit.kind = Ipv6Prefix::PDU;
        unit.family = 6;
        unit.address = u128_bytes(prefix.bits());
    }
}

/// Shows a router key.
#[inline(always)]
fn show_key(view: &RouterKeyView<'_>, size: usize, unit: &mut RtrUnit)
    ensures { unit.old ≡ none → unit.new ≡ shown (views.RouterKey view.now) size }
{
    unit.size = size;
    unit.part_start = RouterKey::FIXED;
    unit.part_length = view.key_info().len();
    unit.asn = view.asn().into_u32();
    unit.kind = RouterKey::PDU;
    unit.version = view.version();
    unit.action = Action::from_flags(view.flags()).into_flags();
    unit.key_identifier = view.key_identifier();
}

/// Shows an ASPA unit.
#[inline(always)]
fn show_aspa(view: &AspaView<'_>, size: usize, unit: &mut RtrUnit)
    ensures { unit.old ≡ none → unit.new ≡ shown (views.Aspa view.now) size }
{
    unit.size = size;
    unit.part_start = Aspa::FIXED;
    unit.part_length = view.providers().len();
    unit.customer = view.customer().into_u32();
    unit.kind = Aspa::PDU;
    unit.version = view.version();
    unit.action = Action::from_flags(view.flags()).into_flags();
}

/// Shows an end of data.
#[inline(always)]
fn show_end(end: &EndOfData, size: usize, unit: &mut RtrUnit)
    ensures { unit.old ≡ none → unit.new ≡ end_shown size (end_meaning end.now) }
{
    unit.size = size;
    unit.serial = end.serial().0;
    unit.session = end.session();
    unit.kind = EndOfData::PDU;
    unit.version = end.version();
    if let Some(timing) = end.timing() {
        unit.refresh = timing.refresh;
        unit.retry = timing.retry;
        unit.expire = timing.expire;
    }
}
