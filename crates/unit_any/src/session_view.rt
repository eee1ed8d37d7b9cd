//! Views of units of any type.

ghost use Rattle.std.specs.Prelude.{◌≡◌, ◌≤◌, length, take, false, Ok, Some, None, IfOk, IfErr};
ghost use Rattle.rtr_units.specs.Header.{type_field};
ghost use Rattle.rtr_units.specs.Reading.{IsWhole};
ghost use Rattle.rtr_payload.specs.FaultSteps.{first_unit};
ghost use Rattle.rtr_payload.specs.FirstFault.{is_payload_or_end};
ghost use Rattle.unit_any.specs.SessionKinds.{session_unit};
ghost use Rattle.unit_any.specs.Lengths.{SaysLength};
ghost use Rattle.unit_any.specs.SessionViews.{ShowsUnit, IsSessionFault};
ghost use Rattle.unit_any.specs.PrivateHeaders.{IsPlainType, size_beside};

use crate::length::unit_length;
use crate::report::Report;
use crate::report_view::ReportView;
use rtr_units::header::HEADER_SIZE;
use rtr_units::numbers::u32_at;
use rtr_units::queries::{CacheReset, CacheResponse, ResetQuery, SerialNotify, SerialQuery};
use rtr_units::unit::Unit;
use unit_views::fault::ViewFault;
use unit_views::unit_of;
use unit_views::view::UnitView;

/// A unit of any type that lies in a slice. Key info, providers and error reports are borrowed from
/// it; the others are copies of at most 32 bytes.
#[derive(Clone, Copy, Debug)]
pub enum SessionView<'a> {
    /// The cache has new data (RFC 8210 section 5.2).
    SerialNotify(SerialNotify),
    /// A router asks for the changes since a state (RFC 8210 section 5.3).
    SerialQuery(SerialQuery),
    /// A router asks for all data (RFC 8210 section 5.4).
    ResetQuery(ResetQuery),
    /// The cache begins to send data (RFC 8210 section 5.5).
    CacheResponse(CacheResponse),
    /// A payload unit or an end of data (RFC 8210 sections 5.6 to 5.8 and 5.10; ASPA units as in
    /// the Rust crate).
    Data(UnitView<'a>),
    /// The cache doesn't have the changes since the router's state (RFC 8210 section 5.9).
    CacheReset(CacheReset),
    /// An error report (RFC 8210 section 5.11).
    Error(ReportView<'a>),
}

/// Why no unit can be read at the front of a slice.
#[derive(Debug, Drop)]
pub struct SessionFault {
    /// What is wrong.
    pub fault: ViewFault,
    /// The size of the unit, if it is whole and its fault is `Prefix`: a caller may report it and
    /// continue after it.
    pub size: Option<usize>,
}

impl<'a> SessionView<'a> {
    // Data units are tried first, since most units are such. Each result is built again, which lets
    // the common ones stay in registers.
    /// Returns a view of the unit at the front of the input, and its length in bytes, which is that
    /// of `unit_length`. It allocates nothing.
    ///
    /// Faults, in this order: `Short` inside the header; `UnitType` for a type that no unit has;
    /// `UnitVersion` for an end of data of a version above 2; `TooLong` for a router key, an ASPA
    /// unit or an error report of more than 65535 bytes; `UnitLength`; `EmptyProviders` for an
    /// announced ASPA without providers; `Short` inside the unit; `Prefix`, with the size of that
    /// unit, if the lengths of a prefix break their rule.
    #[inline(always)]
    pub fn first(input: &'a [u8]) -> Result<(SessionView<'a>, usize), SessionFault>
        ensures view { IfOk result (λ p. ShowsUnit p.0 (take p.1 input.now)) }
        ensures within { IfOk result (λ p. p.1 ≤ length input.now) }
        ensures size { IfOk result (λ p. SaysLength input.now (Ok (Some p.1))) }
        ensures fault { IfErr result (λ e. IsSessionFault input.now e.fault e.size) }
    {
        if input.len() < HEADER_SIZE {
            return Err(plain(ViewFault::Short));
        }
        match UnitView::first(input) {
            Ok((view, size)) => Ok((SessionView::Data(view), size)),
            Err(fault) => match fault {
                ViewFault::UnitType(_) => match SessionView::first_plain(input) {
                    Ok((view, size)) => Ok((view, size)),
                    Err(fault) => Err(fault),
                },
                fault => Err(refused(fault, u32_at(input, 4) as usize)),
            },
        }
    }

    /// Returns a view of the unit at the front of the input as `first` does, if it isn't a payload
    /// unit or an end of data. It is inlined, since out of line its result would go through memory.
    #[inline(always)]
    fn first_plain(input: &'a [u8]) -> Result<(SessionView<'a>, usize), SessionFault>
        requires header { 8 ≤ length input.now }
        requires kind { is_payload_or_end (type_field input.now) ≡ false }
        ensures view { IfOk result (λ p. ShowsUnit p.0 (take p.1 input.now)) }
        ensures within { IfOk result (λ p. p.1 ≤ length input.now) }
        ensures size { IfOk result (λ p. SaysLength input.now (Ok (Some p.1))) }
        ensures fault { IfErr result (λ e. IsSessionFault input.now e.fault e.size) }
    {
        match whole(input) {
            Ok(unit) => Ok((SessionView::of(unit), unit.len())),
            Err(fault) => Err(plain(fault)),
        }
    }

    /// The view of a unit that isn't a payload unit or an end of data.
    #[inline(always)]
    fn of(unit: &'a [u8]) -> SessionView<'a>
        requires whole { IsWhole session_unit unit.now }
        requires kind { IsPlainType (type_field unit.now) }
        ensures { ShowsUnit result unit.now }
    {
        match unit[1] {
            SerialNotify::PDU => SessionView::SerialNotify(unit_of::<SerialNotify>(unit)),
            SerialQuery::PDU => SessionView::SerialQuery(unit_of::<SerialQuery>(unit)),
            ResetQuery::PDU => SessionView::ResetQuery(unit_of::<ResetQuery>(unit)),
            CacheResponse::PDU => SessionView::CacheResponse(unit_of::<CacheResponse>(unit)),
            CacheReset::PDU => SessionView::CacheReset(unit_of::<CacheReset>(unit)),
            _ => SessionView::Error(ReportView { unit }),
        }
    }
}

/// A fault of a unit that a caller can't skip.
#[inline(always)]
fn plain(fault: ViewFault) -> SessionFault
    ensures fault { result.fault ≡ fault }
    ensures size { result.size ≡ None }
{
    SessionFault { fault, size: None }
}

/// A fault of a unit of this size. Only `Prefix` keeps the size.
#[inline(always)]
fn refused(fault: ViewFault, size: usize) -> SessionFault
    ensures fault { result.fault ≡ fault }
    ensures size { result.size ≡ size_beside fault size }
{
    let size = match &fault {
        ViewFault::Prefix(_) => Some(size),
        _ => None,
    };
    SessionFault { fault, size }
}

/// The bytes of the unit at the front of the input, by its header.
#[inline(always)]
fn whole(input: &[u8]) -> Result<&[u8], ViewFault>
    requires { 8 ≤ length input.now }
    ensures unit { IfOk result (λ u. u.now ≡ first_unit input.now) }
    ensures within { IfOk result (λ u. length u.now ≤ length input.now) }
    ensures size { IfOk result (λ u. SaysLength input.now (Ok (Some (length u.now)))) }
    ensures fault { IfErr result (λ e. IsSessionFault input.now e None) }
{
    match unit_length(input) {
        Ok(Some(size)) => {
            if size > input.len() {
                return Err(ViewFault::Short);
            }
            let (unit, _) = input.split_at(size);
            Ok(unit)
        }
        Ok(None) => Err(ViewFault::Short),
        Err(fault) => Err(fault),
    }
}
