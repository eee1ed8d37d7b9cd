//! Views of the unit at the front of a slice.

ghost use Rattle.std.specs.Prelude.{◌≤◌, length, take, IfOk, IfErr};
ghost use Rattle.unit_views.specs.Faults.{IsFirstFault, WritesPiece};
ghost use Rattle.unit_views.specs.Views.{IsViewOf, view_form};

use crate::aspa::AspaView;
use crate::end::first_end;
use crate::fault::ViewFault;
use crate::form::put_end;
use crate::origin::OriginView;
use crate::router_key::RouterKeyView;
use rtr_payload::pdu::{Aspa, RouterKey};
use rtr_units::end::EndOfData;
use rtr_units::prefixes::{Ipv4Prefix, Ipv6Prefix};
use rtr_units::source::Sink;
use rtr_units::unit::Unit;

/// A payload unit or an end of data that lies in a slice. Key info and providers are borrowed from
/// it.
#[derive(Clone, Copy, Debug)]
pub enum UnitView<'a> {
    /// An IPv4 or IPv6 prefix (RFC 8210 sections 5.6 and 5.7).
    Origin(OriginView),
    /// A router key (RFC 8210 section 5.10).
    RouterKey(RouterKeyView<'a>),
    /// An ASPA unit (as in the Rust crate).
    Aspa(AspaView<'a>),
    /// An end of data (RFC 6810 and RFC 8210 section 5.8).
    End(EndOfData),
}

impl<'a> UnitView<'a> {
    /// Returns a view of the payload unit or the end of data at the front of the input, and its
    /// length in bytes. It allocates nothing.
    ///
    /// Faults, in this order: `Short` inside the header; `UnitType`; `UnitVersion` for an end of
    /// data of a version above 2; `TooLong` for a key or an ASPA unit of more than 65535 bytes;
    /// `UnitLength`; `EmptyProviders` for an announced ASPA without providers; `Short` inside the
    /// unit; `Prefix` if the lengths of a prefix break their rule.
    #[inline(always)]
    pub fn first(input: &'a [u8]) -> Result<(UnitView<'a>, usize), ViewFault>
        ensures view { IfOk result (λ p. IsViewOf p.0 (take p.1 input.now)) }
        ensures within { IfOk result (λ p. p.1 ≤ length input.now) }
        ensures fault { IfErr result (λ e. IsFirstFault input.now e) }
    {
        if input.len() < 8 {
            return Err(ViewFault::Short);
        }
        match input[1] {
            Ipv4Prefix::PDU => match OriginView::first::<Ipv4Prefix>(input) {
                Ok(view) => Ok((UnitView::Origin(view), Ipv4Prefix::LENGTH)),
                Err(e) => Err(e),
            },
            Ipv6Prefix::PDU => match OriginView::first::<Ipv6Prefix>(input) {
                Ok(view) => Ok((UnitView::Origin(view), Ipv6Prefix::LENGTH)),
                Err(e) => Err(e),
            },
            EndOfData::PDU => match first_end(input) {
                Ok(end) => Ok((UnitView::End(end), end.as_ref().len())),
                Err(e) => Err(e),
            },
            RouterKey::PDU => match RouterKeyView::first(input) {
                Ok(view) => Ok((UnitView::RouterKey(view), view.unit().len())),
                Err(e) => Err(e),
            },
            Aspa::PDU => match AspaView::first(input) {
                Ok(view) => Ok((UnitView::Aspa(view), view.unit().len())),
                Err(e) => Err(e),
            },
            pdu => Err(ViewFault::UnitType(pdu)),
        }
    }

    /// Writes the form of the unit's meaning: all free bytes are zero, and a withdrawn ASPA has no
    /// providers. An end of data is written as it is. It allocates nothing and doesn't flush.
    ///
    /// The only fault is `Writer`; then a part of the form was written.
    #[inline(always)]
    pub fn write_form<W: Sink>(&self, writer: &mut W) -> Result<(), ViewFault>
        ensures { WritesPiece W.Sink result writer.old writer.new (view_form self.now) }
    {
        match self {
            UnitView::Origin(view) => view.write_form(writer),
            UnitView::RouterKey(view) => view.write_form(writer),
            UnitView::Aspa(view) => view.write_form(writer),
            UnitView::End(end) => put_end(writer, end),
        }
    }
}
