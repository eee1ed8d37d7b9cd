//! Units at the front of a slice.

ghost use Rattle.std.specs.Prelude.{◌≡◌, ◌++◌, ◌<◌, ◌≤◌, ℕ, List, length, IfOk, IfErr, IfSome};
ghost use Rattle.std.specs.Prelude.{◌↔◌, IsTrue, None};
ghost use Rattle.data_memory.specs.Data.{name_cmp, takes_place};
ghost use Rattle.rtr_units.specs.Header.{type_field};
ghost use Rattle.unit_views.specs.Faults.{IsFirstFault};
ghost use Rattle.rtr_payload.specs.KeyUnits.{key_at};
ghost use Rattle.rtr_payload.specs.Orders.{payload_cmp};
ghost use Rattle.rtr_payload.specs.Payloads.{key};
ghost use Rattle.data_slices.specs.Items.{IsItem, item_view, meant};
ghost use Rattle.data_slices.specs.PrivateChanges.{IsNext, NoUnit};

use rtr_base::action::Action;
use rtr_units::end::EndOfData;
use rtr_units::header::HEADER_SIZE;
use rtr_units::prefixes::{Ipv4Prefix, Ipv6Prefix};
use rtr_units::unit::Unit;
use std::cmp::Ordering;
use unit_views::aspa::AspaView;
use unit_views::fault::ViewFault;
use unit_views::origin::OriginView;
use unit_views::router_key::RouterKeyView;
use unit_views::view::UnitView;

/// A payload unit that lies in a slice.
#[derive(Clone, Copy)]
pub(crate) enum PayloadView<'a> {
    /// An IPv4 or IPv6 prefix (RFC 8210 sections 5.6 and 5.7).
    Origin(OriginView),
    /// A router key (RFC 8210 section 5.10).
    RouterKey(RouterKeyView<'a>),
    /// An ASPA unit (as in the Rust crate).
    Aspa(AspaView<'a>),
}

/// A payload unit or an end of data of a sequence.
#[derive(Clone, Copy)]
pub(crate) enum Item<'a> {
    /// A payload unit.
    Unit(PayloadView<'a>),
    /// The end of data.
    End(EndOfData),
}

/// The item at the front of the input, and what follows it. The faults are those of
/// `UnitView::first`.
#[inline(always)]
pub(crate) fn next<'a>(input: &'a [u8]) -> Result<(Item<'a>, &'a [u8]), ViewFault>
    ensures item { IfOk result
        (λ p. (b : List ℕ) × IsItem p.0 b × (input.now ≡ b ++ p.1.now)) }
    ensures shorter { IfOk result (λ p. length p.1.now < length input.now) }
    ensures fault { IfErr result (λ e. IsFirstFault input.now e) }
{
    match UnitView::first(input) {
        Ok((view, size)) => {
            let (_, left) = input.split_at(size);
            Ok((item_of(&view), left))
        }
        Err(e) => Err(e),
    }
}

/// The payload unit at the front of the input, and what follows it, if there is one.
#[inline(always)]
pub(crate) fn next_unit<'a>(input: &'a [u8]) -> Option<(PayloadView<'a>, &'a [u8])>
    ensures unit { IfSome result (λ p. IsNext p.0 p.1.now input.now) }
    ensures none { result ≡ None → NoUnit input.now }
    ensures shorter { IfSome result (λ p. length p.1.now < length input.now) }
{
    match next(input) {
        Ok((item, left)) => match item {
            Item::Unit(view) => Some((view, left)),
            Item::End(_) => None,
        },
        Err(_) => None,
    }
}

/// A kind of prefix unit. A loop over one kind views each unit in few steps.
#[derive(Clone, Copy)]
pub(crate) enum PrefixKind {
    /// A prefix of IPv4.
    Ipv4,
    /// A prefix of IPv6.
    Ipv6,
}

/// The prefix unit of this kind at the front of the input, and what follows it. None if another
/// unit may be there.
#[inline(always)]
pub(crate) fn next_prefix<'a>(
    input: &'a [u8],
    kind: PrefixKind,
) -> Option<(PayloadView<'a>, &'a [u8])>
    ensures unit { IfSome result (λ p. IsNext p.0 p.1.now input.now) }
    ensures shorter { IfSome result (λ p. length p.1.now < length input.now) }
{
    match kind {
        PrefixKind::Ipv4 => next_of_type(input, Ipv4Prefix::PDU, Ipv4Prefix::LENGTH),
        PrefixKind::Ipv6 => next_of_type(input, Ipv6Prefix::PDU, Ipv6Prefix::LENGTH),
    }
}

/// The unit at the front of the input, and what follows it, if it has this type and this length.
#[inline(always)]
fn next_of_type<'a>(input: &'a [u8], kind: u8, size: usize) -> Option<(PayloadView<'a>, &'a [u8])>
    ensures unit { IfSome result (λ p. IsNext p.0 p.1.now input.now) }
    ensures shorter { IfSome result (λ p. length p.1.now < length input.now) }
{
    if input.len() < size || size < HEADER_SIZE {
        return None;
    }
    let (unit, left) = input.split_at(size);
    if unit[1] != kind {
        return None;
    }
    match next_unit(unit) {
        Some((view, after)) => {
            if !after.is_empty() {
                return None;
            }
            Some((view, left))
        }
        None => None,
    }
}

/// Whether the input begins with a header of this type.
#[inline(always)]
pub(crate) fn begins_with_type(input: &[u8], kind: u8) -> bool
    ensures { IsTrue result ↔ ((8 ≤ length input.now) × (type_field input.now ≡ kind)) }
{
    input.len() >= HEADER_SIZE && input[1] == kind
}

/// The same view, as an item.
#[inline(always)]
fn item_of<'a>(view: &UnitView<'a>) -> Item<'a>
    ensures { result ≡ item_view view.now }
{
    match view {
        UnitView::Origin(view) => Item::Unit(PayloadView::Origin(*view)),
        UnitView::RouterKey(view) => Item::Unit(PayloadView::RouterKey(*view)),
        UnitView::Aspa(view) => Item::Unit(PayloadView::Aspa(*view)),
        UnitView::End(end) => Item::End(*end),
    }
}

impl<'a> PayloadView<'a> {
    /// The version of the protocol.
    #[inline(always)]
    pub(crate) fn version(&self) -> u8
        ensures { result ≡ (meant self.now).version }
    {
        match self {
            PayloadView::Origin(view) => view.version(),
            PayloadView::RouterKey(view) => view.version(),
            PayloadView::Aspa(view) => view.version(),
        }
    }

    /// Whether the payload is announced or withdrawn.
    #[inline(always)]
    pub(crate) fn action(&self) -> Action
        ensures { result ≡ (meant self.now).action }
    {
        match self {
            PayloadView::Origin(view) => Action::from_flags(view.flags()),
            PayloadView::RouterKey(view) => Action::from_flags(view.flags()),
            PayloadView::Aspa(view) => Action::from_flags(view.flags()),
        }
    }

    /// Whether the payload replaces the one of its name: an ASPA does.
    #[inline(always)]
    pub(crate) fn takes_place(&self) -> bool
        ensures { result ≡ takes_place (meant self.now).payload }
    {
        match self {
            PayloadView::Origin(_) => false,
            PayloadView::RouterKey(_) => false,
            PayloadView::Aspa(_) => true,
        }
    }

    /// The order of the names of two payloads: the name of an ASPA is its customer.
    #[inline(always)]
    pub(crate) fn compare_names(&self, other: &PayloadView<'_>) -> Ordering
        ensures { result ≡ name_cmp (meant self.now).payload (meant other.now).payload }
    {
        match (self, other) {
            (PayloadView::Origin(left), PayloadView::Origin(right)) => {
                left.origin().cmp(&right.origin())
            }
            (PayloadView::RouterKey(left), PayloadView::RouterKey(right)) => {
                compare_keys(left, right)
            }
            (PayloadView::Aspa(left), PayloadView::Aspa(right)) => {
                left.customer().cmp(&right.customer())
            }
            (PayloadView::Origin(_), PayloadView::RouterKey(_)) => Ordering::Less,
            (PayloadView::Origin(_), PayloadView::Aspa(_)) => Ordering::Less,
            (PayloadView::RouterKey(_), PayloadView::Aspa(_)) => Ordering::Less,
            (PayloadView::RouterKey(_), PayloadView::Origin(_)) => Ordering::Greater,
            (PayloadView::Aspa(_), PayloadView::Origin(_)) => Ordering::Greater,
            (PayloadView::Aspa(_), PayloadView::RouterKey(_)) => Ordering::Greater,
        }
    }
}

/// By the key identifier, then by the ASN, then by the key info.
#[inline(always)]
fn compare_keys(left: &RouterKeyView<'_>, right: &RouterKeyView<'_>) -> Ordering
    ensures { result ≡ payload_cmp (key (key_at left.now.unit.now).key)
        (key (key_at right.now.unit.now).key) }
{
    left.key_identifier()
        .cmp(&right.key_identifier())
        .then(left.asn().cmp(&right.asn()))
        .then(left.key_info().cmp(right.key_info()))
}
