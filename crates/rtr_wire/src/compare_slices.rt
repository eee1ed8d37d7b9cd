//! Comparison of the meanings of two sequences in slices, without memory.

ghost use Rattle.std.specs.Prelude.{◌≡◌, ◌≤◌, ◌+◌, ◌-◌, ◌↔◌, IsTrue, List, length, take, ℕ};
ghost use Rattle.std.specs.Prelude.{IfOk, IfErr, IfSome, None};
ghost use Rattle.rtr_payload.specs.AspaUnits.{aspa_at};
ghost use Rattle.rtr_payload.specs.KeyUnits.{key_at};
ghost use Rattle.rtr_payload.specs.UnitFields.{HasFields, aspa_unit, key_unit, meaning};
ghost use Rattle.unit_views.specs.Origins.{origin_meaning};
ghost use Rattle.unit_views.specs.Views.{IsViewOf};
ghost use Rattle.rtr_wire.specs.Comparison.{ComparesMeanings, ComparesSlices};
ghost use Rattle.rtr_wire.specs.Comparison.{IsAccepted, IsViewFaultAt};
ghost use Rattle.rtr_wire.specs.PrivateSteps.{AreDifferent, SameFront, viewed};

use crate::slice::is_unit;
use rtr_base::action::Action;
use unit_views::aspa::AspaView;
use unit_views::fault::ViewFault;
use unit_views::origin::OriginView;
use unit_views::router_key::RouterKeyView;
use unit_views::view::UnitView;

/// One of two inputs that are compared.
#[derive(Clone, Copy, Debug, PartialEq, Eq)]
pub enum Side {
    /// The first input.
    Left,
    /// The second input.
    Right,
}

/// Why two inputs can't be compared: the first fault of the left input, or else of the right one.
/// Its text is that of the fault.
#[derive(Debug, Drop, thiserror::Error)]
#[error("{fault}")]
pub struct ComparisonFault {
    /// The input that has the fault.
    pub side: Side,
    /// The offset in that input at which the unit begins that is refused, exceeds the limit, or is
    /// missing: the length of the whole units before it.
    pub offset: usize,
    /// What is wrong at that offset.
    pub fault: ViewFault,
}

/// As `same_meaning`, without allocating.
///
/// Both are read to their ends of data. The fault of `left` comes first, then that of `right`:
/// those of `normalise_slice`, but never `Writer`.
pub fn same_meaning_slice(left: &[u8], right: &[u8], limit: u64) -> Result<bool, ViewFault>
    ensures { ComparesSlices limit result left.now right.now }
{
    match compare_meanings(left, right, limit) {
        Ok(same) => Ok(same),
        Err(ComparisonFault { fault, .. }) => Err(fault),
    }
}

/// As `same_meaning_slice`, but a fault comes with its input and its offset.
///
/// Both are read in turn, one unit of each at a time. After the first difference the rest of each
/// is only checked, the left one first.
pub fn compare_meanings(left: &[u8], right: &[u8], limit: u64) -> Result<bool, ComparisonFault>
    ensures { ComparesMeanings limit result left.now right.now }
{
    let mut left_rest = left;
    let mut right_rest = right;
    for count in 0..limit {
        match pass_same(left_rest, right_rest) {
            Some((is_unit, after_left, after_right)) => {
                if !is_unit {
                    return Ok(true);
                }
                left_rest = after_left;
                right_rest = after_right;
            }
            None => {
                check_side(Side::Left, left, left_rest, limit - count)?;
                check_side(Side::Right, right, right_rest, limit - count)?;
                return Ok(false);
            }
        }
    }
    Err(ComparisonFault {
        side: Side::Left,
        offset: left.len() - left_rest.len(),
        fault: ViewFault::TooMany,
    })
}

/// Checks the rest of an input, at most `limit` units of it.
fn check_side(side: Side, input: &[u8], rest: &[u8], limit: u64) -> Result<(), ComparisonFault>
    requires { length rest.now ≤ length input.now }
    ensures accepted { IfOk result (λ _. IsAccepted limit rest.now) }
    ensures side { IfErr result (λ f. f.side ≡ side) }
    ensures refused { IfErr result (λ f. (offset : ℕ) × (last : List ℕ)
        × (f.offset ≡ length input.now - length rest.now + offset)
        × IsViewFaultAt limit rest.now offset last f.fault) }
{
    match check(rest, limit) {
        Ok(()) => Ok(()),
        Err((offset, fault)) => Err(ComparisonFault {
            side,
            offset: input.len() - rest.len() + offset,
            fault,
        }),
    }
}

/// Checks the sequence at the front of the input, of fewer than `limit` units. If a unit is
/// refused, returns its offset and the fault.
fn check(input: &[u8], limit: u64) -> Result<(), (usize, ViewFault)>
    ensures accepted { IfOk result (λ _. IsAccepted limit input.now) }
    ensures refused { IfErr result (λ f. (last : List ℕ)
        × IsViewFaultAt limit input.now f.0 last f.1) }
{
    let mut rest = input;
    for _ in 0..limit {
        match UnitView::first(rest) {
            Ok((view, size)) => {
                let (_, left) = rest.split_at(size);
                if !is_unit(&view) {
                    return Ok(());
                }
                rest = left;
            }
            Err(fault) => return Err((input.len() - rest.len(), fault)),
        }
    }
    Err((input.len() - rest.len(), ViewFault::TooMany))
}

/// Returns what follows the units, or the ends of data, at the front of both inputs if these mean
/// the same, and whether they are payload units. Returns none also if one of them is refused.
///
/// Each kind has its own path, on which the compiler knows the kind of both views.
#[inline(always)]
fn pass_same<'a, 'b>(left: &'a [u8], right: &'b [u8]) -> Option<(bool, &'a [u8], &'b [u8])>
    ensures same { IfSome result (λ p. SameFront p.0 left.now right.now p.1.now p.2.now) }
    ensures different { result ≡ None → AreDifferent left.now right.now }
{
    let (first, size) = match UnitView::first(left) {
        Ok(first) => first,
        Err(_) => return None,
    };
    match first {
        UnitView::Origin(_) => pass_other(&first, size, left, right),
        UnitView::RouterKey(_) => pass_other(&first, size, left, right),
        UnitView::Aspa(_) => pass_other(&first, size, left, right),
        UnitView::End(_) => pass_other(&first, size, left, right),
    }
}

/// Does the same, given the view and the size of the left unit.
#[inline(always)]
fn pass_other<'a, 'b>(
    first: &UnitView<'_>,
    size: usize,
    left: &'a [u8],
    right: &'b [u8],
) -> Option<(bool, &'a [u8], &'b [u8])>
    requires view { IsViewOf first.now (take size left.now) }
    requires within { size ≤ length left.now }
    ensures same { IfSome result (λ p. SameFront p.0 left.now right.now p.1.now p.2.now) }
    ensures different { result ≡ None → AreDifferent left.now right.now }
{
    let (second, other_size) = match UnitView::first(right) {
        Ok(second) => second,
        Err(_) => return None,
    };
    if !same_view(first, &second) {
        return None;
    }
    let (_, after_left) = left.split_at(size);
    let (_, after_right) = right.split_at(other_size);
    Some((is_unit(first), after_left, after_right))
}

/// Whether two views mean the same; ends of data, whether their bytes are equal.
#[inline(always)]
fn same_view(left: &UnitView<'_>, right: &UnitView<'_>) -> bool
    requires left { (unit : List ℕ) × IsViewOf left.now unit }
    requires right { (unit : List ℕ) × IsViewOf right.now unit }
    ensures { IsTrue result ↔ (viewed left.now ≡ viewed right.now) }
{
    match (left, right) {
        (UnitView::Origin(left), UnitView::Origin(right)) => same_origin(left, right),
        (UnitView::RouterKey(left), UnitView::RouterKey(right)) => same_key(left, right),
        (UnitView::Aspa(left), UnitView::Aspa(right)) => same_aspa(left, right),
        (UnitView::End(left), UnitView::End(right)) => left.as_ref() == right.as_ref(),
        _ => false,
    }
}

/// Whether two prefix units mean the same.
#[inline(always)]
fn same_origin(left: &OriginView, right: &OriginView) -> bool
    ensures { IsTrue result ↔ (origin_meaning left.now ≡ origin_meaning right.now) }
{
    // Field by field: `==` on origins goes by their order, which takes longer.
    let (first, second) = (left.origin().prefix, right.origin().prefix);
    left.version() == right.version()
        && Action::from_flags(left.flags()) == Action::from_flags(right.flags())
        && first.prefix().is_v4() == second.prefix().is_v4()
        && first.prefix().bits() == second.prefix().bits()
        && first.prefix_len() == second.prefix_len()
        && first.resolved_max_len() == second.resolved_max_len()
        && left.origin().asn == right.origin().asn
}

/// Whether two router keys mean the same.
#[inline(always)]
fn same_key(left: &RouterKeyView<'_>, right: &RouterKeyView<'_>) -> bool
    ensures { IsTrue result ↔ (meaning (key_unit (key_at left.now.unit.now)) ≡
        meaning (key_unit (key_at right.now.unit.now))) }
{
    left.version() == right.version()
        && Action::from_flags(left.flags()) == Action::from_flags(right.flags())
        && left.asn() == right.asn()
        && left.key_identifier() == right.key_identifier()
        && left.key_info() == right.key_info()
}

/// Whether two ASPA units mean the same: in a withdrawal only the customer counts.
#[inline(always)]
fn same_aspa(left: &AspaView<'_>, right: &AspaView<'_>) -> bool
    requires left { HasFields left.now.unit.now (aspa_unit (aspa_at left.now.unit.now)) }
    requires right { HasFields right.now.unit.now (aspa_unit (aspa_at right.now.unit.now)) }
    ensures { IsTrue result ↔ (meaning (aspa_unit (aspa_at left.now.unit.now)) ≡
        meaning (aspa_unit (aspa_at right.now.unit.now))) }
{
    let action = Action::from_flags(left.flags());
    left.version() == right.version()
        && action == Action::from_flags(right.flags())
        && left.customer() == right.customer()
        && (action.is_withdraw() || left.providers() == right.providers())
}
