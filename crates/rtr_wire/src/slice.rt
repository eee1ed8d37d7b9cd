//! Runs over sequences that lie in a slice.

ghost use Rattle.std.specs.Prelude.{◌≡◌, Ok, Some, IfOk, IfErr, not};
ghost use Rattle.rtr_units.specs.StopCauses.{count_after};
ghost use Rattle.unit_views.specs.Faults.{is_view_writer_fault, HoldsViewWriteError};
ghost use Rattle.rtr_wire.specs.PrivateSteps.{Steps, StopsStep, is_payload_unit, passed};
ghost use Rattle.rtr_wire.specs.Sequences.{everything};
ghost use Rattle.rtr_wire.specs.SliceRun.{NormalisesSlice};

use rtr_payload::pdu::{Aspa, RouterKey};
use rtr_units::header::HEADER_SIZE;
use rtr_units::prefixes::{Ipv4Prefix, Ipv6Prefix};
use rtr_units::source::Sink;
use rtr_units::unit::Unit;
use unit_views::fault::ViewFault;
use unit_views::view::UnitView;

/// As `normalise`, for an input in a slice, without allocating. Returns the number of payload units
/// and the number of bytes read up to the end of data, included; what follows it doesn't count.
///
/// At most `limit` units are viewed, the end of data included: `TooMany` comes before the next one.
/// Other faults are those of `UnitView::first` and `UnitView::write_form`; the units before are
/// written by then. It doesn't flush.
pub fn normalise_slice<W: Sink>(
    input: &[u8],
    writer: &mut W,
    limit: u64,
) -> Result<(u64, usize), ViewFault>
    ensures bytes { NormalisesSlice limit result input.now
        (W.state writer.old) (W.state writer.new) }
    ensures error { IfErr result (HoldsViewWriteError (W.fails writer.new) (W.stalls writer.new)) }
{
    let mut rest = input;
    for count in 0..limit {
        match step(rest, writer) {
            Ok((is_unit, left)) => {
                rest = left;
                if !is_unit {
                    return Ok((count, input.len() - rest.len()));
                }
            }
            Err(e) => return Err(e),
        }
    }
    Err(ViewFault::TooMany)
}

/// Views one unit, and writes its form. Returns whether it was a payload unit (not an end of data),
/// and what follows it.
///
/// Each type has its own path, on which the compiler knows the kind of the view at each step. The
/// results of the rare types are rebuilt, so that those of the common types stay in registers.
#[inline(always)]
fn step<'a, W: Sink>(rest: &'a [u8], writer: &mut W) -> Result<(bool, &'a [u8]), ViewFault>
    ensures unit { IfOk result (λ p. Steps everything (Ok (passed p.0))
        (Some rest.now) (Some p.1.now)
        (W.state writer.old).held (W.state writer.new).held) }
    ensures fault { IfErr result (λ e. StopsStep e rest.now
        (W.state writer.old).held (W.state writer.new).held) }
    ensures count { (W.state writer.new).failed ≡
        count_after (W.state writer.old).failed (not (is_view_writer_fault result)) }
    ensures error { IfErr result (HoldsViewWriteError (W.fails writer.new) (W.stalls writer.new)) }
{
    let unit_type = if rest.len() < HEADER_SIZE { 0 } else { rest[1] };
    match unit_type {
        Ipv4Prefix::PDU => view_step::<{ Ipv4Prefix::PDU }, W>(rest, writer),
        Ipv6Prefix::PDU => view_step::<{ Ipv6Prefix::PDU }, W>(rest, writer),
        RouterKey::PDU => view_step::<{ RouterKey::PDU }, W>(rest, writer),
        Aspa::PDU => view_step::<{ Aspa::PDU }, W>(rest, writer),
        _ => match view_step::<0, W>(rest, writer) {
            Ok(step) => Ok(step),
            Err(e) => Err(e),
        },
    }
}

/// The step for units of one type, or of any other.
///
/// The code doesn't read `TYPE`. It makes the compiler copy the step for each type, with only the
/// code that the type needs: without it all types share one step, which takes twice the
/// instructions. `#[inline]` without `always` lets the compiler simplify each copy before it merges
/// them.
#[inline]
fn view_step<'a, const TYPE: u8, W: Sink>(
    rest: &'a [u8],
    writer: &mut W,
) -> Result<(bool, &'a [u8]), ViewFault>
    ensures unit { IfOk result (λ p. Steps everything (Ok (passed p.0))
        (Some rest.now) (Some p.1.now)
        (W.state writer.old).held (W.state writer.new).held) }
    ensures fault { IfErr result (λ e. StopsStep e rest.now
        (W.state writer.old).held (W.state writer.new).held) }
    ensures count { (W.state writer.new).failed ≡
        count_after (W.state writer.old).failed (not (is_view_writer_fault result)) }
    ensures error { IfErr result (HoldsViewWriteError (W.fails writer.new) (W.stalls writer.new)) }
{
    let (view, size) = match UnitView::first(rest) {
        Ok(first) => first,
        Err(e) => return Err(e),
    };
    match view.write_form(writer) {
        Ok(()) => {
            let (_, left) = rest.split_at(size);
            Ok((is_unit(&view), left))
        }
        Err(e) => Err(e),
    }
}

/// Whether the view is that of a payload unit.
#[inline(always)]
pub fn is_unit(view: &UnitView<'_>) -> bool
    ensures { result ≡ is_payload_unit view.now }
{
    match view {
        UnitView::End(_) => false,
        _ => true,
    }
}
