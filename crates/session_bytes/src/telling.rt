//! Reads a cache's units, and passes them to a router's machine.

ghost use Rattle.std.specs.Prelude.{◌≡◌, ◌<◌, ◌≤◌, ◌^◌, ℕ, Bool, Option, length, take};
ghost use Rattle.std.specs.Prelude.{IfOk, IfErr, IfSome, OnErr, None};
ghost use Rattle.rtr_payload.specs.FirstFault.{BeginsUnit};
ghost use Rattle.unit_any.specs.SessionViews.{IsSessionFault};
ghost use Rattle.session_bytes.specs.PrivateReading.{Comes};
ghost use Rattle.session_bytes.specs.PrivateReading.{begins_payload as is_payload_begun};
ghost use Rattle.session_bytes.specs.Reading.{Hears, KeepsAll};

use crate::fault::fault_of;
use crate::head::head_of;
use rtr_payload::pdu::{Aspa, RouterKey};
use rtr_units::numbers::u32_at;
use rtr_units::prefixes::{Ipv4Prefix, Ipv6Prefix};
use rtr_units::unit::Unit;
use session_router::event::{Action, Event};
use session_router::router::Router;
use unit_any::laws::bounded_lengths;
use unit_any::{SessionFault, SessionView};
use unit_views::fault::ViewFault;

/// The result for the units of an input.
#[derive(Drop)]
pub enum Told {
    /// No whole unit has come.
    Awaits,
    /// The length in bytes of the payload units that the input begins with, which the caller keeps.
    Kept(usize),
    /// At the unit between these offsets of the input the machine took this action. Before it come
    /// payload units that the machine had kept; if there are any, the action ends the connection,
    /// and they are dropped.
    Acted {
        start: usize,
        end: usize,
        action: Action,
    },
    /// The first unit of the input is refused for this fault, or the end of the input cuts it off.
    Refused {
        fault: ViewFault,
        action: Action,
    },
}

/// Passes the units at the front of the input to the machine: payload units as long as it keeps
/// them, otherwise one unit. If the peer has closed, `ended`, a unit that isn't whole is refused.
pub fn tell(router: &mut Router, now: u64, input: &[u8], ended: bool) -> Told
    requires { now < 2 ^ 63 }
    ensures { Hears router.old now input.now ended result router.new }
{
    match came(router, now, input) {
        Ok((action, size)) => match action {
            Action::Keep => tell_on(router, now, input, size),
            _ => Told::Acted {
                start: 0,
                end: size,
                action,
            },
        },
        Err(refusal) => refuse(router, now, input, ended, refusal.fault),
    }
}

/// Does the same after `size` bytes of payload units, which the machine keeps.
fn tell_on(router: &mut Router, now: u64, input: &[u8], size: usize) -> Told
    requires now { now < 2 ^ 63 }
    requires some { 0 < size }
    requires within { size ≤ length input.now }
    ensures { (before : Router) (ended : Bool) →
        KeepsAll now before (take size input.now) router.old →
        Hears before now input.now ended result router.new }
{
    let mut kept = size;
    'units: loop {
        let (_, rest) = input.split_at(kept);
        if !begins_payload(rest) {
            return Told::Kept(kept);
        }
        match heard(router, now, rest) {
            Some((action, size)) => match action {
                Action::Keep => kept += size,
                _ => {
                    return Told::Acted {
                        start: kept,
                        end: kept + size,
                        action,
                    };
                }
            },
            None => return Told::Kept(kept),
        }
    }
}

/// Whether the input begins with the header of a payload unit.
fn begins_payload(input: &[u8]) -> bool
    ensures { result ≡ is_payload_begun input.now }
{
    input.len() >= 2
        && matches!(
            input[1],
            Ipv4Prefix::PDU | Ipv6Prefix::PDU | RouterKey::PDU | Aspa::PDU
        )
}

/// Passes the first unit of the input to the machine. Returns its action and the size of the unit.
#[inline(always)]
fn came(router: &mut Router, now: u64, input: &[u8]) -> Result<(Action, usize), SessionFault>
    requires { now < 2 ^ 63 }
    ensures unit { IfOk result (λ p. Comes router.old now input.now p.0 p.1 router.new) }
    ensures same { OnErr result (router.new ≡ router.old) }
    ensures fault { IfErr result (λ e. IsSessionFault input.now e.fault e.size) }
{
    let (view, size) = match SessionView::first(input) {
        Ok(first) => first,
        Err(refusal) => return Err(refusal),
    };
    bounded_lengths();
    let head = head_of(&view, u32_at(input, 4));
    Ok((router.hear(now, &head), size))
}

/// Tells the machine of the payload unit at the front of the input, unless it is refused.
#[inline(always)]
fn heard(router: &mut Router, now: u64, input: &[u8]) -> Option<(Action, usize)>
    requires { now < 2 ^ 63 }
    ensures unit { IfSome result (λ p. Comes router.old now input.now p.0 p.1 router.new) }
    ensures none { result ≡ None → (router.new ≡ router.old) × (BeginsUnit input.now → ⊥) }
{
    let (view, size) = match SessionView::first(input) {
        Ok(first) => first,
        Err(_) => return None,
    };
    bounded_lengths();
    let head = head_of(&view, u32_at(input, 4));
    Some((router.hear(now, &head), size))
}

/// Tells the machine of a refused unit, unless the rest of it may still come.
fn refuse(router: &mut Router, now: u64, input: &[u8], ended: bool, fault: ViewFault) -> Told
    requires now { now < 2 ^ 63 }
    ensures { (size : Option ℕ) → IsSessionFault input.now fault size →
        Hears router.old now input.now ended result router.new }
{
    if input.is_empty() {
        return Told::Awaits;
    }
    match fault {
        ViewFault::Short if !ended => Told::Awaits,
        fault => {
            let action = router.step(now, Event::Faulty(fault_of(input, &fault)));
            Told::Refused { fault, action }
        }
    }
}
