//! Reads a router's units, and passes them to a cache's machine.

ghost use Rattle.std.specs.Prelude.{◌≡◌, ◌<◌, ◌^◌, ℕ, List, Option, IfOk, IfErr};
ghost use Rattle.unit_any.specs.SessionViews.{IsSessionFault};
ghost use Rattle.session_bytes.specs.PrivateReading.{HasFirstHead};
ghost use Rattle.session_bytes.specs.Serving.{HearsRouter};

use crate::fault::fault_of;
use crate::head::head_of;
use rtr_units::numbers::u32_at;
use session_cache::cache::Cache;
use session_cache::event::{Answer, CacheEvent, Present};
use session_router::head::Head;
use unit_any::laws::bounded_lengths;
use unit_any::{SessionFault, SessionView};
use unit_views::fault::ViewFault;

/// The result for the unit at the front of the input.
#[derive(Drop)]
pub enum Served {
    /// No whole unit has come.
    Awaits,
    /// The length of the unit in bytes, and the machine's answer to it.
    Answered(usize, Answer),
    /// The unit is refused for this fault, or the end of the input cuts it off.
    Refused(ViewFault, Answer),
}

/// Passes the unit at the front of the input to the machine, at this time, given the newest data.
/// The cache can send the changes since each of the kept serial numbers of the present session. If
/// the peer has closed, `ended`, a unit that isn't whole is refused.
pub fn serve(
    cache: &mut Cache,
    now: u64,
    present: Present,
    kept: &[u32],
    input: &[u8],
    ended: bool,
) -> Served
    requires { now < 2 ^ 63 }
    ensures { HearsRouter cache.old now present kept.now input.now ended result cache.new }
{
    match first_head(input) {
        Ok((head, size)) => {
            let event = CacheEvent::Came(head, kept.contains(&head.serial));
            Served::Answered(size, cache.step(now, present, event))
        }
        Err(refusal) => refuse(cache, now, present, input, ended, refusal.fault),
    }
}

/// The head of the unit at the front of the input, and its size in bytes.
fn first_head(input: &[u8]) -> Result<(Head, usize), SessionFault>
    ensures unit { IfOk result (λ p. HasFirstHead input.now p.0 p.1) }
    ensures fault { IfErr result (λ e. IsSessionFault input.now e.fault e.size) }
{
    let (view, size) = match SessionView::first(input) {
        Ok(first) => first,
        Err(refusal) => return Err(refusal),
    };
    bounded_lengths();
    Ok((head_of(&view, u32_at(input, 4)), size))
}

/// Tells the machine of a refused unit, unless the rest of it may still come.
fn refuse(
    cache: &mut Cache,
    now: u64,
    present: Present,
    input: &[u8],
    ended: bool,
    fault: ViewFault,
) -> Served
    requires now { now < 2 ^ 63 }
    ensures { (size : Option ℕ) (kept : List ℕ) → IsSessionFault input.now fault size →
        HearsRouter cache.old now present kept input.now ended result cache.new }
{
    if input.is_empty() {
        return Served::Awaits;
    }
    match fault {
        ViewFault::Short if !ended => Served::Awaits,
        fault => {
            let event = CacheEvent::Faulty(fault_of(input, &fault));
            let answer = cache.step(now, present, event);
            Served::Refused(fault, answer)
        }
    }
}
