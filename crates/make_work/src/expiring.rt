//! Leaving out items that have expired.

ghost use Rattle.std.specs.Prelude.{◌≡◌, MatchResult};
ghost use Rattle.make_work.specs.Expiries.{expiry_fault, lasts};
ghost use Rattle.make_work.specs.PrivateExpiring.{AreNewTimes, LooksAtTime, sooner};
ghost use Rattle.make_work.specs.Taking.{times_answer};

use crate::item::{Expiry, Item, Place, Reason, Refusal};
use crate::json_names::Part;

/// What was left out of items at a time.
#[derive(Clone, Copy, Debug)]
pub struct Expired {
    /// The number of items that had expired.
    pub left_out: usize,
    /// When the next of the other items expires, if any does.
    pub next: Option<u64>,
}

/// The state of checking the expiry of items.
#[derive(Drop)]
pub(crate) struct Times<'a> {
    /// The time for which expiry is checked, if one is given.
    asked: Option<u64>,
    /// The number of items that had expired at that time.
    left_out: usize,
    /// When the next of the other items expires, if any does.
    next: Option<u64>,
    /// The first item whose expiry is invalid.
    refused: Option<Refusal<'a>>,
}

impl<'a> Times<'a> {
    /// The state before the first item, for this time.
    pub(crate) fn new(asked: Option<u64>) -> Times<'a>
        ensures { AreNewTimes asked result }
    {
        Times {
            asked,
            left_out: 0,
            next: None,
            refused: None,
        }
    }

    /// Checks one more item, and reports whether it stays: an item that expires at the requested
    /// time, or before it, doesn't. Fails if there are more than can be counted.
    ///
    /// An item whose expiry isn't a number of seconds, or is given twice, is refused, with `Time`
    /// or `Twice`. Then no further items are checked.
    pub(crate) fn look(&mut self, item: &Item<'a>) -> Result<bool, Reason>
        ensures { MatchResult result (λ stays. LooksAtTime item.now stays self.old self.new)
            (λ r. r ≡ Reason.Memory) }
    {
        let Some(now) = self.asked else {
            return Ok(true);
        };
        if self.refused.is_some() {
            return Ok(false);
        }
        if let Some(reason) = expiry_fault(item.expiry) {
            let place = time_place(item.place);
            self.refused = Some(Refusal { place, reason });
            return Ok(false);
        }
        if lasts(now, item.expiry) {
            self.next = sooner(self.next, item.expiry);
            return Ok(true);
        }
        match self.left_out.checked_add(1) {
            Some(left_out) => self.left_out = left_out,
            None => return Err(Reason::Memory),
        }
        Ok(false)
    }

    /// The result for the items, if a time is given, or the first refused item.
    pub(crate) fn answer(self) -> Result<Option<Expired>, Refusal<'a>>
        ensures { result ≡ times_answer self.entry }
    {
        match (self.refused, self.asked) {
            (Some(refusal), _) => Err(refusal),
            (None, None) => Ok(None),
            (None, Some(_)) => Ok(Some(Expired {
                left_out: self.left_out,
                next: self.next,
            })),
        }
    }
}

/// What is wrong with an expiry, if anything.
fn expiry_fault(expiry: Expiry) -> Option<Reason>
    ensures { result ≡ expiry_fault expiry }
{
    match expiry {
        Expiry::Never | Expiry::At(_) => None,
        Expiry::Invalid => Some(Reason::Time),
        Expiry::Twice => Some(Reason::Twice),
    }
}

/// The place of an item's expiry.
fn time_place<'a>(place: Place<'a>) -> Place<'a> {
    match place {
        Place::Item(array, index) => Place::Member(array, index, Part::Expires.usual_name()),
        other => other,
    }
}

/// Whether an item with this expiry stays at a time.
fn lasts(now: u64, expiry: Expiry) -> bool
    ensures { result ≡ lasts now expiry }
{
    match expiry {
        Expiry::At(time) => now < time,
        Expiry::Never | Expiry::Invalid | Expiry::Twice => true,
    }
}

/// The earlier of a time and that of an expiry.
fn sooner(next: Option<u64>, expiry: Expiry) -> Option<u64>
    ensures { result ≡ sooner next expiry }
{
    match (next, expiry) {
        (None, Expiry::At(time)) => Some(time),
        (Some(first), Expiry::At(time)) => Some(first.min(time)),
        (next, _) => next,
    }
}
