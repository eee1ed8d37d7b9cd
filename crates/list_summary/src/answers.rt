//! The answers of a recording, each closed by an end of data.

ghost use Rattle.std.specs.Prelude.{◌≡◌, ◌+◌, ◌-◌, ◌∷◌, ◌++◌, ◌^◌, [], IfOk, OnOk, min};
ghost use Rattle.std.specs.Prelude.{true, false};
ghost use Rattle.std.specs.Prelude.{if◌then◌else◌};
ghost use Rattle.rtr_units.specs.AnyEnd.{end_meaning};
ghost use Rattle.unit_any.specs.AnyUnits.{any_fields};
ghost use Rattle.list_summary.specs.PrivateTallies.{AnswersMore, FailsAtEnd, HasAnswered};
ghost use Rattle.list_summary.specs.PrivateTallies.{IsFullTally};
ghost use Rattle.list_summary.specs.PrivateTallies.{ended_answer};

use crate::numbers;
use rtr_units::end::EndOfData;
use std::alloc::{AllocError, Global};
use unit_any::AnyUnit;

/// A closed answer.
#[derive(Clone, Copy, Drop)]
pub struct Answer {
    /// The session of its end of data.
    pub session: u16,
    /// The serial number of its end of data.
    pub serial: u32,
    /// The number of its units that announce.
    pub announced: u64,
    /// The number of its units that withdraw.
    pub withdrawn: u64,
}

/// The answers so far, unless an allocation for one of them failed.
#[derive(Drop)]
pub struct Answers {
    ended: Vec<Answer>,
    is_whole: bool,
    /// The number of units of the open answer that announce.
    announced: u64,
    /// The number of units of the open answer that withdraw.
    withdrawn: u64,
}

impl Answers {
    /// The state before the first unit.
    pub fn new(alloc: Global) -> Answers
        ensures { HasAnswered result [] }
    {
        Answers {
            ended: Vec::new(alloc),
            is_whole: true,
            announced: 0,
            withdrawn: 0,
        }
    }

    /// Takes the unit: an end of data closes an answer; after it, and after a cache response, a new
    /// one is open, in which payload units are counted.
    pub fn add(&mut self, unit: &AnyUnit)
        ensures more { AnswersMore (any_fields unit.now) self.old self.new }
        ensures memory { FailsAtEnd (any_fields unit.now) self.old self.new }
    {
        match unit {
            AnyUnit::EndOfData(end) => self.end(end),
            AnyUnit::CacheResponse(_) => self.begin(),
            AnyUnit::Payload(unit) => self.count(numbers::payload_announces(unit)),
            AnyUnit::SerialNotify(_)
            | AnyUnit::SerialQuery(_)
            | AnyUnit::ResetQuery(_)
            | AnyUnit::CacheReset(_)
            | AnyUnit::Error(_) => {}
        }
    }

    /// The closed answers, or an error if an allocation failed.
    pub fn ended(&self) -> Result<&[Answer], AllocError>
        ensures whole { OnOk result (self.now.is_whole ≡ true) }
        ensures rows { IfOk result (λ rows. rows.now ≡ self.now.ended.items) }
    {
        if self.is_whole {
            Ok(self.ended.as_slice())
        } else {
            Err(AllocError)
        }
    }

    /// Closes the open answer, and opens another.
    fn end(&mut self, end: &EndOfData)
        ensures whole { self.new.is_whole ≡ true → self.old.is_whole ≡ true }
        ensures ended { self.new.is_whole ≡ true →
            self.new.ended.items ≡
            self.old.ended.items ++ ended_answer (end_meaning end.now) self.old ∷ [] }
        ensures memory { self.old.is_whole ≡ true → self.new.is_whole ≡ false →
            (self.new.ended.items ≡ self.old.ended.items) × IsFullTally self.old }
        ensures announced { self.new.announced ≡ 0 }
        ensures withdrawn { self.new.withdrawn ≡ 0 }
    {
        let is_kept = self.ended.push(Answer {
            session: end.session(),
            serial: end.serial().0,
            announced: self.announced,
            withdrawn: self.withdrawn,
        });
        self.is_whole = self.is_whole & is_kept.is_ok();
        self.begin();
    }

    /// Opens an answer.
    fn begin(&mut self)
        ensures { self.new ≡ record self.old { announced = 0; withdrawn = 0 } }
    {
        self.announced = 0;
        self.withdrawn = 0;
    }

    /// Counts a payload unit, by whether it announces. Saturates at 2^64 - 1; fewer units are read.
    fn count(&mut self, announces: bool)
        ensures ended { self.new.ended.items ≡ self.old.ended.items }
        ensures whole { self.new.is_whole ≡ self.old.is_whole }
        ensures announced { self.new.announced ≡
            (if announces then min (self.old.announced + 1) (2 ^ 64 - 1) else self.old.announced) }
        ensures withdrawn { self.new.withdrawn ≡
            (if announces then self.old.withdrawn else min (self.old.withdrawn + 1) (2 ^ 64 - 1)) }
    {
        if announces {
            self.announced = self.announced.saturating_add(1);
        } else {
            self.withdrawn = self.withdrawn.saturating_add(1);
        }
    }
}
