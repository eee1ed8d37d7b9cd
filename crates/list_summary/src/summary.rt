//! Counts of units one after the other.

ghost use Rattle.std.specs.Prelude.{◌≡◌, ◌+◌, ◌-◌, ◌^◌, [], length, min};
ghost use Rattle.unit_any.specs.AnyUnits.{any_bytes, any_fields};
ghost use Rattle.list_summary.specs.PrivateTallies.{AnswersMore, CountsAs, Sums, raised};
ghost use Rattle.list_summary.specs.Summaries.{announced_as, announced_length, announced_type};
ghost use Rattle.list_summary.specs.Summaries.{other_type};

use crate::answers::Answers;
use crate::as_counts::AsCounts;
use crate::numbers;
use crate::tally::Tally;
use rtr_units::prefixes::{Ipv4Prefix, Ipv6Prefix};
use std::alloc::Global;
use unit_any::AnyUnit;

/// The counts of the units so far.
#[derive(Drop)]
pub struct Summary {
    /// The number of their bytes; it saturates at 2^64 - 1.
    pub bytes: u64,
    /// The number of units.
    pub units: u64,
    /// The units that announce, by their type.
    pub announced: Tally,
    /// All others, by their type.
    pub others: Tally,
    /// The IPv4 prefixes that are announced, by their length.
    pub v4_lengths: Tally,
    /// The IPv6 prefixes that are announced, by their length.
    pub v6_lengths: Tally,
    /// The prefixes that are announced, by their AS.
    pub ases: AsCounts,
    /// The answers.
    pub answers: Answers,
}

impl Summary {
    /// The summary before the first unit.
    pub fn new(alloc: Global) -> Summary
        ensures { Sums result [] }
    {
        Summary {
            bytes: 0,
            units: 0,
            announced: Tally::new(),
            others: Tally::new(),
            v4_lengths: Tally::new(),
            v6_lengths: Tally::new(),
            ases: AsCounts::new(alloc),
            answers: Answers::new(alloc),
        }
    }

    /// Counts the unit.
    pub fn add(&mut self, unit: &AnyUnit)
        ensures bytes { self.new.bytes ≡
            min (self.old.bytes + length (any_bytes unit.now)) (2 ^ 64 - 1) }
        ensures units { self.new.units ≡ min (self.old.units + 1) (2 ^ 64 - 1) }
        ensures announced { self.new.announced.counts ≡
            raised self.old.announced.counts (announced_type (any_fields unit.now)) }
        ensures others { self.new.others.counts ≡
            raised self.old.others.counts (other_type (any_fields unit.now)) }
        ensures v4_lengths { self.new.v4_lengths.counts ≡
            raised self.old.v4_lengths.counts (announced_length 4 (any_fields unit.now)) }
        ensures v6_lengths { self.new.v6_lengths.counts ≡
            raised self.old.v6_lengths.counts (announced_length 6 (any_fields unit.now)) }
        ensures ases { CountsAs (announced_as (any_fields unit.now)) self.old.ases self.new.ases }
        ensures answers { AnswersMore (any_fields unit.now) self.old.answers self.new.answers }
    {
        self.bytes = self.bytes.saturating_add(u64::from(unit.size()));
        self.units = self.units.saturating_add(1);
        self.announced.count(numbers::announced_type(unit));
        self.others.count(numbers::other_type(unit));
        self.v4_lengths
            .count(numbers::announced_length(Ipv4Prefix::PDU, unit));
        self.v6_lengths
            .count(numbers::announced_length(Ipv6Prefix::PDU, unit));
        self.ases.count(numbers::announced_as(unit));
        self.answers.add(unit);
    }
}
