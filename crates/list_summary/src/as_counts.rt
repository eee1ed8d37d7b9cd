//! Counters, one for each AS.

ghost use Rattle.std.specs.Prelude.{◌≡◌, ℕ, IfOk, OnOk, Some, length, nat_lt, take, true};
ghost use Rattle.std.specs.List.{position_or_len};
ghost use Rattle.list_summary.specs.PrivateTallies.{CountsAs, as_count, one_more};
ghost use Rattle.list_summary.specs.Summaries.{largest, ranked};

use rtr_base::asn::Asn;
use std::alloc::{AllocError, Global};
use std::collections::BTreeMap;

/// The greatest number of largest ASes that are listed.
const MOST: usize = 10;

/// How often each AS came, unless an allocation for one of them failed.
#[derive(Drop)]
pub struct AsCounts {
    counts: BTreeMap<Asn, u64>,
    is_whole: bool,
}

impl AsCounts {
    /// No counts.
    pub fn new(alloc: Global) -> AsCounts
        ensures { (k : ℕ) → as_count result.counts k ≡ 0 }
    {
        AsCounts {
            counts: BTreeMap::new(alloc),
            is_whole: true,
        }
    }

    /// Counts the AS, if there is one. Saturates at 2^64 - 1; fewer units are read.
    pub fn count(&mut self, asn: Option<Asn>)
        ensures { CountsAs asn self.old self.new }
    {
        if let Some(asn) = asn {
            let is_counted = raise(&mut self.counts, asn);
            self.is_whole = self.is_whole & is_counted;
        }
    }

    /// The numbers of the largest ASes with their counts, the greatest first, or an error if an
    /// allocation failed, now or before.
    pub fn largest(&self, alloc: Global) -> Result<Vec<(u32, u64)>, AllocError>
        ensures whole { OnOk result (self.now.is_whole ≡ true) }
        ensures rows { IfOk result (λ rows. rows.items ≡ largest (as_count self.now.counts)) }
    {
        if self.is_whole {
            largest(alloc, &self.counts)
        } else {
            Err(AllocError)
        }
    }
}

/// Increases the count of the AS, and reports whether memory sufficed.
fn raise(counts: &mut BTreeMap<Asn, u64>, asn: Asn) -> bool
    ensures { result ≡ true → (k : ℕ) →
        as_count counts.new k ≡ one_more (Some asn) (as_count counts.old) k }
{
    match counts.entry(asn) {
        Ok(entry) => {
            let count = entry.or_insert(0);
            *count = count.saturating_add(1);
            true
        }
        Err(_) => false,
    }
}

/// The largest ASes of these.
fn largest(alloc: Global, counts: &BTreeMap<Asn, u64>) -> Result<Vec<(u32, u64)>, AllocError>
    ensures { IfOk result (λ rows. rows.items ≡ largest (as_count counts.now)) }
{
    let mut rows = Vec::new(alloc);
    for (asn, count) in counts.iter() {
        let number = asn.into_u32();
        if *count > 0 {
            rank(&mut rows, (number, *count))?;
        }
    }
    Ok(rows)
}

/// Inserts the row after those with an equal or higher count, unless ten of them are there, and
/// keeps the first ten.
fn rank(rows: &mut Vec<(u32, u64)>, row: (u32, u64)) -> Result<(), AllocError>
    ensures { OnOk result (rows.new.items ≡ take 10 (ranked row rows.old.items)) }
{
    let place = place_of(rows.as_slice(), row.1);
    if place < MOST {
        rows.insert(place, row)?;
    }
    rows.truncate(MOST);
    Ok(())
}

/// The index after the rows with an equal or higher count.
fn place_of(rows: &[(u32, u64)], count: u64) -> usize
    ensures { result ≡ position_or_len (λ row. nat_lt row.1 count) rows.now }
{
    for place in 0..rows.len() {
        if rows[place].1 < count {
            return place;
        }
    }
    rows.len()
}
