//! The store that a cache serves, and the next one, which must be saved first.

ghost use Rattle.std.specs.Prelude.{◌≡◌, ◌≤◌, ◌+◌, ◌-◌, ◌∷◌, ℕ, ◌↔◌, IfErr, IfOk, IfSome};
ghost use Rattle.std.specs.Prelude.{[], Err, IsOk, IsSome, IsTrue, List, None, Option, Some};
ghost use Rattle.std.specs.Prelude.{drop, length, take};
ghost use Rattle.data_slices.specs.Canonical.{HoldsData};
ghost use Rattle.data_history.specs.Checks.{IsShortForCheck};
ghost use Rattle.data_history.specs.Life.{IsLife, IsUnsavedLife, MayTake};
ghost use Rattle.data_history.specs.Parts.{HasPart, part_rest};
ghost use Rattle.data_history.specs.Snapshots.{HoldsHistory, Snapshot};
ghost use Rattle.data_history.specs.Store.{HoldsStore};
ghost use Rattle.data_history.specs.Stores.{ChecksNewFirst, ChecksStore, IsShortForTaking};
ghost use Rattle.data_history.specs.Stores.{IsStoreFrom, MayBeOf};
ghost use Rattle.data_history.specs.Stores.{TakesData, after_call, after_giving_up, after_saving};
ghost use Rattle.data_history.specs.Stores.{fresh_stores, front_of, held_of};
ghost use Rattle.data_history.specs.Stores.{numbered_stores, numbers_of, other_of, served_store};
ghost use Rattle.data_history.specs.Stores.{size_of, stores_of, taken_store};

use crate::check::{CheckFault, check_history};
use crate::newer::{Untaken, first_store, next_store};
use crate::next::{Limits, Refused};
use crate::numbers::Numbers;
use crate::part::first_part;
use data_slices::check_data;
use rtr_units::end::EndOfData;

/// The store that a cache serves, and the next one, which is pending until it is saved, each in one
/// of two buffers, which the caller owns and passes to each call.
///
/// New data are served only once the caller reports that their store is saved, and the next data
/// are taken only after that: so a cache that starts from its saved file never serves two different
/// data under one session and serial number (`laws::one_data_under_each_name`).
#[derive(Clone, Copy, Debug, PartialEq, Eq)]
pub struct Stores {
    /// The length of the served store, if there is one.
    served: Option<usize>,
    /// The length of the pending store, if there is one, in the other buffer.
    taken: Option<usize>,
    /// Whether the served store is in the second buffer.
    second: bool,
    /// The session of this start, if the cache doesn't save.
    unsaved: Option<u16>,
}

impl Stores {
    /// The stores of a new cache, which saves, and has no data and no file yet.
    pub fn new() -> Stores
        ensures is { result ≡ fresh_stores None None }
        ensures life { (first second : List ℕ) →
            IsLife [] None (served_store result first second) (taken_store result first second) }
    {
        Stores {
            served: None,
            taken: None,
            second: false,
            unsaved: None,
        }
    }

    /// The stores of a cache that doesn't save, at a start: all data are of this session, under
    /// which it served none before (RFC 8210 section 5.1).
    pub fn unsaved(session: u16) -> Stores
        ensures is { result ≡ fresh_stores None (Some session) }
        ensures session { result.unsaved ≡ Some session }
        ensures none { result.taken ≡ None }
        ensures serves_none { result.served ≡ None }
    {
        Stores {
            served: None,
            taken: None,
            second: false,
            unsaved: Some(session),
        }
    }

    /// The numbers of these stores.
    pub fn numbers(&self) -> Numbers
        ensures is { result ≡ numbers_of self.now }
        ensures same { stores_of result ≡ self.now }
    {
        Numbers {
            served: self.served,
            taken: self.taken,
            second: self.second,
            unsaved: self.unsaved,
        }
    }

    /// The stores with these numbers, or none if no stores have them.
    pub fn of_numbers(numbers: &Numbers) -> Option<Stores>
        ensures { result ≡ numbered_stores numbers.now }
    {
        if !numbers.are_of_stores() {
            return None;
        }
        Some(Stores {
            served: numbers.served,
            taken: numbers.taken,
            second: numbers.second,
            unsaved: numbers.unsaved,
        })
    }

    /// The stores of a cache that saves, at a start: its file's store, of this length, is at the
    /// front of the first buffer, and is served. It uses an index and a buffer as work space, as
    /// `check_history` does.
    pub fn start(
        size: usize,
        first: &[u8],
        index: &mut [usize],
        buffer: &mut [u8],
    ) -> Result<Stores, CheckFault>
        ensures is { IfOk result (λ m. m ≡ fresh_stores (Some size) None) }
        ensures life { IfOk result (λ m. (xs : List Snapshot) (second : List ℕ) →
            IsLife xs (Some (take size first.now)) None None → (z : Snapshot)
            × IsLife (z ∷ xs) (Some (take size first.now)) (served_store m first.now second)
            (taken_store m first.now second)) }
        ensures store { IfOk result (λ m. (x : Snapshot) × (ys : List Snapshot)
            × HoldsStore (take size first.now) x ys) }
        ensures none { IfErr result (λ fault. fault ≡ CheckFault.Malformed →
            (x : Snapshot) (ys : List Snapshot) → HoldsStore (take size first.now) x ys → ⊥) }
        ensures rooms { IfErr result (λ fault. IsShortForCheck (Err fault)
            (length (take size first.now)) (length index.old) (length buffer.old)) }
    {
        match check_store(front(first, size), index, buffer) {
            Ok(_) => Ok(Stores {
                served: Some(size),
                taken: None,
                second: false,
                unsaved: None,
            }),
            Err(fault) => Err(fault),
        }
    }

    /// Takes newer data, of this time in milliseconds since 1970: writes their store to the buffer
    /// that doesn't have the served store, and returns its length. The served store stays until
    /// `saved`; if the cache doesn't save, the new data are served at once. At an error nothing
    /// changes, except the content of the buffers that don't have the served store.
    ///
    /// `Waits` comes first, then a flaw of the data, then `OtherSession`.
    pub fn take(
        &mut self,
        new: &[u8],
        now: u64,
        limits: &Limits,
        buffer: &mut [u8],
        spare: &mut [u8],
        first: &mut [u8],
        second: &mut [u8],
    ) -> Result<usize, Untaken>
        ensures after { self.new ≡ after_call result self.old }
        ensures held { held_of self.old.second first.new second.new
            ≡ held_of self.old.second first.old second.old }
        ensures waits { IsSome self.old.taken →
            result ≡ Err Untaken.Waits × first.new ≡ first.old × second.new ≡ second.old }
        ensures takes { (z : Snapshot) → HoldsData new.now z.payloads z.end →
            TakesData (now - limits.now.time) limits.now.bytes result self.old
            (served_store self.old first.old second.old) z
            (other_of self.old.second first.new second.new) }
        ensures form { IfOk result (λ n. (z : Snapshot) → HoldsData new.now z.payloads z.end →
            IsStoreFrom now (now - limits.now.time) limits.now.bytes
            (served_store self.old first.old second.old) z new.now
            (take n (other_of self.old.second first.new second.new))) }
        ensures within { IfOk result (λ n.
            n ≤ length (other_of self.old.second first.old second.old)) }
        ensures flaw { ChecksNewFirst self.old.taken result new.now }
        ensures rooms { IsShortForTaking result
            (size_of (served_store self.old first.old second.old) + length new.now)
            (length buffer.old) (length spare.old)
            (length (other_of self.old.second first.old second.old)) }
        ensures serves { self.old.unsaved ≡ None → served_store self.new first.new second.new
            ≡ served_store self.old first.old second.old }
        ensures life { (xs : List Snapshot) (file : Option (List ℕ)) → self.old.unsaved ≡ None →
            MayTake xs (served_store self.old first.old second.old) →
            IsLife xs file (served_store self.old first.old second.old)
            (taken_store self.old first.old second.old) →
            IsLife xs file (served_store self.new first.new second.new)
            (taken_store self.new first.new second.new) }
        ensures unsaved_life { (xs : List Snapshot) (s : ℕ) (z : Snapshot) →
            self.old.unsaved ≡ Some s → HoldsData new.now z.payloads z.end →
            IsUnsavedLife xs s (served_store self.old first.old second.old) → IsOk result →
            IsUnsavedLife (z ∷ xs) s (served_store self.new first.new second.new) }
    {
        match self.taken {
            Some(_) => return Err(Untaken::Waits),
            None => {}
        }
        if self.second {
            let written = self.write(new, now, limits, buffer, spare, second, first);
            self.note(written)
        } else {
            let written = self.write(new, now, limits, buffer, spare, first, second);
            self.note(written)
        }
    }

    /// Writes the store of the newer data after the served one, if there is one, and returns its
    /// length.
    fn write(
        &self,
        new: &[u8],
        now: u64,
        limits: &Limits,
        buffer: &mut [u8],
        spare: &mut [u8],
        held: &[u8],
        output: &mut [u8],
    ) -> Result<usize, Untaken>
        ensures takes { (z : Snapshot) → self.now.taken ≡ None →
            HoldsData new.now z.payloads z.end →
            TakesData (now - limits.now.time) limits.now.bytes result self.now
            (front_of self.now.served held.now) z output.new }
        ensures holds { IfOk result (λ n. (z : Snapshot) × HoldsData new.now z.payloads z.end) }
        ensures form { IfOk result (λ n. (z : Snapshot) → HoldsData new.now z.payloads z.end →
            IsStoreFrom now (now - limits.now.time) limits.now.bytes
            (front_of self.now.served held.now) z new.now (take n output.new)) }
        ensures within { IfOk result (λ n. n ≤ length output.old) }
        ensures flaw { ChecksNewFirst self.now.taken result new.now }
        ensures rooms { IsShortForTaking result
            (size_of (front_of self.now.served held.now) + length new.now) (length buffer.old)
            (length spare.old) (length output.old) }
    {
        let end = match check_data(new) {
            Ok(end) => end,
            Err(flaw) => return Err(Untaken::Refused(Refused::Flaw(flaw))),
        };
        if !self.may_be_of(end.session()) {
            return Err(Untaken::OtherSession);
        }
        match self.served {
            Some(size) => {
                let store = front(held, size);
                next_store(store, new, &end, now, limits, buffer, spare, output)
            }
            None => first_store(new, now, spare, output),
        }
    }

    /// Reports whether data may be of this session.
    fn may_be_of(&self, session: u16) -> bool
        ensures { IsTrue result ↔ MayBeOf self.now.unsaved session }
    {
        match self.unsaved {
            Some(own) => session == own,
            None => true,
        }
    }

    /// Records the length of a store that was written.
    fn note(&mut self, written: Result<usize, Untaken>) -> Result<usize, Untaken>
        ensures same { result ≡ written }
        ensures after { self.new ≡ after_call written self.old }
    {
        match written {
            Ok(size) => {
                self.taken = Some(size);
                match self.unsaved {
                    Some(_) => self.saved(),
                    None => {}
                }
                Ok(size)
            }
            Err(why) => Err(why),
        }
    }

    /// Returns the first `size` bytes of the buffer with the served store.
    fn held<'a>(&self, size: usize, first: &'a [u8], second: &'a [u8]) -> &'a [u8]
        ensures { result.now ≡ take size (held_of self.now.second first.now second.now) }
    {
        if self.second {
            return front(second, size);
        }
        front(first, size)
    }

    /// Returns the first `size` bytes of the other buffer.
    fn other<'a>(&self, size: usize, first: &'a [u8], second: &'a [u8]) -> &'a [u8]
        ensures { result.now ≡ take size (other_of self.now.second first.now second.now) }
    {
        if self.second {
            return front(first, size);
        }
        front(second, size)
    }

    /// Returns the pending store, if there is one. Before calling `saved`, replace the file as a
    /// whole, by the head of `seal_head` and this store, and sync it.
    pub fn to_save<'a>(&self, first: &'a [u8], second: &'a [u8]) -> Option<&'a [u8]>
        ensures is { IfSome result (λ b. taken_store self.now first.now second.now ≡ Some b.now) }
        ensures finds { IsSome self.now.taken → IsSome result }
    {
        match self.taken {
            Some(size) => Some(self.other(size, first, second)),
            None => None,
        }
    }

    /// Records that the file has the pending store, which is served from now on. No-op if none is
    /// pending.
    pub fn saved(&mut self)
        ensures after { self.new ≡ after_saving self.old.taken self.old }
        ensures life { (xs : List Snapshot) (first second b : List ℕ) (z : Snapshot)
            (ys : List Snapshot) → taken_store self.old first second ≡ Some b → HoldsStore b z ys →
            IsLife xs (Some b) (served_store self.old first second) (Some b) →
            IsLife (z ∷ xs) (Some b) (served_store self.new first second)
            (taken_store self.new first second) }
    {
        if let Some(size) = self.taken {
            *self = Stores {
                served: Some(size),
                taken: None,
                second: !self.second,
                unsaved: self.unsaved,
            };
        }
    }

    /// Drops the pending store, as when saving failed: the served store stays, whether or not the
    /// file has the other one.
    pub fn give_up(&mut self)
        ensures after { self.new ≡ after_giving_up self.old }
        ensures life { (xs : List Snapshot) (file : Option (List ℕ)) (first second : List ℕ) →
            IsLife xs file (served_store self.old first second)
            (taken_store self.old first second) →
            IsLife xs file (served_store self.new first second)
            (taken_store self.new first second) }
    {
        self.taken = None;
    }

    /// Returns the served history, from which `since_into`, `knows` and `first_part` answer
    /// queries.
    pub fn history<'a>(&self, first: &'a [u8], second: &'a [u8]) -> Option<&'a [u8]>
        ensures is { IfSome result (λ h. (b : List ℕ) →
            served_store self.now first.now second.now ≡ Some b → h.now ≡ part_rest b) }
        ensures finds { (b : List ℕ) → served_store self.now first.now second.now ≡ Some b →
            HasPart b → IsSome result }
        ensures only { IsSome result → (b : List ℕ)
            × (served_store self.now first.now second.now ≡ Some b) × HasPart b }
        ensures last { (xs : List Snapshot) (file taken : Option (List ℕ)) →
            IsLife xs file (served_store self.now first.now second.now) taken →
            IfSome result (λ h. (z : Snapshot) × (before : List Snapshot) × (ys : List Snapshot)
            × (xs ≡ z ∷ before) × HoldsHistory h.now z ys) }
    {
        let size = match self.served {
            Some(size) => size,
            None => return None,
        };
        match first_part(self.held(size, first, second)) {
            Some(part) => Some(part.2),
            None => None,
        }
    }

    /// Returns the offset and the length of the served history in the buffer of the served store.
    pub fn history_at(&self, first: &[u8], second: &[u8]) -> Option<(usize, usize)>
        ensures at { IfSome result (λ p. (b : List ℕ) →
            served_store self.now first.now second.now ≡ Some b → drop p.0 b ≡ part_rest b) }
        ensures length { IfSome result (λ p. (b : List ℕ) →
            served_store self.now first.now second.now ≡ Some b → p.0 + p.1 ≡ length b) }
        ensures finds { (b : List ℕ) → served_store self.now first.now second.now ≡ Some b →
            HasPart b → IsSome result }
        ensures only { IsSome result → (b : List ℕ)
            × (served_store self.now first.now second.now ≡ Some b) × HasPart b }
    {
        match self.served {
            Some(size) => rest_at(self.held(size, first, second)),
            None => None,
        }
    }
}

/// Returns the offset and the length of the parts after the first one.
fn rest_at(parts: &[u8]) -> Option<(usize, usize)>
    ensures at { IfSome result (λ p. drop p.0 parts.now ≡ part_rest parts.now) }
    ensures length { IfSome result (λ p. p.0 + p.1 ≡ length parts.now) }
    ensures finds { HasPart parts.now → IsSome result }
    ensures only { IsSome result → HasPart parts.now }
{
    match first_part(parts) {
        Some(part) => Some((parts.len() - part.2.len(), part.2.len())),
        None => None,
    }
}

/// Checks whether bytes are a store, and returns the end of its present data, as `check_history`
/// does for a history.
pub fn check_store(
    store: &[u8],
    index: &mut [usize],
    buffer: &mut [u8],
) -> Result<EndOfData, CheckFault>
    ensures checks { ChecksStore result store.now }
    ensures rooms { IsShortForCheck result (length store.now) (length index.old)
        (length buffer.old) }
{
    match first_part(store) {
        Some(part) => check_history(part.2, index, buffer),
        None => Err(CheckFault::Malformed),
    }
}

/// Returns the first `size` bytes, or all if there are fewer.
fn front(bytes: &[u8], size: usize) -> &[u8]
    ensures { result.now ≡ take size bytes.now }
{
    if size > bytes.len() {
        return bytes;
    }
    &bytes[..size]
}
