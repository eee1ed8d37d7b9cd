//! The providers of an ASPA (as in the Rust crate).

ghost use Rattle.std.specs.Prelude.{◌≡◌, ◌==◌, ◌*◌, List, [], Some, length, refl, nat_eq, IfOk};
ghost use Rattle.std.specs.Prelude.{IsOk, MatchResult, OnSome};
ghost use Rattle.std.proofs.Common.{rules};
ghost use Rattle.std.specs.Cmp.{partial_equiv_from_equiv};
ghost use Rattle.std.specs.Cmp.Lexicographic.{nat_list_cmp_total, nat_list_eq_equiv, pointwise};
ghost use Rattle.std.specs.Cmp.Lexicographic.{slice_cmp, texts_po, texts_ties};
ghost use Rattle.std.specs.Cmp.Rules.{hashing};
ghost use Rattle.std.specs.Hash as fed;
ghost use Rattle.std.specs.Iterator.{Drains, YieldsFirst, item_count};
ghost use Rattle.std.specs.Ordering.{nat_cmp};
ghost use Rattle.rtr_base.specs.Bytes.{words};
ghost use Rattle.rtr_payload.specs.Providers.{StopsTaking};
ghost use Rattle.rtr_payload.specs.Payloads.{AreProviders};

use bytes::{BufMut, Bytes, BytesMut};
use rtr_base::asn::Asn;
use std::alloc::{AllocError, Global};
use std::cmp::Ordering;
use std::fmt;
use std::hash::{Hash, Hasher};
use std::marker::Model;

/// The providers of an ASPA: at most 16380 ASNs in an order that counts, four bytes each.
#[derive(Drop)]
pub struct ProviderAsns(Bytes);

impl Model for ProviderAsns {
    ghost use Rattle.std.specs.Prelude.{ℕ, List};
    ghost use Rattle.rtr_payload.specs.Providers.{words_of};

    ghost Value = { List ℕ };

    ghost use Rattle.rtr_payload.specs.Providers.{AreProviderBytes};

    ghost view = { λ a. words_of a.0 };

    ghost invariant = { λ a. AreProviderBytes a.0 };
}

/// More than 16380 providers were given.
#[derive(Clone, Copy, Debug, PartialEq, Eq, thiserror::Error)]
#[error("provider ASNs size overflow")]
pub struct ProviderAsnsError(());

/// Why the items of an iterator can't become providers.
#[derive(Clone, Copy, Debug, PartialEq, Eq, thiserror::Error)]
pub enum ProviderIterError {
    /// There are more than 16380 items.
    #[error("provider ASNs size overflow")]
    Count(ProviderAsnsError),
    /// An allocation failed.
    #[error("out of memory")]
    Memory,
}

impl ProviderAsns {
    ghost use Rattle.rtr_payload.specs.Providers.{words_of};
    ghost use Rattle.rtr_payload.specs.Providers.{AreProviderBytes};

    /// The greatest number of providers of an ASPA, whose length is then 65532 bytes.
    pub const MAX_COUNT: usize = 16380;

    /// No providers. It allocates nothing and never returns `AllocError`.
    pub fn empty(_alloc: Global) -> Result<Self, AllocError>
        ensures none { IfOk result (λ p. p ≡ []) }
        ensures granted { IsOk result }
    {
        Ok(ProviderAsns::none())
    }

    /// No providers. It allocates nothing.
    pub(crate) fn none() -> Self
        ensures { result ≡ [] }
    {
        ProviderAsns(Bytes::new())
    }

    /// The items of the iterator, in their order. It reads at most 16381 of them, and doesn't use
    /// the size hint.
    ///
    /// It returns `Count` if there is a 16381st item, and `Memory` if an allocation fails: at an
    /// item, or after the last one, when the bytes are shared. How many items were read before that
    /// isn't specified, as no caller can observe it.
    pub fn try_from_iter<I: Iterator<Item = Asn> + Drop>(
        alloc: Global,
        mut iter: I,
    ) -> Result<Self, ProviderIterError>
        requires { I.can_next iter }
        ensures items { MatchResult result (λ p. Drains I.next_gives iter p)
            (StopsTaking I.next_gives iter) }
        ensures fits { IfOk result AreProviders }
    {
        let mut bytes = BytesMut::new(alloc);
        'items: for _taken in 0..Self::MAX_COUNT {
            match next_of(&mut iter) {
                Some(asn) => match bytes.put_u32(asn.into_u32()) {
                    Ok(()) => {}
                    Err(_) => return Err(ProviderIterError::Memory),
                },
                None => return Self::from_written(bytes),
            }
        }
        match next_of(&mut iter) {
            Some(_) => Err(ProviderIterError::Count(ProviderAsnsError(()))),
            None => Self::from_written(bytes),
        }
    }

    /// The providers whose bytes were appended one by one.
    fn from_written(bytes: BytesMut) -> Result<Self, ProviderIterError>
        requires { AreProviderBytes bytes.items }
        ensures { MatchResult result (λ p. p ≡ words_of bytes.items)
            (λ e. e ≡ ProviderIterError.Memory) }
    {
        match bytes.freeze() {
            Ok(bytes) => Ok(ProviderAsns(bytes)),
            Err(_) => Err(ProviderIterError::Memory),
        }
    }

    /// The providers with these bytes, four each.
    #[inline(always)]
    pub(crate) fn from_bytes(bytes: Bytes) -> Self
        requires { AreProviderBytes bytes }
        ensures value { result ≡ words_of bytes }
        ensures again { words result ≡ bytes }
        ensures fits { AreProviders result }
    {
        ProviderAsns(bytes)
    }

    /// The number of providers.
    pub fn asn_count(&self) -> u16
        ensures value { result ≡ length self.now }
        ensures fits { AreProviders self.now }
    {
        (self.0.len() / 4) as u16
    }

    /// The number of bytes, four for each provider.
    #[inline(always)]
    pub fn len(&self) -> usize
        ensures value { result ≡ 4 * length self.now }
        ensures fits { AreProviders self.now }
    {
        self.0.len()
    }

    /// Whether there are no providers.
    pub fn is_empty(&self) -> bool
        ensures { result ≡ (length self.now == 0) }
    {
        self.0.is_empty()
    }

    /// The ASNs, in their order.
    pub fn iter(&self) -> ProviderIter<'_>
        ensures { result ≡ self.now }
    {
        ProviderIter {
            rest: self.0.as_slice(),
        }
    }

    /// The bytes, four for each provider.
    #[inline(always)]
    pub fn as_slice(&self) -> &[u8]
        ensures bytes { result.now ≡ words self.now }
        ensures fits { AreProviders self.now }
    {
        self.0.as_slice()
    }

    /// Another handle to the same providers. It shares their bytes, so nothing is allocated;
    /// `AllocError` comes if the count of handles is at its maximum.
    pub fn clone(&self) -> Result<Self, AllocError>
        ensures { IfOk result (λ p. p ≡ self.now) }
    {
        let bytes = self.0.clone()?;
        Ok(ProviderAsns(bytes))
    }
}

/// The next item.
fn next_of<I: Iterator<Item = Asn>>(iter: &mut I) -> Option<Asn>
    requires { I.can_next iter.old }
    ensures steps { I.next_gives iter.old result iter.new }
    ensures keeps { OnSome result (I.can_next iter.new) }
{
    iter.next()
}

impl fmt::Debug for ProviderAsns {
    fn fmt<W: fmt::Write>(&self, f: &mut fmt::Formatter<W>) -> fmt::Result {
        f.debug_list().entries(self.iter()).finish()
    }
}

impl PartialEq for ProviderAsns {
    ghost eq = { pointwise nat_eq };

    ghost laws = { partial_equiv_from_equiv nat_list_eq_equiv };

    fn eq(&self, other: &Self) -> bool {
        self.0 == other.0
    }
}

impl Eq for ProviderAsns {
    ghost laws = { nat_list_eq_equiv };
}

impl PartialOrd for ProviderAsns {
    ghost partial_cmp = { λ x y. Some (slice_cmp nat_cmp x y) };

    ghost laws = { texts_po };

    fn partial_cmp(&self, other: &Self) -> Option<Ordering> {
        Some(self.cmp(other))
    }
}

impl Ord for ProviderAsns {
    ghost cmp = { slice_cmp nat_cmp };

    ghost total = { nat_list_cmp_total };

    ghost matches_partial_cmp = { λ x y. refl };

    ghost matches_eq = { texts_ties };

    fn cmp(&self, other: &Self) -> Ordering {
        self.0.cmp(&other.0)
    }
}

impl Hash for ProviderAsns {
    ghost hash_input = { λ p. fed.slice fed.u8 (words p) };

    ghost respects_eq = { Prim.search (hashing, rules) };

    fn hash<H: Hasher>(&self, state: &mut H) {
        self.0.hash(state);
    }
}

/// The ASNs of providers, in their order.
#[derive(Drop)]
pub struct ProviderIter<'a> {
    rest: &'a [u8],
}

impl<'a> Model for ProviderIter<'a> {
    ghost use Rattle.std.specs.Prelude.{ℕ, List};
    ghost use Rattle.rtr_payload.specs.Providers.{words_of};

    ghost Value = { List ℕ };

    ghost view = { λ a. words_of a.rest.now };
}

/// Writes the ASNs that are left, as a list.
impl<'a> fmt::Debug for ProviderIter<'a> {
    fn fmt<W: fmt::Write>(&self, f: &mut fmt::Formatter<W>) -> fmt::Result {
        f.debug_list()
            .entries(ProviderIter { rest: self.rest })
            .finish()
    }
}

impl<'a> Iterator for ProviderIter<'a> {
    type Item = Asn;

    ghost next_gives = { YieldsFirst (λ asns. asns) };

    ghost remaining = { item_count (λ asns. asns) };

    fn next(&mut self) -> Option<Asn> {
        let (first, rest) = self.rest.split_first_chunk::<4>()?;
        self.rest = rest;
        Some(Asn::from_u32(u32::from_be_bytes(*first)))
    }
}
