//! The parts of data, over all of which the same code iterates.

ghost use Rattle.std.specs.Prelude.{◌≡◌, [], ◌∷◌, List, map, IfOk};
ghost use Rattle.std.specs.Map.Iter.{TakesFirst};
ghost use Rattle.std.specs.declared.cmp.Ordering.TheVariants.{Equal};
ghost use Rattle.rtr_base.specs.declared.action.Action.TheVariants.{Announce};
ghost use Rattle.rtr_payload.specs.Meanings.{key_of, origin_of, payload_of};
ghost use Rattle.rtr_payload.specs.Payloads.{Payload};
ghost use Rattle.data_memory.specs.Contents.{entry_of};
ghost use Rattle.data_memory.specs.Data.{name_cmp};
ghost use Rattle.diff_work.specs.PrivateChanges.{is_changed};

use data_memory::KeptOrigin;
use rtr_base::asn::Asn;
use rtr_payload::payload;
use rtr_payload::pdu::ProviderAsns;
use std::alloc::AllocError;
use std::cmp::Ordering;
use std::collections::{btree_map, btree_set};

/// A part of data to iterate over: its origins, its router keys or its ASPAs.
pub trait Part: Drop {
    /// A payload, borrowed from the data.
    type Lent: Copy;

    /// The meaning of such a payload.
    ghost meant: { Self.Lent → Payload };

    /// The payloads that are left.
    ghost left: { Self → List Payload };

    /// Takes the next payload.
    fn next_lent(&mut self) -> Option<Self::Lent>
        ensures { TakesFirst meant (left self.old) result (left self.new) };

    /// Compares the names of two payloads: the name of an ASPA is its customer.
    fn compare_names(one: Self::Lent, other: Self::Lent) -> Ordering
        ensures { result ≡ name_cmp (meant one) (meant other) };

    /// Reports whether the announcement of a payload changes another one of its name: an ASPA with
    /// other providers.
    fn replaces(one: Self::Lent, other: Self::Lent) -> bool
        requires { name_cmp (meant one) (meant other) ≡ Equal }
        ensures { result ≡ is_changed Announce (meant other ∷ []) (meant one) };

    /// The payload as an owned value that shares the bytes, so nothing is allocated; it returns
    /// `AllocError` if the count of handles is at its maximum.
    fn payload(lent: Self::Lent) -> Result<payload::Payload, AllocError>
        ensures { IfOk result (λ p. payload_of p ≡ meant lent) };
}

impl<'a> Part for btree_set::Iter<'a, KeptOrigin> {
    type Lent = &'a KeptOrigin;

    ghost meant = { λ o. origin_of o.now };

    ghost left = { λ s. map origin_of s };

    #[inline(always)]
    fn next_lent(&mut self) -> Option<&'a KeptOrigin> {
        self.next()
    }

    #[inline(always)]
    fn compare_names(one: &'a KeptOrigin, other: &'a KeptOrigin) -> Ordering {
        one.cmp(other)
    }

    #[inline(always)]
    fn replaces(_one: &'a KeptOrigin, _other: &'a KeptOrigin) -> bool {
        false
    }

    #[inline(always)]
    fn payload(lent: &'a KeptOrigin) -> Result<payload::Payload, AllocError> {
        Ok(payload::Payload::Origin(lent.get()))
    }
}

impl<'a> Part for btree_set::Iter<'a, payload::RouterKey> {
    type Lent = &'a payload::RouterKey;

    ghost meant = { λ k. key_of k.now };

    ghost left = { λ s. map key_of s };

    fn next_lent(&mut self) -> Option<&'a payload::RouterKey> {
        self.next()
    }

    fn compare_names(one: &'a payload::RouterKey, other: &'a payload::RouterKey) -> Ordering {
        one.cmp(other)
    }

    fn replaces(_one: &'a payload::RouterKey, _other: &'a payload::RouterKey) -> bool {
        false
    }

    fn payload(lent: &'a payload::RouterKey) -> Result<payload::Payload, AllocError> {
        Ok(payload::Payload::RouterKey(lent.clone()?))
    }
}

impl<'a> Part for btree_map::Iter<'a, Asn, ProviderAsns> {
    type Lent = (&'a Asn, &'a ProviderAsns);

    ghost meant = { λ e. entry_of (e.0.now, e.1.now) };

    ghost left = { λ s. map entry_of s };

    fn next_lent(&mut self) -> Option<(&'a Asn, &'a ProviderAsns)> {
        self.next()
    }

    fn compare_names(
        one: (&'a Asn, &'a ProviderAsns),
        other: (&'a Asn, &'a ProviderAsns),
    ) -> Ordering {
        one.0.cmp(other.0)
    }

    fn replaces(one: (&'a Asn, &'a ProviderAsns), other: (&'a Asn, &'a ProviderAsns)) -> bool {
        *one.1 != *other.1
    }

    fn payload(lent: (&'a Asn, &'a ProviderAsns)) -> Result<payload::Payload, AllocError> {
        let (customer, providers) = lent;
        let aspa = payload::Aspa::new(*customer, providers.clone()?);
        Ok(payload::Payload::Aspa(aspa))
    }
}
