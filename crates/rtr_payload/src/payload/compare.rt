//! Equality, order and hash of route origins, router keys, ASPAs and payloads, by what they mean:
//! an origin without a max length equals one whose max length is its prefix length.

ghost use Rattle.std.specs.Prelude.{◌≡◌, refl};
ghost use Rattle.std.proofs.Common.{arith};
ghost use Rattle.std.specs.Ordering.{as_partial_cmp, eq_by_cmp, on};
ghost use Rattle.rtr_payload.specs.Hashes.{part_writes, payload_writes};
ghost use Rattle.rtr_payload.specs.OrderLaws.{meant_equiv, meant_partial_equiv};
ghost use Rattle.rtr_payload.specs.OrderLaws.{meant_partial_order, meant_total, same_meant};
ghost use Rattle.rtr_payload.specs.Orders.{payload_cmp};
ghost use Rattle.rtr_payload.specs.Meanings.{aspa_of, key_of, origin_of, payload_of};
ghost use Rattle.rtr_payload.specs.Meanings.{payload_of_ref};

use super::{Aspa, Payload, PayloadRef, RouteOrigin, RouterKey};
use std::cmp::Ordering;
use std::hash::{Hash, Hasher};

impl PartialEq for RouteOrigin {
    ghost eq = { on origin_of (eq_by_cmp payload_cmp) };

    ghost laws = { meant_partial_equiv origin_of };

    fn eq(&self, other: &Self) -> bool {
        self.cmp(other).is_eq()
    }
}

impl Eq for RouteOrigin {
    ghost laws = { meant_equiv origin_of };
}

impl PartialOrd for RouteOrigin {
    ghost partial_cmp = { on origin_of (as_partial_cmp payload_cmp) };

    ghost laws = { meant_partial_order origin_of };

    fn partial_cmp(&self, other: &Self) -> Option<Ordering> {
        Some(self.cmp(other))
    }
}

/// By the prefix, then by the longest prefix length that may be announced, then by the ASN.
impl Ord for RouteOrigin {
    ghost cmp = { on origin_of payload_cmp };

    ghost total = { meant_total origin_of };

    ghost matches_partial_cmp = { λ _ _. refl };

    ghost matches_eq = { λ _ _. refl };

    fn cmp(&self, other: &Self) -> Ordering {
        let (left, right) = (self.prefix, other.prefix);
        let by_prefix = left.prefix().cmp(&right.prefix());
        if by_prefix.is_ne() {
            return by_prefix;
        }
        left.resolved_max_len()
            .cmp(&right.resolved_max_len())
            .then(self.asn.cmp(&other.asn))
    }
}

impl Hash for RouteOrigin {
    ghost hash_input = { λ value. part_writes (origin_of value) };

    ghost respects_eq = { λ a b e. let same = same_meant origin_of a b e in Prim.cc };

    fn hash<H: Hasher>(&self, state: &mut H) {
        self.prefix.prefix().hash(state);
        self.prefix.resolved_max_len().hash(state);
        self.asn.hash(state);
    }
}

impl PartialEq for RouterKey {
    ghost eq = { on key_of (eq_by_cmp payload_cmp) };

    ghost laws = { meant_partial_equiv key_of };

    fn eq(&self, other: &Self) -> bool {
        self.cmp(other).is_eq()
    }
}

impl Eq for RouterKey {
    ghost laws = { meant_equiv key_of };
}

impl PartialOrd for RouterKey {
    ghost partial_cmp = { on key_of (as_partial_cmp payload_cmp) };

    ghost laws = { meant_partial_order key_of };

    fn partial_cmp(&self, other: &Self) -> Option<Ordering> {
        Some(self.cmp(other))
    }
}

/// By the key identifier, then by the ASN, then by the key info.
impl Ord for RouterKey {
    ghost cmp = { on key_of payload_cmp };

    ghost total = { meant_total key_of };

    ghost matches_partial_cmp = { λ _ _. refl };

    ghost matches_eq = { λ _ _. refl };

    fn cmp(&self, other: &Self) -> Ordering {
        let by_number = self
            .key_identifier
            .cmp(&other.key_identifier)
            .then(self.asn.cmp(&other.asn));
        if by_number.is_ne() {
            return by_number;
        }
        self.key_info.cmp(&other.key_info)
    }
}

impl Hash for RouterKey {
    ghost hash_input = { λ value. part_writes (key_of value) };

    ghost respects_eq = { λ a b e. let same = same_meant key_of a b e in Prim.cc };

    fn hash<H: Hasher>(&self, state: &mut H) {
        self.key_identifier.hash(state);
        self.asn.hash(state);
        self.key_info.hash(state);
    }
}

impl PartialEq for Aspa {
    ghost eq = { on aspa_of (eq_by_cmp payload_cmp) };

    ghost laws = { meant_partial_equiv aspa_of };

    fn eq(&self, other: &Self) -> bool {
        self.cmp(other).is_eq()
    }
}

impl Eq for Aspa {
    ghost laws = { meant_equiv aspa_of };
}

impl PartialOrd for Aspa {
    ghost partial_cmp = { on aspa_of (as_partial_cmp payload_cmp) };

    ghost laws = { meant_partial_order aspa_of };

    fn partial_cmp(&self, other: &Self) -> Option<Ordering> {
        Some(self.cmp(other))
    }
}

/// By the customer, then by the providers in their order.
impl Ord for Aspa {
    ghost cmp = { on aspa_of payload_cmp };

    ghost total = { meant_total aspa_of };

    ghost matches_partial_cmp = { λ _ _. refl };

    ghost matches_eq = { λ _ _. refl };

    fn cmp(&self, other: &Self) -> Ordering {
        let by_customer = self.customer.cmp(&other.customer);
        if by_customer.is_ne() {
            return by_customer;
        }
        self.providers.cmp(&other.providers)
    }
}

impl Hash for Aspa {
    ghost hash_input = { λ value. part_writes (aspa_of value) };

    ghost respects_eq = { λ a b e. let same = same_meant aspa_of a b e in Prim.cc };

    fn hash<H: Hasher>(&self, state: &mut H) {
        self.customer.hash(state);
        self.providers.hash(state);
    }
}

impl PartialEq for Payload {
    ghost eq = { on payload_of (eq_by_cmp payload_cmp) };

    ghost laws = { meant_partial_equiv payload_of };

    fn eq(&self, other: &Self) -> bool {
        self.cmp(other).is_eq()
    }
}

impl Eq for Payload {
    ghost laws = { meant_equiv payload_of };
}

impl PartialOrd for Payload {
    ghost partial_cmp = { on payload_of (as_partial_cmp payload_cmp) };

    ghost laws = { meant_partial_order payload_of };

    fn partial_cmp(&self, other: &Self) -> Option<Ordering> {
        Some(self.cmp(other))
    }
}

/// Origins come before router keys, and these before ASPAs.
impl Ord for Payload {
    ghost cmp = { on payload_of payload_cmp };

    ghost total = { meant_total payload_of };

    ghost matches_partial_cmp = { λ _ _. refl };

    ghost matches_eq = { λ _ _. refl };

    fn cmp(&self, other: &Self) -> Ordering {
        self.as_ref().cmp(&other.as_ref())
    }
}

impl Hash for Payload {
    ghost hash_input = { λ value. payload_writes (payload_of value) };

    ghost respects_eq = { λ a b e. let same = same_meant payload_of a b e in Prim.grind arith };

    fn hash<H: Hasher>(&self, state: &mut H) {
        self.as_ref().hash(state);
    }
}

impl<'a> PartialEq for PayloadRef<'a> {
    ghost eq = { on payload_of_ref (eq_by_cmp payload_cmp) };

    ghost laws = { meant_partial_equiv payload_of_ref };

    fn eq(&self, other: &Self) -> bool {
        self.cmp(other).is_eq()
    }
}

impl<'a> Eq for PayloadRef<'a> {
    ghost laws = { meant_equiv payload_of_ref };
}

impl<'a> PartialOrd for PayloadRef<'a> {
    ghost partial_cmp = { on payload_of_ref (as_partial_cmp payload_cmp) };

    ghost laws = { meant_partial_order payload_of_ref };

    fn partial_cmp(&self, other: &Self) -> Option<Ordering> {
        Some(self.cmp(other))
    }
}

/// Origins come before router keys, and these before ASPAs.
impl<'a> Ord for PayloadRef<'a> {
    ghost cmp = { on payload_of_ref payload_cmp };

    ghost total = { meant_total payload_of_ref };

    ghost matches_partial_cmp = { λ _ _. refl };

    ghost matches_eq = { λ _ _. refl };

    fn cmp(&self, other: &Self) -> Ordering {
        match (self, other) {
            (PayloadRef::Origin(left), PayloadRef::Origin(right)) => left.cmp(right),
            (PayloadRef::Origin(_), _) => Ordering::Less,
            (_, PayloadRef::Origin(_)) => Ordering::Greater,
            (PayloadRef::RouterKey(left), PayloadRef::RouterKey(right)) => left.cmp(right),
            (PayloadRef::RouterKey(_), PayloadRef::Aspa(_)) => Ordering::Less,
            (PayloadRef::Aspa(_), PayloadRef::RouterKey(_)) => Ordering::Greater,
            (PayloadRef::Aspa(left), PayloadRef::Aspa(right)) => left.cmp(right),
        }
    }
}

impl<'a> Hash for PayloadRef<'a> {
    ghost hash_input = { λ value. payload_writes (payload_of_ref value) };

    ghost respects_eq = { λ a b e. let same = same_meant payload_of_ref a b e in Prim.grind arith };

    fn hash<H: Hasher>(&self, state: &mut H) {
        match self {
            PayloadRef::Origin(origin) => {
                state.write_u8(0);
                origin.hash(state);
            }
            PayloadRef::RouterKey(key) => {
                state.write_u8(1);
                key.hash(state);
            }
            PayloadRef::Aspa(aspa) => {
                state.write_u8(2);
                aspa.hash(state);
            }
        }
    }
}
