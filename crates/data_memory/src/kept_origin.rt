//! A compact route origin.

ghost use Rattle.std.specs.Prelude.{◌≡◌, refl};
ghost use Rattle.std.specs.Ordering.{as_partial_cmp, eq_by_cmp, nat_cmp, on};
ghost use Rattle.rtr_base.specs.Addresses.{prefix_cmp, resolved_len};
ghost use Rattle.rtr_payload.specs.Meanings.{origin_of};
ghost use Rattle.rtr_payload.specs.OrderLaws.{meant_equiv, meant_partial_equiv};
ghost use Rattle.rtr_payload.specs.OrderLaws.{meant_partial_order, meant_total};
ghost use Rattle.rtr_payload.specs.Orders.{payload_cmp};

use rtr_base::addr::{MaxLenPrefix, Prefix};
use rtr_base::asn::Asn;
use rtr_payload::payload::RouteOrigin;
use std::cmp::Ordering;
use std::marker::Model;

/// A route origin as `Data` stores it. It takes 24 bytes; a `RouteOrigin` takes 64, since its
/// address is a `u128`, aligned to 16 bytes. Here the address is in two halves.
#[derive(Clone, Copy)]
pub struct KeptOrigin {
    high: u64,
    low: u64,
    asn: Asn,
    is_v4: bool,
    len: u8,
    max_len: Option<u8>,
}

impl Model for KeptOrigin {
    ghost use Rattle.std.specs.Prelude.{◌≡◌, ◌+◌, ◌*◌, ◌/◌, ◌%◌, ◌^◌, Bool, true, false, refl};
    ghost use Rattle.std.proofs.Common.{ap};
    ghost use Rattle.rtr_base.specs.Addresses.{IsMaxLenPrefix, family_of, v4_test};
    ghost use Rattle.rtr_payload.specs.declared.payload.RouteOrigin.{RouteOrigin};

    ghost Value = { RouteOrigin };

    ghost view = { λ a. record {
      prefix = record {
        prefix = record {
          family = family_of a.is_v4;
          address = a.high * 2 ^ 64 + a.low;
          len = a.len;
        };
        max_len = a.max_len;
      };
      asn = a.asn;
    } };

    // The halves are those of the number, and the lengths are in order.
    ghost invariant = { λ a.
        ((a.high * 2 ^ 64 + a.low) / 2 ^ 64 ≡ a.high) ×
        ((a.high * 2 ^ 64 + a.low) % 2 ^ 64 ≡ a.low) ×
        IsMaxLenPrefix (record {
          prefix = record {
            family = family_of a.is_v4;
            address = a.high * 2 ^ 64 + a.low;
            len = a.len;
          };
          max_len = a.max_len;
        }) };

    ghost inverse = { λ o. record {
      high = o.prefix.prefix.address / 2 ^ 64;
      low = o.prefix.prefix.address % 2 ^ 64;
      asn = o.asn;
      is_v4 = v4_test o.prefix.prefix.family;
      len = o.prefix.prefix.len;
      max_len = o.prefix.max_len;
    } };

    ghost inverse_ok = { λ a h i. record a {
      high = h.0 i;
      low = h.1 i;
      is_v4 = (elim (a.is_v4) as (λ b. v4_test (family_of b) ≡ b)
          [ true ↦ refl | false ↦ refl ]) i;
    } };
}

impl KeptOrigin {
    /// The origin.
    #[inline(always)]
    pub fn get(self) -> RouteOrigin
        ensures { result ≡ self }
    {
        let bits = self.bits();
        let prefix = if self.is_v4 {
            Prefix::from_v4_bits(bits as u32, self.len)
        } else {
            Prefix::from_v6_bits(bits, self.len)
        };
        let Ok(prefix) = prefix else { unreachable!() };
        let Ok(prefix) = MaxLenPrefix::new(prefix, self.max_len) else {
            unreachable!()
        };
        RouteOrigin::new(prefix, self.asn)
    }

    /// Compares the prefixes as `Prefix` does, without constructing them: for most pairs the
    /// address decides.
    #[inline(always)]
    fn compare_prefixes(&self, other: &Self) -> Ordering
        ensures { result ≡ prefix_cmp self.now.prefix.prefix other.now.prefix.prefix }
    {
        if self.is_v4 != other.is_v4 {
            return other.is_v4.cmp(&self.is_v4);
        }
        let by_address = self.compare_addresses(other);
        if by_address.is_ne() {
            return by_address;
        }
        self.len.cmp(&other.len)
    }

    /// Compares the addresses as numbers: the first halves decide, or else the second ones.
    #[inline(always)]
    fn compare_addresses(&self, other: &Self) -> Ordering
        ensures { result ≡
            nat_cmp self.now.prefix.prefix.address other.now.prefix.prefix.address }
    {
        if self.high != other.high {
            return self.high.cmp(&other.high);
        }
        self.low.cmp(&other.low)
    }

    /// The address as a number.
    #[inline(always)]
    fn bits(&self) -> u128
        ensures { result ≡ self.now.prefix.prefix.address }
    {
        ((self.high as u128) << 64) + self.low as u128
    }

    /// The longest prefix length that may be announced.
    #[inline(always)]
    fn resolved_max_len(&self) -> u8
        ensures { result ≡ resolved_len self.now.prefix }
    {
        self.max_len.unwrap_or(self.len)
    }
}

impl From<RouteOrigin> for KeptOrigin {
    ghost from_gives = { λ origin kept. kept ≡ origin };

    #[inline(always)]
    fn from(origin: RouteOrigin) -> Self {
        let prefix = origin.prefix.prefix();
        let bits = prefix.bits();
        KeptOrigin {
            high: (bits >> 64) as u64,
            low: (bits % (1 << 64)) as u64,
            asn: origin.asn,
            is_v4: prefix.is_v4(),
            len: prefix.len(),
            max_len: origin.prefix.max_len(),
        }
    }
}

impl PartialEq for KeptOrigin {
    ghost eq = { on origin_of (eq_by_cmp payload_cmp) };

    ghost laws = { meant_partial_equiv origin_of };

    fn eq(&self, other: &Self) -> bool {
        self.cmp(other).is_eq()
    }
}

impl Eq for KeptOrigin {
    ghost laws = { meant_equiv origin_of };
}

impl PartialOrd for KeptOrigin {
    ghost partial_cmp = { on origin_of (as_partial_cmp payload_cmp) };

    ghost laws = { meant_partial_order origin_of };

    fn partial_cmp(&self, other: &Self) -> Option<Ordering> {
        Some(self.cmp(other))
    }
}

/// Ordered as `RouteOrigin` is.
impl Ord for KeptOrigin {
    ghost cmp = { on origin_of payload_cmp };

    ghost total = { meant_total origin_of };

    ghost matches_partial_cmp = { λ _ _. refl };

    ghost matches_eq = { λ _ _. refl };

    fn cmp(&self, other: &Self) -> Ordering {
        let by_prefix = self.compare_prefixes(other);
        if by_prefix.is_ne() {
            return by_prefix;
        }
        self.resolved_max_len()
            .cmp(&other.resolved_max_len())
            .then(self.asn.cmp(&other.asn))
    }
}
