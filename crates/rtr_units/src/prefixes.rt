//! Prefix units (RFC 6810 and RFC 8210 sections 5.6 and 5.7).

ghost use Rattle.std.specs.Prelude.{◌≡◌};
ghost use Rattle.std.specs.Net.Addr.{ipv4_bits, ipv6_bits};
ghost use Rattle.rtr_base.specs.Addresses.{v4, v6};
ghost use Rattle.rtr_units.specs.FixedUnits.{fixed_bytes};
ghost use Rattle.rtr_units.specs.PrefixUnits.{prefix_list, prefix_at};

use crate::fixed_unit::FixedUnit;
use crate::numbers::{u32_at, u128_at, u128_bytes};
use crate::unit::Unit;
use rtr_base::asn::Asn;
use std::net::{Ipv4Addr, Ipv6Addr};

/// An IPv4 prefix (RFC 8210 section 5.6): 20 bytes.
pub type Ipv4Prefix = FixedUnit<4, 20>;

impl Ipv4Prefix {
    /// The type of the unit.
    pub const PDU: u8 = 4;

    /// The unit with these fields. The lengths are not checked.
    #[inline(always)]
    pub fn new(
        version: u8,
        flags: u8,
        prefix_len: u8,
        max_len: u8,
        prefix: Ipv4Addr,
        asn: Asn,
    ) -> Self
        ensures { fixed_bytes result ≡ prefix_list (record {
          version = version;
          session = 0;
          flags = flags;
          free = 0;
          origin = record {
            family = v4;
            address = ipv4_bits prefix;
            prefix_len = prefix_len;
            max_len = max_len;
            asn = asn;
          };
        }) }
    {
        let (bits, asn) = (prefix.to_bits(), asn.into_u32());
        Ipv4Prefix::from_bits(version, flags, prefix_len, max_len, bits, asn)
    }

    /// As `new`, with the address and the ASN as numbers.
    #[inline]
    pub fn from_bits(
        version: u8,
        flags: u8,
        prefix_len: u8,
        max_len: u8,
        prefix: u32,
        asn: u32,
    ) -> Self
        ensures { fixed_bytes result ≡ prefix_list (record {
          version = version;
          session = 0;
          flags = flags;
          free = 0;
          origin = record {
            family = v4;
            address = prefix;
            prefix_len = prefix_len;
            max_len = max_len;
            asn = asn;
          };
        }) }
    {
        let mut bytes = [0; 20];
        let front = [version, 4, 0, 0, 0, 0, 0, 20, flags, prefix_len, max_len, 0];
        bytes[..12].copy_from_slice(&front);
        bytes[12..16].copy_from_slice(&prefix.to_be_bytes());
        bytes[16..].copy_from_slice(&asn.to_be_bytes());
        FixedUnit::of(bytes)
    }

    /// The flags. If the lowest bit is set, the unit announces.
    #[inline(always)]
    pub fn flags(&self) -> u8
        ensures { result ≡ (prefix_at v4 (fixed_bytes self.now)).flags }
    {
        self.as_ref()[8]
    }

    /// The length of the prefix.
    #[inline(always)]
    pub fn prefix_len(&self) -> u8
        ensures { result ≡ (prefix_at v4 (fixed_bytes self.now)).origin.prefix_len }
    {
        self.as_ref()[9]
    }

    /// The max length: the longest prefix length that may be announced.
    #[inline(always)]
    pub fn max_len(&self) -> u8
        ensures { result ≡ (prefix_at v4 (fixed_bytes self.now)).origin.max_len }
    {
        self.as_ref()[10]
    }

    /// The address, with its host bits as they came.
    #[inline(always)]
    #[tactic(auto, using(crate::proofs::Addresses::ipv4_of_bits))]
    pub fn prefix(&self) -> Ipv4Addr
        ensures { ipv4_bits result ≡ (prefix_at v4 (fixed_bytes self.now)).origin.address }
    {
        Ipv4Addr::from_bits(self.prefix_bits())
    }

    /// The address as a number, with its host bits as they came.
    #[inline(always)]
    pub fn prefix_bits(&self) -> u32
        ensures { result ≡ (prefix_at v4 (fixed_bytes self.now)).origin.address }
    {
        u32_at(self.as_ref(), 12)
    }

    /// The autonomous system.
    #[inline(always)]
    pub fn asn(&self) -> Asn
        ensures { result ≡ (prefix_at v4 (fixed_bytes self.now)).origin.asn }
    {
        Asn::from_u32(u32_at(self.as_ref(), 16))
    }
}

/// An IPv6 prefix (RFC 8210 section 5.7): 32 bytes.
pub type Ipv6Prefix = FixedUnit<6, 32>;

impl Ipv6Prefix {
    /// The type of the unit.
    pub const PDU: u8 = 6;

    /// The unit with these fields. The lengths are not checked.
    #[inline(always)]
    pub fn new(
        version: u8,
        flags: u8,
        prefix_len: u8,
        max_len: u8,
        prefix: Ipv6Addr,
        asn: Asn,
    ) -> Self
        ensures { fixed_bytes result ≡ prefix_list (record {
          version = version;
          session = 0;
          flags = flags;
          free = 0;
          origin = record {
            family = v6;
            address = ipv6_bits prefix;
            prefix_len = prefix_len;
            max_len = max_len;
            asn = asn;
          };
        }) }
    {
        let (bits, asn) = (prefix.to_bits(), asn.into_u32());
        Ipv6Prefix::from_bits(version, flags, prefix_len, max_len, bits, asn)
    }

    /// As `new`, with the address and the ASN as numbers.
    #[inline]
    pub fn from_bits(
        version: u8,
        flags: u8,
        prefix_len: u8,
        max_len: u8,
        prefix: u128,
        asn: u32,
    ) -> Self
        ensures { fixed_bytes result ≡ prefix_list (record {
          version = version;
          session = 0;
          flags = flags;
          free = 0;
          origin = record {
            family = v6;
            address = prefix;
            prefix_len = prefix_len;
            max_len = max_len;
            asn = asn;
          };
        }) }
    {
        let mut bytes = [0; 32];
        let front = [version, 6, 0, 0, 0, 0, 0, 32, flags, prefix_len, max_len, 0];
        bytes[..12].copy_from_slice(&front);
        bytes[12..28].copy_from_slice(&u128_bytes(prefix));
        bytes[28..].copy_from_slice(&asn.to_be_bytes());
        FixedUnit::of(bytes)
    }

    /// The flags. If the lowest bit is set, the unit announces.
    #[inline(always)]
    pub fn flags(&self) -> u8
        ensures { result ≡ (prefix_at v6 (fixed_bytes self.now)).flags }
    {
        self.as_ref()[8]
    }

    /// The length of the prefix.
    #[inline(always)]
    pub fn prefix_len(&self) -> u8
        ensures { result ≡ (prefix_at v6 (fixed_bytes self.now)).origin.prefix_len }
    {
        self.as_ref()[9]
    }

    /// The max length: the longest prefix length that may be announced.
    #[inline(always)]
    pub fn max_len(&self) -> u8
        ensures { result ≡ (prefix_at v6 (fixed_bytes self.now)).origin.max_len }
    {
        self.as_ref()[10]
    }

    /// The address, with its host bits as they came.
    #[inline(always)]
    #[tactic(auto, using(crate::proofs::Addresses::ipv6_of_bits))]
    pub fn prefix(&self) -> Ipv6Addr
        ensures { ipv6_bits result ≡ (prefix_at v6 (fixed_bytes self.now)).origin.address }
    {
        Ipv6Addr::from_bits(self.prefix_bits())
    }

    /// The address as a number, with its host bits as they came.
    #[inline(always)]
    pub fn prefix_bits(&self) -> u128
        ensures { result ≡ (prefix_at v6 (fixed_bytes self.now)).origin.address }
    {
        u128_at(self.as_ref(), 12)
    }

    /// The autonomous system.
    #[inline(always)]
    pub fn asn(&self) -> Asn
        ensures { result ≡ (prefix_at v6 (fixed_bytes self.now)).origin.asn }
    {
        Asn::from_u32(u32_at(self.as_ref(), 28))
    }
}
