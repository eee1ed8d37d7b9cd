//! The router key unit (RFC 8210 section 5.10).

ghost use Rattle.std.specs.Prelude.{◌≡◌, ◌≤◌, length, replicate, refl};
ghost use Rattle.std.proofs.Common.{inl, rules};
ghost use Rattle.rtr_payload.specs.declared.pdu.key_info.TheConstants.{MAX_LEN as MOST};
ghost use Rattle.rtr_payload.specs.declared.pdu.router_key.TheConstants.{PDU as KEY_TYPE};
ghost use Rattle.rtr_payload.specs.declared.pdu.router_key.TheConstants.{FIXED as KEY_FIXED};
ghost use Rattle.rtr_payload.specs.KeyUnits.{key_at};
ghost use Rattle.rtr_payload.specs.Payloads.{IsKey, key};
ghost use Rattle.rtr_payload.specs.Units.{form};
ghost use Rattle.rtr_payload.specs.UnitFields.{key_unit};

use super::key_info::{MAX_LEN, RouterKeyInfo};
use super::variable_unit::{Body, VariableUnit, flagged_parts};
use bytes::Bytes;
use rtr_base::action::Action;
use rtr_base::asn::Asn;
use rtr_units::fault::Fault;
use rtr_units::header::{Header, MAX_SIZE};
use rtr_units::numbers::u32_at;
use std::alloc::AllocError;

/// The type of a router key.
pub const PDU: u8 = 9;

/// The size in bytes of the fixed part of a router key, before its key info.
pub const FIXED: usize = 32;

/// A router key: `FIXED` bytes and its key info.
///
/// Faults of its header, in this order: `TooLong` above length 65535; `UnitLength` below `FIXED`.
pub type RouterKey = VariableUnit<FIXED, RouterKeyInfo>;

impl Body<FIXED> for RouterKeyInfo {
    ghost items = { λ k. k };

    ghost valid = { λ k. length k ≤ MOST };

    ghost is_body = { λ b. length b ≤ MOST };

    ghost fields = { λ u. key_unit (key_at u) };

    ghost PDU = { KEY_TYPE };

    ghost SMALLEST_VERSION = { 1 };

    const PDU: u8 = RouterKey::PDU;

    const SMALLEST_VERSION: u8 = 1;

    const NAME: &'static str = "RouterKey";

    #[inline(always)]
    fn check_header(header: Header) -> Result<(), Fault> {
        let size = header.length();
        if size > MAX_SIZE {
            return Err(Fault::TooLong);
        }
        if size < FIXED as u32 {
            return Err(Fault::UnitLength);
        }
        Ok(())
    }

    #[inline(always)]
    fn from_bytes(frame: Bytes) -> Self {
        RouterKeyInfo::within_limit(frame)
    }

    #[inline(always)]
    fn as_slice(&self) -> &[u8] {
        self.as_slice()
    }

    fn clone(&self) -> Result<Self, AllocError> {
        self.clone()
    }

    #[inline(always)]
    fn form_parts(version: u8, unit: &[u8]) -> ([u8; 8], &[u8]) {
        let action = Action::from_flags(unit[2]);
        flagged_parts(version, RouterKey::PDU, action, &unit[8..])
    }

    ghost kinds = { inl refl };

    ghost meant = { λ u. (tt, refl, refl) };

    ghost sized = { Prim.search rules };
}

impl RouterKey {
    /// The type of a router key.
    pub const PDU: u8 = PDU;

    /// The size in bytes of the fixed part of a router key, before its key info.
    pub const FIXED: usize = FIXED;

    /// The greatest number of bytes of key info in a router key, by its length field. A key that is
    /// read has at most 65503.
    pub const fn max_key_info_size() -> usize
        ensures { result ≡ 4294967263 }
    {
        MAX_LEN
    }

    /// The unit with these fields.
    #[inline(always)]
    pub fn new(
        version: u8,
        flags: u8,
        key_identifier: [u8; 20],
        asn: Asn,
        key_info: RouterKeyInfo,
    ) -> Self
        ensures form { result ≡ form version flags (key (record {
          identifier = key_identifier;
          asn = asn;
          info = key_info;
        })) }
        ensures valid { IsKey (record { identifier = key_identifier; asn = asn; info = key_info }) }
    {
        let size = (FIXED + key_info.len()) as u32;
        let mut fixed = [0; FIXED];
        fixed[..4].copy_from_slice(&[version, RouterKey::PDU, flags, 0]);
        fixed[4..8].copy_from_slice(&size.to_be_bytes());
        fixed[28..].copy_from_slice(&asn.into_u32().to_be_bytes());
        fixed[8..28].copy_from_slice(&key_identifier);
        VariableUnit::from_parts(fixed, key_info)
    }

    /// The subject key identifier.
    pub fn key_identifier(&self) -> [u8; 20]
        ensures value { result ≡ (key_at self.now).key.identifier }
        ensures size { length result ≡ 20 }
    {
        let mut identifier = [0; 20];
        identifier.copy_from_slice(&self.as_partial_slice()[8..28]);
        identifier
    }

    /// The autonomous system of the key.
    pub fn asn(&self) -> Asn
        ensures { result ≡ (key_at self.now).key.asn }
    {
        Asn::from_u32(u32_at(self.as_partial_slice(), 28))
    }

    /// The key info.
    #[inline(always)]
    pub fn key_info(&self) -> &RouterKeyInfo
        ensures { result.now ≡ (key_at self.now).key.info }
    {
        self.body()
    }

    /// The key info, by value.
    pub fn into_key_info(self) -> RouterKeyInfo
        ensures { result ≡ (key_at self).key.info }
    {
        self.into_body()
    }
}
