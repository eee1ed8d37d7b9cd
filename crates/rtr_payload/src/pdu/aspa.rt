//! The ASPA unit (as in the Rust crate).

ghost use Rattle.std.specs.Prelude.{◌≡◌, length, replicate, refl};
ghost use Rattle.std.proofs.Common.{inr, rules};
ghost use Rattle.rtr_base.specs.Bytes.{words};
ghost use Rattle.rtr_payload.specs.AspaUnits.{aspa_at};
ghost use Rattle.rtr_payload.specs.declared.pdu.aspa.TheConstants.{PDU as ASPA_TYPE};
ghost use Rattle.rtr_payload.specs.declared.pdu.aspa.TheConstants.{FIXED as ASPA_FIXED};
ghost use Rattle.rtr_payload.specs.Payloads.{IsAspa, aspa};
ghost use Rattle.rtr_payload.specs.Providers.{AreProviderBytes};
ghost use Rattle.rtr_payload.specs.Payloads.{AreProviders};
ghost use Rattle.rtr_payload.specs.UnitFields.{aspa_unit};
ghost use Rattle.rtr_payload.specs.Units.{form};

use super::providers::ProviderAsns;
use super::variable_unit::{Body, VariableUnit, flagged_parts};
use bytes::Bytes;
use rtr_base::action::Action;
use rtr_base::asn::Asn;
use rtr_units::fault::Fault;
use rtr_units::header::{Header, MAX_SIZE};
use rtr_units::numbers::u32_at;
use std::alloc::AllocError;

/// The type of an ASPA unit.
pub const PDU: u8 = 11;

/// The size in bytes of the fixed part of an ASPA unit, before its providers.
pub const FIXED: usize = 12;

/// An ASPA unit: `FIXED` bytes and its providers, four bytes each.
///
/// Faults of its header, in this order: `TooLong` above length 65535; `UnitLength` if the length is
/// below `FIXED` or not a multiple of 4; `EmptyProviders` if it is announced with length `FIXED`.
pub type Aspa = VariableUnit<FIXED, ProviderAsns>;

impl Body<FIXED> for ProviderAsns {
    ghost items = { words };

    ghost valid = { AreProviders };

    ghost is_body = { AreProviderBytes };

    ghost fields = { λ u. aspa_unit (aspa_at u) };

    ghost PDU = { ASPA_TYPE };

    ghost SMALLEST_VERSION = { 2 };

    const PDU: u8 = Aspa::PDU;

    const SMALLEST_VERSION: u8 = 2;

    const NAME: &'static str = "Aspa";

    #[inline(always)]
    fn check_header(header: Header) -> Result<(), Fault> {
        let head = header.as_ref();
        let size = header.length();
        if size > MAX_SIZE {
            return Err(Fault::TooLong);
        }
        if size < FIXED as u32 || size % 4 != 0 {
            return Err(Fault::UnitLength);
        }
        if size == FIXED as u32 && head[2] % 2 == 1 {
            return Err(Fault::EmptyProviders);
        }
        Ok(())
    }

    #[inline(always)]
    fn from_bytes(frame: Bytes) -> Self {
        ProviderAsns::from_bytes(frame)
    }

    #[inline(always)]
    fn as_slice(&self) -> &[u8] {
        self.as_slice()
    }

    fn clone(&self) -> Result<Self, AllocError> {
        self.clone()
    }

    /// The providers of a withdrawal aren't part of the form.
    #[inline(always)]
    fn form_parts(version: u8, unit: &[u8]) -> ([u8; 8], &[u8]) {
        let action = Action::from_flags(unit[2]);
        let kept = match action {
            Action::Announce => unit.len(),
            Action::Withdraw => FIXED,
        };
        flagged_parts(version, Aspa::PDU, action, &unit[8..kept])
    }

    ghost kinds = { inr refl };

    ghost meant = { λ u. (tt, refl, refl) };

    ghost sized = { Prim.search rules };
}

impl Aspa {
    /// The type of an ASPA unit.
    pub const PDU: u8 = PDU;

    /// The size in bytes of the fixed part of an ASPA unit, before its providers.
    pub const FIXED: usize = FIXED;

    /// The unit with these fields.
    #[inline(always)]
    pub fn new(version: u8, flags: u8, customer: Asn, providers: ProviderAsns) -> Self
        ensures form { result ≡ form version flags
            (aspa (record { customer = customer; providers = providers })) }
        ensures valid { IsAspa (record { customer = customer; providers = providers }) }
    {
        let size = (FIXED + providers.len()) as u32;
        let mut fixed = [0; FIXED];
        fixed[..4].copy_from_slice(&[version, Aspa::PDU, flags, 0]);
        fixed[4..8].copy_from_slice(&size.to_be_bytes());
        fixed[8..].copy_from_slice(&customer.into_u32().to_be_bytes());
        VariableUnit::from_parts(fixed, providers)
    }

    /// The customer: the autonomous system whose providers these are.
    pub fn customer(&self) -> Asn
        ensures { result ≡ (aspa_at self.now).aspa.customer }
    {
        Asn::from_u32(u32_at(self.as_partial_slice(), 8))
    }

    /// The providers.
    #[inline(always)]
    pub fn providers(&self) -> &ProviderAsns
        ensures { result.now ≡ (aspa_at self.now).aspa.providers }
    {
        self.body()
    }

    /// The providers, by value.
    pub fn into_providers(self) -> ProviderAsns
        ensures { result ≡ (aspa_at self).aspa.providers }
    {
        self.into_body()
    }
}
