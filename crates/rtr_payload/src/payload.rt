//! What payload units mean: route origins, router keys and ASPAs.

ghost use Rattle.std.specs.Prelude.{◌≡◌, [], IfOk, IsOk, IsSome};
ghost use Rattle.std.specs.Option.{option_copied};
ghost use Rattle.rtr_base.specs.Addresses.{v4_test, IsMaxLenPrefix};
ghost use Rattle.rtr_payload.specs.Meanings.{aspa_in, kind_of, key_in, origin_in, referent};
ghost use Rattle.rtr_payload.specs.declared.payload.Payload.TheVariants as payloads;
ghost use Rattle.rtr_payload.specs.declared.payload.PayloadRef.TheVariants as lent;

mod compare;
pub mod laws;
mod texts;

use crate::pdu::{ProviderAsns, RouterKeyInfo};
use rtr_base::addr::MaxLenPrefix;
use rtr_base::asn::Asn;
use rtr_base::keys::KeyIdentifier;
use std::alloc::{AllocError, Global};

/// A route origin: an autonomous system and the prefixes that it may announce (RFC 8210 sections
/// 5.6 and 5.7).
///
/// An origin without a max length is equal to one whose max length is its prefix length.
#[derive(Clone, Copy, Debug)]
pub struct RouteOrigin {
    /// The prefix, and the longest prefix length that may be announced.
    pub prefix: MaxLenPrefix,
    /// The autonomous system.
    pub asn: Asn,
}

impl RouteOrigin {
    /// The origin of these parts.
    pub fn new(prefix: MaxLenPrefix, asn: Asn) -> Self
        ensures { result ≡ record { prefix = prefix; asn = asn } }
    {
        RouteOrigin { prefix, asn }
    }

    /// Whether the prefix is an IPv4 prefix.
    pub fn is_v4(self) -> bool
        ensures family { result ≡ v4_test self.prefix.prefix.family }
        ensures valid { IsMaxLenPrefix self.prefix }
    {
        self.prefix.prefix().is_v4()
    }
}

/// A router key (RFC 8210 section 5.10).
#[derive(Debug, Drop)]
pub struct RouterKey {
    /// The subject key identifier.
    pub key_identifier: KeyIdentifier,
    /// The autonomous system that may use the key.
    pub asn: Asn,
    /// The subject public key info.
    pub key_info: RouterKeyInfo,
}

impl RouterKey {
    /// The key of these parts.
    pub fn new(key_identifier: KeyIdentifier, asn: Asn, key_info: RouterKeyInfo) -> Self
        ensures { result ≡
            record { key_identifier = key_identifier; asn = asn; key_info = key_info } }
    {
        RouterKey {
            key_identifier,
            asn,
            key_info,
        }
    }

    /// Another handle to the same key. It shares the bytes of its info, so nothing is allocated; it
    /// returns `AllocError` if the count of handles is at its maximum.
    pub fn clone(&self) -> Result<Self, AllocError>
        ensures { IfOk result (λ k. k ≡ self.now) }
    {
        let key_info = self.key_info.clone()?;
        Ok(RouterKey::new(self.key_identifier, self.asn, key_info))
    }
}

/// An ASPA: a customer and its providers, whose order counts (as in the Rust crate).
///
/// To withdraw it, pass the result of `withdraw`: `pdu::Payload::new(2, 0, aspa.withdraw(alloc)?)`.
/// A unit made of the ASPA itself holds all its providers, even with even flags, where they have no
/// meaning.
#[derive(Debug, Drop)]
pub struct Aspa {
    /// The customer.
    pub customer: Asn,
    /// Its providers.
    pub providers: ProviderAsns,
}

impl Aspa {
    /// The ASPA of these parts.
    pub fn new(customer: Asn, providers: ProviderAsns) -> Self
        ensures { result ≡ record { customer = customer; providers = providers } }
    {
        Aspa {
            customer,
            providers,
        }
    }

    /// The key by which an ASPA is known: its customer.
    pub fn key(&self) -> Asn
        ensures { result ≡ self.now.customer }
    {
        self.customer
    }

    /// The withdrawal of the ASPA: the same customer, and no providers. It allocates nothing and
    /// never returns `AllocError`.
    pub fn withdraw(&self, alloc: Global) -> Result<Self, AllocError>
        ensures withdrawn { IfOk result
            (λ a. a ≡ record { customer = self.now.customer; providers = [] }) }
        ensures granted { IsOk result }
    {
        let providers = ProviderAsns::empty(alloc)?;
        Ok(Aspa::new(self.customer, providers))
    }

    /// Another handle to the same ASPA. It shares the bytes of its providers, so nothing is
    /// allocated; it returns `AllocError` if the count of handles is at its maximum.
    pub fn clone(&self) -> Result<Self, AllocError>
        ensures { IfOk result (λ a. a ≡ self.now) }
    {
        let providers = self.providers.clone()?;
        Ok(Aspa::new(self.customer, providers))
    }
}

/// The kinds of payload.
#[derive(Clone, Copy, Debug, PartialEq, Eq)]
pub enum PayloadType {
    /// A route origin.
    Origin,
    /// A router key.
    RouterKey,
    /// An ASPA.
    Aspa,
}

/// A payload of any kind.
#[derive(Debug, Drop)]
pub enum Payload {
    /// A route origin.
    Origin(RouteOrigin),
    /// A router key.
    RouterKey(RouterKey),
    /// An ASPA.
    Aspa(Aspa),
}

impl Payload {
    /// The route origin of these parts.
    pub fn origin(prefix: MaxLenPrefix, asn: Asn) -> Self
        ensures { result ≡ Payload.Origin (record { prefix = prefix; asn = asn }) }
    {
        Payload::Origin(RouteOrigin::new(prefix, asn))
    }

    /// The router key of these parts.
    pub fn router_key(key_identifier: KeyIdentifier, asn: Asn, key_info: RouterKeyInfo) -> Self
        ensures { result ≡ Payload.RouterKey
            (record { key_identifier = key_identifier; asn = asn; key_info = key_info }) }
    {
        Payload::RouterKey(RouterKey::new(key_identifier, asn, key_info))
    }

    /// The ASPA of these parts.
    pub fn aspa(customer: Asn, providers: ProviderAsns) -> Self
        ensures { result ≡ Payload.Aspa (record { customer = customer; providers = providers }) }
    {
        Payload::Aspa(Aspa::new(customer, providers))
    }

    /// The payload, borrowed.
    pub fn as_ref(&self) -> PayloadRef<'_>
        ensures { referent result ≡ self.now }
    {
        match self {
            Payload::Origin(origin) => PayloadRef::Origin(*origin),
            Payload::RouterKey(key) => PayloadRef::RouterKey(key),
            Payload::Aspa(aspa) => PayloadRef::Aspa(aspa),
        }
    }

    /// The kind of the payload.
    pub fn payload_type(&self) -> PayloadType
        ensures { result ≡ kind_of self.now }
    {
        match self {
            Payload::Origin(_) => PayloadType::Origin,
            Payload::RouterKey(_) => PayloadType::RouterKey,
            Payload::Aspa(_) => PayloadType::Aspa,
        }
    }

    /// The route origin, or none if the payload is of another kind.
    pub fn to_origin(&self) -> Option<RouteOrigin>
        ensures { result ≡ origin_in self.now }
    {
        match self {
            Payload::Origin(origin) => Some(*origin),
            _ => None,
        }
    }

    /// The router key, or none if the payload is of another kind.
    pub fn as_router_key(&self) -> Option<&RouterKey>
        ensures { option_copied result ≡ key_in self.now }
    {
        match self {
            Payload::RouterKey(key) => Some(key),
            _ => None,
        }
    }

    /// The ASPA, or none if the payload is of another kind.
    pub fn as_aspa(&self) -> Option<&Aspa>
        ensures { option_copied result ≡ aspa_in self.now }
    {
        match self {
            Payload::Aspa(aspa) => Some(aspa),
            _ => None,
        }
    }

    /// A copy of the payload. Copying a route origin needs no memory.
    pub fn clone(&self) -> Result<Self, AllocError>
        ensures same { IfOk result (λ p. p ≡ self.now) }
        ensures origin { IsSome (origin_in self.now) → IsOk result }
    {
        match self {
            Payload::Origin(origin) => Ok(Payload::Origin(*origin)),
            Payload::RouterKey(key) => Ok(Payload::RouterKey(key.clone()?)),
            Payload::Aspa(aspa) => Ok(Payload::Aspa(aspa.clone()?)),
        }
    }
}

impl From<RouteOrigin> for Payload {
    ghost from_gives = { λ origin payload. payload ≡ payloads.Origin origin };

    fn from(origin: RouteOrigin) -> Self {
        Payload::Origin(origin)
    }
}

impl From<RouterKey> for Payload {
    ghost from_gives = { λ key payload. payload ≡ payloads.RouterKey key };

    fn from(key: RouterKey) -> Self {
        Payload::RouterKey(key)
    }
}

impl From<Aspa> for Payload {
    ghost from_gives = { λ aspa payload. payload ≡ payloads.Aspa aspa };

    fn from(aspa: Aspa) -> Self {
        Payload::Aspa(aspa)
    }
}

/// A borrowed payload. An origin is copied.
#[derive(Clone, Copy, Debug)]
pub enum PayloadRef<'a> {
    /// A route origin.
    Origin(RouteOrigin),
    /// A router key.
    RouterKey(&'a RouterKey),
    /// An ASPA.
    Aspa(&'a Aspa),
}

impl<'a> From<RouteOrigin> for PayloadRef<'a> {
    ghost from_gives = { λ origin payload. payload ≡ lent.Origin origin };

    fn from(origin: RouteOrigin) -> Self {
        PayloadRef::Origin(origin)
    }
}

impl<'a> From<&'a RouteOrigin> for PayloadRef<'a> {
    ghost from_gives = { λ origin payload. payload ≡ lent.Origin origin.now };

    fn from(origin: &'a RouteOrigin) -> Self {
        PayloadRef::Origin(*origin)
    }
}

impl<'a> From<&'a RouterKey> for PayloadRef<'a> {
    ghost from_gives = { λ key payload. payload ≡ lent.RouterKey key };

    fn from(key: &'a RouterKey) -> Self {
        PayloadRef::RouterKey(key)
    }
}

impl<'a> From<&'a Aspa> for PayloadRef<'a> {
    ghost from_gives = { λ aspa payload. payload ≡ lent.Aspa aspa };

    fn from(aspa: &'a Aspa) -> Self {
        PayloadRef::Aspa(aspa)
    }
}
