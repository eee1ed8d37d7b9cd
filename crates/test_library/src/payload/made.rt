//! Meanings for these tests, written as words between spaces.

use crate::samples::decoded;
use rtr_base::addr::{MaxLenPrefix, Prefix};
use rtr_base::asn::Asn;
use rtr_base::keys::KeyIdentifier;
use rtr_payload::payload::{Aspa, Payload, RouteOrigin, RouterKey};
use rtr_payload::pdu::{ProviderAsns, RouterKeyInfo};
use std::alloc::Global;
use std::net::IpAddr;
use std::str::{FromStr, SplitAsciiWhitespace};

/// Payloads, each less than the next.
pub const ASCENDING: &str = "\
origin 5 10.0.0.0 8 8
origin 1 10.0.0.0 8 24
origin 0 10.0.0.0 16
origin 0 :: 0
key 9 1 ff
key 9 1 ff00
key 256 1
key 0 2
aspa 0 1
aspa 0 1 0
aspa 0 256
aspa 1";

/// The next word, parsed as a value.
fn next<T: FromStr>(words: &mut SplitAsciiWhitespace<'_>) -> Option<T>
where
    T::Err: Drop,
{
    words.next()?.parse().ok()
}

/// A prefix of an address and a length.
fn prefix(words: &mut SplitAsciiWhitespace<'_>) -> Option<Prefix> {
    let address: IpAddr = next(words)?;
    let len = next(words)?;
    match address {
        IpAddr::V4(address) => Prefix::new_v4(address, len).ok(),
        IpAddr::V6(address) => Prefix::new_v6(address, len).ok(),
    }
}

/// An origin of an ASN, a prefix, and the max length if one is given.
pub fn origin(text: &str) -> Option<RouteOrigin> {
    let words = &mut text.split_ascii_whitespace();
    let asn = Asn::from_u32(next(words)?);
    let prefix = prefix(words)?;
    let prefix = MaxLenPrefix::new(prefix, next(words)).ok()?;
    Some(RouteOrigin::new(prefix, asn))
}

/// Key info written as hex.
pub fn key_info(alloc: Global, text: &str) -> Option<RouterKeyInfo> {
    RouterKeyInfo::from_vec(alloc, decoded(alloc, text)?).ok()
}

/// A key of an ASN, the first byte of its identifier, and the key info unless it is empty.
pub fn key(alloc: Global, text: &str) -> Option<RouterKey> {
    let words = &mut text.split_ascii_whitespace();
    let asn = Asn::from_u32(next(words)?);
    let mut identifier = [7; 20];
    identifier[0] = next(words)?;
    let info = key_info(alloc, words.next().unwrap_or(""))?;
    Some(RouterKey::new(KeyIdentifier::from(identifier), asn, info))
}

/// Providers of these numbers.
pub fn providers(alloc: Global, text: &str) -> Option<ProviderAsns> {
    let mut asns = Vec::new(alloc);
    for word in text.split_ascii_whitespace() {
        asns.push(Asn::from_u32(word.parse().ok()?)).ok()?;
    }
    ProviderAsns::try_from_iter(alloc, asns.iter().copied()).ok()
}

/// An ASPA of a customer and its providers.
pub fn aspa(alloc: Global, text: &str) -> Option<Aspa> {
    let (customer, named) = text.split_once(' ').unwrap_or((text, ""));
    let customer = Asn::from_u32(customer.parse().ok()?);
    Some(Aspa::new(customer, providers(alloc, named)?))
}

/// A payload of its type and its part.
pub fn payload(alloc: Global, text: &str) -> Option<Payload> {
    let (kind, part) = text.split_once(' ')?;
    match kind {
        "origin" => Some(Payload::from(origin(part)?)),
        "key" => Some(Payload::from(key(alloc, part)?)),
        "aspa" => Some(Payload::from(aspa(alloc, part)?)),
        _ => None,
    }
}

/// The payloads of these lines.
pub fn payloads(alloc: Global, lines: &str) -> Option<Vec<Payload>> {
    let mut payloads = Vec::new(alloc);
    for line in lines.lines() {
        payloads.push(payload(alloc, line)?).ok()?;
    }
    Some(payloads)
}
