//! Units as they are listed: their fields, even if the lengths of a prefix break their rule.

use rtr_units::end::EndOfData;
use rtr_units::prefixes::{Ipv4Prefix, Ipv6Prefix};
use rtr_units::queries::{CacheReset, CacheResponse, ResetQuery, SerialNotify, SerialQuery};

/// A router key's unit.
#[derive(Clone, Copy)]
pub struct ListedKey<'a> {
    /// The version of the protocol.
    pub version: u8,
    /// The flags.
    pub flags: u8,
    /// The byte after the flags, which may have any value.
    pub free: u8,
    /// The subject key identifier.
    pub identifier: [u8; 20],
    /// The autonomous system.
    pub asn: u32,
    /// The key info.
    pub info: &'a [u8],
}

/// An ASPA unit.
#[derive(Clone, Copy)]
pub struct ListedAspa<'a> {
    /// The version of the protocol.
    pub version: u8,
    /// The flags.
    pub flags: u8,
    /// The byte after the flags, which may have any value.
    pub free: u8,
    /// The customer.
    pub customer: u32,
    /// The providers, four bytes each.
    pub providers: &'a [u8],
}

/// A payload unit.
#[derive(Clone, Copy)]
pub enum ListedPayload<'a> {
    /// An IPv4 prefix (RFC 8210 section 5.6).
    V4(Ipv4Prefix),
    /// An IPv6 prefix (RFC 8210 section 5.7).
    V6(Ipv6Prefix),
    /// A router key (RFC 8210 section 5.10).
    RouterKey(ListedKey<'a>),
    /// An ASPA unit (as in the Rust crate).
    Aspa(ListedAspa<'a>),
}

/// An error report.
#[derive(Clone, Copy)]
pub struct ListedReport<'a> {
    /// The version of the protocol.
    pub version: u8,
    /// The error code.
    pub code: u16,
    /// What follows the header.
    pub body: &'a [u8],
}

/// A unit of any type, with its fields as they are in the unit. Key info, providers and the parts
/// of error reports are borrowed; the others are copies of at most 32 bytes.
#[derive(Clone, Copy)]
pub enum Listed<'a> {
    /// The cache has new data (RFC 8210 section 5.2).
    SerialNotify(SerialNotify),
    /// A router asks for the changes since a state (RFC 8210 section 5.3).
    SerialQuery(SerialQuery),
    /// A router asks for all data (RFC 8210 section 5.4).
    ResetQuery(ResetQuery),
    /// The cache begins to send data (RFC 8210 section 5.5).
    CacheResponse(CacheResponse),
    /// A payload unit.
    Payload(ListedPayload<'a>),
    /// All data was sent (RFC 8210 section 5.8).
    EndOfData(EndOfData),
    /// The cache doesn't have the changes since the router's state (RFC 8210 section 5.9).
    CacheReset(CacheReset),
    /// An error report (RFC 8210 section 5.11).
    Error(ListedReport<'a>),
}
