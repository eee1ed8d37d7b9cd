//! The entries of SLURM files.

ghost use Rattle.std.specs.Prelude.{◌≡◌, ◌==◌, bytes_eq};
ghost use Rattle.rtr_payload.specs.Meanings.{payload_of};
ghost use Rattle.data_slurm.specs.Filters.{matches_key, matches_origin, matches_payload};
ghost use Rattle.data_slurm.specs.Overlaps.{asn_used, asserted_asn, asserted_prefix};
ghost use Rattle.data_slurm.specs.Overlaps.{entries_overlap, filter_asn, filter_prefix};
ghost use Rattle.data_slurm.specs.Overlaps.{prefix_used, share_address, share_asn};

use crate::prefixes::covers;
use rtr_base::addr::Prefix;
use rtr_base::asn::Asn;
use rtr_base::keys::KeyIdentifier;
use rtr_payload::payload::Payload;

/// A filter of route origins (RFC 8416 section 3.3.1).
#[derive(Clone, Copy, Debug)]
pub enum PrefixFilter {
    /// Matches each origin whose prefix is equal to this one or covered by it.
    Prefix(Prefix),
    /// Matches each origin of this autonomous system.
    Asn(Asn),
    /// Matches each origin that both of the above match.
    Both(Prefix, Asn),
}

/// A filter of router keys (RFC 8416 section 3.3.2).
#[derive(Clone, Copy, Debug)]
pub enum KeyFilter {
    /// Matches each key of this autonomous system.
    Asn(Asn),
    /// Matches each key with this subject key identifier.
    KeyIdentifier(KeyIdentifier),
    /// Matches each key that both of the above match.
    Both(Asn, KeyIdentifier),
}

/// An entry of one of the four arrays of a SLURM file (RFC 8416 sections 3.3 and 3.4).
#[derive(Debug, Drop)]
pub enum Entry {
    /// An entry of `prefixFilters`.
    PrefixFilter(PrefixFilter),
    /// An entry of `bgpsecFilters`.
    KeyFilter(KeyFilter),
    /// An entry of `prefixAssertions` or `bgpsecAssertions`: a payload that is added.
    Assertion(Payload),
}

impl PrefixFilter {
    /// Reports whether the filter matches an origin of this prefix and this AS.
    pub fn matches(&self, prefix: Prefix, asn: Asn) -> bool
        ensures { result ≡ matches_origin self.now prefix asn }
    {
        match *self {
            PrefixFilter::Prefix(filter) => covers(filter, prefix),
            PrefixFilter::Asn(filter) => is_same_asn(asn, filter),
            PrefixFilter::Both(filter, of) => covers(filter, prefix) && is_same_asn(asn, of),
        }
    }

    /// The prefix of the filter, if it has one.
    fn prefix(&self) -> Option<Prefix>
        ensures { result ≡ filter_prefix self.now }
    {
        match *self {
            PrefixFilter::Prefix(prefix) | PrefixFilter::Both(prefix, _) => Some(prefix),
            PrefixFilter::Asn(_) => None,
        }
    }
}

impl KeyFilter {
    /// Reports whether the filter matches a key of this identifier and this AS.
    pub fn matches(&self, identifier: &KeyIdentifier, asn: Asn) -> bool
        ensures { result ≡ matches_key self.now identifier.now asn }
    {
        match self {
            KeyFilter::Asn(filter) => is_same_asn(asn, *filter),
            KeyFilter::KeyIdentifier(filter) => is_same_key(identifier, filter),
            KeyFilter::Both(of, filter) => {
                is_same_asn(asn, *of) && is_same_key(identifier, filter)
            }
        }
    }

    /// The AS of the filter, if it has one.
    fn asn(&self) -> Option<Asn>
        ensures { result ≡ filter_asn self.now }
    {
        match *self {
            KeyFilter::Asn(asn) | KeyFilter::Both(asn, _) => Some(asn),
            KeyFilter::KeyIdentifier(_) => None,
        }
    }
}

impl Entry {
    /// Reports whether the entry is a filter that matches the payload. No filter matches an ASPA.
    pub fn matches(&self, payload: &Payload) -> bool
        ensures { result ≡ matches_payload self.now (payload_of payload.now) }
    {
        match (self, payload) {
            (Entry::PrefixFilter(filter), Payload::Origin(origin)) => {
                filter.matches(origin.prefix.prefix(), origin.asn)
            }
            (Entry::KeyFilter(filter), Payload::RouterKey(key)) => {
                filter.matches(&key.key_identifier, key.asn)
            }
            _ => false,
        }
    }

    /// Reports whether the entries, of two files, overlap: both are entries of `prefixFilters` or
    /// `prefixAssertions` and their prefixes share an address, or both are entries of
    /// `bgpsecFilters` or `bgpsecAssertions` and have the same AS (RFC 8416 section 4.2).
    pub fn overlaps(&self, other: &Entry) -> bool
        ensures { result ≡ entries_overlap self.now other.now }
    {
        share_address(self.prefix(), other.prefix()) || share_asn(self.asn(), other.asn())
    }

    /// The prefix of an entry about origins, if it has one.
    fn prefix(&self) -> Option<Prefix>
        ensures { result ≡ prefix_used self.now }
    {
        match self {
            Entry::PrefixFilter(filter) => filter.prefix(),
            Entry::KeyFilter(_) => None,
            Entry::Assertion(payload) => asserted_prefix(payload),
        }
    }

    /// The AS of an entry about router keys, if it has one.
    fn asn(&self) -> Option<Asn>
        ensures { result ≡ asn_used self.now }
    {
        match self {
            Entry::PrefixFilter(_) => None,
            Entry::KeyFilter(filter) => filter.asn(),
            Entry::Assertion(payload) => asserted_asn(payload),
        }
    }
}

fn asserted_prefix(payload: &Payload) -> Option<Prefix>
    ensures { result ≡ asserted_prefix payload.now }
{
    match payload {
        Payload::Origin(origin) => Some(origin.prefix.prefix()),
        _ => None,
    }
}

fn asserted_asn(payload: &Payload) -> Option<Asn>
    ensures { result ≡ asserted_asn payload.now }
{
    match payload {
        Payload::RouterKey(key) => Some(key.asn),
        _ => None,
    }
}

fn share_address(prefix: Option<Prefix>, other: Option<Prefix>) -> bool
    ensures { result ≡ share_address prefix other }
{
    match (prefix, other) {
        (Some(prefix), Some(other)) => covers(prefix, other) || covers(other, prefix),
        _ => false,
    }
}

fn share_asn(asn: Option<Asn>, other: Option<Asn>) -> bool
    ensures { result ≡ share_asn asn other }
{
    match (asn, other) {
        (Some(asn), Some(other)) => is_same_asn(asn, other),
        _ => false,
    }
}

fn is_same_asn(asn: Asn, other: Asn) -> bool
    ensures { result ≡ (asn == other) }
{
    asn.into_u32() == other.into_u32()
}

fn is_same_key(identifier: &KeyIdentifier, other: &KeyIdentifier) -> bool
    ensures { result ≡ bytes_eq identifier.now other.now }
{
    identifier.as_slice() == other.as_slice()
}
