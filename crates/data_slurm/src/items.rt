//! The items of the arrays of a SLURM file.

ghost use Rattle.std.specs.Prelude.{◌≡◌, MatchResult, Some, codes};
ghost use Rattle.json.specs.Find.{get};
ghost use Rattle.json.specs.Value.{value_view};
ghost use Rattle.data_slurm.specs.SlurmFiles.{EntryWrongBy, IsEntryBy, IsKeyAssertionItem};
ghost use Rattle.data_slurm.specs.SlurmFiles.{IsKeyFilterItem, IsPrefixAssertionItem};
ghost use Rattle.data_slurm.specs.SlurmFiles.{IsPrefixFilterItem, KeyAssertionWrong};
ghost use Rattle.data_slurm.specs.SlurmFiles.{KeyFilterWrong, PrefixAssertionWrong};
ghost use Rattle.data_slurm.specs.SlurmFiles.{PrefixFilterWrong, is_comment, key_filter};
ghost use Rattle.data_slurm.specs.SlurmFiles.{prefix_filter};
ghost use Rattle.data_slurm.specs.SlurmValues.{IsSlurmAsn, IsSlurmKey, IsSlurmLength};
ghost use Rattle.data_slurm.specs.SlurmValues.{IsSlurmPrefix, IsSlurmSki, MemberIs, MemberWrong};
ghost use Rattle.data_slurm.specs.SlurmValues.{NeededWrong, SlurmAsnWrong, SlurmKeyWrong};
ghost use Rattle.data_slurm.specs.SlurmValues.{SlurmLengthWrong, SlurmPrefixWrong, SlurmSkiWrong};

use crate::entry::{Entry, KeyFilter, PrefixFilter};
use crate::names::Kind;
use crate::reason::SlurmReason;
use crate::values::{asn_of, key_of, length_of, prefix_of, ski_of};
use json::Value;
use rtr_base::addr::{MaxLenPrefix, Prefix};
use rtr_base::asn::Asn;
use rtr_base::keys::KeyIdentifier;
use rtr_payload::payload::Payload;
use rtr_payload::pdu::RouterKeyInfo;
use std::alloc::Global;

/// The entry of an item of this kind.
pub(crate) fn entry_of(alloc: Global, kind: Kind, item: &Value<'_>) -> Result<Entry, SlurmReason>
    ensures { MatchResult result (IsEntryBy kind (value_view item.now))
        (EntryWrongBy kind (value_view item.now)) }
{
    match kind {
        Kind::PrefixFilter => match prefix_filter_of(item) {
            Ok(filter) => Ok(Entry::PrefixFilter(filter)),
            Err(reason) => Err(reason),
        },
        Kind::KeyFilter => match key_filter_of(alloc, item) {
            Ok(filter) => Ok(Entry::KeyFilter(filter)),
            Err(reason) => Err(reason),
        },
        Kind::PrefixAssertion => match prefix_assertion_of(item) {
            Ok(payload) => Ok(Entry::Assertion(payload)),
            Err(reason) => Err(reason),
        },
        Kind::KeyAssertion => match key_assertion_of(alloc, item) {
            Ok(payload) => Ok(Entry::Assertion(payload)),
            Err(reason) => Err(reason),
        },
    }
}

/// Reports whether the item has no comment, or one that is a text.
pub(crate) fn has_fine_comment(item: &Value<'_>) -> bool
    ensures { result ≡ is_comment (get (codes "comment") (value_view item.now)) }
{
    match item.get("comment") {
        Some(value) => value.as_str().is_some(),
        None => true,
    }
}

fn prefix_filter_of(item: &Value<'_>) -> Result<PrefixFilter, SlurmReason>
    ensures { MatchResult result (IsPrefixFilterItem (value_view item.now))
        (PrefixFilterWrong (value_view item.now)) }
{
    let prefix = match prefix_in(item) {
        Ok(prefix) => prefix,
        Err(reason) => return Err(reason),
    };
    let asn = match asn_in(item) {
        Ok(asn) => asn,
        Err(reason) => return Err(reason),
    };
    match prefix_filter(prefix, asn) {
        Some(filter) => Ok(filter),
        None => Err(SlurmReason::NoCriterion),
    }
}

fn prefix_filter(prefix: Option<Prefix>, asn: Option<Asn>) -> Option<PrefixFilter>
    ensures { result ≡ prefix_filter prefix asn }
{
    match (prefix, asn) {
        (Some(prefix), Some(asn)) => Some(PrefixFilter::Both(prefix, asn)),
        (Some(prefix), None) => Some(PrefixFilter::Prefix(prefix)),
        (None, Some(asn)) => Some(PrefixFilter::Asn(asn)),
        (None, None) => None,
    }
}

fn key_filter_of(alloc: Global, item: &Value<'_>) -> Result<KeyFilter, SlurmReason>
    ensures { MatchResult result (IsKeyFilterItem (value_view item.now))
        (KeyFilterWrong (value_view item.now)) }
{
    let asn = match asn_in(item) {
        Ok(asn) => asn,
        Err(reason) => return Err(reason),
    };
    let ski = match ski_in(alloc, item) {
        Ok(ski) => ski,
        Err(reason) => return Err(reason),
    };
    match key_filter(asn, ski) {
        Some(filter) => Ok(filter),
        None => Err(SlurmReason::NoCriterion),
    }
}

fn key_filter(asn: Option<Asn>, ski: Option<KeyIdentifier>) -> Option<KeyFilter>
    ensures { result ≡ key_filter asn ski }
{
    match (asn, ski) {
        (Some(asn), Some(ski)) => Some(KeyFilter::Both(asn, ski)),
        (Some(asn), None) => Some(KeyFilter::Asn(asn)),
        (None, Some(ski)) => Some(KeyFilter::KeyIdentifier(ski)),
        (None, None) => None,
    }
}

fn prefix_assertion_of(item: &Value<'_>) -> Result<Payload, SlurmReason>
    ensures { MatchResult result (IsPrefixAssertionItem (value_view item.now))
        (PrefixAssertionWrong (value_view item.now)) }
{
    let prefix = match needed_prefix(item) {
        Ok(prefix) => prefix,
        Err(reason) => return Err(reason),
    };
    let max_len = match length_in(item) {
        Ok(max_len) => max_len,
        Err(reason) => return Err(reason),
    };
    let asn = match needed_asn(item) {
        Ok(asn) => asn,
        Err(reason) => return Err(reason),
    };
    match MaxLenPrefix::new(prefix, max_len) {
        Ok(prefix) => Ok(Payload::origin(prefix, asn)),
        Err(error) => Err(SlurmReason::MaxLengthRule(error)),
    }
}

fn key_assertion_of(alloc: Global, item: &Value<'_>) -> Result<Payload, SlurmReason>
    ensures { MatchResult result (IsKeyAssertionItem (value_view item.now))
        (KeyAssertionWrong (value_view item.now)) }
{
    let asn = match needed_asn(item) {
        Ok(asn) => asn,
        Err(reason) => return Err(reason),
    };
    let ski = match needed_ski(alloc, item) {
        Ok(ski) => ski,
        Err(reason) => return Err(reason),
    };
    match needed_key(alloc, item) {
        Ok(key) => Ok(Payload::router_key(ski, asn, key)),
        Err(reason) => Err(reason),
    }
}

fn asn_in(item: &Value<'_>) -> Result<Option<Asn>, SlurmReason>
    ensures { MatchResult result
        (MemberIs IsSlurmAsn (get (codes "asn") (value_view item.now)))
        (MemberWrong SlurmAsnWrong (get (codes "asn") (value_view item.now))) }
{
    match item.get("asn") {
        Some(value) => match asn_of(value) {
            Ok(asn) => Ok(Some(asn)),
            Err(reason) => Err(reason),
        },
        None => Ok(None),
    }
}

fn needed_asn(item: &Value<'_>) -> Result<Asn, SlurmReason>
    ensures { MatchResult result
        (λ a. MemberIs IsSlurmAsn (get (codes "asn") (value_view item.now)) (Some a))
        (NeededWrong SlurmReason.AsnMissing SlurmAsnWrong
        (get (codes "asn") (value_view item.now))) }
{
    match item.get("asn") {
        Some(value) => asn_of(value),
        None => Err(SlurmReason::AsnMissing),
    }
}

fn prefix_in(item: &Value<'_>) -> Result<Option<Prefix>, SlurmReason>
    ensures { MatchResult result
        (MemberIs IsSlurmPrefix (get (codes "prefix") (value_view item.now)))
        (MemberWrong SlurmPrefixWrong (get (codes "prefix") (value_view item.now))) }
{
    match item.get("prefix") {
        Some(value) => match prefix_of(value) {
            Ok(prefix) => Ok(Some(prefix)),
            Err(reason) => Err(reason),
        },
        None => Ok(None),
    }
}

fn needed_prefix(item: &Value<'_>) -> Result<Prefix, SlurmReason>
    ensures { MatchResult result
        (λ p. MemberIs IsSlurmPrefix (get (codes "prefix") (value_view item.now)) (Some p))
        (NeededWrong SlurmReason.PrefixMissing SlurmPrefixWrong
        (get (codes "prefix") (value_view item.now))) }
{
    match item.get("prefix") {
        Some(value) => prefix_of(value),
        None => Err(SlurmReason::PrefixMissing),
    }
}

fn length_in(item: &Value<'_>) -> Result<Option<u8>, SlurmReason>
    ensures { MatchResult result
        (MemberIs IsSlurmLength (get (codes "maxPrefixLength") (value_view item.now)))
        (MemberWrong SlurmLengthWrong
        (get (codes "maxPrefixLength") (value_view item.now))) }
{
    match item.get("maxPrefixLength") {
        Some(value) => match length_of(value) {
            Ok(length) => Ok(Some(length)),
            Err(reason) => Err(reason),
        },
        None => Ok(None),
    }
}

fn ski_in(alloc: Global, item: &Value<'_>) -> Result<Option<KeyIdentifier>, SlurmReason>
    ensures { MatchResult result
        (MemberIs IsSlurmSki (get (codes "SKI") (value_view item.now)))
        (MemberWrong SlurmSkiWrong (get (codes "SKI") (value_view item.now))) }
{
    match item.get("SKI") {
        Some(value) => match ski_of(alloc, value) {
            Ok(ski) => Ok(Some(ski)),
            Err(reason) => Err(reason),
        },
        None => Ok(None),
    }
}

fn needed_ski(alloc: Global, item: &Value<'_>) -> Result<KeyIdentifier, SlurmReason>
    ensures { MatchResult result
        (λ s. MemberIs IsSlurmSki (get (codes "SKI") (value_view item.now)) (Some s))
        (NeededWrong SlurmReason.SkiMissing SlurmSkiWrong
        (get (codes "SKI") (value_view item.now))) }
{
    match item.get("SKI") {
        Some(value) => ski_of(alloc, value),
        None => Err(SlurmReason::SkiMissing),
    }
}

fn needed_key(alloc: Global, item: &Value<'_>) -> Result<RouterKeyInfo, SlurmReason>
    ensures { MatchResult result
        (λ k. MemberIs IsSlurmKey (get (codes "routerPublicKey") (value_view item.now)) (Some k))
        (NeededWrong SlurmReason.KeyMissing SlurmKeyWrong
        (get (codes "routerPublicKey") (value_view item.now))) }
{
    match item.get("routerPublicKey") {
        Some(value) => key_of(alloc, value),
        None => Err(SlurmReason::KeyMissing),
    }
}
