//! Values of JSON as parts of payloads.

ghost use Rattle.std.specs.Prelude.{◌≡◌, ℕ, MatchResult, Ok, length};
ghost use Rattle.base64.specs.Engines.{url_safe_pad_indifferent};
ghost use Rattle.base64.specs.GeneralPurpose.{decode_of};
ghost use Rattle.json.specs.Json.{string};
ghost use Rattle.json.specs.Value.{items_view, value_view};
ghost use Rattle.rtr_base.specs.Numerals.{IsSerialText};
ghost use Rattle.rtr_base.specs.ReadTexts.{IsLenText};
ghost use Rattle.make_work.specs.JsonRefusals.{IsNoBase64, OrMemory, RefusesAsn};
ghost use Rattle.make_work.specs.JsonRefusals.{RefusesFirst, RefusesKeyIdentifier};
ghost use Rattle.make_work.specs.JsonRefusals.{RefusesKeyInfo, RefusesMaxLength};
ghost use Rattle.make_work.specs.JsonRefusals.{RefusesPrefixString, RefusesPrefixValue};
ghost use Rattle.make_work.specs.JsonRefusals.{RefusesProviders};
ghost use Rattle.make_work.specs.JsonRefusals.{has_base64_length};
ghost use Rattle.make_work.specs.JsonValues.{expiry_by_number, expiry_of_value};
ghost use Rattle.make_work.specs.MakeWords.{number_of};
ghost use Rattle.make_work.specs.PrivateJson.{IsNoIdentifier, IsNoText, IsUndecoded};
ghost use Rattle.make_work.specs.JsonValues.{AreAsnValues, AreProviderValues, IsAsnValue};
ghost use Rattle.make_work.specs.JsonValues.{IsBase64, IsKeyIdentifierValue, IsKeyInfoValue};
ghost use Rattle.make_work.specs.JsonValues.{IsMaxLengthValue, IsPrefixValue, IsSomeAsn};
ghost use Rattle.make_work.specs.JsonValues.{items_list};
ghost use Rattle.make_work.specs.JsonValues.{IsAsnString, IsPrefixString};

use crate::item::{Expiry, Reason};
use crate::plus::has_plus;
use crate::words::long_number;
use base64::DecodeAllocError;
use base64::engine::general_purpose::{STANDARD_PAD_INDIFFERENT, URL_SAFE_PAD_INDIFFERENT};
use json::Value;
use rtr_base::addr::Prefix;
use rtr_base::asn::Asn;
use rtr_base::keys::KeyIdentifier;
use rtr_base::parse::ParseKeyIdentifierError;
use rtr_payload::pdu::{KeyInfoVecError, ProviderAsns, ProviderIterError, RouterKeyInfo};
use std::alloc::Global;

/// An ASN: a number, or a text with or without `AS` before it.
pub fn asn_of(value: &Value<'_>) -> Result<Asn, Reason>
    ensures { MatchResult result (λ n. IsAsnValue (value_view value.now) n)
        (RefusesAsn (value_view value.now)) }
{
    match value {
        Value::Number(text) => asn_of_number(*text),
        Value::String(text) => asn_of_text(*text),
        _ => Err(Reason::Asn),
    }
}

/// The ASN in a number.
pub fn asn_of_number(text: &str) -> Result<Asn, Reason>
    ensures { MatchResult result (λ n. IsSerialText text.now n)
        (λ why. (why ≡ Reason.Asn) × ((n : ℕ) → ¬ IsSerialText text.now n)) }
{
    match text.parse::<u32>() {
        Ok(number) => Ok(Asn::from_u32(number)),
        Err(_) => Err(Reason::Asn),
    }
}

/// The ASN in a text.
pub fn asn_of_text(text: &str) -> Result<Asn, Reason>
    ensures { MatchResult result (λ n. IsAsnString text.now n)
        (λ why. (why ≡ Reason.Asn) × ((n : ℕ) → ¬ IsAsnString text.now n)) }
{
    if has_plus(text) {
        return Err(Reason::Asn);
    }
    match text.parse::<Asn>() {
        Ok(asn) => Ok(asn),
        Err(_) => Err(Reason::Asn),
    }
}

/// A prefix, in a text.
pub fn prefix_of(value: &Value<'_>) -> Result<Prefix, Reason>
    ensures { MatchResult result (λ p. IsPrefixValue (value_view value.now) p)
        (RefusesPrefixValue (value_view value.now)) }
{
    prefix_of_text(text_of(value)?)
}

/// The prefix in a text.
fn prefix_of_text(text: &str) -> Result<Prefix, Reason>
    ensures { MatchResult result (λ p. IsPrefixString text.now p)
        (RefusesPrefixString text.now) }
{
    if has_plus(text) {
        return Err(Reason::Plus);
    }
    match text.parse::<Prefix>() {
        Ok(prefix) => Ok(prefix),
        Err(error) => Err(Reason::Prefix(error)),
    }
}

/// A max length: a number of at most 255.
pub fn max_length_of(value: &Value<'_>) -> Result<u8, Reason>
    ensures { MatchResult result (λ n. IsMaxLengthValue (value_view value.now) n)
        (RefusesMaxLength (value_view value.now)) }
{
    match value {
        Value::Number(text) => length_of_number(*text),
        _ => Err(Reason::MaxLength),
    }
}

/// The max length in a number.
fn length_of_number(text: &str) -> Result<u8, Reason>
    ensures { MatchResult result (λ n. IsLenText text.now n)
        (λ why. (why ≡ Reason.MaxLength) × ((n : ℕ) → ¬ IsLenText text.now n)) }
{
    match text.parse::<u8>() {
        Ok(length) => Ok(length),
        Err(_) => Err(Reason::MaxLength),
    }
}

/// The expiry in this value: a number of seconds.
pub fn expiry_of(value: &Value<'_>) -> Expiry
    ensures { result ≡ expiry_of_value (value_view value.now) }
{
    match value {
        Value::Number(text) => expiry_of_number(*text),
        _ => Expiry::Invalid,
    }
}

/// The expiry in this text of a number.
pub fn expiry_of_number(text: &str) -> Expiry
    ensures { result ≡ expiry_by_number (number_of 64 text.now) }
{
    match long_number(text) {
        Some(time) => Expiry::At(time),
        None => Expiry::Invalid,
    }
}

fn text_of<'a>(value: &Value<'a>) -> Result<&'a str, Reason>
    ensures { MatchResult result (λ text. value_view value.now ≡ string text.now)
        (IsNoText (value_view value.now)) }
{
    match value {
        Value::String(text) => Ok(*text),
        _ => Err(Reason::NotString),
    }
}

/// The identifier of a key: 40 hex digits, or its 20 bytes as base64, as FORT prints it.
pub fn key_identifier_of(alloc: Global, value: &Value<'_>) -> Result<KeyIdentifier, Reason>
    ensures { MatchResult result (λ k. IsKeyIdentifierValue (value_view value.now) k)
        (OrMemory (RefusesKeyIdentifier (value_view value.now))) }
{
    let text = text_of(value)?;
    match text.parse::<KeyIdentifier>() {
        Ok(identifier) => Ok(identifier),
        Err(error) => key_identifier_of_base64(alloc, text, error),
    }
}

/// The key identifier of 20 bytes in base64. A text of another length is refused as if it were hex
/// digits.
fn key_identifier_of_base64(
    alloc: Global,
    text: &str,
    error: ParseKeyIdentifierError,
) -> Result<KeyIdentifier, Reason>
    ensures { MatchResult result (λ k. IsBase64 text.now k × (length k ≡ 20))
        (OrMemory (IsNoIdentifier text.now error)) }
{
    match decoded(alloc, text) {
        Ok(bytes) => match <[u8; 20]>::try_from(bytes.as_slice()) {
            Ok(bytes) => Ok(KeyIdentifier::from(bytes)),
            Err(_) => Err(Reason::KeyIdentifier(error)),
        },
        Err(Reason::Base64) if has_base64_length(text) => Err(Reason::Base64),
        Err(Reason::Base64) => Err(Reason::KeyIdentifier(error)),
        Err(reason) => Err(reason),
    }
}

/// Whether the text is as long as 20 bytes in base64.
fn has_base64_length(text: &str) -> bool
    ensures { result ≡ has_base64_length text.now }
{
    text.len() == 27 || text.len() == 28
}

/// A key, in base64.
pub fn key_info_of(alloc: Global, value: &Value<'_>) -> Result<RouterKeyInfo, Reason>
    ensures { MatchResult result (λ k. IsKeyInfoValue (value_view value.now) k)
        (OrMemory (RefusesKeyInfo (value_view value.now))) }
{
    let bytes = decoded(alloc, text_of(value)?)?;
    match RouterKeyInfo::from_vec(alloc, bytes) {
        Ok(info) => Ok(info),
        Err(KeyInfoVecError::Size(_)) => Err(Reason::Change(data_memory::ChangeError::KeyTooLong)),
        Err(KeyInfoVecError::Memory) => Err(Reason::Memory),
    }
}

/// The bytes of base64, with either alphabet of RFC 4648, with or without padding.
fn decoded(alloc: Global, text: &str) -> Result<Vec<u8>, Reason>
    ensures { MatchResult result (λ v. IsBase64 text.now v.items)
        (OrMemory (λ why. (why ≡ Reason.Base64) × IsNoBase64 text.now)) }
{
    match STANDARD_PAD_INDIFFERENT.decode(alloc, text.as_bytes()) {
        Ok(bytes) => Ok(bytes),
        Err(DecodeAllocError::OutOfMemory) => Err(Reason::Memory),
        Err(DecodeAllocError::DecodeError(_)) => decoded_url_safe(alloc, text),
    }
}

/// The bytes of base64 with the alphabet for URLs.
fn decoded_url_safe(alloc: Global, text: &str) -> Result<Vec<u8>, Reason>
    ensures { MatchResult result (λ v. decode_of url_safe_pad_indifferent text.now ≡ Ok v.items)
        (OrMemory (λ why. (why ≡ Reason.Base64)
        × IsUndecoded url_safe_pad_indifferent text.now)) }
{
    match URL_SAFE_PAD_INDIFFERENT.decode(alloc, text.as_bytes()) {
        Ok(bytes) => Ok(bytes),
        Err(DecodeAllocError::OutOfMemory) => Err(Reason::Memory),
        Err(DecodeAllocError::DecodeError(_)) => Err(Reason::Base64),
    }
}

/// The providers in an array of ASNs: in order, each once.
pub fn providers_of(alloc: Global, value: &Value<'_>) -> Result<ProviderAsns, Reason>
    ensures { MatchResult result (λ ps. AreProviderValues (value_view value.now) ps)
        (OrMemory (RefusesProviders (value_view value.now))) }
{
    let Value::Array(list) = value else {
        return Err(Reason::NotArray);
    };
    let mut asns = asns_of(alloc, list)?;
    asns.sort_unstable();
    asns.dedup();
    match ProviderAsns::try_from_iter(alloc, asns.into_iter()) {
        Ok(providers) => Ok(providers),
        Err(ProviderIterError::Count(_)) => Err(Reason::TooManyProviders),
        Err(ProviderIterError::Memory) => Err(Reason::Memory),
    }
}

/// The ASNs in the items.
fn asns_of(alloc: Global, list: &[Value<'_>]) -> Result<Vec<Asn>, Reason>
    ensures { MatchResult result (λ v. AreAsnValues (items_list (items_view list.now)) v.items)
        (OrMemory (RefusesFirst IsSomeAsn RefusesAsn (items_list (items_view list.now)))) }
{
    let mut asns: Vec<Asn> = Vec::new(alloc);
    for item in list {
        match asn_of(item) {
            Ok(asn) => match asns.push(asn) {
                Ok(()) => {}
                Err(_) => return Err(Reason::Memory),
            },
            Err(reason) => return Err(reason),
        }
    }
    Ok(asns)
}
