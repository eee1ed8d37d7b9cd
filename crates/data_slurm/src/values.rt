//! The values in a SLURM file.

ghost use Rattle.std.specs.Prelude.{◌≡◌, ◌⊎◌, ◌≤◌, ◌<◌, MatchResult, Some, length, option_map};
ghost use Rattle.json.specs.Find.{as_str};
ghost use Rattle.json.specs.Value.{value_view};
ghost use Rattle.data_slurm.specs.SlurmValues.{AsnNumeralWrong, BytesFound, IsAsnNumeral};
ghost use Rattle.data_slurm.specs.SlurmValues.{IsLengthNumeral, IsPrefixWord, IsSlurmAsn};
ghost use Rattle.data_slurm.specs.SlurmValues.{IsSlurmKey, IsSlurmLength, IsSlurmPrefix};
ghost use Rattle.data_slurm.specs.SlurmValues.{IsSlurmSki, LengthNumeralWrong, PrefixWordWrong};
ghost use Rattle.data_slurm.specs.SlurmValues.{SlurmAsnWrong, SlurmKeyWrong, SlurmLengthWrong};
ghost use Rattle.data_slurm.specs.SlurmValues.{SlurmPrefixWrong, SlurmSkiWrong, has_sign};

use crate::reason::SlurmReason;
use base64::DecodeAllocError;
use base64::engine::general_purpose::URL_SAFE_NO_PAD;
use json::Value;
use rtr_base::addr::Prefix;
use rtr_base::asn::Asn;
use rtr_base::keys::KeyIdentifier;
use rtr_payload::pdu::{KeyInfoVecError, RouterKeyInfo};
use std::alloc::Global;

/// Reports whether the text contains a plus sign.
fn has_sign(text: &str) -> bool
    ensures { result ≡ has_sign text.now }
{
    for byte in text.as_bytes() {
        if *byte == b'+' {
            return true;
        }
    }
    false
}

/// The ASN in the text.
fn asn_of_text(text: &str) -> Result<Asn, SlurmReason>
    ensures { MatchResult result (IsAsnNumeral (Some text.now)) (AsnNumeralWrong (Some text.now)) }
{
    match text.parse::<u32>() {
        Ok(number) => Ok(Asn::from_u32(number)),
        Err(_) => Err(SlurmReason::Asn),
    }
}

/// The ASN in a value.
pub(crate) fn asn_of(value: &Value<'_>) -> Result<Asn, SlurmReason>
    ensures { MatchResult result (IsSlurmAsn (value_view value.now))
        (SlurmAsnWrong (value_view value.now)) }
{
    match value.as_number() {
        Some(text) => asn_of_text(text),
        None => Err(SlurmReason::Asn),
    }
}

/// The length in the text.
fn length_of_text(text: &str) -> Result<u8, SlurmReason>
    ensures { MatchResult result (IsLengthNumeral (Some text.now))
        (LengthNumeralWrong (Some text.now)) }
{
    match text.parse::<u8>() {
        Ok(length) => Ok(length),
        Err(_) => Err(SlurmReason::MaxLength),
    }
}

/// The length in a value.
pub(crate) fn length_of(value: &Value<'_>) -> Result<u8, SlurmReason>
    ensures { MatchResult result (IsSlurmLength (value_view value.now))
        (SlurmLengthWrong (value_view value.now)) }
{
    match value.as_number() {
        Some(text) => length_of_text(text),
        None => Err(SlurmReason::MaxLength),
    }
}

/// The prefix in the text.
fn prefix_of_text(text: &str) -> Result<Prefix, SlurmReason>
    ensures { MatchResult result (IsPrefixWord (Some text.now)) (PrefixWordWrong (Some text.now)) }
{
    if has_sign(text) {
        return Err(SlurmReason::PrefixSign);
    }
    match text.parse::<Prefix>() {
        Ok(prefix) => Ok(prefix),
        Err(error) => Err(SlurmReason::Prefix(error)),
    }
}

/// The prefix in a value.
pub(crate) fn prefix_of(value: &Value<'_>) -> Result<Prefix, SlurmReason>
    ensures { MatchResult result (IsSlurmPrefix (value_view value.now))
        (SlurmPrefixWrong (value_view value.now)) }
{
    match value.as_str() {
        Some(text) => prefix_of_text(text),
        None => Err(SlurmReason::PrefixText),
    }
}

/// The bytes of base64 for URLs without padding, or none if the value isn't base64. Fails if memory
/// runs out.
fn bytes_of(alloc: Global, value: &Value<'_>) -> Result<Option<Vec<u8>>, SlurmReason>
    ensures { MatchResult result (λ found. BytesFound (as_str (value_view value.now))
        (option_map (λ v. v.items) found))
        (λ why. why ≡ SlurmReason.Memory) }
{
    let Some(text) = value.as_str() else {
        return Ok(None);
    };
    match URL_SAFE_NO_PAD.decode(alloc, text.as_bytes()) {
        Ok(bytes) => Ok(Some(bytes)),
        Err(DecodeAllocError::OutOfMemory) => Err(SlurmReason::Memory),
        Err(DecodeAllocError::DecodeError(_)) => Ok(None),
    }
}

/// The subject key identifier in a value.
pub(crate) fn ski_of(alloc: Global, value: &Value<'_>) -> Result<KeyIdentifier, SlurmReason>
    ensures { MatchResult result (IsSlurmSki (value_view value.now))
        (SlurmSkiWrong (value_view value.now)) }
{
    match bytes_of(alloc, value) {
        Ok(Some(bytes)) => match <[u8; 20]>::try_from(bytes.as_slice()) {
            Ok(bytes) => Ok(KeyIdentifier::from(bytes)),
            Err(_) => Err(SlurmReason::Ski),
        },
        Ok(None) => Err(SlurmReason::Ski),
        Err(reason) => Err(reason),
    }
}

/// The key in a value.
pub(crate) fn key_of(alloc: Global, value: &Value<'_>) -> Result<RouterKeyInfo, SlurmReason>
    ensures { MatchResult result (IsSlurmKey (value_view value.now))
        (SlurmKeyWrong (value_view value.now)) }
{
    match bytes_of(alloc, value) {
        Ok(Some(bytes)) => key_info(alloc, bytes),
        Ok(None) => Err(SlurmReason::Key),
        Err(reason) => Err(reason),
    }
}

/// The key info with these bytes.
fn key_info(alloc: Global, bytes: Vec<u8>) -> Result<RouterKeyInfo, SlurmReason>
    ensures { MatchResult result
        (λ k. (k ≡ bytes.items) × (length bytes.items ≤ 4294967263))
        (λ why. (why ≡ SlurmReason.Memory)
        ⊎ ((why ≡ SlurmReason.KeyTooLong) × (4294967263 < length bytes.items))) }
{
    match RouterKeyInfo::from_vec(alloc, bytes) {
        Ok(info) => Ok(info),
        Err(KeyInfoVecError::Size(_)) => Err(SlurmReason::KeyTooLong),
        Err(KeyInfoVecError::Memory) => Err(SlurmReason::Memory),
    }
}
