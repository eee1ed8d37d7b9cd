//! Reading the texts of plain values: `FromStr` takes what `Display` writes.

ghost use Rattle.rtr_base.specs.PrivateAsn.{IsWithoutAs};
ghost use Rattle.rtr_base.specs.ReadTexts.{ParsesAsn, ParsesKey, ParsesMaxLen, ParsesPrefix};

use crate::addr::{MaxLenError, MaxLenPrefix, Prefix, PrefixError};
use crate::asn::Asn;
use crate::keys::KeyIdentifier;
use hex::FromHex;
use std::error::Error;
use std::fmt;
use std::net::AddrParseError;
use std::num::ParseIntError;
use std::str::FromStr;

/// The text isn't the number of an autonomous system.
#[derive(Clone, Copy, Debug, PartialEq, Eq)]
pub struct ParseAsnError;

impl fmt::Display for ParseAsnError {
    fn fmt<W: fmt::Write>(&self, f: &mut fmt::Formatter<W>) -> fmt::Result {
        f.write_str("invalid AS number")
    }
}

impl Error for ParseAsnError {}

/// Reads `AS` or `as` and a number, or a number alone: an optional plus and decimal digits, at most
/// 4294967295. Zeros may lead.
impl FromStr for Asn {
    type Err = ParseAsnError;

    ghost from_str_gives = { ParsesAsn };

    fn from_str(text: &str) -> Result<Self, ParseAsnError> {
        match without_as(text).parse() {
            Ok(number) => Ok(Asn::from_u32(number)),
            Err(_) => Err(ParseAsnError),
        }
    }
}

/// The text after `AS` or `as`, if it begins with one of them.
fn without_as(text: &str) -> &str
    ensures { IsWithoutAs text.now result.now }
{
    match text.strip_prefix("AS") {
        Some(digits) => digits,
        None => text.strip_prefix("as").unwrap_or(text),
    }
}

/// Why a text isn't a prefix.
#[derive(Clone, Debug, Drop, PartialEq, Eq)]
pub enum ParsePrefixError {
    /// There is no slash.
    MissingLen,
    /// The text before the first slash isn't an address.
    Addr(AddrParseError),
    /// The text after the first slash isn't a number, or is over 255.
    Len(ParseIntError),
    /// The length is too great for the address, or the address has bits set after it.
    Prefix(PrefixError),
}

impl fmt::Display for ParsePrefixError {
    fn fmt<W: fmt::Write>(&self, f: &mut fmt::Formatter<W>) -> fmt::Result {
        match self {
            ParsePrefixError::MissingLen => f.write_str("missing prefix length"),
            ParsePrefixError::Addr(error) => write!(f, "{error}"),
            ParsePrefixError::Len(error) => write!(f, "invalid prefix length: {error}"),
            ParsePrefixError::Prefix(error) => write!(f, "{error}"),
        }
    }
}

impl Error for ParsePrefixError {}

/// Reads an address, a slash and a length: the address as std reads it, the length as an optional
/// plus and decimal digits. Host bits have to be zero.
impl FromStr for Prefix {
    type Err = ParsePrefixError;

    ghost from_str_gives = { ParsesPrefix };

    fn from_str(text: &str) -> Result<Self, ParsePrefixError> {
        let Some((addr, len)) = text.split_once('/') else {
            return Err(ParsePrefixError::MissingLen);
        };
        let addr = match addr.parse() {
            Ok(addr) => addr,
            Err(error) => return Err(ParsePrefixError::Addr(error)),
        };
        let len = match len.parse() {
            Ok(len) => len,
            Err(error) => return Err(ParsePrefixError::Len(error)),
        };
        match Prefix::new(addr, len) {
            Ok(prefix) => Ok(prefix),
            Err(error) => Err(ParsePrefixError::Prefix(error)),
        }
    }
}

/// Why a text isn't a prefix with a max length.
#[derive(Clone, Debug, Drop, PartialEq, Eq)]
pub enum ParseMaxLenPrefixError {
    /// The text before the first dash, or the whole text if there is none, isn't a prefix.
    Prefix(ParsePrefixError),
    /// The text after the first dash isn't a number, or is over 255.
    MaxLen(ParseIntError),
    /// The max length is out of range for the prefix.
    Value(MaxLenError),
}

impl fmt::Display for ParseMaxLenPrefixError {
    fn fmt<W: fmt::Write>(&self, f: &mut fmt::Formatter<W>) -> fmt::Result {
        match self {
            ParseMaxLenPrefixError::Prefix(error) => write!(f, "{error}"),
            ParseMaxLenPrefixError::MaxLen(error) => write!(f, "invalid max-length: {error}"),
            ParseMaxLenPrefixError::Value(error) => write!(f, "{error}"),
        }
    }
}

impl Error for ParseMaxLenPrefixError {}

/// Reads a prefix and, if a dash follows, a max length.
impl FromStr for MaxLenPrefix {
    type Err = ParseMaxLenPrefixError;

    ghost from_str_gives = { ParsesMaxLen };

    fn from_str(text: &str) -> Result<Self, ParseMaxLenPrefixError> {
        let Some((prefix, max_len)) = text.split_once('-') else {
            return match text.parse::<Prefix>() {
                Ok(prefix) => Ok(prefix.into()),
                Err(error) => Err(ParseMaxLenPrefixError::Prefix(error)),
            };
        };
        let prefix = match prefix.parse() {
            Ok(prefix) => prefix,
            Err(error) => return Err(ParseMaxLenPrefixError::Prefix(error)),
        };
        let max_len = match max_len.parse() {
            Ok(max_len) => max_len,
            Err(error) => return Err(ParseMaxLenPrefixError::MaxLen(error)),
        };
        match MaxLenPrefix::new(prefix, Some(max_len)) {
            Ok(prefix) => Ok(prefix),
            Err(error) => Err(ParseMaxLenPrefixError::Value(error)),
        }
    }
}

/// Why a text isn't the identifier of a key.
#[derive(Clone, Copy, Debug, PartialEq, Eq)]
pub enum ParseKeyIdentifierError {
    /// The text doesn't have 40 bytes.
    Length,
    /// A character isn't a hex digit.
    Digit,
}

impl fmt::Display for ParseKeyIdentifierError {
    fn fmt<W: fmt::Write>(&self, f: &mut fmt::Formatter<W>) -> fmt::Result {
        f.write_str(match self {
            ParseKeyIdentifierError::Length => "a key identifier has 40 hex digits",
            ParseKeyIdentifierError::Digit => "invalid hex digit in a key identifier",
        })
    }
}

impl Error for ParseKeyIdentifierError {}

/// Reads 40 hex digits in either case.
impl FromStr for KeyIdentifier {
    type Err = ParseKeyIdentifierError;

    ghost from_str_gives = { ParsesKey };

    fn from_str(text: &str) -> Result<Self, ParseKeyIdentifierError> {
        if text.len() != 40 {
            return Err(ParseKeyIdentifierError::Length);
        }
        match <[u8; 20] as FromHex>::from_hex(text) {
            Ok(bytes) => Ok(KeyIdentifier::from(bytes)),
            Err(_) => Err(ParseKeyIdentifierError::Digit),
        }
    }
}
