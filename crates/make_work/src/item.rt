//! Payloads that were read, and why an item isn't a payload.

use data_memory::ChangeError;
use rtr_base::addr::MaxLenError;
use rtr_base::parse::{ParseKeyIdentifierError, ParsePrefixError};
use rtr_payload::payload::Payload;
use std::fmt;

/// A payload, and its place in the input.
#[derive(Drop)]
pub struct Item<'a> {
    /// The line of CSV, or the item of an array in JSON.
    pub place: Place<'a>,
    /// The payload.
    pub payload: Payload,
    /// When it expires.
    pub expiry: Expiry,
}

/// When a payload expires, by `expires` of its object or the column `Expires` of its line.
#[derive(Clone, Copy, Debug, PartialEq, Eq)]
pub enum Expiry {
    /// The item has no expiry.
    Never,
    /// This number of seconds after the epoch, the first second of 1970.
    At(u64),
    /// The text isn't a number of 64 bits.
    Invalid,
    /// The expiry is given twice.
    Twice,
}

/// A place in the input.
#[derive(Clone, Copy, Debug)]
pub enum Place<'a> {
    /// The input as a whole.
    Input,
    /// This offset, in bytes.
    Offset(u64),
    /// The line of this number, of which the first is 1.
    Line(u64),
    /// The value of this name in the top object.
    Array(&'a str),
    /// The value of this unknown name in the top object.
    Unknown(&'a str),
    /// The item at this index of this array.
    Item(&'a str, u64),
    /// The value of this name in that item.
    Member(&'a str, u64, &'a str),
    /// The value of the second name in the object of the first name.
    Entry(&'a str, &'a str),
}

impl fmt::Display for Place<'_> {
    fn fmt<W: fmt::Write>(&self, f: &mut fmt::Formatter<W>) -> fmt::Result {
        match self {
            Place::Input => f.write_str("input"),
            Place::Offset(offset) => write!(f, "offset {offset}"),
            Place::Line(line) => write!(f, "line {line}"),
            Place::Array(array) => f.write_str(array),
            Place::Unknown(name) => write!(f, "{name:?}"),
            Place::Item(array, index) => write!(f, "{array}[{index}]"),
            Place::Member(array, index, name) => write!(f, "{array}[{index}].{name}"),
            Place::Entry(array, name) => write!(f, "{array}[{name:?}]"),
        }
    }
}

/// Why the input is refused, and at which place.
#[derive(Debug, Drop)]
pub struct Refusal<'a> {
    /// The place.
    pub place: Place<'a>,
    /// The reason.
    pub reason: Reason,
}

/// Why an item or an input is refused.
#[derive(Debug, Drop, thiserror::Error)]
pub enum Reason {
    /// The text isn't JSON.
    #[error("no JSON")]
    NotJson,
    /// The text ends in the middle of JSON.
    #[error("ends in the middle of a value")]
    EndsEarly,
    /// Arrays and objects nest too deep.
    #[error("nested deeper than 128")]
    TooDeep,
    /// A field begins with a quote that is never closed.
    #[error("a quote is not closed")]
    OpenQuote,
    /// A quote is in a field that doesn't begin with one.
    #[error("a quote inside a field")]
    QuoteInside,
    /// There is text between the closing quote of a field and the end of the field.
    #[error("text after a closing quote")]
    TextAfterQuote,
    /// The text isn't UTF-8.
    #[error("no UTF-8")]
    NotText,
    /// An object was expected.
    #[error("no object")]
    NotObject,
    /// An array was expected.
    #[error("no array")]
    NotArray,
    /// There is no array of payloads.
    #[error("no array of payloads")]
    NoArray,
    /// The value of an unknown name looks like payloads.
    #[error("payloads under an unknown name")]
    UnknownName,
    /// There is no payload, and an empty sequence wasn't requested.
    #[error("no payloads: give --empty if that is meant")]
    NoPayloads,
    /// A required value is missing.
    #[error("missing")]
    Missing,
    /// The same name, or another with the same meaning, comes twice.
    #[error("given twice")]
    Twice,
    /// The first line names the columns, but not the prefix and the max length once each.
    #[error("the header has to name a prefix and a max length once each")]
    Header,
    /// A line has fewer fields than the header.
    #[error("fewer fields than the header")]
    FewFields,
    /// The last line has no line end.
    #[error("no line end: the list may be cut off (`rtr_make --unended` reads it)")]
    Unended,
    /// There is a plus sign before a number.
    #[error("a plus before a number")]
    Plus,
    /// It isn't the number of an autonomous system.
    #[error("invalid AS number")]
    Asn,
    /// There is a URI instead of the number of an autonomous system.
    #[error("a column of URIs before the AS numbers is not read: leave it out")]
    UriColumn,
    /// A text was expected.
    #[error("no text")]
    NotString,
    /// It isn't a prefix.
    #[error("{0}")]
    Prefix(ParsePrefixError),
    /// It isn't a number of at most 255.
    #[error("invalid max-length")]
    MaxLength,
    /// The max length is out of range for the prefix.
    #[error("{0}")]
    MaxLengthRule(MaxLenError),
    /// It isn't the identifier of a key.
    #[error("{0}")]
    KeyIdentifier(ParseKeyIdentifierError),
    /// It isn't base64.
    #[error("invalid base64")]
    Base64,
    /// It isn't a time: a number of seconds, of at most 64 bits.
    #[error("invalid time")]
    Time,
    /// An ASPA has more providers than fit into its unit.
    #[error("more than 16380 providers")]
    TooManyProviders,
    /// No reader accepts an announcement of it.
    #[error("{0}")]
    Change(ChangeError),
    /// Another ASPA of this customer came before, with other providers.
    #[error("other providers than in an ASPA of the same customer before")]
    OtherProviders,
    /// The version of the protocol has no such payload.
    #[error("protocol version {0} has no such payload")]
    Version(u8),
    /// An allocation failed.
    #[error("out of memory")]
    Memory,
}
