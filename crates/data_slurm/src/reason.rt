//! Why a SLURM file is refused, and where.

use crate::names::Kind;
use rtr_base::addr::MaxLenError;
use rtr_base::parse::ParsePrefixError;
use std::fmt;

/// A place in a SLURM file.
#[derive(Clone, Copy, Debug)]
pub enum SlurmPlace<'a> {
    /// The file as a whole.
    File,
    /// The value of the member with this name.
    Member(&'a str),
    /// The item at this index of this array.
    Item(Kind, u64),
    /// The value of the member with this name of that item.
    ItemMember(Kind, u64, &'a str),
}

impl fmt::Display for SlurmPlace<'_> {
    fn fmt<W: fmt::Write>(&self, f: &mut fmt::Formatter<W>) -> fmt::Result {
        match self {
            SlurmPlace::File => f.write_str("SLURM file"),
            SlurmPlace::Member(name) => write!(f, "{name:?}"),
            SlurmPlace::Item(kind, index) => {
                let array = kind.array();
                write!(f, "{array}[{index}]")
            }
            SlurmPlace::ItemMember(kind, index, name) => {
                let array = kind.array();
                write!(f, "{array}[{index}].{name:?}")
            }
        }
    }
}

/// What is wrong in a SLURM file, and at which place.
#[derive(Debug, Drop)]
pub struct SlurmRefusal<'a> {
    /// The place.
    pub place: SlurmPlace<'a>,
    /// What is wrong there.
    pub reason: SlurmReason,
}

/// Why a SLURM file is refused (RFC 8416 section 3).
#[derive(Debug, Drop, thiserror::Error)]
pub enum SlurmReason {
    /// The file isn't UTF-8 (RFC 8259 section 8.1).
    #[error("no UTF-8")]
    NotText,
    /// The file isn't JSON.
    #[error("no JSON")]
    NotJson,
    /// An object has two members with the same name.
    #[error("an object has two members of the same name")]
    Twice,
    /// An object was expected.
    #[error("no object")]
    NotObject,
    /// An array was expected.
    #[error("no array")]
    NotArray,
    /// RFC 8416 doesn't define this member here.
    #[error("unknown member (RFC 8416)")]
    UnknownMember,
    /// A member is missing.
    #[error("missing")]
    Missing,
    /// `slurmVersion` isn't 1.
    #[error("only slurmVersion 1 is read (RFC 8416)")]
    Version,
    /// `comment` isn't a text.
    #[error("comment is no text")]
    Comment,
    /// A filter has neither of its two criteria.
    #[error("a filter without prefix, asn or SKI matches nothing")]
    NoCriterion,
    /// `asn` isn't a number of 32 bits.
    #[error("asn is no number of 32 bits")]
    Asn,
    /// `asn` is missing.
    #[error("asn is missing")]
    AsnMissing,
    /// `prefix` isn't a text.
    #[error("prefix is no text")]
    PrefixText,
    /// `prefix` contains a plus sign.
    #[error("prefix has a plus")]
    PrefixSign,
    /// `prefix` isn't a prefix.
    #[error("prefix: {0}")]
    Prefix(ParsePrefixError),
    /// `prefix` is missing.
    #[error("prefix is missing")]
    PrefixMissing,
    /// `maxPrefixLength` isn't a number of at most 255.
    #[error("maxPrefixLength is no length")]
    MaxLength,
    /// `maxPrefixLength` is out of range for the prefix.
    #[error("maxPrefixLength: {0}")]
    MaxLengthRule(MaxLenError),
    /// `SKI` isn't the base64 text, for URLs and without padding, of 20 bytes.
    #[error("SKI is not 20 bytes in base64url without padding")]
    Ski,
    /// `SKI` is missing.
    #[error("SKI is missing")]
    SkiMissing,
    /// `routerPublicKey` isn't base64 for URLs without padding.
    #[error("routerPublicKey is no base64url without padding")]
    Key,
    /// `routerPublicKey` is too long for a PDU.
    #[error("routerPublicKey is too long")]
    KeyTooLong,
    /// `routerPublicKey` is missing.
    #[error("routerPublicKey is missing")]
    KeyMissing,
    /// An allocation failed.
    #[error("out of memory")]
    Memory,
}
