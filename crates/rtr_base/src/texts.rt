//! Texts of plain values. Width and padding are ignored.

ghost use Rattle.std.specs.Prelude.{◌≡◌, List, ℕ, Some};
ghost use Rattle.std.specs.Option.{option_copied};
ghost use Rattle.hex.specs.Hex.{encode_lower};
ghost use Rattle.rtr_base.specs.PlainTexts.{action_text, asn_text, code_name, error_code_text};
ghost use Rattle.rtr_base.specs.PlainTexts.{max_len_text, prefix_text};

use crate::action::Action;
use crate::addr::{MaxLenPrefix, Prefix};
use crate::asn::Asn;
use crate::error_code::ErrorCode;
use crate::keys::KeyIdentifier;
use std::fmt;

/// Writes `AS` and the number, as in `AS65551`.
impl fmt::Display for Asn {
    ghost output = { λ asn. Some (asn_text asn) };

    fn fmt<W: fmt::Write>(&self, f: &mut fmt::Formatter<W>) -> fmt::Result {
        write!(f, "AS{}", self.into_u32())
    }
}

/// Writes the address and the length, as in `192.0.2.0/23`; an IPv6 address as in RFC 5952.
impl fmt::Display for Prefix {
    ghost output = { λ prefix. Some (prefix_text prefix) };

    fn fmt<W: fmt::Write>(&self, f: &mut fmt::Formatter<W>) -> fmt::Result {
        write!(f, "{}/{}", self.addr(), self.len())
    }
}

/// Writes the prefix and, if a max length was given, a dash and that length: `192.0.2.0/23-26`.
impl fmt::Display for MaxLenPrefix {
    ghost output = { λ prefix. Some (max_len_text prefix) };

    fn fmt<W: fmt::Write>(&self, f: &mut fmt::Formatter<W>) -> fmt::Result {
        let prefix = self.prefix();
        match self.max_len() {
            Some(max_len) => write!(f, "{prefix}-{max_len}"),
            None => write!(f, "{prefix}"),
        }
    }
}

/// Writes 40 hex digits in lower case.
impl fmt::Display for KeyIdentifier {
    ghost output = { λ key. Some (encode_lower key) };

    fn fmt<W: fmt::Write>(&self, f: &mut fmt::Formatter<W>) -> fmt::Result {
        for byte in self.as_slice() {
            write!(f, "{byte:02x}")?;
        }
        Ok(())
    }
}

/// Writes `announce` or `withdraw`.
impl fmt::Display for Action {
    ghost output = { λ action. Some (action_text action) };

    fn fmt<W: fmt::Write>(&self, f: &mut fmt::Formatter<W>) -> fmt::Result {
        f.write_str(match self {
            Action::Announce => "announce",
            Action::Withdraw => "withdraw",
        })
    }
}

impl ErrorCode {
    /// The name of the code: up to 8 as in RFC 8210 section 12, for 9, 10 and 11 as in the Rust
    /// crate `rpki`. None for other codes.
    #[tactic(auto, unfolding(crate::specs::PlainTexts::code_name))]
    pub fn name(self) -> Option<&'static str>
        ensures { option_copied result ≡ code_name self.0 }
    {
        match self {
            ErrorCode::CORRUPT_DATA => Some("Corrupt Data"),
            ErrorCode::INTERNAL_ERROR => Some("Internal Error"),
            ErrorCode::NO_DATA_AVAILABLE => Some("No Data Available"),
            ErrorCode::INVALID_REQUEST => Some("Invalid Request"),
            ErrorCode::UNSUPPORTED_PROTOCOL_VERSION => Some("Unsupported Protocol Version"),
            ErrorCode::UNSUPPORTED_PDU_TYPE => Some("Unsupported PDU Type"),
            ErrorCode::WITHDRAWAL_OF_UNKNOWN_RECORD => Some("Withdrawal of Unknown Record"),
            ErrorCode::DUPLICATE_ANNOUNCEMENT_RECEIVED => Some("Duplicate Announcement Received"),
            ErrorCode::UNEXPECTED_PROTOCOL_VERSION => Some("Unexpected Protocol Version"),
            ErrorCode::ASPA_PROVIDER_LIST_ERROR => Some("ASPA Provider List Error"),
            ErrorCode::TRANSPORT_ERROR => Some("Transport Error"),
            ErrorCode::ORDERING_ERROR => Some("Ordering Error"),
            _ => None,
        }
    }
}

/// Writes the number and, if the code has one, its name: `2 (No Data Available)`.
impl fmt::Display for ErrorCode {
    ghost output = { λ code. Some (error_code_text code.0) };

    fn fmt<W: fmt::Write>(&self, f: &mut fmt::Formatter<W>) -> fmt::Result {
        match self.name() {
            Some(name) => write!(f, "{} ({name})", self.0),
            None => write!(f, "{}", self.0),
        }
    }
}
