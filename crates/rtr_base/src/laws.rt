//! Laws of prefixes, serial numbers and texts, and the constants of this crate.

ghost use Rattle.std.specs.Prelude.{◌≡◌, ℕ, ◌+◌, ◌%◌, ◌^◌, ◌<◌, ◌↔◌, None, Some, List, length};
ghost use Rattle.std.specs.Prelude.{Ok, Result};
ghost use Rattle.std.specs.Cmp.{IsTotalOrder};
ghost use Rattle.std.specs.Ordering.{nat_cmp};
ghost use Rattle.std.specs.declared.cmp.Ordering.TheVariants.{Equal};
ghost use Rattle.hex.specs.Hex.{encode_lower};
ghost use Rattle.rtr_base.specs.Addresses.{IsMaxLenPrefix, IsPrefix, MaxLenParts, PrefixParts};
ghost use Rattle.rtr_base.specs.Addresses.{prefix_cmp};
ghost use Rattle.rtr_base.specs.Bytes.{IsBytes};
ghost use Rattle.rtr_base.specs.PlainTexts.{asn_text, max_len_text, prefix_text};
ghost use Rattle.rtr_base.specs.ReadTexts.{ParsesAsn, ParsesKey, ParsesMaxLen, ParsesPrefix};
ghost use Rattle.rtr_base.specs.declared.parse.ParseAsnError.{ParseAsnError};
ghost use Rattle.rtr_base.specs.declared.parse.ParseKeyIdentifierError.{ParseKeyIdentifierError};
ghost use Rattle.rtr_base.specs.declared.parse.ParseMaxLenPrefixError.{ParseMaxLenPrefixError};
ghost use Rattle.rtr_base.specs.declared.parse.ParsePrefixError.{ParsePrefixError};
ghost use Rattle.rtr_base.specs.Serial.{serial_cmp, serial_distance, reversed};

use crate::error_code::ErrorCode;

/// The numbers of the error codes: up to 8 those of RFC 8210 section 12, above as in the Rust crate
/// `rpki`.
pub fn error_codes()
    ensures corrupt_data { ErrorCode.CORRUPT_DATA.0 ≡ 0 }
    ensures internal_error { ErrorCode.INTERNAL_ERROR.0 ≡ 1 }
    ensures no_data_available { ErrorCode.NO_DATA_AVAILABLE.0 ≡ 2 }
    ensures invalid_request { ErrorCode.INVALID_REQUEST.0 ≡ 3 }
    ensures unsupported_protocol_version { ErrorCode.UNSUPPORTED_PROTOCOL_VERSION.0 ≡ 4 }
    ensures unsupported_pdu_type { ErrorCode.UNSUPPORTED_PDU_TYPE.0 ≡ 5 }
    ensures withdrawal_of_unknown_record { ErrorCode.WITHDRAWAL_OF_UNKNOWN_RECORD.0 ≡ 6 }
    ensures duplicate_announcement_received { ErrorCode.DUPLICATE_ANNOUNCEMENT_RECEIVED.0 ≡ 7 }
    ensures unexpected_protocol_version { ErrorCode.UNEXPECTED_PROTOCOL_VERSION.0 ≡ 8 }
    ensures aspa_provider_list_error { ErrorCode.ASPA_PROVIDER_LIST_ERROR.0 ≡ 9 }
    ensures transport_error { ErrorCode.TRANSPORT_ERROR.0 ≡ 10 }
    ensures ordering_error { ErrorCode.ORDERING_ERROR.0 ≡ 11 }
{}

/// Prefixes are totally ordered, and two compare as equal if and only if they are equal.
pub fn prefix_order()
    ensures total { IsTotalOrder prefix_cmp }
    ensures exact { (p q : PrefixParts) → (prefix_cmp p q ≡ Equal) ↔ (p ≡ q) }
{}

/// Swapping two serial numbers reverses their order. They have no order if and only if they are
/// half the circle apart, and compare as equal if and only if they are equal.
pub fn serial_reversed()
    ensures reversed { (a b : ℕ) → a < 2 ^ 32 → b < 2 ^ 32 →
        serial_cmp a b ≡ reversed (serial_cmp b a) }
    ensures none { (a b : ℕ) → a < 2 ^ 32 → b < 2 ^ 32 →
        (serial_cmp a b ≡ None) ↔ (serial_distance a b ≡ 2 ^ 31) }
    ensures equal { (a b : ℕ) → a < 2 ^ 32 → b < 2 ^ 32 → (serial_cmp a b ≡ Some Equal) ↔ (a ≡ b) }
{}

/// Serial numbers less than half the circle after a number compare as their distances from it.
pub fn serial_half_circle()
    ensures { (a m n : ℕ) → a < 2 ^ 32 → m < 2 ^ 31 → n < 2 ^ 31 →
        serial_cmp ((a + m) % 2 ^ 32) ((a + n) % 2 ^ 32) ≡ Some (nat_cmp m n) }
{}

/// `FromStr` reads what `Display` wrote: from the text of a value it returns that value.
pub fn texts_read_back()
    ensures asn { (n : ℕ) (read : Result ℕ ParseAsnError) → n < 2 ^ 32 →
        ParsesAsn (asn_text n) read → read ≡ Ok n }
    ensures prefix { (p : PrefixParts) (read : Result PrefixParts ParsePrefixError) → IsPrefix p →
        ParsesPrefix (prefix_text p) read → read ≡ Ok p }
    ensures max_len { (p : MaxLenParts) (read : Result MaxLenParts ParseMaxLenPrefixError) →
        IsMaxLenPrefix p → ParsesMaxLen (max_len_text p) read → read ≡ Ok p }
    ensures key { (bytes : List ℕ) (read : Result (List ℕ) ParseKeyIdentifierError) →
        length bytes ≡ 20 → IsBytes bytes → ParsesKey (encode_lower bytes) read → read ≡ Ok bytes }
{}
