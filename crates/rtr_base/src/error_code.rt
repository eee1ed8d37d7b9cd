//! Codes of error reports.

/// Why a peer reports an error (RFC 8210 section 12). Codes above 8 are as in the Rust crate
/// `rpki`.
#[derive(Clone, Copy, Debug, PartialEq, Eq, PartialOrd, Ord, Hash)]
pub struct ErrorCode(pub u16);

impl ErrorCode {
    /// The received data can't be decoded, or its fields contradict one another: 0.
    pub const CORRUPT_DATA: Self = ErrorCode(0);

    /// The peer failed for a reason of its own: 1.
    pub const INTERNAL_ERROR: Self = ErrorCode(1);

    /// The cache has no data yet: 2.
    pub const NO_DATA_AVAILABLE: Self = ErrorCode(2);

    /// The cache can't make sense of the request: 3.
    pub const INVALID_REQUEST: Self = ErrorCode(3);

    /// The peer doesn't speak this version of the protocol: 4.
    pub const UNSUPPORTED_PROTOCOL_VERSION: Self = ErrorCode(4);

    /// The peer doesn't know units of this type: 5.
    pub const UNSUPPORTED_PDU_TYPE: Self = ErrorCode(5);

    /// The router doesn't have the record that was withdrawn: 6.
    pub const WITHDRAWAL_OF_UNKNOWN_RECORD: Self = ErrorCode(6);

    /// The router already has the record that was announced: 7.
    pub const DUPLICATE_ANNOUNCEMENT_RECEIVED: Self = ErrorCode(7);

    /// A unit has another version than the one agreed on: 8.
    pub const UNEXPECTED_PROTOCOL_VERSION: Self = ErrorCode(8);

    /// The list of providers of an ASPA unit isn't allowed, as in the Rust crate `rpki`: 9.
    pub const ASPA_PROVIDER_LIST_ERROR: Self = ErrorCode(9);

    /// The connection failed, as in the Rust crate `rpki`: 10.
    pub const TRANSPORT_ERROR: Self = ErrorCode(10);

    /// Units came in the wrong order, as in the Rust crate `rpki`: 11.
    pub const ORDERING_ERROR: Self = ErrorCode(11);
}
