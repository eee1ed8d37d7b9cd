//! The fields of a unit that a machine looks at, and the identity of data.

use rtr_base::error_code::ErrorCode;

/// The kinds of units (RFC 8210 sections 5.2 to 5.11, and ASPA units).
#[derive(Clone, Copy)]
pub enum Kind {
    SerialNotify,
    SerialQuery,
    ResetQuery,
    CacheResponse,
    /// An IPv4 or an IPv6 prefix.
    Prefix,
    RouterKey,
    Aspa,
    EndOfData,
    CacheReset,
    ErrorReport,
}

/// The fields of a unit that a machine looks at. Fields that its type doesn't have are zero.
#[derive(Clone, Copy)]
pub struct Head {
    pub kind: Kind,
    pub version: u8,
    pub session: u16,
    pub serial: u32,
    /// The code of an error report.
    pub code: ErrorCode,
    /// The times of an end of data of version 1 or 2, in seconds.
    pub refresh: u32,
    pub retry: u32,
    pub expire: u32,
    /// The size of the whole unit in bytes.
    pub size: u32,
}

/// A unit that is refused, or that the close of the connection cut off.
#[derive(Clone, Copy)]
pub struct Fault {
    /// The first byte of the unit.
    pub version: u8,
    /// The code of the report that is owed about the unit; none for an error report (RFC 8210
    /// section 5.11).
    pub code: Option<ErrorCode>,
}

/// The identity of data: their version, session and serial number; with their times in seconds.
/// Data of version 0 have no times.
#[derive(Clone, Copy)]
pub struct Known {
    pub version: u8,
    pub session: u16,
    pub serial: u32,
    pub refresh: u32,
    pub retry: u32,
    pub expire: u32,
}

/// A serial query for the changes since these data, or a reset query, whose session and serial
/// number are zero.
#[derive(Clone, Copy)]
pub struct Query {
    /// Whether it is a serial query.
    pub changes: bool,
    pub version: u8,
    pub session: u16,
    pub serial: u32,
}
