//! The limits of a client's last report. No call takes these numbers: hosts do.

ghost use Rattle.std.specs.Prelude.{◌≡◌};

/// The limit for sending a client's last report and for the cache to read it, in milliseconds.
const REPORT_LIMIT: u32 = 2000;

/// The greatest number of bytes that are read from the cache meanwhile, and ignored: a connection
/// that is closed with unread bytes is reset, and the report may be lost.
const REPORT_BYTES: usize = 1_048_576;

/// The time limit of a client's last report in milliseconds, and the greatest number of bytes that
/// are read meanwhile.
pub fn last_report() -> (u32, usize)
    ensures limit { result.0 ≡ 2000 }
    ensures bytes { result.1 ≡ 1048576 }
{
    (REPORT_LIMIT, REPORT_BYTES)
}
