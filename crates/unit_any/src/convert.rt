//! The two types of error report, converted into each other: `Error`, of any bytes, and `Report`,
//! whose bytes are an error report.

ghost use Rattle.std.specs.Prelude.{◌≡◌, ◌↔◌, IsOk, IfOk, IfErr, IsTrue};
ghost use Rattle.unit_any.specs.Reports.{IsReport};

use crate::report::{MIN_SIZE, Report};
use rtr_units::error::Error;
use rtr_units::header::MAX_SIZE;
use rtr_units::numbers::u32_at;

/// The same bytes, which aren't copied.
impl From<Report> for Error {
    ghost from_gives = { λ report error. error ≡ report };

    fn from(report: Report) -> Self {
        Error::from(report.bytes)
    }
}

/// The same bytes, if they are an error report: of type 10, and 16 to 65535 bytes, as many as the
/// length field states. Otherwise the error holds them. They aren't copied.
impl TryFrom<Error> for Report {
    type Error = Error;

    ghost try_from_gives = { λ error result. (IsOk result ↔ IsReport error)
        × IfOk result (λ report. report ≡ error) × IfErr result (λ refused. refused ≡ error) };

    fn try_from(error: Error) -> Result<Self, Error> {
        if !is_report(error.as_ref()) {
            return Err(error);
        }
        Ok(Report {
            bytes: Vec::from(error),
        })
    }
}

/// Whether these bytes are an error report.
fn is_report(bytes: &[u8]) -> bool
    ensures { IsTrue result ↔ IsReport bytes.now }
{
    bytes.len() >= MIN_SIZE as usize
        && bytes.len() <= MAX_SIZE as usize
        && bytes[1] == Report::PDU
        && u32_at(bytes, 4) as usize == bytes.len()
}
