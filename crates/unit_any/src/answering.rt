//! Error reports for faults, written into a slice.

ghost use Rattle.std.specs.Prelude.{◌≡◌, ◌==◌, option_map, ℕ, List};
ghost use Rattle.rtr_units.specs.Codes.{code_of};
ghost use Rattle.rtr_units.specs.Header.{type_field};
ghost use Rattle.unit_views.specs.OwedCodes.{read_fault};
ghost use Rattle.unit_any.specs.Replies.{Replies, owed_report};

use crate::placing::place_report;
use crate::report::Report;
use rtr_base::error_code::ErrorCode;
use rtr_units::fault::Fault;
use unit_views::fault::ViewFault;

/// The reply to a fault.
#[derive(Clone, Copy, Debug, PartialEq, Eq)]
pub enum Reply {
    /// The length in bytes of an error report, which is at the front of the output.
    Report(usize),
    /// Nothing: the fault isn't the peer's, or the refused unit is an error report, about which no
    /// report may be sent (RFC 8210 section 5.11).
    Nothing,
    /// An error report that is longer than the output.
    NoRoom,
}

/// Replies to a fault of a call that reads: writes the error report that is owed to the peer, if
/// any, to the front of the output (RFC 8210 section 5.11). If none is owed or it doesn't fit, the
/// output is unchanged. Nothing is allocated.
///
/// The report has this version, the code of the fault (`Fault::code`), and this text. It copies
/// `refused`, the part of the refused unit that the caller passes: only the header, or all that
/// came. If `refused` has fewer than two bytes, it isn't known to be part of an error report. Both
/// are cut as `place_report` cuts them, so 65535 bytes of output always suffice.
pub fn reply_to_fault(
    version: u8,
    refused: &[u8],
    fault: &Fault,
    text: &[u8],
    output: &mut [u8],
) -> Reply
    ensures { Replies result (owed_report version (code_of fault.now) refused.now text.now)
        output.old output.new }
{
    reply_with_code(version, refused, fault.code(), text, output)
}

/// Replies to a fault of a call on views, as `reply_to_fault` does to the same fault.
pub fn reply_to_view_fault(
    version: u8,
    refused: &[u8],
    fault: &ViewFault,
    text: &[u8],
    output: &mut [u8],
) -> Reply
    ensures { (report : List ℕ) → Replies result
        (owed_report version (code_of (read_fault report fault.now)) refused.now text.now)
        output.old output.new }
{
    reply_with_code(version, refused, fault.code(), text, output)
}

/// Replies to a fault of this code as `reply_to_fault` does: for faults that a caller finds itself,
/// or a change that is refused. A fault without a code isn't the peer's.
pub fn reply_with_code(
    version: u8,
    refused: &[u8],
    code: Option<ErrorCode>,
    text: &[u8],
    output: &mut [u8],
) -> Reply
    ensures { Replies result
        (owed_report version (option_map (λ c. c.0) code) refused.now text.now)
        output.old output.new }
{
    if begins_report(refused) {
        return Reply::Nothing;
    }
    let Some(code) = code else {
        return Reply::Nothing;
    };
    match place_report(version, code, refused, text, output) {
        Some(size) => Reply::Report(size),
        None => Reply::NoRoom,
    }
}

/// Whether the bytes are known to begin an error report.
fn begins_report(bytes: &[u8]) -> bool
    ensures { result ≡ (type_field bytes.now == 10) }
{
    bytes.len() >= 2 && bytes[1] == Report::PDU
}
