//! Units of a session, written into a slice.

ghost use Rattle.std.specs.Prelude.{◌≡◌, ◌+◌, ◌++◌, ◌≤◌, length, take, drop};
ghost use Rattle.rtr_base.specs.Bytes.{be};
ghost use Rattle.rtr_units.specs.Report.{report};
ghost use Rattle.unit_views.specs.Placing.{Places};
ghost use Rattle.unit_any.specs.HeldReports.{held_report, most_held};
ghost use Rattle.unit_any.specs.SessionForms.{shown_form};

use crate::report::Report;
use crate::session_view::SessionView;
use rtr_base::error_code::ErrorCode;
use rtr_units::header::Header;
use rtr_units::queries::{CacheReset, ResetQuery};
use rtr_units::unit::Unit;
use unit_views::placing::place;

/// The greatest number of bytes of a unit and a text in a report: the longest report has 65535, of
/// which its header and two lengths take 16.
const MOST_HELD: usize = 65519;

/// Writes a unit of a fixed size to the front of the output and returns its length in bytes. If the
/// output is too short, it returns none and leaves the output unchanged. It allocates nothing.
#[inline(always)]
pub fn place_unit<U: Unit>(unit: &U, output: &mut [u8]) -> Option<usize>
    ensures { Places result (U.bytes unit.now) output.old output.new }
{
    place(unit.as_ref(), &[], output)
}

impl<'a> SessionView<'a> {
    /// Writes the form of the unit to the front of the output and returns its length in bytes, at
    /// most 65535. If the output is too short, it returns none and leaves the output unchanged.
    /// Nothing is allocated.
    ///
    /// The form of a payload unit is that of its meaning: all free bytes are zero, and a withdrawn
    /// ASPA has no providers. A reset query and a cache reset have zero in the session field (RFC
    /// 8210 sections 5.4 and 5.9). All other units are written as they are.
    #[inline(always)]
    pub fn place_form(&self, output: &mut [u8]) -> Option<usize>
        ensures { Places result (shown_form self.now) output.old output.new }
    {
        match self {
            SessionView::SerialNotify(unit) => place_unit(unit, output),
            SessionView::SerialQuery(unit) => place_unit(unit, output),
            SessionView::ResetQuery(unit) => place_unit(&ResetQuery::new(unit.version()), output),
            SessionView::CacheResponse(unit) => place_unit(unit, output),
            SessionView::Data(view) => view.place_form(output),
            SessionView::CacheReset(unit) => place_unit(&CacheReset::new(unit.version()), output),
            SessionView::Error(report) => place(report.unit, &[], output),
        }
    }
}

/// Writes the error report (RFC 8210 section 5.11) with this version and error code, the unit that
/// it is about (or none) and text to the front of the output, and returns its length in bytes. If
/// the output is too short, it returns none and leaves the output unchanged. Nothing is allocated.
///
/// A report has at most 65535 bytes: the first 65519 bytes of the unit, and as many bytes of the
/// text as then fit. So 65535 bytes of output always suffice. The RFC wants the text in UTF-8; if
/// it is cut, its last character may be cut too.
pub fn place_report(
    version: u8,
    code: ErrorCode,
    pdu: &[u8],
    text: &[u8],
    output: &mut [u8],
) -> Option<usize>
    ensures { Places result (held_report version code.0 pdu.now text.now) output.old output.new }
{
    let pdu = front(pdu, MOST_HELD);
    let text = front(text, MOST_HELD - pdu.len());
    place_parts(version, code, pdu, text, output)
}

/// The first `most` bytes, or all if there are fewer.
fn front(bytes: &[u8], most: usize) -> &[u8]
    ensures held { result.now ≡ take most bytes.now }
    ensures most { length result.now ≤ most }
{
    if bytes.len() <= most {
        return bytes;
    }
    let (front, _) = bytes.split_at(most);
    front
}

/// Writes the report with these parts, which has at most 65535 bytes.
fn place_parts(
    version: u8,
    code: ErrorCode,
    pdu: &[u8],
    text: &[u8],
    output: &mut [u8],
) -> Option<usize>
    requires { length pdu.now + length text.now ≤ most_held }
    ensures { Places result (report version code.0 pdu.now text.now) output.old output.new }
{
    let size = 16 + pdu.len() + text.len();
    if output.len() < size {
        return None;
    }
    let header = Header::new(version, Report::PDU, code.0, size as u32);
    let (head, rest) = output.split_at_mut(8);
    head.copy_from_slice(header.as_ref());
    let (middle, rest) = rest.split_at_mut(4 + pdu.len());
    lay_counted(pdu, middle);
    let (last, _) = rest.split_at_mut(4 + text.len());
    lay_counted(text, last);
    Some(size)
}

/// Writes the length of these bytes, and then the bytes.
fn lay_counted(bytes: &[u8], output: &mut [u8])
    requires size { length output.old ≡ 4 + length bytes.now }
    requires fits { length bytes.now ≤ most_held }
    ensures { output.new ≡ be (length bytes.now) 4 ++ bytes.now }
{
    output[..4].copy_from_slice(&(bytes.len() as u32).to_be_bytes());
    output[4..].copy_from_slice(bytes);
}
