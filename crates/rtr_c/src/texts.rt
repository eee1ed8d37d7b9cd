//! The texts of statuses, of a peer's error reports and of rules on times, and the names of kinds,
//! causes, reasons and error codes.

ghost use Rattle.std.specs.Prelude.{◌≡◌, ◌∷◌, [], codes, map, take};
ghost use Rattle.std.specs.Option.{option_copied};
ghost use Rattle.rtr_base.specs.PlainTexts.{code_name};
ghost use Rattle.text_lines.specs.Laying.{Lays};
ghost use Rattle.rtr_c.specs.Texts.{AnswersText, cause_name, code_said, name_or, name_said};
ghost use Rattle.rtr_c.specs.Texts.{type_name, quotation, quoted};
ghost use Rattle.rtr_c.specs.Texts.{quoted_byte, reason_name, reported_text};
ghost use Rattle.rtr_c.specs.Texts.{said_at, status_name, status_said};

use crate::answer::{
    ACCEPTED, DUPLICATE, EMPTY_PROVIDERS, NO_FORM, NO_INDEX, NO_ROOM, NOT_CANONICAL, OLD_SERIAL,
    OTHER_SESSION, OTHER_VERSION, PREFIX, REPORT_INSIDE, RESET_INSIDE, SHORT, TOO_LONG, TOO_MANY,
    TOO_MANY_MEMBERS, UNDECIDED, UNIT_LENGTH, UNIT_TYPE, UNIT_VERSION, UNKNOWN,
};
use crate::lines::room_status;
use crate::router_action::{cause_from, refusal_from};
use crate::serving::reason_from;
use crate::times::time_rule;
use rtr_base::error_code::ErrorCode;
use session_bytes::Refusal;
use text_lines::laying;

/// The result of a call.
const STATUS: u8 = 0;
/// A kind of unit.
const KIND: u8 = 1;
/// Why a router's connection ends.
const CAUSE: u8 = 2;
/// Why a cache's connection ends.
const REASON: u8 = 3;
/// The code of an error report.
const CODE: u8 = 4;
/// A rule on the times of a cache.
const TIME_RULE: u8 = 5;

/// The number of causes.
const CAUSES: u16 = 16;

/// The number of reasons.
const REASONS: u16 = 10;

/// The most bytes of a report's text that are quoted.
const MOST_QUOTED: usize = 100;

/// Writes the text of a status with its detail to the front of the output, as much of it as fits.
/// If it doesn't fit, the status is `NO_ROOM` and the length is the number of bytes wanted.
#[unsafe(no_mangle)]
pub extern "C" fn rtr_text_nonnull(
    status: u8,
    detail: u8,
    output: &mut [u8],
    text_length: &mut usize,
) -> u8
    ensures { AnswersText (status_said status detail) output.old output.new text_length.new result }
{
    let room = output.len();
    let end = lay_status(output, status, detail);
    *text_length = end;
    room_status(end, room)
}

/// Writes the text of a status with its detail, and the offset of the unit, as by
/// `rtr_text_nonnull`.
#[unsafe(no_mangle)]
pub extern "C" fn rtr_text_at_nonnull(
    status: u8,
    detail: u8,
    offset: u64,
    output: &mut [u8],
    text_length: &mut usize,
) -> u8
    ensures { AnswersText (said_at status detail offset) output.old output.new text_length.new
        result }
{
    let room = output.len();
    let end = lay_said_at(output, status, detail, offset);
    *text_length = end;
    room_status(end, room)
}

/// Writes the name of an error report's code, and the first bytes of its text in quotes, as by
/// `rtr_text_nonnull`. Any byte that isn't printable ASCII is quoted as a question mark.
#[unsafe(no_mangle)]
pub extern "C" fn rtr_report_text_nonnull(
    code: u16,
    reported: &[u8],
    output: &mut [u8],
    text_length: &mut usize,
) -> u8
    ensures { AnswersText (reported_text code reported.now) output.old output.new text_length.new
        result }
{
    let room = output.len();
    let end = lay_report(output, code, reported);
    *text_length = end;
    room_status(end, room)
}

/// The name of a status (`named` is 0), a kind (1), a cause (2), a reason (3) or an error code (4),
/// or the text of a rule on times (5); nothing for any other `named`. It is written as by
/// `rtr_text_nonnull`.
#[unsafe(no_mangle)]
pub extern "C" fn rtr_name_nonnull(
    named: u8,
    number: u16,
    output: &mut [u8],
    text_length: &mut usize,
) -> u8
    ensures { AnswersText (name_said named number) output.old output.new text_length.new result }
{
    let room = output.len();
    let end = lay_name(output, named, number);
    *text_length = end;
    room_status(end, room)
}

/// Writes the text of a status with its detail.
fn lay_status(output: &mut [u8], status: u8, detail: u8) -> usize
    ensures { Lays (status_said status detail) 0 output.old result output.new }
{
    match refusal_from(status, detail) {
        Some(refusal) => refusal.lay(output, 0),
        None => lay_or(
            output,
            status_text(status as u16),
            "unknown status ",
            status as u16,
        ),
    }
}

/// Writes the text of a status with its detail, and then an offset.
fn lay_said_at(output: &mut [u8], status: u8, detail: u8, offset: u64) -> usize
    ensures { Lays (said_at status detail offset) 0 output.old result output.new }
{
    let at = lay_status(output, status, detail);
    laying::labelled(output, at, ", at byte ", offset)
}

/// Writes the name of a report's code, and then its text.
fn lay_report(output: &mut [u8], code: u16, text: &[u8]) -> usize
    ensures { Lays (reported_text code text.now) 0 output.old result output.new }
{
    let at = lay_code(output, code);
    lay_quotation(output, at, text)
}

/// Writes the first bytes of a text in quotes; nothing if the text is empty.
fn lay_quotation(output: &mut [u8], at: usize, text: &[u8]) -> usize
    ensures { Lays (quotation text.now) at output.old result output.new }
{
    if text.len() == 0 {
        return laying::text(output, at, "");
    }
    let begun = laying::text(output, at, ", \"");
    let end = lay_quoted(output, begun, quoted_front(text));
    laying::text(output, end, "\"")
}

/// The bytes of a text that are quoted.
fn quoted_front(text: &[u8]) -> &[u8]
    ensures { result.now ≡ take 100 text.now }
{
    if text.len() <= MOST_QUOTED {
        text
    } else {
        &text[..MOST_QUOTED]
    }
}

/// Writes these bytes as they are quoted.
fn lay_quoted(output: &mut [u8], at: usize, text: &[u8]) -> usize
    ensures { Lays (map quoted_byte text.now) at output.old result output.new }
{
    let mut end = at;
    let mut left = text;
    'each: while let Some((first, others)) = left.split_first() {
        let next = lay_byte(output, end, *first);
        end = next;
        left = others;
    }
    end
}

/// Writes a byte as it is quoted.
fn lay_byte(output: &mut [u8], at: usize, byte: u8) -> usize
    ensures { Lays (quoted_byte byte ∷ []) at output.old result output.new }
{
    let shown = if byte >= b' ' && byte <= b'~' {
        byte
    } else {
        b'?'
    };
    laying::bytes(output, at, &[shown])
}

/// Writes the name of an error code.
fn lay_code(output: &mut [u8], code: u16) -> usize
    ensures { Lays (code_said code) 0 output.old result output.new }
{
    lay_or(output, ErrorCode(code).name(), "error code ", code)
}

/// Writes a name if there is one, and otherwise a label and the number.
fn lay_or(output: &mut [u8], name: Option<&str>, label: &str, number: u16) -> usize
    ensures { Lays (name_or (option_copied name.entry) label.now number) 0
        output.old result output.new }
{
    match name {
        Some(name) => laying::text(output, 0, name),
        None => laying::labelled(output, 0, label, number as u64),
    }
}

/// The text of a status without its detail.
fn status_text(number: u16) -> Option<&'static str>
    ensures { option_copied result ≡ status_name number }
{
    if number < 256 {
        text_of_status(number as u8)
    } else {
        None
    }
}

#[tactic(auto, unfolding(crate::specs::Texts::status_name))]
fn text_of_status(status: u8) -> Option<&'static str>
    ensures { option_copied result ≡ status_name status }
{
    match status {
        ACCEPTED => Some("accepted"),
        SHORT => Some(Refusal::Short.name()),
        UNIT_TYPE => Some(Refusal::UnitType(0).name()),
        UNIT_VERSION => Some(Refusal::UnitVersion(0).name()),
        TOO_LONG => Some(Refusal::TooLong.name()),
        UNIT_LENGTH => Some(Refusal::UnitLength.name()),
        EMPTY_PROVIDERS => Some(Refusal::EmptyProviders.name()),
        PREFIX => Some(Refusal::Prefix(None).name()),
        TOO_MANY => Some("too many units"),
        NO_ROOM => Some("no room in the output"),
        NO_FORM => Some("no unit has these fields"),
        NOT_CANONICAL => Some("not in canonical form"),
        OTHER_SESSION => Some("of another session"),
        DUPLICATE => Some(Refusal::Duplicate.name()),
        UNKNOWN => Some(Refusal::Unknown.name()),
        UNDECIDED => Some("an ASPA is announced and then withdrawn"),
        NO_INDEX => Some("no room in the index"),
        TOO_MANY_MEMBERS => Some("too many members"),
        OTHER_VERSION => Some("of another version than the units before"),
        OLD_SERIAL => Some("serial number before that of the data"),
        RESET_INSIDE => Some("cache reset inside an answer"),
        REPORT_INSIDE => Some("error report inside an answer"),
        _ => None,
    }
}

/// Writes the name of a number.
fn lay_name(output: &mut [u8], named: u8, number: u16) -> usize
    ensures { Lays (name_said named number) 0 output.old result output.new }
{
    match named {
        STATUS => lay_or(output, status_text(number), "unknown status ", number),
        KIND => lay_or(output, kind(number), "type ", number),
        CAUSE => lay_or(output, cause(number), "unknown cause ", number),
        REASON => lay_or(output, reason(number), "unknown reason ", number),
        CODE => lay_code(output, number),
        TIME_RULE => lay_or(output, time_rule(number), "unknown time rule ", number),
        _ => laying::text(output, 0, ""),
    }
}

/// The name of a kind of unit.
#[tactic(auto, unfolding(crate::specs::Texts::type_name))]
fn kind(number: u16) -> Option<&'static str>
    ensures { option_copied result ≡ type_name number }
{
    match number {
        0 => Some("serial notify"),
        1 => Some("serial query"),
        2 => Some("reset query"),
        3 => Some("cache response"),
        4 => Some("IPv4 prefix"),
        6 => Some("IPv6 prefix"),
        7 => Some("end of data"),
        8 => Some("cache reset"),
        9 => Some("router key"),
        10 => Some("error report"),
        11 => Some("ASPA"),
        _ => None,
    }
}

/// The text of a cause.
fn cause(number: u16) -> Option<&'static str>
    ensures { option_copied result ≡ cause_name number }
{
    if number < CAUSES {
        Some(cause_from(number as u8).text())
    } else {
        None
    }
}

/// The text of a reason.
fn reason(number: u16) -> Option<&'static str>
    ensures { option_copied result ≡ reason_name number }
{
    if number < REASONS {
        Some(reason_from(number as u8).text())
    } else {
        None
    }
}
