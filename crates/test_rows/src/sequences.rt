//! Whole sequences.

use crate::answer::Answer;
use crate::row::{Row, Way};
use rtr_wire::pdu::{CacheResponse, Counted, Fault, PrefixRule, Unit, ViewFault};
use rtr_wire::{
    Side, compare_meanings, normalise, normalise_for, normalise_slice, same_meaning,
    same_meaning_slice,
};
use test_library::support::{Pieces, Recorder};

/// More units than any row has.
const LIMIT: u64 = 4294967295;

/// Makes the call of a row if it is one of these.
pub fn answer(row: &Row<'_>, way: Way) -> Option<Answer> {
    match row.call {
        "normalise" => Some(normalised(row, way)),
        "normalise_for" => Some(normalised_for(row, way)),
        "normalise_slice" => Some(normalised_slice(row, way)),
        "normalise_twice" => Some(normalised_twice(row, way)),
        "response" => Some(after_a_response(row, way)),
        "same_meaning" => Some(compared(row)),
        "same_meaning_slice" => Some(compared_slices(row)),
        "compare_meanings" => Some(compared_by_side(row)),
        _ => None,
    }
}

/// Appends an answer of `normalise`: the number of units or the fault, how many bytes were taken,
/// or `unasked` if the reader was never called, what was written, and the report.
fn tell(seen: &mut Answer, answer: &Result<u64, Fault>, reader: &Pieces<'_>, writer: &Recorder) {
    match answer {
        Ok(units) => seen.word(format_args!("Ok({units})")),
        Err(fault) => seen.fault(fault),
    }
    if reader.calls() == 0 {
        seen.word("unasked");
    } else {
        seen.word(reader.taken());
    }
    if reader.ends() > 1 {
        seen.word("asked after the end");
    }
    seen.word(":");
    seen.bytes(writer.held());
    if let Err(Fault::Refused(report)) = answer {
        seen.word("report");
        seen.bytes(report.as_ref());
    }
}

/// `normalise`, and `normalise_slice` if the row's reader gives all bytes; the answer of that
/// follows if it differs.
fn normalised(row: &Row<'_>, way: Way) -> Answer {
    let limit = row.number("limit", LIMIT);
    let mut reader = Counted::new(row.reader(way));
    let mut writer = Counted::new(row.writer(way));
    row.ready();
    let answer = normalise(row.alloc, &mut reader, &mut writer, limit);
    let (reader, writer) = (reader.into_inner(), writer.into_inner());
    let mut seen = row.answer();
    tell(&mut seen, &answer, &reader, &writer);
    let is_plain = row.setting("fails").is_none() && row.setting("endless").is_none();
    if row.mark == 0 && is_plain {
        tell_slice(&mut seen, row, way, &answer, &reader, &writer);
    }
    seen
}

/// Whether a fault of `normalise` and one of `normalise_slice` are the same.
fn is_same_fault(row: &Row<'_>, left: &Fault, right: &ViewFault) -> bool {
    if let (Fault::Refused(report), ViewFault::Prefix(rule)) = (left, right) {
        return report.as_ref().ends_with(rule_text(*rule));
    }
    let mut left_name = Answer::new(row.alloc);
    left_name.fault(left);
    let mut right_name = Answer::new(row.alloc);
    right_name.view_fault(right);
    left_name.is_same(&right_name)
}

/// The text of a report on a broken rule.
fn rule_text(rule: PrefixRule) -> &'static [u8] {
    match rule {
        PrefixRule::LenOverflow => b"prefix length too large",
        PrefixRule::MaxOverflow => b"max-length too large",
        PrefixRule::MaxUnderflow => b"max-length smaller than prefix length",
    }
}

/// Appends the answer of `normalise_slice` if it isn't that of `normalise`.
fn tell_slice(
    seen: &mut Answer,
    row: &Row<'_>,
    way: Way,
    answer: &Result<u64, Fault>,
    reader: &Pieces<'_>,
    writer: &Recorder,
) {
    let limit = row.number("limit", LIMIT);
    let mut other = Counted::new(row.writer(way));
    let sliced = normalise_slice(&row.left, &mut other, limit);
    let other = other.into_inner();
    let is_same = match (answer, &sliced) {
        (Ok(units), Ok((number, taken))) => units == number && reader.taken() == *taken,
        (Err(left), Err(right)) => is_same_fault(row, left, right),
        _ => false,
    };
    if !is_same || writer.held() != other.held() {
        seen.word("slice");
        tell_sliced(seen, &sliced, &other);
    }
}

/// Appends an answer of `normalise_slice`: the numbers of units and bytes, or the fault, and what
/// was written.
fn tell_sliced(seen: &mut Answer, answer: &Result<(u64, usize), ViewFault>, writer: &Recorder) {
    match answer {
        Ok((units, taken)) => seen.word(format_args!("Ok({units}) {taken}")),
        Err(fault) => seen.view_fault(fault),
    }
    seen.word(":");
    seen.bytes(writer.held())
}

/// `normalise_slice`.
fn normalised_slice(row: &Row<'_>, way: Way) -> Answer {
    let limit = row.number("limit", LIMIT);
    let mut writer = Counted::new(row.writer(way));
    row.ready();
    let answer = normalise_slice(&row.left, &mut writer, limit);
    let mut seen = row.answer();
    tell_sliced(&mut seen, &answer, &writer.into_inner());
    seen
}

/// `normalise_for`.
fn normalised_for(row: &Row<'_>, way: Way) -> Answer {
    let limit = row.number("limit", LIMIT);
    let version = row.byte("version", 0);
    let mut reader = Counted::new(row.reader(way));
    let mut writer = Counted::new(row.writer(way));
    row.ready();
    let answer = normalise_for(row.alloc, &mut reader, &mut writer, limit, version);
    let mut seen = row.answer();
    tell(
        &mut seen,
        &answer,
        &reader.into_inner(),
        &writer.into_inner(),
    );
    seen
}

/// `normalise`, and again with the same reader, writer and limit.
fn normalised_twice(row: &Row<'_>, way: Way) -> Answer {
    let limit = row.number("limit", LIMIT);
    let mut reader = Counted::new(row.reader(way));
    let mut first = Counted::new(row.writer(way));
    let mut second = Counted::new(row.writer(way));
    let mut seen = row.answer();
    match normalise(row.alloc, &mut reader, &mut first, limit) {
        Ok(units) => seen.word(format_args!("Ok({units})")),
        Err(fault) => seen.fault(&fault),
    }
    seen.bytes(first.into_inner().held());
    seen.word("then");
    let answer = normalise(row.alloc, &mut reader, &mut second, limit);
    tell(
        &mut seen,
        &answer,
        &reader.into_inner(),
        &second.into_inner(),
    );
    seen
}

/// A cache response, and then `normalise` on the same reader.
fn after_a_response(row: &Row<'_>, way: Way) -> Answer {
    let mut reader = Counted::new(row.reader(way));
    let mut writer = Counted::new(row.writer(way));
    let mut seen = row.answer();
    match CacheResponse::read(&mut reader) {
        Ok(response) => seen.bytes(response.as_ref()),
        Err(fault) => seen.fault(&fault),
    }
    seen.word("then");
    let answer = normalise(row.alloc, &mut reader, &mut writer, LIMIT);
    tell(
        &mut seen,
        &answer,
        &reader.into_inner(),
        &writer.into_inner(),
    );
    seen
}

/// `same_meaning`, and `same_meaning_slice`; the answer of that follows if it differs.
fn compared(row: &Row<'_>) -> Answer {
    let limit = row.number("limit", LIMIT);
    row.ready();
    let answer = same_meaning(row.alloc, &row.left, &row.right, limit);
    let mut seen = row.answer();
    match &answer {
        Ok(is_same) => seen.word(*is_same),
        Err(fault) => seen.fault(fault),
    }
    if row.mark == 0 {
        let sliced = same_meaning_slice(&row.left, &row.right, limit);
        let is_same = match (&answer, &sliced) {
            (Ok(left), Ok(right)) => left == right,
            (Err(left), Err(right)) => is_same_fault(row, left, right),
            _ => false,
        };
        if !is_same {
            seen.word("slice");
            tell_compared(&mut seen, &sliced);
        }
    }
    seen
}

/// `same_meaning_slice`.
fn compared_slices(row: &Row<'_>) -> Answer {
    row.ready();
    let answer = same_meaning_slice(&row.left, &row.right, row.number("limit", LIMIT));
    let mut seen = row.answer();
    tell_compared(&mut seen, &answer);
    seen
}

/// Appends an answer of `same_meaning_slice`.
fn tell_compared(seen: &mut Answer, answer: &Result<bool, ViewFault>) {
    match answer {
        Ok(is_same) => seen.word(*is_same),
        Err(fault) => seen.view_fault(fault),
    }
}

/// `compare_meanings`: whether both mean the same, or the side at fault, the offset and the fault.
fn compared_by_side(row: &Row<'_>) -> Answer {
    row.ready();
    let answer = compare_meanings(&row.left, &row.right, row.number("limit", LIMIT));
    let mut seen = row.answer();
    match &answer {
        Ok(is_same) => seen.word(*is_same),
        Err(refused) => {
            seen.word(match refused.side {
                Side::Left => "left",
                Side::Right => "right",
            });
            seen.word(refused.offset);
            seen.view_fault(&refused.fault);
        }
    }
    seen
}
