//! Units, forms and reports that are written into a slice, and answers to faults.

use crate::answer::Answer;
use crate::into::{output, tell_output};
use crate::row::Row;
use rtr_wire::pdu::{EndOfData, ErrorCode, Payload, SliceSource};
use unit_any::answering::{Reply, reply_to_fault, reply_to_view_fault, reply_with_code};
use unit_any::placing::{place_report, place_unit};
use unit_any::{AnyUnit, SessionView};

/// Makes the call of a row if it is one of these. The setting `room` says how many bytes the
/// output has; without it, more than enough. The versions and codes of reports are settings, their
/// unit and their text stand before and after a `|`.
pub fn answer(row: &Row<'_>) -> Option<Answer> {
    match row.call {
        "place_unit" => Some(unit(row)),
        "place_form" => Some(form(row)),
        "place_report" => Some(report(row)),
        "reply_to_fault" => Some(reply(row)),
        "reply_to_view_fault" => Some(view_reply(row)),
        "reply_with_code" => Some(code_reply(row)),
        _ => None,
    }
}

/// An output of as many bytes as the row says.
fn room(row: &Row<'_>) -> Option<Vec<u8>> {
    let both = row.left.len().saturating_add(row.right.len());
    output(row, both.saturating_add(40))
}

/// Appends how many bytes were placed and these, or that there was no room; and `spoilt` if another
/// byte of the output has changed.
fn tell_placed(seen: &mut Answer, size: Option<usize>, output: &[u8]) {
    match size {
        Some(size) => seen.word(format_args!("{size} :")),
        None => seen.word("NoRoom"),
    }
    tell_output(seen, size.unwrap_or(0), output)
}

/// Appends a reply as `tell_placed`, or `Nothing`.
fn tell_reply(seen: &mut Answer, reply: Reply, output: &[u8]) {
    match reply {
        Reply::Report(size) => tell_placed(seen, Some(size), output),
        Reply::NoRoom => tell_placed(seen, None, output),
        Reply::Nothing => {
            seen.word("Nothing");
            tell_output(seen, 0, output)
        }
    }
}

/// `place_unit`, if the unit is of a fixed size.
fn placed(unit: &AnyUnit, output: &mut [u8]) -> Option<Option<usize>> {
    match unit {
        AnyUnit::SerialNotify(unit) => Some(place_unit(unit, output)),
        AnyUnit::SerialQuery(unit) => Some(place_unit(unit, output)),
        AnyUnit::ResetQuery(unit) => Some(place_unit(unit, output)),
        AnyUnit::CacheResponse(unit) => Some(place_unit(unit, output)),
        AnyUnit::CacheReset(unit) => Some(place_unit(unit, output)),
        AnyUnit::Payload(Payload::V4(unit)) => Some(place_unit(unit, output)),
        AnyUnit::Payload(Payload::V6(unit)) => Some(place_unit(unit, output)),
        AnyUnit::EndOfData(EndOfData::V0(unit)) => Some(place_unit(unit, output)),
        AnyUnit::EndOfData(EndOfData::V1(unit)) => Some(place_unit(unit, output)),
        _ => None,
    }
}

/// `place_unit` of the unit of a fixed size that the row's bytes are.
fn unit(row: &Row<'_>) -> Answer {
    let Ok(Some(unit)) = AnyUnit::read(row.alloc, &mut SliceSource::new(&row.left)) else {
        return row.no_unit();
    };
    let Some(mut output) = room(row) else {
        return row.no_unit();
    };
    row.ready();
    let Some(size) = placed(&unit, &mut output) else {
        return row.no_unit();
    };
    let mut seen = row.answer();
    tell_placed(&mut seen, size, &output);
    seen
}

/// `SessionView::place_form` of the view of the row's bytes.
fn form(row: &Row<'_>) -> Answer {
    let Ok((view, _)) = SessionView::first(&row.left) else {
        return row.no_unit();
    };
    let Some(mut output) = room(row) else {
        return row.no_unit();
    };
    row.ready();
    let size = view.place_form(&mut output);
    let mut seen = row.answer();
    tell_placed(&mut seen, size, &output);
    seen
}

/// `place_report`.
fn report(row: &Row<'_>) -> Answer {
    let (version, code) = (row.byte("version", 0), ErrorCode(row.short("code")));
    let Some(mut output) = room(row) else {
        return row.no_unit();
    };
    row.ready();
    let size = place_report(version, code, &row.left, &row.right, &mut output);
    let mut seen = row.answer();
    tell_placed(&mut seen, size, &output);
    seen
}

/// `reply_to_fault` of the fault of `AnyUnit::read` over the row's bytes.
fn reply(row: &Row<'_>) -> Answer {
    let Err(fault) = AnyUnit::read(row.alloc, &mut SliceSource::new(&row.left)) else {
        return row.no_unit();
    };
    let Some(mut output) = room(row) else {
        return row.no_unit();
    };
    row.ready();
    let version = row.byte("version", 0);
    let reply = reply_to_fault(version, &row.left, &fault, &row.right, &mut output);
    let mut seen = row.answer();
    tell_reply(&mut seen, reply, &output);
    seen
}

/// `reply_to_view_fault` of the fault of `SessionView::first` over the row's bytes.
fn view_reply(row: &Row<'_>) -> Answer {
    let Err(fault) = SessionView::first(&row.left) else {
        return row.no_unit();
    };
    let Some(mut output) = room(row) else {
        return row.no_unit();
    };
    row.ready();
    let version = row.byte("version", 0);
    let reply = reply_to_view_fault(version, &row.left, &fault.fault, &row.right, &mut output);
    let mut seen = row.answer();
    tell_reply(&mut seen, reply, &output);
    seen
}

/// `reply_with_code` of the setting `code`, or of none.
fn code_reply(row: &Row<'_>) -> Answer {
    let code = row.setting("code").map(|_| ErrorCode(row.short("code")));
    let Some(mut output) = room(row) else {
        return row.no_unit();
    };
    row.ready();
    let version = row.byte("version", 0);
    let reply = reply_with_code(version, &row.left, code, &row.right, &mut output);
    let mut seen = row.answer();
    tell_reply(&mut seen, reply, &output);
    seen
}
