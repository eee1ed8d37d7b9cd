//! Data in slices, the delta between two of them, and changes made onto them in order.

use crate::answer::Answer;
use crate::into::{output, tell_output};
use crate::row::Row;
use crate::views::tell_end;
use data_slices::{
    DeltaFault, Flaw, InOrderFault, Reason, apply_in_order, check_data, check_in_order, delta_into,
};

/// Makes the call of a row if it is one of these. The setting `room` says how many bytes the
/// output has; without it, as many as both inputs. The setting `places` says how many places the
/// index has; without it, one for each byte of the changes.
pub fn answer(row: &Row<'_>) -> Option<Answer> {
    match row.call {
        "check_data" => Some(checked(row)),
        "delta_into" => Some(delta(row)),
        "apply_in_order" => Some(applied(row)),
        "check_in_order" => Some(allowed(row)),
        _ => None,
    }
}

/// `check_data`: the end of data, or the flaw.
fn checked(row: &Row<'_>) -> Answer {
    row.ready();
    let answer = check_data(&row.left);
    let mut seen = row.answer();
    match &answer {
        Ok(end) => tell_end(&mut seen, end),
        Err(flaw) => tell_flaw(&mut seen, flaw),
    }
    seen
}

/// `delta_into` from the data on the left side to that on the right.
fn delta(row: &Row<'_>) -> Answer {
    let Some(mut output) = room(row) else {
        return row.no_unit();
    };
    row.ready();
    let answer = delta_into(&row.left, &row.right, &mut output);
    let mut seen = row.answer();
    let written = match &answer {
        Ok(size) => {
            seen.word("Ok");
            *size
        }
        Err(fault) => {
            tell_fault(&mut seen, fault);
            front(matches!(fault, DeltaFault::NoRoom), &output)
        }
    };
    seen.word(":");
    tell_output(&mut seen, written, &output);
    seen
}

/// `apply_in_order` of the changes on the right side to the data on the left.
fn applied(row: &Row<'_>) -> Answer {
    let (Some(mut output), Some(mut index)) = (room(row), index(row)) else {
        return row.no_unit();
    };
    row.ready();
    let answer = apply_in_order(&row.left, &row.right, &mut index, &mut output);
    let mut seen = row.answer();
    let written = match &answer {
        Ok(size) => {
            seen.word("Ok");
            *size
        }
        Err(fault) => {
            tell_refusal(&mut seen, fault);
            front(matches!(fault, InOrderFault::NoRoom), &output)
        }
    };
    seen.word(":");
    tell_output(&mut seen, written, &output);
    seen
}

/// `check_in_order` of the same: the end of data of the changes, or why they are refused.
fn allowed(row: &Row<'_>) -> Answer {
    let Some(mut index) = index(row) else {
        return row.no_unit();
    };
    row.ready();
    let answer = check_in_order(&row.left, &row.right, &mut index);
    let mut seen = row.answer();
    match &answer {
        Ok(end) => tell_end(&mut seen, end),
        Err(fault) => tell_refusal(&mut seen, fault),
    }
    seen
}

/// An output with as much room as the row says.
fn room(row: &Row<'_>) -> Option<Vec<u8>> {
    output(row, row.left.len().saturating_add(row.right.len()))
}

/// An index with as many places as the row says.
fn index(row: &Row<'_>) -> Option<Vec<usize>> {
    let places = match row.setting("places") {
        Some(_) => row.place("places"),
        None => row.right.len(),
    };
    Vec::from_elem(row.alloc, 0, places).ok()
}

/// How many bytes a call that is refused may have written: all there is room for where that is too
/// little, and else none.
fn front(lacks_room: bool, output: &[u8]) -> usize {
    if lacks_room { output.len() } else { 0 }
}

/// Appends why there is no delta.
fn tell_fault(seen: &mut Answer, fault: &DeltaFault) {
    match fault {
        DeltaFault::Old(flaw) => {
            seen.word("Old");
            tell_flaw(seen, flaw)
        }
        DeltaFault::New(flaw) => {
            seen.word("New");
            tell_flaw(seen, flaw)
        }
        DeltaFault::UnitVersion(version) => seen.word(format_args!("UnitVersion({version})")),
        DeltaFault::Session(session) => seen.word(format_args!("Session({session})")),
        DeltaFault::NoRoom => seen.word("NoRoom"),
    }
}

/// Appends why changes aren't made, with the offset of the change that is refused.
fn tell_refusal(seen: &mut Answer, fault: &InOrderFault) {
    match fault {
        InOrderFault::Data(flaw) => {
            seen.word("Data");
            tell_flaw(seen, flaw)
        }
        InOrderFault::Changes(flaw) => {
            seen.word("Changes");
            tell_flaw(seen, flaw)
        }
        InOrderFault::UnitVersion(version) => seen.word(format_args!("UnitVersion({version})")),
        InOrderFault::Session(session) => seen.word(format_args!("Session({session})")),
        InOrderFault::NoIndex => seen.word("NoIndex"),
        InOrderFault::Duplicate { offset } => seen.word(format_args!("Duplicate {offset}")),
        InOrderFault::Unknown { offset } => seen.word(format_args!("Unknown {offset}")),
        InOrderFault::NoRoom => seen.word("NoRoom"),
    }
}

/// Appends how many bytes come before a flaw, and what it is.
fn tell_flaw(seen: &mut Answer, flaw: &Flaw) {
    seen.word(flaw.offset);
    match &flaw.reason {
        Reason::Refused(fault) => seen.view_fault(fault),
        Reason::NotCanonical => seen.word("NotCanonical"),
    }
}
