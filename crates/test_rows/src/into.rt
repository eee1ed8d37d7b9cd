//! Runs from a slice into another.

use crate::answer::Answer;
use crate::row::Row;
use rtr_wire::{IntoFault, Progress, normalise_for_into, normalise_into};

/// More units than any row has.
const LIMIT: u64 = 4294967295;

/// What the output holds before a call.
const FILL: u8 = 0xee;

/// Makes the call of a row if it is one of these. The setting `room` says how many bytes the
/// output has; without it, 12 more than the input.
pub fn answer(row: &Row<'_>) -> Option<Answer> {
    match row.call {
        "normalise_into" => Some(normalised(row, None)),
        "normalise_for_into" => Some(normalised(row, Some(row.byte("version", 0)))),
        _ => None,
    }
}

/// An output of as many bytes as the setting `room` says, or else as many as given, each `FILL`.
pub fn output(row: &Row<'_>, otherwise: usize) -> Option<Vec<u8>> {
    let room = match row.setting("room") {
        Some(_) => row.place("room"),
        None => otherwise,
    };
    Vec::from_elem(row.alloc, FILL, room).ok()
}

/// `normalise_into`, or `normalise_for_into` if there is a version.
fn normalised(row: &Row<'_>, version: Option<u8>) -> Answer {
    let limit = row.number("limit", LIMIT);
    let Some(mut output) = output(row, row.left.len().saturating_add(12)) else {
        return row.no_unit();
    };
    row.ready();
    let (progress, end) = match version {
        Some(version) => normalise_for_into(&row.left, &mut output, limit, version),
        None => normalise_into(&row.left, &mut output, limit),
    };
    let mut seen = row.answer();
    tell_end(&mut seen, &end);
    tell_progress(&mut seen, &progress, &output);
    seen
}

/// Appends how a run ended.
fn tell_end(seen: &mut Answer, end: &Result<(), IntoFault>) {
    match end {
        Ok(()) => seen.word("Ok"),
        Err(IntoFault::NoRoom) => seen.word("NoRoom"),
        Err(IntoFault::TooMany) => seen.word("TooMany"),
        Err(IntoFault::Refused(fault)) => {
            seen.word("Refused");
            seen.view_fault(fault)
        }
    }
}

/// Appends the numbers of units, of forms, of bytes taken and of bytes written; what was written;
/// and `spoilt` if another byte of the output has changed.
fn tell_progress(seen: &mut Answer, progress: &Progress, output: &[u8]) {
    let (units, forms) = (progress.units, progress.forms);
    let (taken, written) = (progress.taken, progress.written);
    seen.word(format_args!("{units} {forms} {taken} {written} :"));
    tell_output(seen, written, output)
}

/// Appends as many bytes of the output as were written; and `spoilt` if another byte of it has
/// changed.
pub fn tell_output(seen: &mut Answer, written: usize, output: &[u8]) {
    let Some((form, rest)) = output.split_at_checked(written) else {
        seen.word("outside");
        return;
    };
    seen.bytes(form);
    if rest.iter().any(|byte| *byte != FILL) {
        seen.word("spoilt");
    }
}
