//! Payload units of any kind.

use crate::answer::Answer;
use crate::fixed::{alter, told_put};
use crate::row::{Row, Way};
use crate::views::tell_end;
use rtr_wire::pdu::{Counted, Payload, SliceSource};
use test_library::support::{Recorder, hash_of};

/// Makes the call of a row if it is one of these.
pub fn answer(row: &Row<'_>, way: Way) -> Option<Answer> {
    match row.call {
        "read" => Some(read_any(row, way)),
        "clone" => Some(clone(row)),
        "as_partial_slice" => Some(lent(row)),
        "write" => Some(write(row, way)),
        "same_units" => Some(compared(row)),
        _ => None,
    }
}

/// The payload unit that these bytes begin with.
fn unit_of(row: &Row<'_>, bytes: &[u8]) -> Option<Payload> {
    match Payload::read(row.alloc, &mut SliceSource::new(bytes)) {
        Ok(Ok(unit)) => unit,
        _ => None,
    }
}

/// The payload unit that the row's bytes begin with, altered: if it is a prefix unit, `set=3`
/// overwrites its bytes from the third on with the right side's.
pub fn read(row: &Row<'_>) -> Option<Payload> {
    let mut unit = unit_of(row, &row.left)?;
    if row.setting("set").is_some() {
        let place = row.place("set");
        alter(&mut unit, place, &row.right);
    }
    Some(unit)
}

/// Appends a unit: its kind, version, flags and bytes.
pub fn tell_unit(seen: &mut Answer, row: &Row<'_>, unit: &Payload) {
    let kind = match unit {
        Payload::V4(_) => "V4",
        Payload::V6(_) => "V6",
        Payload::RouterKey(_) => "RouterKey",
        Payload::Aspa(_) => "Aspa",
    };
    seen.unit(kind, unit.version(), unit.flags());
    let mut writer = Counted::new(Recorder::new(row.alloc, usize::MAX));
    let outcome = unit.write(&mut writer);
    seen.written(&outcome, &writer.into_inner());
}

/// `pdu::Payload::read`: the unit or the end of data, or the fault, and how many bytes were taken.
fn read_any(row: &Row<'_>, way: Way) -> Answer {
    let mut reader = Counted::new(row.reader(way));
    row.ready();
    let answer = Payload::read(row.alloc, &mut reader);
    let mut seen = row.answer();
    match &answer {
        Ok(Ok(Some(unit))) => tell_unit(&mut seen, row, unit),
        Ok(Ok(None)) => seen.word("none"),
        Ok(Err(end)) => {
            tell_end(&mut seen, end);
            seen.bytes(end.as_ref());
        }
        Err(fault) => seen.fault(fault),
    }
    let reader = reader.into_inner();
    seen.word(reader.taken());
    if reader.ends() > 1 {
        seen.word("asked after the end");
    }
    seen
}

/// `pdu::Payload::clone`, and the unit as it is then.
fn clone(row: &Row<'_>) -> Answer {
    let Some(unit) = read(row) else {
        return row.no_unit();
    };
    row.ready();
    let copy = unit.clone();
    let mut seen = row.answer();
    match &copy {
        Ok(copy) => {
            if *copy != unit || hash_of(copy) != hash_of(&unit) {
                seen.word("another");
            }
            tell_unit(&mut seen, row, copy);
        }
        Err(_) => seen.word("Memory"),
    }
    seen.word("of");
    tell_unit(&mut seen, row, &unit);
    seen
}

/// `pdu::Payload::as_partial_slice`.
fn lent(row: &Row<'_>) -> Answer {
    let Some(unit) = read(row) else {
        return row.no_unit();
    };
    row.ready();
    let bytes = unit.as_partial_slice();
    let mut seen = row.answer();
    seen.bytes(bytes);
    seen
}

/// `pdu::Payload::write`: `Ok` or the fault, and what was written.
fn write(row: &Row<'_>, way: Way) -> Answer {
    let Some(unit) = read(row) else {
        return row.no_unit();
    };
    let mut writer = Counted::new(row.writer(way));
    row.ready();
    let answer = unit.write(&mut writer);
    told_put(row, &answer, &writer.into_inner())
}

/// Whether the units of both sides are equal.
fn is_same(row: &Row<'_>) -> Option<bool> {
    let left = unit_of(row, &row.left)?;
    Some(unit_of(row, &row.right)? == left)
}

/// `pdu::Payload::eq` of the units of both sides.
fn compared(row: &Row<'_>) -> Answer {
    let Some(is_same) = is_same(row) else {
        return row.no_unit();
    };
    let mut seen = row.answer();
    seen.word(is_same);
    seen
}
