//! Router keys and ASPA units.

use crate::answer::Answer;
use crate::fixed::{header, tell_taken};
use crate::row::{Row, Way};
use rtr_wire::pdu::{Aspa, Counted, Fault, RouterKey, SliceSource};
use test_library::support::Recorder;

/// Makes the call of a row if it is one of these.
pub fn answer(row: &Row<'_>, way: Way) -> Option<Answer> {
    match row.call {
        "RouterKey::read" => Some(read_key(row, way)),
        "RouterKey::read_payload" => Some(read_key_after(row, way)),
        "RouterKey::clone" => Some(clone_key(row)),
        "RouterKey::write" => Some(write_key(row, way)),
        "Aspa::read" => Some(read_aspa(row, way)),
        "Aspa::read_payload" => Some(read_aspa_after(row, way)),
        "Aspa::clone" => Some(clone_aspa(row)),
        "Aspa::write" => Some(write_aspa(row, way)),
        _ => None,
    }
}

/// Appends a router key: its size and bytes, or the fault.
fn tell_key(seen: &mut Answer, row: &Row<'_>, answer: &Result<RouterKey, Fault>) {
    match answer {
        Ok(unit) => {
            seen.word(unit.size());
            let mut writer = Counted::new(Recorder::new(row.alloc, usize::MAX));
            let outcome = unit.write(&mut writer);
            seen.written(&outcome, &writer.into_inner());
        }
        Err(fault) => seen.fault(fault),
    }
}

/// Appends an ASPA unit: its size and bytes, or the fault.
fn tell_aspa(seen: &mut Answer, row: &Row<'_>, answer: &Result<Aspa, Fault>) {
    match answer {
        Ok(unit) => {
            seen.word(unit.size());
            let mut writer = Counted::new(Recorder::new(row.alloc, usize::MAX));
            let outcome = unit.write(&mut writer);
            seen.written(&outcome, &writer.into_inner());
        }
        Err(fault) => seen.fault(fault),
    }
}

/// `RouterKey::read`, and how many bytes were taken.
fn read_key(row: &Row<'_>, way: Way) -> Answer {
    let mut reader = Counted::new(row.reader(way));
    row.ready();
    let answer = RouterKey::read(row.alloc, &mut reader);
    let mut seen = row.answer();
    tell_key(&mut seen, row, &answer);
    tell_taken(&mut seen, &reader.into_inner());
    seen
}

/// `RouterKey::read_payload` after the header that the row says, and how many bytes were taken.
fn read_key_after(row: &Row<'_>, way: Way) -> Answer {
    let header = header(row);
    let mut reader = Counted::new(row.reader(way));
    row.ready();
    let answer = RouterKey::read_payload(row.alloc, header, &mut reader);
    let mut seen = row.answer();
    tell_key(&mut seen, row, &answer);
    tell_taken(&mut seen, &reader.into_inner());
    seen
}

/// `Aspa::read`, and how many bytes were taken.
fn read_aspa(row: &Row<'_>, way: Way) -> Answer {
    let mut reader = Counted::new(row.reader(way));
    row.ready();
    let answer = Aspa::read(row.alloc, &mut reader);
    let mut seen = row.answer();
    tell_aspa(&mut seen, row, &answer);
    tell_taken(&mut seen, &reader.into_inner());
    seen
}

/// `Aspa::read_payload` after the header that the row says, and how many bytes were taken.
fn read_aspa_after(row: &Row<'_>, way: Way) -> Answer {
    let header = header(row);
    let mut reader = Counted::new(row.reader(way));
    row.ready();
    let answer = Aspa::read_payload(row.alloc, header, &mut reader);
    let mut seen = row.answer();
    tell_aspa(&mut seen, row, &answer);
    tell_taken(&mut seen, &reader.into_inner());
    seen
}

/// `RouterKey::clone`, and the unit as it is then.
fn clone_key(row: &Row<'_>) -> Answer {
    let Ok(unit) = RouterKey::read(row.alloc, &mut SliceSource::new(&row.left)) else {
        return row.no_unit();
    };
    row.ready();
    let copy = unit.clone();
    let mut seen = row.answer();
    match copy {
        Ok(copy) => {
            if copy != unit {
                seen.word("another");
            }
            tell_key(&mut seen, row, &Ok(copy));
        }
        Err(_) => seen.word("Memory"),
    }
    seen.word("of");
    tell_key(&mut seen, row, &Ok(unit));
    seen
}

/// `Aspa::clone`, and the unit as it is then.
fn clone_aspa(row: &Row<'_>) -> Answer {
    let Ok(unit) = Aspa::read(row.alloc, &mut SliceSource::new(&row.left)) else {
        return row.no_unit();
    };
    row.ready();
    let copy = unit.clone();
    let mut seen = row.answer();
    match copy {
        Ok(copy) => {
            if copy != unit {
                seen.word("another");
            }
            tell_aspa(&mut seen, row, &Ok(copy));
        }
        Err(_) => seen.word("Memory"),
    }
    seen.word("of");
    tell_aspa(&mut seen, row, &Ok(unit));
    seen
}

/// `RouterKey::write`: `Ok` or the fault, and what was written.
fn write_key(row: &Row<'_>, way: Way) -> Answer {
    let Ok(unit) = RouterKey::read(row.alloc, &mut SliceSource::new(&row.left)) else {
        return row.no_unit();
    };
    let mut writer = Counted::new(row.writer(way));
    let answer = unit.write(&mut writer);
    crate::fixed::told_put(row, &answer, &writer.into_inner())
}

/// `Aspa::write`: `Ok` or the fault, and what was written.
fn write_aspa(row: &Row<'_>, way: Way) -> Answer {
    let Ok(unit) = Aspa::read(row.alloc, &mut SliceSource::new(&row.left)) else {
        return row.no_unit();
    };
    let mut writer = Counted::new(row.writer(way));
    let answer = unit.write(&mut writer);
    crate::fixed::told_put(row, &answer, &writer.into_inner())
}
