//! Headers and units of a fixed size.

use crate::answer::Answer;
use crate::row::{Row, Way};
use crate::views::tell_end;
use rtr_wire::pdu::{
    CacheReset, CacheResponse, Counted, EndOfData, EndOfDataV0, EndOfDataV1, Fault, Header,
    Ipv4Prefix, Ipv6Prefix, Payload, ResetQuery, SerialNotify, SerialQuery, SerialQueryPayload,
    SliceSource, Unit,
};
use test_library::support::{Pieces, Recorder};

/// Makes the call of a row if it is one of these: for a unit `TYPE::read`, `TYPE::try_read`,
/// `TYPE::read_payload` or `TYPE::write`, and calls of headers and ends of data.
pub fn answer(row: &Row<'_>, way: Way) -> Option<Answer> {
    let (kind, call) = row.call.split_once("::")?;
    match kind {
        "SerialNotify" => unit::<SerialNotify>(row, way, call),
        "SerialQuery" => unit::<SerialQuery>(row, way, call),
        "ResetQuery" => unit::<ResetQuery>(row, way, call),
        "CacheResponse" => unit::<CacheResponse>(row, way, call),
        "Ipv4Prefix" => unit::<Ipv4Prefix>(row, way, call),
        "Ipv6Prefix" => unit::<Ipv6Prefix>(row, way, call),
        "EndOfDataV0" => unit::<EndOfDataV0>(row, way, call),
        "EndOfDataV1" => unit::<EndOfDataV1>(row, way, call),
        "CacheReset" => unit::<CacheReset>(row, way, call),
        "EndOfData" if call == "read_payload" => Some(read_end(row, way)),
        "Header" if call == "read" => Some(read_header(row, way)),
        "SerialQueryPayload" if call == "read" => Some(read_serial(row, way)),
        _ => None,
    }
}

/// Makes a call of a unit.
fn unit<U: Unit>(row: &Row<'_>, way: Way, call: &str) -> Option<Answer> {
    match call {
        "read" => Some(read::<U>(row, way)),
        "try_read" => Some(try_read::<U>(row, way)),
        "read_payload" => Some(read_payload::<U>(row, way)),
        "write" => Some(write::<U>(row, way)),
        _ => None,
    }
}

/// Appends how many bytes a reader gave, and whether it was asked again after its end.
pub fn tell_taken(seen: &mut Answer, reader: &Pieces<'_>) {
    seen.word("taken");
    seen.word(reader.taken());
    if reader.ends() > 1 {
        seen.word("asked after the end");
    }
}

/// Appends a unit, or the fault.
fn tell<U: Unit>(seen: &mut Answer, answer: &Result<U, Fault>) {
    match answer {
        Ok(unit) => {
            seen.word(unit.version());
            seen.word(unit.session());
            seen.word(U::size());
            seen.bytes(unit.as_ref())
        }
        Err(fault) => seen.fault(fault),
    }
}

/// `Unit::read`: version, session, size and bytes, or the fault, and how many bytes were taken.
fn read<U: Unit>(row: &Row<'_>, way: Way) -> Answer {
    let mut reader = Counted::new(row.reader(way));
    row.ready();
    let answer = U::read(&mut reader);
    let mut seen = row.answer();
    tell(&mut seen, &answer);
    tell_taken(&mut seen, &reader.into_inner());
    seen
}

/// `Unit::try_read`: the same, or the header of a report.
fn try_read<U: Unit>(row: &Row<'_>, way: Way) -> Answer {
    let mut reader = Counted::new(row.reader(way));
    let mut seen = row.answer();
    match U::try_read(&mut reader) {
        Ok(Ok(unit)) => tell(&mut seen, &Ok(unit)),
        Ok(Err(header)) => {
            seen.word("report");
            seen.bytes(header.as_ref());
        }
        Err(fault) => seen.fault(&fault),
    }
    tell_taken(&mut seen, &reader.into_inner());
    seen
}

/// The header that the row's settings say.
pub fn header(row: &Row<'_>) -> Header {
    let (version, pdu) = (row.byte("version", 1), row.byte("type", 0));
    let (session, length) = (row.short("session"), row.long("length"));
    Header::new(version, pdu, session, length)
}

/// `Unit::read_payload` after the header that the row says.
fn read_payload<U: Unit>(row: &Row<'_>, way: Way) -> Answer {
    let mut reader = Counted::new(row.reader(way));
    let answer = U::read_payload(header(row), &mut reader);
    let mut seen = row.answer();
    tell(&mut seen, &answer);
    tell_taken(&mut seen, &reader.into_inner());
    seen
}

/// Appends `Ok` or the fault, and what was written.
pub fn told_put(row: &Row<'_>, answer: &Result<(), Fault>, writer: &Recorder) -> Answer {
    let mut seen = row.answer();
    seen.outcome(answer);
    seen.bytes(writer.held());
    seen
}

/// `Unit::write` of the unit of the row's bytes, altered as the setting `set` says: `Ok` or the
/// fault, and what was written.
fn write<U: Unit>(row: &Row<'_>, way: Way) -> Answer {
    let Ok(mut unit) = U::read(&mut SliceSource::new(&row.left)) else {
        return row.no_unit();
    };
    if row.setting("set").is_some() {
        let place = row.place("set");
        put_bytes(unit.as_mut(), place, &row.right);
    }
    let mut writer = Counted::new(row.writer(way));
    let answer = unit.write(&mut writer);
    told_put(row, &answer, &writer.into_inner())
}

/// Overwrites bytes from a place on, as far as there are.
fn put_bytes(bytes: &mut [u8], place: usize, new: &[u8]) {
    for (old, new) in bytes.iter_mut().skip(place).zip(new.iter()) {
        *old = *new;
    }
}

/// Overwrites the bytes of a prefix unit from a place on.
pub fn alter(unit: &mut Payload, place: usize, new: &[u8]) {
    match unit {
        Payload::V4(prefix) => put_bytes(prefix.as_mut(), place, new),
        Payload::V6(prefix) => put_bytes(prefix.as_mut(), place, new),
        _ => {}
    }
}

/// `EndOfData::read_payload` after the header that the row says.
fn read_end(row: &Row<'_>, way: Way) -> Answer {
    let mut reader = Counted::new(row.reader(way));
    let answer = EndOfData::read_payload(header(row), &mut reader);
    let mut seen = row.answer();
    match &answer {
        Ok(end) => {
            tell_end(&mut seen, end);
            seen.bytes(end.as_ref());
        }
        Err(fault) => seen.fault(fault),
    }
    tell_taken(&mut seen, &reader.into_inner());
    seen
}

/// `Header::read`: version, type, session, length and bytes, or the fault.
fn read_header(row: &Row<'_>, way: Way) -> Answer {
    let mut reader = Counted::new(row.reader(way));
    let mut seen = row.answer();
    match Header::read(&mut reader) {
        Ok(header) => {
            seen.word(header.version());
            seen.word(header.pdu());
            seen.word(header.session());
            seen.word(header.length());
            seen.bytes(header.as_ref());
        }
        Err(fault) => seen.fault(&fault),
    }
    tell_taken(&mut seen, &reader.into_inner());
    seen
}

/// `SerialQueryPayload::read`: the serial number and the bytes, or the fault.
fn read_serial(row: &Row<'_>, way: Way) -> Answer {
    let mut reader = Counted::new(row.reader(way));
    let mut seen = row.answer();
    match SerialQueryPayload::read(&mut reader) {
        Ok(payload) => {
            seen.word(payload.serial());
            seen.bytes(payload.as_ref());
        }
        Err(fault) => seen.fault(&fault),
    }
    tell_taken(&mut seen, &reader.into_inner());
    seen
}
