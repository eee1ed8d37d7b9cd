//! Units of each kind, alone and in one session, whole and cut.

use crate::expect::expect_equal;
use crate::samples::{
    ASPA, END_0, END_1, IPV4_STRAY, IPV6_STRAY, KEY, NOTIFY, QUERY, REPORT, bytes, front,
};
use crate::session::next;
use crate::support::{ONES, Pieces, Recorder, STEPS, WHOLE};
use rtr_payload::pdu::Payload;
use rtr_units::header::Header;
use rtr_units::source::{Counted, SliceSource};
use std::alloc::Global;
use std::process::Abort;
use std::test::Fail;
use unit_any::AnyUnit;

/// A unit: its kind, its version, the session that it names, and its bytes.
struct Row {
    kind: &'static str,
    version: u8,
    session: Option<u16>,
    unit: &'static str,
}

const RESPONSE: &str = "01 03 12 34 00 00 00 08";

const END_2: &str = "02 07 8e ef 00 00 00 18 00 00 00 00 00 00 01 8f 00 00 02 58 00 00 1c 20";

/// A unit of each kind, and an end of data of each version.
#[rattlefmt::skip]
const ROWS: &[Row] = &[
    Row { kind: "serial notify", version: 1, session: Some(0x1234), unit: NOTIFY },
    Row { kind: "serial query", version: 1, session: Some(0x1234), unit: QUERY },
    Row { kind: "reset query", version: 1, session: None, unit: "01 02 00 00 00 00 00 08" },
    Row { kind: "cache response", version: 1, session: Some(0x1234), unit: RESPONSE },
    Row { kind: "ipv4", version: 1, session: None, unit: IPV4_STRAY },
    Row { kind: "ipv6", version: 1, session: None, unit: IPV6_STRAY },
    Row { kind: "end of data", version: 0, session: Some(0x1234), unit: END_0 },
    Row { kind: "end of data", version: 1, session: Some(0x1234), unit: END_1 },
    Row { kind: "end of data", version: 2, session: Some(0x8eef), unit: END_2 },
    Row { kind: "cache reset", version: 1, session: None, unit: "01 08 00 00 00 00 00 08" },
    Row { kind: "router key", version: 1, session: None, unit: KEY },
    Row { kind: "error report", version: 1, session: None, unit: REPORT },
    Row { kind: "aspa", version: 2, session: None, unit: ASPA },
];

/// The name of the unit's kind.
fn kind(unit: &AnyUnit) -> &'static str {
    match unit {
        AnyUnit::SerialNotify(_) => "serial notify",
        AnyUnit::SerialQuery(_) => "serial query",
        AnyUnit::ResetQuery(_) => "reset query",
        AnyUnit::CacheResponse(_) => "cache response",
        AnyUnit::Payload(Payload::V4(_)) => "ipv4",
        AnyUnit::Payload(Payload::V6(_)) => "ipv6",
        AnyUnit::Payload(Payload::RouterKey(_)) => "router key",
        AnyUnit::Payload(Payload::Aspa(_)) => "aspa",
        AnyUnit::EndOfData(_) => "end of data",
        AnyUnit::CacheReset(_) => "cache reset",
        AnyUnit::Error(_) => "error report",
    }
}

/// Asserts what a row says of its unit, which has these bytes and is written as them.
fn expect_row(
    rt: &impl Abort,
    alloc: Global,
    row: &Row,
    unit: &AnyUnit,
    input: &[u8],
) -> Result<(), Fail> {
    let shown = (
        kind(unit),
        unit.version(),
        unit.session(),
        unit.size() as usize,
    );
    expect_equal(rt, shown, (row.kind, row.version, row.session, input.len()));
    let mut writer = Counted::new(Recorder::new(alloc, usize::MAX));
    unit.write(&mut writer)?;
    expect_equal(rt, writer.into_inner().held(), input);
    Ok(())
}

/// Reads a row's unit, which has these bytes.
fn read_unit(
    rt: &impl Abort,
    alloc: Global,
    row: &Row,
    input: &[u8],
    reader: &mut Counted<Pieces<'_>>,
) -> Result<(), Fail> {
    match AnyUnit::read(alloc, reader)? {
        Some(unit) => expect_row(rt, alloc, row, &unit, input),
        None => panic!(rt; "no unit"),
    }
}

/// Reads a row's unit, and after it a clean end.
fn read_row(rt: &impl Abort, alloc: Global, row: &Row, sizes: &[usize]) -> Result<(), Fail> {
    let input = bytes(alloc, &[row.unit])?;
    let mut reader = Counted::new(Pieces::new(&input, sizes));
    read_unit(rt, alloc, row, &input, &mut reader)?;
    expect_equal(rt, next(alloc, &mut reader).as_deref(), Some("an end"));
    let reader = reader.into_inner();
    expect_equal(rt, (reader.taken(), reader.ends()), (input.len(), 1));
    Ok(())
}

#[test]
fn units_of_each_kind(rt: HostRuntime) -> Result<(), Fail> {
    for row in ROWS {
        for sizes in [ONES, STEPS, WHOLE] {
            read_row(&rt, rt.alloc(), row, sizes)?;
        }
    }
    Ok(())
}

/// Reads a row's unit, the header first.
fn read_after_header(rt: &impl Abort, alloc: Global, row: &Row) -> Result<(), Fail> {
    let input = bytes(alloc, &[row.unit])?;
    let mut reader = SliceSource::new(&input);
    let header = Header::read(&mut reader)?;
    let unit = AnyUnit::read_payload(alloc, header, &mut reader)?;
    expect_equal(rt, reader.rest().len(), 0);
    expect_row(rt, alloc, row, &unit, &input)
}

#[test]
fn units_after_their_headers(rt: HostRuntime) -> Result<(), Fail> {
    for row in ROWS {
        read_after_header(&rt, rt.alloc(), row)?;
    }
    Ok(())
}

/// The bytes of all rows, and where each unit ends.
fn session(alloc: Global) -> Result<(Vec<u8>, Vec<usize>), Fail> {
    let mut all = Vec::new(alloc);
    let mut ends = Vec::new(alloc);
    for row in ROWS {
        all.extend_from_slice(&bytes(alloc, &[row.unit])?)?;
        ends.push(all.len())?;
    }
    Ok((all, ends))
}

/// The expected answer of the call that reads the unit with this end, if the session's bytes are
/// cut and this many of them are left.
fn wanted(left: usize, cut: usize, end: usize) -> &'static str {
    if cut >= end {
        "a unit"
    } else if left == 0 {
        "an end"
    } else {
        "unexpected end of input"
    }
}

/// Reads all units of a session that is cut: those that are whole, and then a clean end if the cut
/// lies between two units.
fn read_cut(rt: &impl Abort, alloc: Global, cut: &[u8], ends: &[usize]) {
    let mut reader = SliceSource::new(cut);
    for end in ends {
        let want = wanted(reader.rest().len(), cut.len(), *end);
        expect_equal(rt, next(alloc, &mut reader).as_deref(), Some(want));
        expect_equal(rt, reader.rest().len(), cut.len().saturating_sub(*end));
        if cut.len() < *end {
            return;
        }
    }
    expect_equal(rt, next(alloc, &mut reader).as_deref(), Some("an end"));
}

#[test]
fn session_cut_at_every_byte(rt: HostRuntime) -> Result<(), Fail> {
    let (all, ends) = session(rt.alloc())?;
    for count in 0..=all.len() {
        read_cut(&rt, rt.alloc(), front(&all, count), &ends);
    }
    Ok(())
}
