//! Error reports: the unit that they are about, and their text.

use crate::base::rows::named;
use crate::expect::{expect, expect_equal};
use crate::samples::{REPORT, bytes, decoded, expect_rows};
use crate::support::{filler, hash_of};
use rtr_units::fault::Fault;
use rtr_units::header::Header;
use rtr_units::source::SliceSource;
use std::alloc::Global;
use std::test::Fail;
use unit_any::Report;

/// Reports whose lengths make them up, with the version, the code, and the unit and the text inside
/// in hex; then reports whose first or second length is too great, is cut, or leaves bytes over.
const REPORTS: &str = "\
00 0a 00 03 00 00 00 10 00 00 00 00 00 00 00 00 -> 0 3 '' ''
00 0a 00 03 00 00 00 12 00 00 00 00 00 00 00 02 6e 6f -> 0 3 '' '6e6f'
000a0003 0000001a 00000008 0105000000000008 00000002 6eff -> 0 3 '0105000000000008' '6eff'
00 0a 00 03 00 00 00 10 00 00 00 01 00 00 00 00 -> 0 3 none none
00 0a 00 03 00 00 00 10 ff ff ff ff 00 00 00 00 -> 0 3 none none
00 0a 00 03 00 00 00 10 00 00 00 04 00 00 00 00 -> 0 3 none none
00 0a 00 03 00 00 00 12 00 00 00 03 00 00 00 00 00 00 -> 0 3 none none
00 0a 00 03 00 00 00 12 00 00 00 00 00 00 00 01 6e 6f -> 0 3 none none
00 0a 00 03 00 00 00 12 00 00 00 00 00 00 00 03 6e 6f -> 0 3 none none
";

/// The bytes in hex between quotes, or `none`.
fn part(alloc: Global, part: Option<&[u8]>) -> Option<String> {
    match part {
        Some(bytes) => {
            let digits = hex::encode(alloc, bytes).ok()?;
            format!(in alloc; "'{digits}'").ok()
        }
        None => String::from_str(alloc, "none").ok(),
    }
}

/// The report of these bytes.
fn read(alloc: Global, bytes: &[u8]) -> Option<Report> {
    Report::read(alloc, &mut SliceSource::new(bytes)).ok()
}

/// Whether a report is read again from its own bytes.
fn is_read_again(alloc: Global, report: &Report) -> bool {
    match read(alloc, report.as_ref()) {
        Some(again) => again == *report && hash_of(&again) == hash_of(report),
        None => false,
    }
}

/// What a report says, if it is read again from its own bytes.
fn parts(alloc: Global, text: &str) -> Option<String> {
    let report = read(alloc, &decoded(alloc, text)?)?;
    if !is_read_again(alloc, &report) {
        return None;
    }
    let (version, code) = (report.version(), report.code().0);
    let (pdu, text) = (part(alloc, report.pdu())?, part(alloc, report.text())?);
    format!(in alloc; "{version} {code} {pdu} {text}").ok()
}

#[test]
fn parts_of_reports(rt: HostRuntime) {
    expect_rows(&rt, rt.alloc(), REPORTS, parts);
}

#[test]
fn longest_report(rt: HostRuntime) -> Result<(), Fail> {
    let alloc = rt.alloc();
    let rest = filler(alloc, 65528)?;
    let mut reader = SliceSource::new(&rest);
    let report = Report::read_payload(alloc, Header::new(1, 10, 0, 65535), &mut reader)?;
    expect_equal(&rt, report.size(), 65535);
    expect_equal(&rt, reader.rest().len(), 1);
    Ok(())
}

/// The name of the type and of its field, and all bytes.
#[test]
fn debug_text_of_a_report(rt: HostRuntime) -> Result<(), Fail> {
    let alloc = rt.alloc();
    let input = bytes(alloc, &[REPORT])?;
    let report = Report::read(alloc, &mut SliceSource::new(&input))?;
    let want = "Report { bytes: [1, 10, 0, 3, 0, 0, 0, 18, 0, 0, 0, 0, 0, 0, 0, 2, 110, 111] }";
    expect_equal(&rt, named(alloc, &report).as_deref(), Some(want));
    Ok(())
}

#[test]
fn headers_of_other_units(rt: HostRuntime) -> Result<(), Fail> {
    let alloc = rt.alloc();
    let rest = filler(alloc, 12)?;
    let mut reader = SliceSource::new(&rest);
    let refused = Report::read_payload(alloc, Header::new(1, 4, 0, 20), &mut reader);
    expect(&rt, matches!(&refused, Err(Fault::UnitType(4))));
    expect_equal(&rt, reader.rest().len(), 12);
    Ok(())
}
