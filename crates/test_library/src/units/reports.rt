//! Error reports, and reports in place of answers.

use crate::expect::{expect, expect_equal, expect_same};
use crate::samples::{REPORT, bytes};
use rtr_units::error::Error;
use rtr_units::header::Header;
use rtr_units::queries::SerialQuery;
use rtr_units::source::SliceSource;
use rtr_units::unit::Unit;
use std::test::Fail;

#[test]
fn reports_in_place_of_answers(rt: HostRuntime) -> Result<(), Fail> {
    let alloc = rt.alloc();
    let input = bytes(alloc, &[REPORT])?;
    let mut reader = SliceSource::new(&input);
    let header = Header::new(1, 10, 3, 18);
    expect_equal(&rt, SerialQuery::try_read(&mut reader)?, Err(header));
    expect_equal(&rt, reader.rest().len(), 10);
    Error::skip_payload(header, &mut reader)?;
    expect_equal(&rt, reader.rest().len(), 0);
    Ok(())
}

#[test]
fn error_reports(rt: HostRuntime) -> Result<(), Fail> {
    let alloc = rt.alloc();
    let report = Error::new(alloc, 1, 3, &[], "no".as_bytes())?;
    expect_equal(&rt, report.as_ref(), bytes(alloc, &[REPORT])?.as_slice());
    let mut again = report.clone()?;
    expect_same(&rt, &again, &report);
    if let Some(version) = again.as_mut().first_mut() {
        *version = 2;
    }
    expect(&rt, again != report);
    let want = bytes(alloc, &["02", &REPORT[2..]])?;
    expect_equal(&rt, again.as_ref(), want.as_slice());
    Ok(())
}
