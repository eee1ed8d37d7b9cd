//! Ends of data.

use crate::expect::expect_equal;
use crate::samples::{END_0, END_REST, bytes, state};
use crate::support::Recorder;
use rtr_base::state::Serial;
use rtr_base::timing::Timing;
use rtr_units::end::{EndOfData, EndOfDataV0, EndOfDataV1};
use rtr_units::source::{Counted, SliceSource};
use rtr_units::unit::Unit;
use std::alloc::Global;
use std::process::Abort;
use std::test::Fail;

#[test]
fn ends_of_version_0(rt: HostRuntime) -> Result<(), Fail> {
    let alloc = rt.alloc();
    let timing = Timing::default();
    let first = EndOfData::new(0, state(), timing);
    expect_equal(&rt, first.as_ref(), bytes(alloc, &[END_0])?.as_slice());
    expect_equal(&rt, (first.version(), first.timing()), (0, None));
    expect_equal(
        &rt,
        (timing.refresh, timing.retry, timing.expire),
        (3600, 600, 7200),
    );
    Ok(())
}

#[test]
fn ends_of_later_versions(rt: HostRuntime) -> Result<(), Fail> {
    let alloc = rt.alloc();
    let timing = Timing::default();
    let later = EndOfData::new(3, state(), timing);
    let mut writer = Counted::new(Recorder::new(alloc, 7));
    later.write(&mut writer)?;
    let written = writer.into_inner().into_held();
    let third = bytes(alloc, &["03", END_REST])?;
    expect_equal(&rt, written.as_slice(), third.as_slice());
    expect_equal(&rt, (later.version(), later.timing()), (3, Some(timing)));
    let parts = (later.session(), later.serial(), later.state());
    expect_equal(&rt, parts, (0x1234, Serial(0xdeadbeef), state()));
    Ok(())
}

/// Reading keeps a version, though no end of data of 12 bytes has it.
#[test]
fn ends_of_stray_versions(rt: HostRuntime) -> Result<(), Fail> {
    let odd = bytes(rt.alloc(), &["05 07 12 34 00 00 00 0c de ad be ef"])?;
    let unit = EndOfDataV0::read(&mut SliceSource::new(&odd))?;
    expect_equal(&rt, unit.version(), 5);
    expect_equal(&rt, unit.as_ref(), odd.as_slice());
    expect_equal(&rt, EndOfData::V0(unit).version(), 0);
    Ok(())
}

#[test]
fn ends_of_changed_versions(rt: HostRuntime) {
    let timing = Timing::default();
    let mut unit = EndOfDataV1::new(1, state(), timing);
    unit.as_mut()[0] = 0;
    let end = EndOfData::V1(unit);
    expect_equal(&rt, (end.version(), end.timing()), (0, Some(timing)));
}

/// Asserts that the end of data of a version has the first and the last byte that are put there.
fn expect_altered(rt: &impl Abort, alloc: Global, version: u8, text: &str) -> Result<(), Fail> {
    let mut end = EndOfData::new(version, state(), Timing::default());
    if let Some(byte) = end.as_mut().first_mut() {
        *byte = 0x77;
    }
    if let Some(byte) = end.as_mut().last_mut() {
        *byte = 0x88;
    }
    let want = bytes(alloc, &[text])?;
    expect_equal(rt, end.as_ref(), want.as_slice());
    Ok(())
}

#[test]
fn altered_ends(rt: HostRuntime) -> Result<(), Fail> {
    expect_altered(&rt, rt.alloc(), 0, "77 07 12 34 00 00 00 0c de ad be 88")?;
    let later = "77 07 12 34 00 00 00 18 de ad be ef 00 00 0e 10 00 00 02 58 00 00 1c 88";
    expect_altered(&rt, rt.alloc(), 1, later)
}
