//! Router keys and ASPA units.

use crate::expect::{expect, expect_equal, expect_same};
use crate::payload::keys::{INFO, INFO_TEXT};
use crate::payload::made::{key_info, providers};
use crate::samples::{ASPA, ASPA_BARE, IDENTIFIER, KEY, bytes};
use crate::support::{Recorder, filler};
use rtr_base::asn::Asn;
use rtr_payload::pdu::{Aspa, ProviderAsns, RouterKey, RouterKeyInfo};
use rtr_units::fault::Fault;
use rtr_units::source::{Counted, SliceSource};
use std::alloc::Global;
use std::process::Abort;
use std::test::Fail;

fn key(alloc: Global, flags: u8) -> Result<RouterKey, Fail> {
    let info = key_info(alloc, INFO_TEXT).ok_or("no key info")?;
    let asn = Asn::from_u32(65551);
    Ok(RouterKey::new(1, flags, IDENTIFIER, asn, info))
}

fn aspa(alloc: Global, flags: u8) -> Result<Aspa, Fail> {
    let named = providers(alloc, "65549 65550").ok_or("no providers")?;
    Ok(Aspa::new(2, flags, Asn::from_u32(65551), named))
}

fn written_key(alloc: Global, unit: &RouterKey) -> Result<Vec<u8>, Fail> {
    let mut writer = Counted::new(Recorder::new(alloc, usize::MAX));
    unit.write(&mut writer)?;
    Ok(writer.into_inner().into_held())
}

/// Asserts that the key is written as these bytes, and read back from them.
fn expect_key(rt: &impl Abort, alloc: Global, unit: &RouterKey, text: &str) -> Result<(), Fail> {
    let want = bytes(alloc, &[text])?;
    expect_equal(rt, written_key(alloc, unit)?.as_slice(), want.as_slice());
    let read = RouterKey::read(alloc, &mut SliceSource::new(&want))?;
    expect_same(rt, &read, unit);
    Ok(())
}

/// The same for an ASPA.
fn expect_aspa(rt: &impl Abort, alloc: Global, unit: &Aspa, text: &str) -> Result<(), Fail> {
    let want = bytes(alloc, &[text])?;
    let mut writer = Counted::new(Recorder::new(alloc, usize::MAX));
    unit.write(&mut writer)?;
    expect_equal(rt, writer.into_inner().held(), want.as_slice());
    let read = Aspa::read(alloc, &mut SliceSource::new(&want))?;
    expect_same(rt, &read, unit);
    Ok(())
}

#[test]
fn read_write_router_key(rt: HostRuntime) -> Result<(), Fail> {
    expect_key(&rt, rt.alloc(), &key(rt.alloc(), 1)?, KEY)
}

#[test]
fn read_write_aspa(rt: HostRuntime) -> Result<(), Fail> {
    expect_aspa(&rt, rt.alloc(), &aspa(rt.alloc(), 1)?, ASPA)
}

#[test]
fn withdrawal_without_providers(rt: HostRuntime) -> Result<(), Fail> {
    let none = ProviderAsns::empty(rt.alloc())?;
    let unit = Aspa::new(2, 0, Asn::from_u32(65551), none);
    expect_aspa(&rt, rt.alloc(), &unit, ASPA_BARE)
}

#[test]
fn router_key_fields(rt: HostRuntime) -> Result<(), Fail> {
    let unit = key(rt.alloc(), 1)?;
    let numbers = (unit.version(), unit.size(), unit.asn().into_u32());
    expect_equal(&rt, numbers, (1, 36, 65551));
    expect_equal(&rt, unit.key_identifier(), IDENTIFIER);
    expect_equal(&rt, unit.key_info().as_slice(), INFO);
    expect_equal(&rt, RouterKey::max_key_info_size(), 4294967263);
    expect_equal(&rt, unit.into_key_info().as_slice(), INFO);
    Ok(())
}

#[test]
fn aspa_fields(rt: HostRuntime) -> Result<(), Fail> {
    let unit = aspa(rt.alloc(), 1)?;
    let numbers = (unit.version(), unit.size(), unit.customer().into_u32());
    expect_equal(&rt, numbers, (2, 20, 65551));
    expect_equal(&rt, unit.providers().asn_count(), 2);
    expect_equal(&rt, unit.into_providers().len(), 8);
    Ok(())
}

#[test]
fn flags_are_kept(rt: HostRuntime) -> Result<(), Fail> {
    for flags in [0, 1, 128, 255] {
        expect_equal(&rt, key(rt.alloc(), flags)?.flags(), flags);
        expect_equal(&rt, aspa(rt.alloc(), flags)?.flags(), flags);
    }
    Ok(())
}

/// A router key unit that is longer than what is read.
fn long_key(alloc: Global) -> Result<RouterKey, Fail> {
    let info = RouterKeyInfo::from_vec(alloc, filler(alloc, 65504)?)?;
    Ok(RouterKey::new(1, 1, IDENTIFIER, Asn::from_u32(65551), info))
}

#[test]
fn made_and_not_read_back(rt: HostRuntime) -> Result<(), Fail> {
    let unit = long_key(rt.alloc())?;
    expect_equal(&rt, unit.size(), 65536);
    let written = written_key(rt.alloc(), &unit)?;
    let mut reader = SliceSource::new(&written);
    let answer = RouterKey::read(rt.alloc(), &mut reader);
    expect(&rt, matches!(answer, Err(Fault::TooLong)));
    expect_equal(&rt, reader.rest().len(), 65528);
    Ok(())
}

/// The key info of the longest router key that is read. The input and the reader end here.
fn read_key_info(alloc: Global) -> Result<RouterKeyInfo, Fail> {
    let mut input = bytes(alloc, &["01 09 01 00 00 00 ff ff"])?;
    input.extend_from_slice(&filler(alloc, 65527)?)?;
    let mut reader = SliceSource::new(&input);
    let unit = RouterKey::read(alloc, &mut reader)?;
    Ok(unit.into_key_info())
}

#[test]
fn key_info_outlives_its_input(rt: HostRuntime) -> Result<(), Fail> {
    let alloc = rt.alloc();
    let info = read_key_info(alloc)?;
    let rest = filler(alloc, 65527)?;
    expect_equal(&rt, info.len(), 65503);
    expect(&rt, rest.as_slice().ends_with(info.as_slice()));
    Ok(())
}
