//! Router keys, ASPA units and payload units of any kind, made, written and read with what the
//! crate exports.

use crate::expect::{expect, expect_equal};
use crate::samples::{ASPA, IDENTIFIER, IPV4, KEY, bytes};
use rtr_wire::base::{Asn, KeyIdentifier, MaxLenPrefix, Prefix};
use rtr_wire::payload;
use rtr_wire::pdu::{Counted, Payload, ProviderAsns, RouterKeyInfo};
use std::alloc::Global;
use std::net::Ipv4Addr;
use std::process::Abort;
use std::test::Fail;

/// The key info of `KEY`.
fn info(alloc: Global) -> Result<RouterKeyInfo, Fail> {
    let info = bytes(alloc, &["15 16 17 18"])?;
    Ok(RouterKeyInfo::from_vec(alloc, info)?)
}

/// The providers of `ASPA`.
fn providers(alloc: Global) -> Result<ProviderAsns, Fail> {
    let asns = (65549..65551).map(|asn| Asn::from_u32(asn));
    Ok(ProviderAsns::try_from_iter(alloc, asns)?)
}

#[test]
fn a_key_identifier(rt: HostRuntime) {
    let identifier = KeyIdentifier::from(IDENTIFIER);
    expect_equal(&rt, identifier.as_slice(), IDENTIFIER.as_slice());
    expect_equal(&rt, identifier.into_bytes(), IDENTIFIER);
}

/// Asserts that these bytes are read as the unit of this action and payload.
fn reads(
    rt: &impl Abort,
    alloc: Global,
    unit: &Payload,
    action: payload::Action,
    payload: &payload::Payload,
    input: &[u8],
) {
    let read = crate::wire::unit(alloc, input).expect(rt, "a unit");
    expect(rt, read == *unit);
    expect_equal(rt, read.action(), action);
    let (_, meaning) = read.to_payload(alloc).ok().expect(rt, "a meaning");
    expect(rt, meaning == *payload);
}

/// Asserts that the unit of the payload is written as these bytes, and that they are read as the
/// payload.
fn passes(
    rt: &impl Abort,
    alloc: Global,
    version: u8,
    action: payload::Action,
    payload: &payload::Payload,
    text: &str,
) -> Result<(), Fail> {
    let want = bytes(alloc, &[text])?;
    let unit = Payload::new(version, action.into_flags(), &payload.as_ref())?;
    let mut writer = Counted::new(Vec::new(alloc));
    unit.write(&mut writer)?;
    expect_equal(rt, writer.into_inner().as_slice(), want.as_slice());
    reads(rt, alloc, &unit, action, payload, &want);
    Ok(())
}

#[test]
fn payload_units_of_origins(rt: HostRuntime) -> Result<(), Fail> {
    let prefix = Prefix::new_v4(Ipv4Addr::new(192, 0, 2, 0), 23)?;
    let prefix = MaxLenPrefix::new(prefix, Some(26))?;
    let origin = payload::Payload::origin(prefix, Asn::from_u32(65551));
    passes(&rt, rt.alloc(), 1, payload::Action::Announce, &origin, IPV4)
}

#[test]
fn payload_units_of_keys(rt: HostRuntime) -> Result<(), Fail> {
    let alloc = rt.alloc();
    let identifier = KeyIdentifier::from(IDENTIFIER);
    let key = payload::Payload::router_key(identifier, Asn::from_u32(65551), info(alloc)?);
    passes(&rt, alloc, 1, payload::Action::Announce, &key, KEY)
}

#[test]
fn payload_units_of_aspas(rt: HostRuntime) -> Result<(), Fail> {
    let alloc = rt.alloc();
    let aspa = payload::Payload::aspa(Asn::from_u32(65551), providers(alloc)?);
    passes(&rt, alloc, 2, payload::Action::Announce, &aspa, ASPA)
}
