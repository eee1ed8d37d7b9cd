//! Parts of payloads, borrowed and cloned.

use crate::expect::{expect, expect_equal, expect_same};
use crate::payload::made::{ASCENDING, aspa, key, origin, payloads};
use rtr_payload::payload::{Aspa, Payload, PayloadRef, PayloadType, RouteOrigin, RouterKey};
use std::process::Abort;
use std::test::Fail;

/// The payload's part, borrowed.
fn lent(payload: &Payload) -> PayloadRef<'_> {
    match payload {
        Payload::Origin(origin) => PayloadRef::from(origin),
        Payload::RouterKey(key) => PayloadRef::from(key),
        Payload::Aspa(aspa) => PayloadRef::from(aspa),
    }
}

#[test]
fn parts_are_lent(rt: HostRuntime) {
    for payload in &payloads(rt.alloc(), ASCENDING).expect(&rt, "payloads") {
        expect(&rt, lent(payload) == payload.as_ref());
    }
}

#[test]
fn origins_are_lent(rt: HostRuntime) {
    let origin = origin("65551 192.0.2.0 23 26").expect(&rt, "an origin");
    let payload = Payload::from(origin);
    expect(&rt, PayloadRef::from(origin) == payload.as_ref());
    expect(&rt, PayloadRef::from(&origin) == payload.as_ref());
}

/// Asserts the type of a payload, and the one part that it has.
fn expect_parts(
    rt: &impl Abort,
    payload: &Payload,
    kind: PayloadType,
    origin: Option<RouteOrigin>,
    key: Option<&RouterKey>,
    aspa: Option<&Aspa>,
) {
    expect_equal(rt, payload.payload_type(), kind);
    expect(rt, payload.to_origin() == origin);
    expect(rt, payload.as_router_key() == key);
    expect(rt, payload.as_aspa() == aspa);
}

#[test]
fn parts_of_an_origin(rt: HostRuntime) {
    let origin = origin("65551 192.0.2.0 23 26").expect(&rt, "an origin");
    let payload = Payload::origin(origin.prefix, origin.asn);
    expect_parts(&rt, &payload, PayloadType::Origin, Some(origin), None, None);
}

#[test]
fn parts_of_a_key(rt: HostRuntime) -> Result<(), Fail> {
    let key = key(rt.alloc(), "65551 1 15161718").expect(&rt, "a key");
    let same = key.clone()?;
    let payload = Payload::router_key(same.key_identifier, same.asn, same.key_info);
    expect_parts(
        &rt,
        &payload,
        PayloadType::RouterKey,
        None,
        Some(&key),
        None,
    );
    Ok(())
}

#[test]
fn parts_of_an_aspa(rt: HostRuntime) -> Result<(), Fail> {
    let aspa = aspa(rt.alloc(), "65551 65549 65550").expect(&rt, "an ASPA");
    let same = aspa.clone()?;
    let payload = Payload::aspa(same.customer, same.providers);
    expect_parts(&rt, &payload, PayloadType::Aspa, None, None, Some(&aspa));
    Ok(())
}

#[test]
fn clones_are_equal(rt: HostRuntime) -> Result<(), Fail> {
    for payload in &payloads(rt.alloc(), ASCENDING).expect(&rt, "payloads") {
        expect_same(&rt, &payload.clone()?, payload);
    }
    Ok(())
}

#[test]
fn withdrawals(rt: HostRuntime) -> Result<(), Fail> {
    let aspa = aspa(rt.alloc(), "65551 65549 65550").expect(&rt, "an ASPA");
    let withdrawn = aspa.withdraw(rt.alloc())?;
    expect_equal(&rt, withdrawn.key(), aspa.key());
    expect_equal(&rt, withdrawn.customer.into_u32(), 65551);
    expect_equal(&rt, withdrawn.providers.is_empty(), true);
    expect_equal(&rt, aspa.providers.asn_count(), 2);
    Ok(())
}
