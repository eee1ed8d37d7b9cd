//! Debug texts: all types of values have one. Those of units of no fixed size, of borrowed payloads
//! and of the rules on prefixes are compared.

use crate::base::rows::named;
use crate::expect::expect_equal;
use crate::samples::{ASPA, ASPA_NAMED, IPV4, IPV6, KEY, decoded};
use crate::wire::unit;
use rtr_wire::base::{Asn, KeyIdentifier, MaxLenPrefix, Prefix};
use rtr_wire::payload::{Action, Afi, PayloadType, RouteOrigin, Timing};
use rtr_wire::pdu::{
    CacheReset, CacheResponse, Counted, EndOfData, Error, ErrorCode, Fault, Header, KeyInfoError,
    KeyInfoVecError, PrefixRule, ProviderAsns, ProviderIterError, ResetQuery, SerialNotify,
    SerialQuery, SerialQueryPayload, SliceSource,
};
use rtr_wire::state::{Serial, State};
use std::alloc::Global;
use std::fmt::Debug;
use std::net::Ipv4Addr;
use std::process::Abort;
use std::test::Fail;

/// Asserts that the value has a debug text.
fn expect_shown<T: Debug>(rt: &impl Abort, alloc: Global, value: &T) {
    let text = format!(in alloc; "{value:?}").expect(rt, "memory");
    assert!(rt; !text.is_empty());
}

#[test]
fn plain_values(rt: HostRuntime) -> Result<(), Fail> {
    let alloc = rt.alloc();
    let asn = Asn::from_u32(65551);
    let prefix = Prefix::new_v4(Ipv4Addr::new(192, 0, 2, 0), 23)?;
    let longest = MaxLenPrefix::new(prefix, Some(26))?;
    expect_shown(&rt, alloc, &(asn, prefix, longest));
    expect_shown(&rt, alloc, &KeyIdentifier::from([7; 20]));
    expect_shown(&rt, alloc, &RouteOrigin::new(longest, asn));
    Ok(())
}

#[test]
fn states_codes_and_errors(rt: HostRuntime) {
    let alloc = rt.alloc();
    expect_shown(&rt, alloc, &State::from_parts(1, Serial(2)));
    expect_shown(&rt, alloc, &Timing::default());
    expect_shown(&rt, alloc, &(Action::Announce, Afi::ipv4()));
    expect_shown(&rt, alloc, &ErrorCode::CORRUPT_DATA);
    expect_shown(&rt, alloc, &PayloadType::Aspa);
    expect_shown(&rt, alloc, &KeyInfoError);
    expect_shown(&rt, alloc, &KeyInfoVecError::Memory);
    expect_shown(&rt, alloc, &ProviderIterError::Memory);
    expect_shown(&rt, alloc, &Fault::Refused(Error::empty(alloc)));
}

#[test]
fn units_of_a_fixed_size(rt: HostRuntime) {
    let alloc = rt.alloc();
    let state = State::from_parts(1, Serial(2));
    expect_shown(&rt, alloc, &SerialNotify::new(1, state));
    expect_shown(&rt, alloc, &CacheResponse::new(1, state));
    expect_shown(&rt, alloc, &SerialQuery::new(1, state));
    expect_shown(&rt, alloc, &SerialQueryPayload::default());
    expect_shown(&rt, alloc, &EndOfData::new(0, state, Timing::default()));
    expect_shown(&rt, alloc, &EndOfData::new(1, state, Timing::default()));
    expect_shown(&rt, alloc, &ResetQuery::new(1));
    expect_shown(&rt, alloc, &CacheReset::new(1));
    expect_shown(&rt, alloc, &Header::default());
}

/// Asserts that the unit of these bytes has a debug text, and that its meaning has one.
fn expect_unit_shown(rt: &impl Abort, alloc: Global, text: &str) {
    let input = decoded(alloc, text).expect(rt, "bytes");
    let unit = unit(alloc, &input).expect(rt, "a unit");
    expect_shown(rt, alloc, &unit);
    let meaning = unit.to_payload(alloc).ok().expect(rt, "a meaning");
    expect_shown(rt, alloc, &meaning);
}

#[test]
fn payload_units_and_their_meanings(rt: HostRuntime) {
    for text in [IPV4, IPV6, KEY, ASPA_NAMED] {
        expect_unit_shown(&rt, rt.alloc(), text);
    }
}

/// Units of no fixed size, and their debug texts: the names of the type and of its fields, and all
/// bytes.
const TEXTS: &[(&str, &str)] = &[
    (
        KEY,
        "RouterKey(RouterKey { \
         fixed: [1, 9, 1, 0, 0, 0, 0, 36, 1, 2, 3, 4, 5, 6, 7, 8, 9, 10, 11, 12, 13, 14, 15, 16, \
         17, 18, 19, 20, 0, 1, 0, 15], body: RouterKeyInfo(FRYXGA) })",
    ),
    (
        ASPA_NAMED,
        "Aspa(Aspa { \
         fixed: [2, 11, 0, 0, 0, 0, 0, 20, 0, 1, 0, 15], body: [Asn(65549), Asn(65550)] })",
    ),
];

/// The debug text of the unit of these bytes.
fn shown(alloc: Global, text: &str) -> Option<String> {
    let unit = unit(alloc, &decoded(alloc, text)?)?;
    named(alloc, &unit)
}

#[test]
fn texts_of_units_of_no_fixed_size(rt: HostRuntime) {
    for (input, want) in TEXTS {
        let text = shown(rt.alloc(), input);
        expect_equal(&rt, text.as_deref(), Some(*want));
    }
}

/// Units, and the debug texts of their payloads where these are borrowed, in the form that Rust's
/// derive gives to types of the same fields.
const BORROWED: &[(&str, &str)] = &[
    (
        IPV4,
        "Origin(RouteOrigin { prefix: MaxLenPrefix { prefix: Prefix { is_v4: true, len: 23, \
         bits: 3221225984 }, max_len: Some(26) }, asn: Asn(65551) })",
    ),
    (
        KEY,
        "RouterKey(RouterKey { key_identifier: KeyIdentifier([1, 2, 3, 4, 5, 6, 7, 8, 9, 10, 11, \
         12, 13, 14, 15, 16, 17, 18, 19, 20]), asn: Asn(65551), \
         key_info: RouterKeyInfo(FRYXGA) })",
    ),
    (
        ASPA,
        "Aspa(Aspa { customer: Asn(65551), providers: [Asn(65549), Asn(65550)] })",
    ),
];

/// The debug text of the payload of the unit of these bytes, which is borrowed.
fn borrowed(alloc: Global, text: &str) -> Option<String> {
    let unit = unit(alloc, &decoded(alloc, text)?)?;
    let (_, payload) = unit.to_payload(alloc).ok()?;
    named(alloc, &payload.as_ref())
}

#[test]
fn texts_of_borrowed_payloads(rt: HostRuntime) {
    for (input, want) in BORROWED {
        let text = borrowed(rt.alloc(), input);
        expect_equal(&rt, text.as_deref(), Some(*want));
    }
}

#[test]
fn texts_of_prefix_rules(rt: HostRuntime) {
    let rules = [
        PrefixRule::LenOverflow,
        PrefixRule::MaxOverflow,
        PrefixRule::MaxUnderflow,
    ];
    for (rule, want) in rules
        .iter()
        .zip(["LenOverflow", "MaxOverflow", "MaxUnderflow"])
    {
        let text = named(rt.alloc(), rule);
        expect_equal(&rt, text.as_deref(), Some(want));
    }
}

#[test]
fn text_of_an_error_report(rt: HostRuntime) -> Result<(), Fail> {
    let report = Error::new(rt.alloc(), 1, 3, &[], b"no")?;
    let text = format!(in rt.alloc(); "{report:?}")?;
    let want = "Error { bytes: [1, 10, 0, 3, 0, 0, 0, 18, 0, 0, 0, 0, 0, 0, 0, 2, 110, 111] }";
    expect_equal(&rt, text.as_str(), want);
    Ok(())
}

#[test]
fn readers_and_iterators(rt: HostRuntime) -> Result<(), Fail> {
    expect_shown(&rt, rt.alloc(), &Counted::new(SliceSource::new(&[1, 2])));
    let providers = ProviderAsns::empty(rt.alloc())?;
    expect_shown(&rt, rt.alloc(), &providers.iter());
    Ok(())
}
