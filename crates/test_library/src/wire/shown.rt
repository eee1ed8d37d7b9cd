//! What the crate exports.

use rtr_wire::{base, laws, payload, pdu, state};
use std::mem::size_of;
use std::process::Abort;

/// Calls laws of each layer; a call does nothing.
#[test]
fn laws_are_shown() {
    laws::prefix_order();
    laws::serial_reversed();
    laws::serial_half_circle();
    laws::provider_order();
    laws::payload_forms();
    laws::self_delimiting();
    laws::injective();
    laws::idempotent();
}

/// Asserts that each size is that of a value of a few words.
fn expect_small(rt: &impl Abort, sizes: &[usize]) {
    for size in sizes {
        assert!(rt; *size <= 128);
    }
}

/// Types of the modules of plain values are named.
#[test]
fn plain_values_are_shown(rt: HostRuntime) {
    let sizes = [
        size_of::<state::Serial>(),
        size_of::<state::State>(),
        size_of::<base::Asn>(),
        size_of::<base::KeyIdentifier>(),
        size_of::<base::Prefix>(),
        size_of::<base::MaxLenPrefix>(),
        size_of::<base::PrefixError>(),
        size_of::<base::MaxLenError>(),
    ];
    expect_small(&rt, &sizes);
}

/// Types of module `payload` are named.
#[test]
fn meanings_are_shown(rt: HostRuntime) {
    let sizes = [
        size_of::<payload::Action>(),
        size_of::<payload::Afi>(),
        size_of::<payload::Timing>(),
        size_of::<payload::RouteOrigin>(),
        size_of::<payload::RouterKey>(),
        size_of::<payload::Aspa>(),
        size_of::<payload::Payload>(),
        size_of::<payload::PayloadType>(),
        size_of::<payload::PayloadRef<'static>>(),
    ];
    expect_small(&rt, &sizes);
}

/// Types of readers, faults and units of a fixed size are named.
#[test]
fn fixed_units_are_shown(rt: HostRuntime) {
    let sizes = [
        size_of::<pdu::ErrorCode>(),
        size_of::<pdu::Fault>(),
        size_of::<pdu::Header>(),
        size_of::<pdu::SerialNotify>(),
        size_of::<pdu::SerialQuery>(),
        size_of::<pdu::SerialQueryPayload>(),
        size_of::<pdu::ResetQuery>(),
        size_of::<pdu::CacheResponse>(),
        size_of::<pdu::CacheReset>(),
        size_of::<pdu::Ipv4Prefix>(),
        size_of::<pdu::Ipv6Prefix>(),
        size_of::<pdu::EndOfDataV0>(),
        size_of::<pdu::EndOfDataV1>(),
        size_of::<pdu::EndOfData>(),
        size_of::<pdu::Error>(),
        size_of::<pdu::SliceSource<'static>>(),
        size_of::<pdu::Counted<u8>>(),
    ];
    expect_small(&rt, &sizes);
}

/// Types of variable units and what they hold are named.
#[test]
fn variable_units_are_shown(rt: HostRuntime) {
    let sizes = [
        size_of::<pdu::RouterKeyInfo>(),
        size_of::<pdu::ProviderAsns>(),
        size_of::<pdu::KeyInfoError>(),
        size_of::<pdu::KeyInfoVecError>(),
        size_of::<pdu::ProviderAsnsError>(),
        size_of::<pdu::ProviderIterError>(),
        size_of::<pdu::RouterKey>(),
        size_of::<pdu::Aspa>(),
        size_of::<pdu::Payload>(),
        size_of::<pdu::ProviderIter<'static>>(),
    ];
    expect_small(&rt, &sizes);
}
