//! ASNs, keys, actions, families, timings and error codes.

use crate::expect::{expect, expect_equal, expect_same};
use rtr_base::action::Action;
use rtr_base::afi::Afi;
use rtr_base::asn::Asn;
use rtr_base::error_code::ErrorCode;
use rtr_base::keys::KeyIdentifier;
use rtr_base::timing::Timing;

#[test]
fn numbers(rt: HostRuntime) {
    let number = Asn::from_u32(65551);
    expect_equal(&rt, number.into_u32(), 65551);
    expect_same(&rt, &Asn::from(65551), &number);
    expect(&rt, Asn::from_u32(2) < Asn::from_u32(256));
}

#[test]
fn keys(rt: HostRuntime) {
    let mut bytes = [0; 20];
    bytes[0] = 1;
    let key = KeyIdentifier::from(bytes);
    let back: [u8; 20] = key.into();
    expect(&rt, back == bytes);
    expect_same(&rt, &key, &KeyIdentifier::from(back));
    bytes[19] = 1;
    let next = KeyIdentifier::from(bytes);
    expect(&rt, key < next && key != next);
}

#[test]
fn actions(rt: HostRuntime) {
    let flags = [
        (0, Action::Withdraw),
        (1, Action::Announce),
        (128, Action::Withdraw),
        (255, Action::Announce),
    ];
    for (flags, action) in flags {
        expect_equal(&rt, Action::from_flags(flags), action);
    }
    for (action, flags) in [(Action::Withdraw, 0), (Action::Announce, 1)] {
        let shown = (
            action.into_flags(),
            action.is_announce(),
            action.is_withdraw(),
        );
        expect_equal(&rt, shown, (flags, flags == 1, flags == 0));
    }
    expect(&rt, Action::Announce < Action::Withdraw);
}

#[test]
fn families(rt: HostRuntime) {
    expect_equal(&rt, Afi::from_u8(1), Afi::ipv6());
    // Whatever isn't 1 is IPv4, but keeps its number.
    let other = Afi::from_u8(2);
    expect(&rt, other != Afi::ipv4() && Afi::ipv6() < other);
    for (family, number) in [(Afi::ipv6(), 1), (other, 2)] {
        let shown = (family.into_u8(), family.is_ipv6(), family.is_ipv4());
        expect_equal(&rt, shown, (number, number == 1, number == 2));
    }
}

#[test]
fn timings_by_default(rt: HostRuntime) {
    let timing = Timing::default();
    expect_equal(
        &rt,
        timing,
        Timing {
            refresh: 3600,
            retry: 600,
            expire: 7200,
        },
    );
    expect_equal(&rt, timing.refresh_duration().as_secs(), 3600);
    expect_equal(&rt, timing.refresh_duration().subsec_nanos(), 0);
}

#[test]
fn error_codes(rt: HostRuntime) {
    let codes = [
        (ErrorCode::CORRUPT_DATA, 0),
        (ErrorCode::INTERNAL_ERROR, 1),
        (ErrorCode::NO_DATA_AVAILABLE, 2),
        (ErrorCode::INVALID_REQUEST, 3),
        (ErrorCode::UNSUPPORTED_PROTOCOL_VERSION, 4),
        (ErrorCode::UNSUPPORTED_PDU_TYPE, 5),
        (ErrorCode::WITHDRAWAL_OF_UNKNOWN_RECORD, 6),
        (ErrorCode::DUPLICATE_ANNOUNCEMENT_RECEIVED, 7),
        (ErrorCode::UNEXPECTED_PROTOCOL_VERSION, 8),
        (ErrorCode::ASPA_PROVIDER_LIST_ERROR, 9),
        (ErrorCode::TRANSPORT_ERROR, 10),
        (ErrorCode::ORDERING_ERROR, 11),
    ];
    for (code, number) in codes {
        expect_equal(&rt, code, ErrorCode(number));
    }
    expect(&rt, ErrorCode::CORRUPT_DATA < ErrorCode::INTERNAL_ERROR);
    expect_same(&rt, &ErrorCode(3), &ErrorCode::INVALID_REQUEST);
}
