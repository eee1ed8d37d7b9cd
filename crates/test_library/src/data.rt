//! What new data is, what it never holds, and what an error says.

use crate::expect::{expect, expect_equal, expect_text};
use crate::support::filler;
use data_memory::{ChangeError, Data};
use rtr_base::asn::Asn;
use rtr_base::error_code::ErrorCode;
use rtr_base::keys::KeyIdentifier;
use rtr_payload::payload::Payload;
use rtr_payload::pdu::{ProviderAsns, RouterKeyInfo};
use std::alloc::Global;
use std::test::Fail;

#[test]
fn nothing_at_first(rt: HostRuntime) {
    let data = Data::new(rt.alloc());
    expect(&rt, data.is_empty());
    expect_equal(&rt, data.len(), 0);
}

/// A router key with this many bytes of key info.
fn key(alloc: Global, count: usize) -> Result<Payload, Fail> {
    let info = RouterKeyInfo::from_vec(alloc, filler(alloc, count)?)?;
    Ok(Payload::router_key(KeyIdentifier::from([7; 20]), Asn::from_u32(65551), info))
}

/// An ASPA without providers, and a router key with a byte more of key info than fits a unit.
#[test]
fn what_no_reader_accepts(rt: HostRuntime) -> Result<(), Fail> {
    let alloc = rt.alloc();
    let mut data = Data::new(alloc);
    let bare = Payload::aspa(Asn::from_u32(65551), ProviderAsns::empty(alloc)?);
    expect_equal(&rt, data.announce(bare), Err(ChangeError::NoProviders));
    let longer = key(alloc, 65504)?;
    expect_equal(&rt, data.announce(longer), Err(ChangeError::KeyTooLong));
    expect_equal(&rt, data.announce(key(alloc, 65503)?), Ok(()));
    expect_equal(&rt, data.len(), 1);
    Ok(())
}

#[test]
fn codes_and_texts(rt: HostRuntime) {
    expect_equal(&rt, ChangeError::Duplicate.code(), Some(ErrorCode(7)));
    expect_equal(&rt, ChangeError::Unknown.code(), Some(ErrorCode(6)));
    expect_equal(&rt, ChangeError::NoProviders.code(), None);
    expect_equal(&rt, ChangeError::Memory.code(), None);
    let alloc = rt.alloc();
    expect_text(&rt, alloc, ChangeError::Duplicate, "duplicate announcement");
    let too_long = "router key is longer than its unit may be";
    expect_text(&rt, alloc, ChangeError::KeyTooLong, too_long);
}
