//! Key info of router keys.

use crate::base::rows::named;
use crate::expect::{expect_equal, expect_same, expect_text};
use crate::payload::made::key_info;
use crate::samples::expect_rows;
use bytes::Bytes;
use rtr_payload::pdu::{KeyInfoError, KeyInfoVecError, RouterKeyInfo};
use std::alloc::Global;
use std::test::Fail;

/// The key info of `KEY`.
pub const INFO: &[u8] = &[0x15, 0x16, 0x17, 0x18];

/// The same, in hex.
pub const INFO_TEXT: &str = "15 16 17 18";

#[test]
fn key_info_debug(rt: HostRuntime) {
    let info = key_info(rt.alloc(), INFO_TEXT).expect(&rt, "key info");
    let shown = named(rt.alloc(), &info);
    expect_equal(&rt, shown.as_deref(), Some("RouterKeyInfo(FRYXGA)"));
}

/// Numbers of zero bytes, and how many digits their text has, each of them `A`: four for three
/// bytes, then two for one more byte or three for two (RFC 4648 sections 4 and 5, unpadded).
const ZEROS: &str = "\
299 -> 399
300 -> 400
301 -> 402
32768 -> 43691
65503 -> 87338
";

/// How many digits the text of this many zero bytes has, if each of them is `A`.
fn digits(alloc: Global, count: &str) -> Option<String> {
    let mut zeros = Vec::new(alloc);
    zeros.resize(count.parse().ok()?, 0).ok()?;
    let info = RouterKeyInfo::from_vec(alloc, zeros).ok()?;
    let text = info.to_text(alloc).ok()?;
    if !text.trim_start_matches('A').is_empty() {
        return None;
    }
    text.len().to_string(alloc).ok()
}

#[test]
fn texts_of_long_key_infos(rt: HostRuntime) {
    expect_rows(&rt, rt.alloc(), ZEROS, digits);
}

#[test]
fn key_info_errors(rt: HostRuntime) {
    let alloc = rt.alloc();
    let overflow = "router key size overflow";
    expect_text(&rt, alloc, KeyInfoError, overflow);
    expect_text(&rt, alloc, KeyInfoVecError::Size(KeyInfoError), overflow);
    expect_text(&rt, alloc, KeyInfoVecError::Memory, "out of memory");
}

#[test]
fn key_info_bytes(rt: HostRuntime) {
    let info = key_info(rt.alloc(), INFO_TEXT).expect(&rt, "key info");
    expect_equal(&rt, info.len(), 4);
    expect_equal(&rt, info.as_slice(), INFO);
    expect_equal(&rt, info.into_bytes().as_slice(), INFO);
}

#[test]
fn equal_key_infos(rt: HostRuntime) -> Result<(), Fail> {
    let info = key_info(rt.alloc(), INFO_TEXT).expect(&rt, "key info");
    expect_same(&rt, &RouterKeyInfo::new(Bytes::from_static(INFO))?, &info);
    expect_same(&rt, &info.clone()?, &info);
    Ok(())
}

const ORDERS: &str = "\
01 and 01 00 -> Less
02 and 01 00 -> Greater
07 08 and 07 08 -> Equal
";

fn order(alloc: Global, text: &str) -> Option<String> {
    let (left, right) = text.split_once(" and ")?;
    let left = key_info(alloc, left)?;
    let right = key_info(alloc, right)?;
    named(alloc, &left.cmp(&right))
}

#[test]
fn key_infos_ascend(rt: HostRuntime) {
    expect_rows(&rt, rt.alloc(), ORDERS, order);
}
