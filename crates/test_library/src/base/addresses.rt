//! Addresses, prefixes and max lengths.

use crate::base::rows::named;
use crate::expect::expect_equal;
use crate::samples::expect_rows;
use crate::support::hash_of;
use rtr_base::addr::{MaxLenError, MaxLenPrefix, Prefix, PrefixError};
use std::alloc::Global;
use std::cmp::Ordering;
use std::net::IpAddr;
use std::process::Abort;
use std::test::Fail;

/// The address and the length of a text like `10.0.0.0/8`.
fn parts(text: &str) -> Option<(IpAddr, u8)> {
    let (address, len) = text.split_once('/')?;
    Some((address.parse().ok()?, len.parse().ok()?))
}

/// The address, the length and the family of a prefix, or the name of the error.
fn shown(alloc: Global, made: Result<Prefix, PrefixError>) -> Option<String> {
    match made {
        Ok(prefix) => {
            let family = if prefix.is_v4() { 4 } else { 6 };
            format!(in alloc; "{}/{} of IPv{family}", prefix.addr(), prefix.len()).ok()
        }
        Err(error) => named(alloc, &error),
    }
}

const STRICT: &str = "\
192.0.2.10/23 -> NonZeroHost
192.0.2.10/33 -> LenOverflow
192.0.2.10/32 -> 192.0.2.10/32 of IPv4
192.0.2.0/23 -> 192.0.2.0/23 of IPv4
0.0.0.0/0 -> 0.0.0.0/0 of IPv4
0.0.0.1/0 -> NonZeroHost
ffff:ffff:ffff:ffff:ffff:ffff:ffff:ffff/127 -> NonZeroHost
ffff:ffff:ffff:ffff:ffff:ffff:ffff:ffff/128 -> ffff:ffff:ffff:ffff:ffff:ffff:ffff:ffff/128 of IPv6
ffff:ffff:ffff:ffff:ffff:ffff:ffff:ffff/129 -> LenOverflow
";

fn strict(alloc: Global, text: &str) -> Option<String> {
    let made = match parts(text)? {
        (IpAddr::V4(address), len) => Prefix::new_v4(address, len),
        (IpAddr::V6(address), len) => Prefix::new_v6(address, len),
    };
    shown(alloc, made)
}

const RELAXED: &str = "\
192.0.2.10/23 -> 192.0.2.0/23 of IPv4
255.255.255.255/0 -> 0.0.0.0/0 of IPv4
255.255.255.255/1 -> 128.0.0.0/1 of IPv4
255.255.255.255/31 -> 255.255.255.254/31 of IPv4
255.255.255.255/32 -> 255.255.255.255/32 of IPv4
192.0.2.10/33 -> LenOverflow
2001:db8:0:2:a:0:dead:beef/23 -> 2001:c00::/23 of IPv6
ffff:ffff:ffff:ffff:ffff:ffff:ffff:ffff/0 -> ::/0 of IPv6
ffff:ffff:ffff:ffff:ffff:ffff:ffff:ffff/1 -> 8000::/1 of IPv6
ffff:ffff:ffff:ffff:ffff:ffff:ffff:ffff/127 -> ffff:ffff:ffff:ffff:ffff:ffff:ffff:fffe/127 of IPv6
ffff:ffff:ffff:ffff:ffff:ffff:ffff:ffff/128 -> ffff:ffff:ffff:ffff:ffff:ffff:ffff:ffff/128 of IPv6
ffff:ffff:ffff:ffff:ffff:ffff:ffff:ffff/129 -> LenOverflow
";

fn relaxed(alloc: Global, text: &str) -> Option<String> {
    let made = match parts(text)? {
        (IpAddr::V4(address), len) => Prefix::new_v4_relaxed(address, len),
        (IpAddr::V6(address), len) => Prefix::new_v6_relaxed(address, len),
    };
    shown(alloc, made)
}

#[test]
fn prefixes(rt: HostRuntime) {
    expect_rows(&rt, rt.alloc(), STRICT, strict);
    expect_rows(&rt, rt.alloc(), RELAXED, relaxed);
}

/// The IPv4 prefix at an address.
fn v4(rt: &impl Abort, address: &str, len: u8) -> Prefix {
    let address = address.parse().expect(rt, "an IPv4 address");
    Prefix::new_v4(address, len).expect(rt, "an IPv4 prefix")
}

/// The IPv6 prefix at an address.
fn v6(rt: &impl Abort, address: &str, len: u8) -> Prefix {
    let address = address.parse().expect(rt, "an IPv6 address");
    Prefix::new_v6(address, len).expect(rt, "an IPv6 prefix")
}

#[test]
fn prefixes_of_numbers(rt: HostRuntime) {
    let short = Prefix::from_v4_bits(0xc000020a, 23).expect(&rt, "an IPv4 prefix");
    expect_equal(&rt, short, v4(&rt, "192.0.2.0", 23));
    expect_equal(&rt, short.bits(), 0xc0000200);
    let long = Prefix::from_v6_bits(0x20010db8 << 96, 20).expect(&rt, "an IPv6 prefix");
    expect_equal(&rt, long, v6(&rt, "2001::", 20));
    expect_equal(&rt, long.bits(), 0x2001 << 112);
}

#[test]
fn lengths_that_are_too_large(rt: HostRuntime) {
    let error = Some(PrefixError::LenOverflow);
    expect_equal(&rt, Prefix::from_v4_bits(0, 33).err(), error);
    expect_equal(&rt, Prefix::from_v6_bits(0, 129).err(), error);
}

/// Asserts the parts of a prefix with a max length that is allowed.
fn expect_parts(rt: &impl Abort, prefix: Prefix, max_len: Option<u8>, resolved: u8) {
    let made = MaxLenPrefix::new(prefix, max_len).expect(rt, "an allowed max length");
    expect_equal(rt, (made.prefix(), made.max_len()), (prefix, max_len));
    let shown = (made.addr(), made.prefix_len(), made.resolved_max_len());
    expect_equal(rt, shown, (prefix.addr(), prefix.len(), resolved));
}

#[test]
fn max_lengths(rt: HostRuntime) {
    let short = v4(&rt, "192.0.2.0", 23);
    expect_equal(&rt, short.len(), 23);
    expect_parts(&rt, short, None, 23);
    expect_parts(&rt, short, Some(23), 23);
    expect_parts(&rt, short, Some(32), 32);
    expect_parts(&rt, v6(&rt, "2001:db8::", 32), Some(128), 128);
}

/// Asserts why a max length is refused.
fn expect_refused(rt: &impl Abort, prefix: Prefix, max_len: u8, want: MaxLenError) {
    let error = MaxLenPrefix::new(prefix, Some(max_len)).err();
    expect_equal(rt, error, Some(want));
}

#[test]
fn refused_max_lengths(rt: HostRuntime) {
    let short = v4(&rt, "192.0.2.0", 23);
    expect_refused(&rt, short, 22, MaxLenError::Underflow);
    expect_refused(&rt, short, 33, MaxLenError::Overflow);
    let long = v6(&rt, "2001:db8::", 32);
    expect_refused(&rt, long, 129, MaxLenError::Overflow);
}

/// Prefixes in ascending order, each compared with all.
const ORDERS: &str = "\
10.0.0.0/8 and 10.0.0.0/8 -> Equal
10.0.0.0/8 and 10.0.0.0/16 -> Less
10.0.0.0/8 and 192.0.2.0/24 -> Less
10.0.0.0/8 and ::/0 -> Less
10.0.0.0/16 and 10.0.0.0/8 -> Greater
10.0.0.0/16 and 10.0.0.0/16 -> Equal
10.0.0.0/16 and 192.0.2.0/24 -> Less
10.0.0.0/16 and ::/0 -> Less
192.0.2.0/24 and 10.0.0.0/8 -> Greater
192.0.2.0/24 and 10.0.0.0/16 -> Greater
192.0.2.0/24 and 192.0.2.0/24 -> Equal
192.0.2.0/24 and ::/0 -> Less
::/0 and 10.0.0.0/8 -> Greater
::/0 and 10.0.0.0/16 -> Greater
::/0 and 192.0.2.0/24 -> Greater
::/0 and ::/0 -> Equal
";

fn order(alloc: Global, text: &str) -> Option<String> {
    let (left, right) = text.split_once(" and ")?;
    let order = compared(left.parse().ok()?, right.parse().ok()?)?;
    named(alloc, &order)
}

/// How two prefixes compare, if all comparisons agree.
fn compared(left: Prefix, right: Prefix) -> Option<Ordering> {
    let order = left.cmp(&right);
    let is_same = left.partial_cmp(&right) == Some(order);
    (is_same && (left == right) == order.is_eq()).then_some(order)
}

#[test]
fn prefixes_ascend(rt: HostRuntime) {
    expect_rows(&rt, rt.alloc(), ORDERS, order);
}

#[test]
fn equal_prefixes_hash_alike(rt: HostRuntime) -> Result<(), Fail> {
    let again = Prefix::new_v4_relaxed("10.1.2.3".parse()?, 8)?;
    let first = v4(&rt, "10.0.0.0", 8);
    expect_equal(&rt, hash_of(&again), hash_of(&first));
    Ok(())
}
