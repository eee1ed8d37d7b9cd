//! Serial numbers and states.

use crate::base::rows::named;
use crate::expect::{expect, expect_equal};
use crate::samples::expect_rows;
use crate::support::hash_of;
use rtr_base::laws;
use rtr_base::state::{Serial, State};
use std::alloc::Global;

const ORDERS: &str = "\
12 and 12 -> Some(Equal)
12 and 13 -> Some(Less)
13 and 12 -> Some(Greater)
12 and 3000000012 -> Some(Greater)
3000000012 and 12 -> Some(Less)
1 and 0x80000001 -> None
0x80000001 and 1 -> None
0 and 0x60000000 -> Some(Less)
0x60000000 and 0xC0000000 -> Some(Less)
0xC0000000 and 0 -> Some(Less)
";

/// The number that digits stand for, hex ones after `0x`.
fn number(text: &str) -> Option<u32> {
    match text.strip_prefix("0x") {
        Some(digits) => u32::from_str_radix(digits, 16).ok(),
        None => text.parse().ok(),
    }
}

fn order(alloc: Global, text: &str) -> Option<String> {
    let (left, right) = text.split_once(" and ")?;
    let (left, right) = (Serial(number(left)?), Serial(number(right)?));
    named(alloc, &left.partial_cmp(&right))
}

#[test]
fn serials_compare(rt: HostRuntime) {
    expect_rows(&rt, rt.alloc(), ORDERS, order);
}

#[test]
fn equal_serials(rt: HostRuntime) {
    expect(&rt, Serial(12) == Serial(12));
    expect(&rt, Serial(12) != Serial(112));
    expect_equal(&rt, hash_of(&Serial(12)), hash_of(&Serial(12)));
    laws::serial_reversed();
    laws::serial_half_circle();
}

#[test]
fn serials_add(rt: HostRuntime) {
    expect_equal(&rt, Serial(0).add(4), Serial(4));
    expect_equal(&rt, Serial(0xff000000).add(0x0f000000), Serial(0x0e000000));
    expect_equal(&rt, Serial(0xffffffff).add(0x7fffffff), Serial(0x7ffffffe));
}

#[test]
fn serials_convert(rt: HostRuntime) {
    let serial = Serial::from_be_bytes([0xde, 0xad, 0xbe, 0xef]);
    expect_equal(&rt, serial, Serial(0xdeadbeef));
    expect(&rt, serial.to_be_bytes() == [0xde, 0xad, 0xbe, 0xef]);
    expect_equal(&rt, Serial::from(17), Serial(17));
    expect_equal(&rt, u32::from(Serial(17)), 17);
    expect_equal(&rt, Serial::default(), Serial(0));
}

#[test]
fn state_goes_on(rt: HostRuntime) {
    let mut state = State::from_parts(0x1234, Serial(4294967295));
    state.inc();
    expect_equal(&rt, state.session(), 0x1234);
    expect_equal(&rt, state.serial(), Serial(0));
    expect_equal(&rt, state, State::from_parts(0x1234, Serial(0)));
}
