//! The texts of faults.

use crate::expect::expect_text;
use rtr_wire::IntoFault;
use rtr_wire::pdu::{Fault, PrefixRule, ViewFault};
use std::io::{Error, ErrorKind};

/// A writer's error.
fn full() -> ViewFault {
    ViewFault::Writer(Error::from(ErrorKind::WriteZero))
}

#[test]
fn texts_of_view_faults(rt: HostRuntime) {
    let alloc = rt.alloc();
    expect_text(&rt, alloc, full(), "write failed");
    expect_text(&rt, alloc, ViewFault::Short, "unexpected end of input");
    expect_text(&rt, alloc, ViewFault::TooMany, "too many units");
}

#[test]
fn texts_of_refused_units(rt: HostRuntime) {
    let alloc = rt.alloc();
    let prefix = ViewFault::Prefix(PrefixRule::LenOverflow);
    expect_text(
        &rt,
        alloc,
        ViewFault::UnitType(10),
        "unit type 10 is not allowed here",
    );
    expect_text(&rt, alloc, ViewFault::UnitLength, "invalid unit length");
    expect_text(
        &rt,
        alloc,
        ViewFault::TooLong,
        "unit is longer than 65535 bytes",
    );
    expect_text(
        &rt,
        alloc,
        ViewFault::EmptyProviders,
        "ASPA unit has no providers",
    );
    expect_text(
        &rt,
        alloc,
        ViewFault::UnitVersion(3),
        "version 3 is not supported here",
    );
    expect_text(&rt, alloc, prefix, "prefix fields are not allowed");
}

/// Why a call into a slice stopped, with the text of the view's fault if that was the reason.
#[test]
fn texts_of_stops(rt: HostRuntime) {
    let alloc = rt.alloc();
    let refused = IntoFault::Refused(ViewFault::UnitType(10));
    expect_text(&rt, alloc, IntoFault::NoRoom, "no room in the output");
    expect_text(&rt, alloc, IntoFault::TooMany, "too many units");
    expect_text(&rt, alloc, refused, "unit type 10 is not allowed here");
    expect_text(&rt, alloc, IntoFault::Refused(full()), "write failed");
}

#[test]
fn text_of_want_of_memory(rt: HostRuntime) {
    expect_text(&rt, rt.alloc(), Fault::Memory, "out of memory");
}
