//! The texts of faults.

use crate::expect::expect_text;
use rtr_units::error::Error;
use rtr_units::fault::Fault;
use std::io;
use std::io::ErrorKind;

fn is_error<E: std::error::Error>(_: &E) {}

fn interrupted() -> io::Error {
    io::Error::from(ErrorKind::Interrupted)
}

#[test]
fn texts_of_faults(rt: HostRuntime) {
    let alloc = rt.alloc();
    let table = [
        (Fault::Reader(interrupted()), "read failed"),
        (Fault::Writer(interrupted()), "write failed"),
        (Fault::Short, "unexpected end of input"),
        (Fault::UnitType(10), "unit type 10 is not allowed here"),
        (Fault::UnitLength, "invalid unit length"),
        (Fault::TooLong, "unit is longer than 65535 bytes"),
        (Fault::EmptyProviders, "ASPA unit has no providers"),
        (Fault::UnitVersion(3), "version 3 is not supported here"),
        (
            Fault::Refused(Error::empty(alloc)),
            "prefix fields are not allowed",
        ),
        (Fault::TooMany, "too many units"),
        (Fault::Memory, "out of memory"),
    ];
    for (fault, want) in table {
        is_error(&fault);
        expect_text(&rt, alloc, fault, want);
    }
}
