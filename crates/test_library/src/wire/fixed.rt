//! Units of a fixed size, made, written and read with what the crate exports.

use crate::expect::{expect, expect_equal};
use crate::samples::{QUERY, bytes, state};
use rtr_wire::pdu::{
    Counted, Header, SerialNotify, SerialQuery, SerialQueryPayload, SliceSource, Unit,
};
use rtr_wire::state::Serial;
use std::test::Fail;

#[test]
fn states_of_a_notify_and_a_query(rt: HostRuntime) {
    let notify = SerialNotify::new(1, state());
    expect_equal(&rt, notify.serial().into_u32(), 0xdeadbeef);
    expect(&rt, notify.state() == state());
    let query = SerialQuery::new(1, state());
    expect_equal(&rt, query.serial().into_u32(), 0xdeadbeef);
    expect(&rt, query.state() == state());
}

#[test]
fn a_query_is_written_in_two_parts(rt: HostRuntime) -> Result<(), Fail> {
    let query = bytes(rt.alloc(), &[QUERY])?;
    let mut writer = Counted::new(Vec::new(rt.alloc()));
    Header::new(1, SerialQuery::PDU, 0x1234, 12).write(&mut writer)?;
    SerialQueryPayload::new(Serial(0xdeadbeef)).write(&mut writer)?;
    expect_equal(&rt, writer.into_inner().as_slice(), query.as_slice());
    Ok(())
}

#[test]
fn a_query_is_read_in_two_parts(rt: HostRuntime) -> Result<(), Fail> {
    let query = bytes(rt.alloc(), &[QUERY])?;
    let mut reader = SliceSource::new(&query);
    expect_equal(&rt, Header::read(&mut reader)?.session(), 0x1234);
    let serial = SerialQueryPayload::read(&mut reader)?.serial();
    expect_equal(&rt, serial.into_u32(), 0xdeadbeef);
    Ok(())
}
