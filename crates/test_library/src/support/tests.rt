//! What the readers and writers of tests give and take.

use crate::expect::{expect, expect_equal};
use crate::samples::bytes;
use crate::support::{Pieces, Recorder, STEPS, filler};
use std::io::{Read, Write};
use std::test::Fail;

#[test]
fn pieces(rt: HostRuntime) -> Result<(), Fail> {
    let input = bytes(rt.alloc(), &["01 02", "", "03 04 05 06 07"])?;
    let mut reader = Pieces::failing(&input, STEPS, 5);
    let mut buffer = [0; 4];
    for count in [1, 2, 3, 1] {
        expect_equal(&rt, reader.read(&mut buffer)?, count);
    }
    expect(&rt, reader.read(&mut buffer).is_err());
    expect_equal(&rt, reader.read(&mut buffer)?, 0);
    expect_equal(
        &rt,
        (reader.calls(), reader.ends(), reader.taken()),
        (6, 1, 7),
    );
    Ok(())
}

#[test]
fn recorder(rt: HostRuntime) -> Result<(), Fail> {
    let input = [1, 2, 3, 4, 5, 6, 7];
    let mut writer = Recorder::failing(rt.alloc(), 2, 3);
    for count in [2, 2] {
        expect_equal(&rt, writer.write(&input)?, count);
    }
    expect(&rt, writer.write(&input).is_err());
    writer.flush()?;
    expect_equal(&rt, writer.held(), [1, 2, 1, 2].as_slice());
    expect_equal(&rt, (writer.calls(), writer.flushes()), (3, 1));
    let mut stopping = Recorder::stopping(rt.alloc(), 1, 1);
    expect_equal(&rt, stopping.write(&input)?, 0);
    Ok(())
}

#[test]
fn endless_pieces(rt: HostRuntime) -> Result<(), Fail> {
    let input = bytes(rt.alloc(), &["01 02", "", "03 04 05 06 07"])?;
    let mut endless = Pieces::endless(&input);
    let mut buffer = [0; 4];
    for _ in 0..8 {
        expect_equal(&rt, endless.read(&mut buffer[..1])?, 1);
    }
    expect_equal(&rt, buffer[0], 1);
    expect_equal(&rt, filler(rt.alloc(), 252)?.as_slice().last(), Some(&0));
    Ok(())
}
