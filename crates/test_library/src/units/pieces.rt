//! What passes through `Counted`, `BufferedSource` and `BufferedSink`.

use crate::expect::expect_equal;
use crate::support::{ONES, Pieces, Recorder, STEPS, WHOLE, filler};
use rtr_units::buffered::{BufferedSink, BufferedSource};
use rtr_units::piece::{fill, put};
use rtr_units::source::{Counted, Sink, Source};
use std::alloc::Global;
use std::io::{BufReader, BufWriter, ErrorKind};
use std::test::Fail;

/// Capacities of buffers, each with the most bytes that the reader in it gives in turn.
const BUFFERS: &[(usize, &[usize])] = &[(0, STEPS), (1, WHOLE), (7, STEPS), (8, ONES), (64, WHOLE)];

/// The sizes of pieces, 58 bytes in all.
const SIZES: &[usize] = &[8, 12, 0, 24, 1, 3, 8, 2];

#[test]
fn flushes_reach_the_writer(rt: HostRuntime) -> Result<(), Fail> {
    let mut writer = Counted::new(Recorder::new(rt.alloc(), 1));
    writer.flush()?;
    expect_equal(&rt, Sink::failures(&writer), 0);
    expect_equal(&rt, writer.into_inner().flushes(), 1);
    Ok(())
}

/// The bytes of pieces of these sizes.
fn filled<R: Source>(alloc: Global, reader: &mut R) -> Result<Vec<u8>, Fail> {
    let mut all = Vec::new(alloc);
    for size in SIZES {
        let mut room = [0; 24];
        let piece = room.get_mut(..*size).ok_or("no room")?;
        fill(reader, piece)?;
        all.extend_from_slice(piece)?;
    }
    Ok(all)
}

#[test]
fn pieces_of_a_buffer_come_in_order(rt: HostRuntime) -> Result<(), Fail> {
    let bytes = filler(rt.alloc(), 58)?;
    for (capacity, sizes) in BUFFERS {
        let buffer = BufReader::with_capacity(rt.alloc(), *capacity, Pieces::new(&bytes, sizes))?;
        let mut reader = BufferedSource::new(buffer);
        let all = filled(rt.alloc(), &mut reader)?;
        expect_equal(&rt, all.as_slice(), bytes.as_slice());
        expect_equal(&rt, reader.read(&mut [0])?, 0);
        let failures = Source::failures(&reader);
        let taken = reader.into_inner().into_inner().taken();
        expect_equal(&rt, (failures, taken), (0, 58));
    }
    Ok(())
}

#[test]
fn an_error_loses_no_byte_of_a_buffer(rt: HostRuntime) -> Result<(), Fail> {
    let bytes = filler(rt.alloc(), 7)?;
    let failing = Pieces::failing(&bytes, WHOLE, 2);
    let buffer = BufReader::with_capacity(rt.alloc(), 4, failing)?;
    let mut reader = BufferedSource::new(buffer);
    let mut piece = [9; 3];
    let wanted = [
        (Ok(3), [0, 1, 2]),
        (Ok(1), [3, 1, 2]),
        (Err(ErrorKind::Interrupted), [3, 1, 2]),
        (Ok(3), [4, 5, 6]),
    ];
    for want in wanted {
        let answer = reader.read(&mut piece).map_err(|error| error.kind());
        expect_equal(&rt, (answer, piece), want);
    }
    expect_equal(&rt, Source::failures(&reader), 1);
    Ok(())
}

/// Puts the bytes in pieces of these sizes.
fn put_all<W: Sink>(writer: &mut W, bytes: &[u8]) -> Result<(), Fail> {
    let mut rest = bytes;
    for size in SIZES {
        put(writer, rest.get(..*size).ok_or("too few bytes")?)?;
        rest = rest.get(*size..).ok_or("too few bytes")?;
    }
    Ok(())
}

#[test]
fn pieces_for_a_buffer_are_written_in_order(rt: HostRuntime) -> Result<(), Fail> {
    let bytes = filler(rt.alloc(), 58)?;
    for capacity in [0, 1, 8, 20, 64] {
        let buffer = BufWriter::with_capacity(rt.alloc(), capacity, Recorder::new(rt.alloc(), 5))?;
        let mut writer = BufferedSink::new(buffer);
        put_all(&mut writer, &bytes)?;
        writer.flush()?;
        expect_equal(&rt, Sink::failures(&writer), 0);
        let recorder = writer.into_inner().into_inner().ok();
        let recorder = recorder.ok_or("bytes that aren't written")?;
        expect_equal(&rt, recorder.flushes(), 1);
        expect_equal(&rt, recorder.held(), bytes.as_slice());
    }
    Ok(())
}

#[test]
fn an_error_loses_no_byte_of_a_buffered_writer(rt: HostRuntime) -> Result<(), Fail> {
    let stopping = Recorder::stopping(rt.alloc(), 8, 1);
    let mut writer = BufferedSink::new(BufWriter::with_capacity(rt.alloc(), 4, stopping)?);
    let pieces: [(&[u8], Result<usize, ErrorKind>); 3] = [
        (&[1, 2, 3], Ok(3)),
        (&[4, 5, 6, 7], Err(ErrorKind::WriteZero)),
        (&[4, 5, 6, 7], Ok(4)),
    ];
    for (piece, want) in pieces {
        let answer = writer.write(piece).map_err(|error| error.kind());
        expect_equal(&rt, answer, want);
    }
    expect_equal(&rt, Sink::failures(&writer), 1);
    let recorder = writer.into_inner().into_inner().ok();
    let recorder = recorder.ok_or("bytes that aren't written")?;
    expect_equal(&rt, recorder.held(), [1, 2, 3, 4, 5, 6, 7].as_slice());
    Ok(())
}
