//! Times `normalise` and `normalise_slice` over memory. It reads a sequence from standard input and
//! normalises it 21 times in each way, or only in the one whose name is its argument. On standard
//! error it prints the best time of each, in nanoseconds a unit and megabytes a second, or the
//! fault if there is one. It ends with status 0; 1 if the input is refused; 3 if reading, printing,
//! the clock or memory failed.
#![tactic(auto)]

use rtr_wire::pdu::{Counted, Fault, SliceSource, ViewFault};
use rtr_wire::{normalise, normalise_slice};
use std::io::{Read, Write};
use std::process::ExitCode;
use std::time::Instant;
use std::{env, io};

/// How often the sequence is normalised in each way.
const RUNS: u32 = 21;

/// What was measured for one way.
#[derive(Clone, Copy)]
struct Best {
    units: u64,
    bytes: usize,
    nanos: u128,
}

/// The exit status at a fault of `normalise`.
fn status_of(fault: &Fault) -> u8 {
    match fault {
        Fault::Reader(_) | Fault::Writer(_) | Fault::Memory => 3,
        _ => 1,
    }
}

/// The exit status at a fault of `normalise_slice`.
fn slice_status_of(fault: &ViewFault) -> u8 {
    match fault {
        ViewFault::Writer(_) => 3,
        _ => 1,
    }
}

/// Times `normalise`.
fn time_reader(rt: &HostRuntime, input: &[u8]) -> io::Result<Result<Best, Fault>> {
    let mut output: Vec<u8> = Vec::new(rt.alloc());
    let mut nanos = u128::MAX;
    let mut units = 0;
    for _ in 0..RUNS {
        output.clear();
        let mut reader = SliceSource::new(input);
        let mut writer = Counted::new(output);
        let start = Instant::now(rt)?;
        let answer = normalise(rt.alloc(), &mut reader, &mut writer, u64::MAX);
        nanos = nanos.min(start.elapsed(rt)?.as_nanos());
        output = writer.into_inner();
        match answer {
            Ok(count) => units = count,
            Err(fault) => return Ok(Err(fault)),
        }
    }
    let bytes = output.len();
    Ok(Ok(Best {
        units,
        bytes,
        nanos,
    }))
}

/// Times `normalise_slice`.
fn time_slice(rt: &HostRuntime, input: &[u8]) -> io::Result<Result<Best, ViewFault>> {
    let mut output: Vec<u8> = Vec::new(rt.alloc());
    let mut nanos = u128::MAX;
    let mut units = 0;
    for _ in 0..RUNS {
        output.clear();
        let mut writer = Counted::new(output);
        let start = Instant::now(rt)?;
        let answer = normalise_slice(input, &mut writer, u64::MAX);
        nanos = nanos.min(start.elapsed(rt)?.as_nanos());
        output = writer.into_inner();
        match answer {
            Ok((count, _)) => units = count,
            Err(fault) => return Ok(Err(fault)),
        }
    }
    let bytes = output.len();
    Ok(Ok(Best {
        units,
        bytes,
        nanos,
    }))
}

/// Prints what was measured for a way; apart, so that it takes no registers from what is timed.
#[cold]
#[inline(never)]
fn print(rt: &HostRuntime, way: &str, best: &Best) -> io::Result<()> {
    let nanos = best.nanos;
    writeln!(
        rt.stderr(),
        "{way}{} units, {} bytes: best of {RUNS} runs {nanos} ns, {} ns a unit, {} MB/s",
        best.units,
        best.bytes,
        nanos / u128::from(best.units.max(1)),
        best.bytes as u128 * 1000 / nanos.max(1),
    )
}

/// Prints the best time of `normalise`, or its fault, and answers the exit status.
fn report(rt: &HostRuntime, answer: Result<Best, Fault>) -> io::Result<u8> {
    match answer {
        Ok(best) => {
            print(rt, "", &best)?;
            Ok(0)
        }
        Err(fault) => {
            writeln!(rt.stderr(), "{fault}")?;
            Ok(status_of(&fault))
        }
    }
}

/// The same of `normalise_slice`.
fn report_slice(rt: &HostRuntime, answer: Result<Best, ViewFault>) -> io::Result<u8> {
    match answer {
        Ok(best) => {
            print(rt, "slice: ", &best)?;
            Ok(0)
        }
        Err(fault) => {
            writeln!(rt.stderr(), "{fault}")?;
            Ok(slice_status_of(&fault))
        }
    }
}

/// Whether this way is to be timed: the one that the first argument names, or else each.
fn is_asked(words: &[String], way: &str) -> bool {
    match words {
        [_, asked, ..] => asked.as_str() == way,
        _ => true,
    }
}

/// Times the ways that are asked for up to the first that fails, prints the best time of each or
/// the fault, and answers the exit status.
fn measure(rt: &HostRuntime, words: &[String]) -> io::Result<u8> {
    let mut input: Vec<u8> = Vec::new(rt.alloc());
    rt.stdin().read_to_end(&mut input)?;
    let mut status = 0;
    if is_asked(words, "normalise") {
        status = report(rt, time_reader(rt, &input)?)?;
    }
    if status == 0 && is_asked(words, "normalise_slice") {
        status = report_slice(rt, time_slice(rt, &input)?)?;
    }
    Ok(status)
}

/// The words that the program was started with, its name first, or none if they can't be had as
/// texts.
fn words(rt: &HostRuntime) -> Vec<String> {
    match env::args(rt) {
        Ok(words) => match words.collect(rt.alloc()) {
            Ok(words) => words,
            Err(_) => Vec::new(rt.alloc()),
        },
        Err(_) => Vec::new(rt.alloc()),
    }
}

fn main(rt: HostRuntime) -> ExitCode {
    let words = words(&rt);
    match measure(&rt, &words) {
        Ok(status) => ExitCode::from(status),
        Err(error) => {
            let _ = writeln!(rt.stderr(), "{error}");
            ExitCode::from(3)
        }
    }
}
