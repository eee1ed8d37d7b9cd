//! What `bench/vrps.py` measures of the kit's `csv` and of `Data`, over a list of VRPs as CSV on
//! standard input.
//!
//! The argument `rows` reads the rows, `origins` makes an origin of each, and `data` announces each
//! to a `Data`, too. It prints how many there were.
//!
//! It ends with status 0; 1 for another argument, for another input, and for what `Data` refuses or
//! has no memory for; 3 if reading or printing failed.
#![tactic(auto)]

mod list;

use list::Depth;
use std::env;
use std::io::Read;
use std::process::ExitCode;

/// How far the list is read, by this word.
fn depth_of(word: &str) -> Option<Depth> {
    match word {
        "rows" => Some(Depth::Rows),
        "origins" => Some(Depth::Origins),
        "data" => Some(Depth::Data),
        _ => None,
    }
}

/// How far the first argument says that the list is read.
fn asked(rt: &HostRuntime) -> Option<Depth> {
    let words: Vec<String> = env::args(rt).ok()?.collect(rt.alloc()).ok()?;
    depth_of(words.get(1)?.as_str())
}

fn main(rt: HostRuntime) -> ExitCode {
    let Some(depth) = asked(&rt) else {
        return ExitCode::from(1);
    };
    let mut input: Vec<u8> = Vec::new(rt.alloc());
    if rt.stdin().read_to_end(&mut input).is_err() {
        return ExitCode::from(3);
    }
    let Some(count) = list::read(rt.alloc(), depth, &input) else {
        return ExitCode::from(1);
    };
    match println!(rt; "{count}") {
        Ok(()) => ExitCode::SUCCESS,
        Err(_) => ExitCode::from(3),
    }
}
