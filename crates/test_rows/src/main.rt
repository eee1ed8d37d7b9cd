//! Makes the calls in the rows of a table, and prints each answer that differs from its row.
//!
//! The table is standard input, one row a line:
//! - `//` begins a comment;
//! - `NAME = WORDS` gives bytes a name;
//! - `CALL WORDS => ANSWER` is a call with bytes and settings `KEY=VALUE`, and its answer. Words
//!   for bytes are names, hex digits, `..N` for N bytes that count up, and `WORD*N` for N times
//!   those of a word;
//! - a second `=>` is followed by the answers that come if an allocation fails, in order and with
//!   `;` between. With none after it the call allocates nothing.
//!
//! With an argument the program marks each call by an allocation of that many bytes before it and
//! one after it, so that `tests/programs/growth.py` can make those between fail. Then each row
//! prints `whole`, or `refused` and which of its answers that is.
#![tactic(auto)]

mod answer;
mod call;
mod data;
mod deltas;
mod fixed;
mod into;
mod meanings;
mod parts;
mod payloads;
mod placing;
mod routes;
mod row;
mod sequences;
mod session;
mod table;
mod variable;
mod views;

use crate::table::Table;
use std::env;
use std::io::Read;
use std::process::ExitCode;
use std::test::Fail;

/// The program's argument as a number, or 0 without one.
fn mark(rt: &HostRuntime) -> Result<usize, Fail> {
    let words: Vec<String> = env::args(rt)?.collect(rt.alloc())?;
    match words.get(1) {
        Some(word) => Ok(word.parse::<usize>()?),
        None => Ok(0),
    }
}

/// Goes through a line, and prints what there is to print for it. Reports whether it is met.
fn is_met(rt: &HostRuntime, table: &mut Table, line: &str) -> Result<bool, Fail> {
    let Some(seen) = table.line(line)? else {
        return Ok(true);
    };
    println!(rt; "{}", seen.text)?;
    if seen.is_other {
        println!(rt; "    of {line}")?;
    }
    Ok(!seen.is_other)
}

fn main(rt: HostRuntime) -> Result<ExitCode, Fail> {
    let mut input = Vec::new(rt.alloc());
    rt.stdin().read_to_end(&mut input)?;
    let text = String::from_utf8(input)?;
    let mut table = Table::new(rt.alloc(), mark(&rt)?);
    let mut code = ExitCode::SUCCESS;
    for line in text.lines() {
        if !is_met(&rt, &mut table, line)? {
            code = ExitCode::FAILURE;
        }
    }
    Ok(code)
}
