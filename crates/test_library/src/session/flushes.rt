//! How often the program `rtr_list` flushes its output, which no clause says.

use crate::samples::{decoded, expect_rows};
use crate::support::{ONES, Pieces, Recorder};
use list_work::program;
use program_frame::{Manual, Syntax};
use rtr_units::source::Counted;
use std::alloc::Global;

/// Runs: the words that the program is started with, or none; which of its reads and of its writes
/// fails, counted from 1; and its input. Then how often it flushes.
const RUNS: &str = "\
rtr_list; 0 0; -> 1
rtr_list --json; 0 0; -> 1
rtr_list --check; 0 0; -> 1
rtr_list; 0 0; 01 04 00 00 00 00 00 14 01 17 1a 00 c0 00 02 00 00 01 00 0f -> 1
rtr_list --json; 0 0; 01 04 00 00 00 00 00 14 01 17 1a 00 c0 00 02 00 00 01 00 0f -> 1
rtr_list --check; 0 0; 01 04 00 00 00 00 00 14 01 17 1a 00 c0 00 02 00 00 01 00 0f -> 1
rtr_list; 0 0; 01 02 00 00 00 00 00 08 01 08 00 00 00 00 00 08 01 02 00 00 00 00 00 08 -> 1
rtr_list --json; 0 0; 01 02 00 00 00 00 00 08 01 08 00 00 00 00 00 08 01 02 00 00 00 00 00 08 -> 1
rtr_list --check; 0 0; 01 02 00 00 00 00 00 08 01 08 00 00 00 00 00 08 01 02 00 00 00 00 00 08 -> 1
rtr_list; 0 0; 01 02 00 00 00 00 00 08 01 -> 1
rtr_list --json; 0 0; 01 02 00 00 00 00 00 08 01 -> 1
rtr_list --check; 0 0; 01 02 00 00 00 00 00 08 01 -> 1
rtr_list; 0 0; 01 02 00 00 00 00 00 08 01 05 00 00 00 00 00 08 -> 1
rtr_list --json; 0 0; 01 02 00 00 00 00 00 08 01 05 00 00 00 00 00 08 -> 1
rtr_list --check; 0 0; 01 02 00 00 00 00 00 08 01 05 00 00 00 00 00 08 -> 1
rtr_list; 3 0; 01 02 00 00 00 00 00 08 -> 1
rtr_list --json; 3 0; 01 02 00 00 00 00 00 08 -> 1
rtr_list; 0 2; 01 02 00 00 00 00 00 08 -> 1
rtr_list --json; 0 2; 01 02 00 00 00 00 00 08 -> 1
rtr_list --csv; 0 0; 00 07 12 34 00 00 00 0c de ad be ef -> 1
rtr_list --summary; 0 0; 00 07 12 34 00 00 00 0c de ad be ef -> 1
rtr_list --help; 0 0; -> 1
rtr_list --version; 0 0; -> 1
rtr_list x; 0 0; 01 02 00 00 00 00 00 08 -> 0
rtr_list --json --check; 0 0; 01 02 00 00 00 00 00 08 -> 0
; 0 0; -> 0
";

/// The texts of --help and --version.
const MANUAL: Manual = Manual {
    name: "rtr_list",
    version: "rtr_list 0\n",
    usage: "usage: rtr_list\n",
    help: "rtr_list\n",
    syntax: Syntax {
        forms: &["--json", "--check"],
        switches: &[],
        settings: &[],
        operands: 0,
    },
};

/// The words of the text, if there are some.
fn words(alloc: Global, text: &str) -> Option<Vec<String>> {
    let mut words = Vec::new(alloc);
    for word in text.split_ascii_whitespace() {
        words.push(String::from_str(alloc, word).ok()?).ok()?;
    }
    (!words.is_empty()).then_some(words)
}

/// The numbers of the read and of the write that fail.
fn failing(text: &str) -> Option<(usize, usize)> {
    let (reading, writing) = text.split_once(' ')?;
    Some((reading.parse().ok()?, writing.parse().ok()?))
}

fn flushes(alloc: Global, run: &str) -> Option<String> {
    let (text, rest) = run.split_once("; ")?;
    let (fails, input) = rest.split_once(';')?;
    let (reading, writing) = failing(fails)?;
    let input = decoded(alloc, input)?;
    let mut reader = Counted::new(Pieces::failing(&input, ONES, reading));
    let mut output = Counted::new(Recorder::failing(alloc, 7, writing));
    let mut faults = Recorder::new(alloc, usize::MAX);
    let words = words(alloc, text);
    let _ = program(
        alloc,
        &MANUAL,
        None,
        words,
        &mut reader,
        &mut output,
        &mut faults,
    );
    output.into_inner().flushes().to_string(alloc).ok()
}

#[test]
fn flushes_of_runs(rt: HostRuntime) {
    expect_rows(&rt, rt.alloc(), RUNS, flushes);
}
