//! Prints whether routes are valid by the VRPs of a file.
#![tactic(auto)]

mod progress;

use data_slurm::Slurm;
use program_exceptions::{read_files, split_words};
use program_frame::{
    FAILED, Front, Input, Manual, Prompt, Setting, Shared, Subject, Syntax, Value, Wrong, about,
    buffered_input, buffered_output, program_words, refuse, report_closed, seconds_since_epoch,
    usage, words_after_name,
};
use progress::{Counting, Screen};
use rtr_units::buffered::BufferedSource;
use rtr_units::source::Counted;
use std::cell::{Cell, RefCell};
use std::io::{BufWriter, IsTerminal, Stdin, Stdout};
use std::process::ExitCode;
use validate_work::{Named, Request, asked, can_compare, run, run_against};

/// The texts of --help and --version.
const MANUAL: Manual = Manual {
    name: "rtr_validate",
    version: "rtr_validate 0.3.0\n",
    usage: "usage: rtr_validate [--json] [--summary] [--strict] [--format F] [--at N] \
[--slurm FILE].. [--against FILE] FILE [PREFIX ASN]\n",
    help: "\
rtr_validate - print whether routes are valid by the VRPs of a file
usage: rtr_validate [--json] [--summary] [--strict] [--format F] [--at N]
                    [--slurm FILE].. [--against FILE] FILE [PREFIX ASN]

It prints the validity of a route (RFC 6811): valid, invalid or not found; for
an invalid one also the VRPs that cover it, each with the reason why it doesn't
match. Without PREFIX and ASN it reads routes from standard input, one a line; a
line that isn't a route is reported on standard error, and the program goes on.
An AS_SET such as {64496,64497} instead of ASN is no AS: no VRP matches it. FILE
is a recording of units of the RPKI to Router protocol (RFC 8210), or the JSON
or CSV that a validator prints, whose expired items are ignored. The name -
stands for standard input, if PREFIX and ASN are given.

  (no word)       print a line for each route
  --json          print a JSON object for each route, with all VRPs that cover
                  it
  --summary       print only how many routes of standard input have each state,
                  the number of their origin ASes, and a line for each of the
                  20 ASes with most invalid routes, the smaller AS first among
                  equals; an AS_SET counts for no AS
  --strict        stop at the first line that isn't a route
  --format F      the format of the lines (default lines):
                  lines  PREFIX ASN
                  mrt    bgpdump -m, which prints MRT dumps of tables (RFC 6396)
                  bird   BIRD's show route primary
                  frr    FRR's show bgp ipv4 unicast wide
  --at N          ignore items that have expired at this time, in seconds since
                  1970 (default now)
  --slurm FILE    apply a file of local exceptions (RFC 8416); may be repeated
  --against FILE  print only the routes of standard input that become invalid,
                  or are no longer, if this file replaces FILE; it is read in
                  the same way; with --summary how many routes turn from which
                  state to which
  --help          print this
  --version       print the program's version
",
    syntax: Syntax {
        forms: &[],
        switches: &["--json", "--summary", "--strict"],
        settings: &[
            Setting {
                name: "--format",
                value: Value::OneOf(&["lines", "mrt", "bird", "frr"]),
                repeats: false,
            },
            Setting {
                name: "--at",
                value: Value::Number(18446744073709551615),
                repeats: false,
            },
            Setting {
                name: SLURM,
                value: Value::Any("FILE"),
                repeats: true,
            },
            Setting {
                name: AGAINST,
                value: Value::Any("FILE"),
                repeats: false,
            },
        ],
        operands: 3,
    },
};

/// The option that names a SLURM file.
const SLURM: &str = "--slurm";

/// The option that names the list to compare with.
const AGAINST: &str = "--against";

/// Lines in a buffer.
type Lines = RefCell<BufWriter<Stdout>>;

/// Standard input, from which routes are read.
type Routes<'a> = BufferedSource<Counting<'a, Prompt<'a, Stdin, BufWriter<Stdout>>>>;

/// The listener for refused lines.
type Faults<'a> = Named<Shared<'a, Screen>>;

/// The inputs and outputs of a run.
#[derive(Clone, Copy)]
struct Ends<'a> {
    rt: &'a HostRuntime,
    lines: &'a Lines,
    screen: &'a RefCell<Screen>,
}

/// Standard input, which flushes the lines before it is read; unbuffered if there is no memory for
/// a buffer. On a terminal where no answers are printed it shows its progress.
fn buffered_routes<'a>(ends: Ends<'a>, is_summary: bool, front: &'a Cell<Front>) -> Routes<'a> {
    let routes = counted(ends, is_summary, front);
    let spare = counted(ends, is_summary, front);
    BufferedSource::new(buffered_input(ends.rt, routes, Ok(spare)).unwrap())
}

/// Standard input, unbuffered.
fn counted<'a>(
    ends: Ends<'a>,
    is_summary: bool,
    front: &'a Cell<Front>,
) -> Counting<'a, Prompt<'a, Stdin, BufWriter<Stdout>>> {
    let rt = ends.rt;
    let is_wanted = rt.stderr().is_terminal() && (is_summary || !rt.stdout().is_terminal());
    let input = Prompt::new(rt.stdin(), ends.lines, front);
    Counting::new(rt, MANUAL.name, ends.screen, is_wanted, input)
}

/// The files that a run reads.
#[derive(Drop)]
struct Files {
    /// The list by which routes are validated.
    used: Input,
    /// The list that it is compared with, if there is one.
    other: Option<Input>,
}

impl Files {
    /// Whether one of them got the descriptor of standard input.
    fn took_standard_input(&self) -> bool {
        self.used.took_standard_input()
            || match &self.other {
                Some(other) => other.took_standard_input(),
                None => false,
            }
    }
}

/// Opens the lists. If one can't be opened, reports that and fails with the status.
fn open_files(
    rt: &HostRuntime,
    file: &str,
    against: Option<&str>,
    faults: &mut Faults<'_>,
) -> Result<Files, u8> {
    let used = Input::open_or_report(rt, MANUAL.name, file, faults)?;
    let other = match against {
        Some(name) => Some(Input::open_or_report(rt, MANUAL.name, name, faults)?),
        None => None,
    };
    Ok(Files { used, other })
}

/// Opens the files, validates the requested routes, and returns the status.
fn validate(
    ends: Ends<'_>,
    request: Request<'_>,
    against: Option<&str>,
    slurm: &Slurm,
    faults: &mut Faults<'_>,
) -> u8 {
    let mut files = match open_files(ends.rt, request.file, against, faults) {
        Ok(files) => files,
        Err(status) => return status,
    };
    if request.route.is_none() && files.took_standard_input() {
        return report_closed(MANUAL.name, faults);
    }
    let now = match seconds_since_epoch(ends.rt) {
        Ok(now) => now,
        Err(error) => {
            return Subject::of_file(MANUAL.name, "clock").report_unread(&error, faults);
        }
    };
    let status = run_over(ends, now, request, against, slurm, &mut files, faults);
    if let Ok(mut screen) = ends.screen.try_borrow_mut() {
        let _ = screen.erase();
    }
    status
}

/// Runs over the open files; `against` is the name of the list to compare with.
fn run_over(
    ends: Ends<'_>,
    now: u64,
    request: Request<'_>,
    against: Option<&str>,
    slurm: &Slurm,
    files: &mut Files,
    faults: &mut Faults<'_>,
) -> u8 {
    let alloc = ends.rt.alloc();
    let front = Cell::new(Front::new());
    let mut routes = buffered_routes(ends, request.options.summary, &front);
    let mut output = Counted::new(Shared::new(ends.lines));
    match &mut files.other {
        None => run(
            alloc,
            MANUAL.name,
            now,
            request,
            slurm,
            &mut files.used,
            &mut routes,
            &mut output,
            faults,
        ),
        Some(other) => run_against(
            alloc,
            MANUAL.name,
            now,
            request,
            against.unwrap_or(""),
            slurm,
            &mut files.used,
            other,
            &mut routes,
            &mut output,
            faults,
        ),
    }
}

/// The result of splitting the words: the SLURM files, the lists to compare with, and the other
/// words, the program's name first.
#[derive(Drop)]
struct Asked {
    slurm: Vec<String>,
    against: Vec<String>,
    words: Vec<String>,
}

/// Splits the words. None if no file follows an option that names one, or memory runs out.
fn asked_words(rt: &HostRuntime, words: Vec<String>) -> Option<Asked> {
    let by_slurm = split_words(rt.alloc(), words, SLURM, AGAINST)?;
    let by_against = split_words(rt.alloc(), by_slurm.words, AGAINST, "")?;
    Some(Asked {
        slurm: by_slurm.files,
        against: by_against.files,
        words: by_against.words,
    })
}

/// Whether the only thing wrong with the words is that they ask for a summary of a single route.
fn summarises_route(words: &[String]) -> bool {
    let of_many = Syntax {
        operands: 1,
        ..MANUAL.syntax
    };
    MANUAL.syntax.wrong_word(words).is_none()
        && of_many.wrong_word(words).is_some()
        && MANUAL.syntax.has_flag(words, "--summary")
}

/// Why the requested list can't be compared with that of the file of this name.
fn wrong_against<'a>(request: &Request<'_>, name: &'a str) -> Wrong<'a> {
    if request.route.is_some() {
        Wrong::Excluded(AGAINST, "PREFIX ASN")
    } else {
        Wrong::NoFile(AGAINST, name)
    }
}

/// Returns the error that no file follows the option that the words end with, if it requires one.
fn open_option(words: &[String]) -> Option<Wrong<'_>> {
    match MANUAL.syntax.open_option(words, SLURM) {
        Some(wrong) => Some(wrong),
        None => MANUAL.syntax.open_option(words, AGAINST),
    }
}

/// Splits the words, runs what they ask for, and returns the status.
fn run_words(ends: Ends<'_>, words: Vec<String>, faults: &mut Faults<'_>) -> u8 {
    if let Some(wrong) = open_option(words_after_name(&words)) {
        return refuse(MANUAL.name, wrong, faults);
    }
    match asked_words(ends.rt, words) {
        Some(all) => start(ends, &all, faults),
        None => usage(&MANUAL, faults),
    }
}

/// Runs with the words, and returns the status.
fn start(ends: Ends<'_>, all: &Asked, faults: &mut Faults<'_>) -> u8 {
    let words = words_after_name(&all.words);
    let Some(request) = asked(words) else {
        if summarises_route(words) {
            let wrong = Wrong::Excluded("--summary", "PREFIX ASN");
            return refuse(MANUAL.name, wrong, faults);
        }
        let mut output = Counted::new(Shared::new(ends.lines));
        return about(&MANUAL, words, FAILED, &mut output, faults);
    };
    let against = match all.against.as_slice() {
        [] => None,
        [name] if can_compare(&request, name.as_str()) => Some(name.as_str()),
        [name] => return refuse(MANUAL.name, wrong_against(&request, name.as_str()), faults),
        _ => return refuse(MANUAL.name, Wrong::Twice(AGAINST), faults),
    };
    match read_files(ends.rt, MANUAL.name, &all.slurm, faults) {
        Ok(slurm) => validate(ends, request, against, &slurm, faults),
        Err(status) => status,
    }
}

fn main(rt: HostRuntime) -> ExitCode {
    let screen = RefCell::new(Screen::new(rt.stderr()));
    let lines = RefCell::new(buffered_output(&rt));
    let mut faults = Named::new(Shared::new(&screen));
    let ends = Ends {
        rt: &rt,
        lines: &lines,
        screen: &screen,
    };
    let status = match program_words(&rt) {
        Some(words) => run_words(ends, words, &mut faults),
        None => usage(&MANUAL, &mut faults),
    };
    ExitCode::from(status)
}
