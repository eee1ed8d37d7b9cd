//! One run of the program, over any readers and writers.

ghost use Rattle.std.specs.Prelude.{◌≡◌, false, is_ok, is_some, unwrap_or, IfOk, Some};
ghost use Rattle.make_work.specs.MakeStatus.{IsWholeInput};
ghost use Rattle.validate_work.specs.RoutesStatus.{AnswersAsked, AnswersRead, ReadsAsked};
ghost use Rattle.validate_work.specs.RoutesStatus.{ReadsList};
ghost use Rattle.validate_work.specs.RoutesStatus.{RunsAgainst, RunsAnswers, RunsRoutes};
ghost use Rattle.validate_work.specs.RoutesStatus.{SummarizesLines, answer_status, count_expired};
ghost use Rattle.validate_work.specs.RoutesStatus.{formats_of, load_status, recording_status};

use crate::counts::count_lines;
use crate::file::{Kind, LoadError, Loaded, file_kind, load};
use crate::form::Formats;
use crate::lines::{Stop, answer_lines, answer_route};
use crate::lists::Lists;
use crate::refusals::Refusals;
use crate::route_text::{RouteError, TableRoute, route_of};
use crate::summary_text::write_summary;
use crate::vrps::Vrps;
use crate::words::{Options, Request, RouteWords};
use data_memory::ChangeError;
use data_recordings::{Refusal, StopCause};
use data_slurm::Slurm;
use json::Scratch;
use list_lines::Line;
use make_work::{Expired, Reason};
use program_frame::{Escaped, FAILED, Failed, Front, REFUSED, USAGE, WELL, hint, report};
use rtr_units::fault::Fault;
use rtr_units::source::{Sink, Source};
use std::alloc::Global;
use std::io;
use std::io::{ErrorKind, Read, Write};

/// Reads the file. Items of a list that have expired at the requested time, or else at `now`, in
/// seconds after the epoch, are left out. The filters of `slurm` remove payloads, and then its
/// assertions are added (RFC 8416). Writes the answer on the route of the arguments, or without one
/// on each route that is read from `routes`, as `answer_lines` does, flushes the output once, and
/// returns the exit status:
/// - 0 if all that succeeded, whatever the routes' validity;
/// - 1 if the file is refused, or has no VRPs, or a line isn't a route;
/// - 2 if the words for a route aren't a route, with nothing read;
/// - 3 if reading, writing, flushing or memory failed.
///
/// Statuses other than 0 come with a line on `faults`, which begins with the program's name, and so
/// does an answer of a recording that was left out, and items that have expired; a broken pipe is
/// not reported. If a line can't be written, nothing else changes.
pub fn run<I: Read, R: Source, W: Sink, F: Write + Refusals>(
    alloc: Global,
    name: &str,
    now: u64,
    request: Request<'_>,
    slurm: &Slurm,
    file: &mut I,
    routes: &mut R,
    output: &mut W,
    faults: &mut F,
) -> u8
    ensures { RunsRoutes F.hears now slurm.now.entries.items request.entry.options
        request.entry.route faults.old faults.new result
        (file.new ≡ file.old) (I.remaining file.old) (I.remaining file.new)
        (R.state routes.old) (R.state routes.new) (W.state output.old) (W.state output.new) }
{
    let route = match route_asked(request.route) {
        Ok(route) => route,
        Err(error) => return tell_words(name, request.route, &error, faults),
    };
    let at = time_of(request.options, now);
    let used = match read_list(alloc, name, request.file, at, slurm, file, faults) {
        Ok(used) => used,
        Err(status) => return status,
    };
    let lists = Lists {
        used: &used,
        other: None,
    };
    answer(
        alloc,
        name,
        request.options,
        route,
        lists,
        routes,
        output,
        faults,
    )
}

/// Reads the file and then the other one, named `against`, both as `run` does, and compares the
/// validity of the routes that are read by the first with that by the other: `answer_lines` prints
/// the routes that become invalid or were invalid and no longer are, and a summary counts the
/// changes from each validity to each. Otherwise it does what `run` does. The arguments have no
/// route.
pub fn run_against<I: Read, R: Source, W: Sink, F: Write + Refusals>(
    alloc: Global,
    name: &str,
    now: u64,
    request: Request<'_>,
    against: &str,
    slurm: &Slurm,
    file: &mut I,
    other: &mut I,
    routes: &mut R,
    output: &mut W,
    faults: &mut F,
) -> u8
    ensures { RunsAgainst F.hears now slurm.now.entries.items request.entry.options
        faults.old faults.new result
        (I.remaining file.old) (I.remaining file.new)
        (other.new ≡ other.old) (I.remaining other.old) (I.remaining other.new)
        (R.state routes.old) (R.state routes.new) (W.state output.old) (W.state output.new) }
{
    let at = time_of(request.options, now);
    let used = match read_list(alloc, name, request.file, at, slurm, file, faults) {
        Ok(used) => used,
        Err(status) => return status,
    };
    let next = match read_list(alloc, name, against, at, slurm, other, faults) {
        Ok(next) => next,
        Err(status) => return status,
    };
    let lists = Lists {
        used: &used,
        other: Some(&next),
    };
    answer(
        alloc,
        name,
        request.options,
        None,
        lists,
        routes,
        output,
        faults,
    )
}

/// Reads the VRPs of a file. If it can't be read, is refused or has none, reports that and fails
/// with the status.
fn read_list<I: Read, F: Write>(
    alloc: Global,
    name: &str,
    file_name: &str,
    at: Option<u64>,
    slurm: &Slurm,
    file: &mut I,
    faults: &mut F,
) -> Result<Vrps, u8>
    ensures { ReadsList at slurm.now.entries.items (faults.new ≡ faults.old) result
        (I.remaining file.old) (I.remaining file.new) }
{
    let text = match read_file(alloc, file) {
        Ok(text) => text,
        Err(fault) => return Err(tell_file(name, file_name, &fault, faults)),
    };
    let mut scratch = Scratch::new(alloc);
    match load(alloc, at, slurm, &text, &mut scratch) {
        Ok(loaded) if loaded.vrps.has_none() => Err(tell_none(name, file_name, &loaded, faults)),
        Ok(loaded) => {
            tell_left_out(name, file_name, &loaded, faults);
            Ok(loaded.vrps)
        }
        Err(error) => Err(tell_load(name, file_name, &text, &error, faults)),
    }
}

/// The time of the arguments, or else the present time.
fn time_of(options: Options, now: u64) -> Option<u64>
    ensures { result ≡ Some (unwrap_or options.at now) }
{
    Some(options.at.unwrap_or(now))
}

/// The route of the arguments, if there is one.
fn route_asked(words: Option<RouteWords<'_>>) -> Result<Option<TableRoute>, RouteError>
    ensures { ReadsAsked words.entry result }
{
    match words {
        Some(words) => match route_of(words.prefix, words.asn) {
            Ok(route) => Ok(Some(route)),
            Err(error) => Err(error),
        },
        None => Ok(None),
    }
}

/// Reads all of a file. The faults are `Reader` and `Memory`.
fn read_file<I: Read>(alloc: Global, file: &mut I) -> Result<Vec<u8>, Fault>
    ensures { IfOk result (λ text.
        IsWholeInput (I.remaining file.old) (I.remaining file.new) text.items) }
{
    let mut text: Vec<u8> = Vec::new(alloc);
    match file.read_to_end(&mut text) {
        Ok(_) => Ok(text),
        Err(error) if error.kind() == ErrorKind::OutOfMemory => Err(Fault::Memory),
        Err(error) => Err(Fault::Reader(error)),
    }
}

/// Writes the answers, flushes the output, and returns the status.
fn answer<R: Source, W: Sink, F: Write + Refusals>(
    alloc: Global,
    name: &str,
    options: Options,
    route: Option<TableRoute>,
    lists: Lists<'_>,
    routes: &mut R,
    output: &mut W,
    faults: &mut F,
) -> u8
    ensures answers { RunsAnswers F.hears options route lists.entry result faults.old
        (R.state routes.old) (R.state routes.new) (W.state output.old) (W.state output.new) }
    ensures quiet { result ≡ 0 → faults.new ≡ faults.old }
{
    let answer = answer_asked(alloc, name, options, route, lists, routes, output, faults);
    let flushed = output.flush();
    tell(name, answer, flushed, faults)
}

/// Writes the answer on the route of the arguments, or without one on each route that is read.
/// Returns the number of lines that aren't routes.
fn answer_asked<R: Source, W: Sink, F: Write + Refusals>(
    alloc: Global,
    name: &str,
    options: Options,
    route: Option<TableRoute>,
    lists: Lists<'_>,
    routes: &mut R,
    output: &mut W,
    faults: &mut F,
) -> Result<u64, Stop>
    ensures { AnswersAsked F.hears options route lists.entry result
        (R.state routes.old) (R.state routes.new) (W.state output.old) (W.state output.new)
        faults.old faults.new }
{
    let Some(route) = route else {
        return answer_read(alloc, name, options, lists, routes, output, faults);
    };
    let mut line = Line::new(alloc);
    match answer_route(options.form, lists, &route, &mut line, output) {
        Ok(()) => Ok(0),
        Err(fault) => Err(Stop::Fault(fault)),
    }
}

/// Writes the answer on each route that is read, or a summary. Returns how many lines weren't
/// routes.
fn answer_read<R: Source, W: Sink, F: Write + Refusals>(
    alloc: Global,
    name: &str,
    options: Options,
    lists: Lists<'_>,
    routes: &mut R,
    output: &mut W,
    faults: &mut F,
) -> Result<u64, Stop>
    ensures { AnswersRead F.hears options lists.entry result
        (R.state routes.old) (R.state routes.new) (W.state output.old) (W.state output.new)
        faults.old faults.new }
{
    if options.summary {
        return summarize(alloc, name, options, lists, routes, output, faults);
    }
    answer_lines(
        alloc,
        name,
        options.strict,
        formats_of(options),
        lists,
        routes,
        output,
        faults,
    )
}

/// Counts the routes that are read, and writes the counts. Returns how many lines weren't routes.
fn summarize<R: Source, W: Sink, F: Write + Refusals>(
    alloc: Global,
    name: &str,
    options: Options,
    lists: Lists<'_>,
    routes: &mut R,
    output: &mut W,
    faults: &mut F,
) -> Result<u64, Stop>
    ensures { SummarizesLines F.hears options lists.entry result
        (R.state routes.old) (R.state routes.new) (W.state output.old) (W.state output.new)
        faults.old faults.new }
{
    let summary = match count_lines(
        alloc,
        name,
        options.strict,
        options.table,
        lists,
        routes,
        faults,
    ) {
        Ok(summary) => summary,
        Err(stop) => return Err(stop),
    };
    match write_summary(alloc, options.form, lists.other.is_some(), &summary, output) {
        Ok(()) => Ok(summary.counts.refused),
        Err(fault) => Err(Stop::Fault(fault)),
    }
}

/// The formats in which routes are read and answers are printed.
fn formats_of(options: Options) -> Formats
    ensures { result ≡ formats_of options }
{
    Formats {
        table: options.table,
        form: options.form,
    }
}

/// Reports how many lines aren't routes, or why the answers ended, and returns the exit status.
/// If the flush failed, only the output is named: reading may have failed since it flushes first.
fn tell<F: Write>(
    name: &str,
    answer: Result<u64, Stop>,
    flushed: io::Result<()>,
    faults: &mut F,
) -> u8
    ensures status { result ≡ answer_status answer (is_ok flushed) }
    ensures quiet { result ≡ 0 → faults.new ≡ faults.old }
{
    if let Err(Stop::Line(number, error)) = &answer {
        let _ = writeln!(faults, "{name}: line {number}: {error}");
    }
    if let Err(error) = flushed {
        report(name, &Fault::Writer(error), faults);
        return FAILED;
    }
    match answer {
        Ok(0) => WELL,
        Ok(refused) => tell_refused(name, refused, faults),
        Err(Stop::Line(_, _)) => REFUSED,
        Err(Stop::Fault(fault)) => {
            report(name, &fault, faults);
            FAILED
        }
    }
}

/// Reports how many lines weren't routes, and returns the status.
fn tell_refused<F: Write>(name: &str, refused: u64, faults: &mut F) -> u8
    ensures { result ≡ 1 }
{
    let _ = match refused {
        1 => writeln!(faults, "{name}: 1 line is no route"),
        _ => writeln!(faults, "{name}: {refused} lines are no routes"),
    };
    REFUSED
}

/// Reports why the words aren't a route, and returns the status.
fn tell_words<F: Write>(
    name: &str,
    words: Option<RouteWords<'_>>,
    error: &RouteError,
    faults: &mut F,
) -> u8
    ensures { result ≡ 2 }
{
    if let Some(words) = words {
        let prefix = Escaped(words.prefix);
        let asn = Escaped(words.asn);
        let _ = writeln!(faults, "{name}: {prefix} {asn}: {error}");
    }
    USAGE
}

/// Reports why a file couldn't be read, and returns the status.
fn tell_file<F: Write>(name: &str, file: &str, fault: &Fault, faults: &mut F) -> u8
    ensures { result ≡ 3 }
{
    let file = Escaped(file);
    let failed = Failed(fault);
    let _ = writeln!(faults, "{name}: {file}: {failed}");
    FAILED
}

/// Reports that a file has no VRPs, after what was left out of it, and returns the status.
fn tell_none<F: Write>(name: &str, file: &str, loaded: &Loaded, faults: &mut F) -> u8
    ensures { result ≡ 1 }
{
    tell_left_out(name, file, loaded, faults);
    let file = Escaped(file);
    let _ = writeln!(
        faults,
        "{name}: {file}: no VRPs: every route would be not found"
    );
    REFUSED
}

/// Reports which part of this file was left out: an answer, or expired items.
fn tell_left_out<F: Write>(name: &str, file: &str, loaded: &Loaded, faults: &mut F)
    ensures { loaded.now.has_cut ≡ false → count_expired loaded.now.expired ≡ 0 →
        faults.new ≡ faults.old }
{
    let file = Escaped(file);
    if loaded.has_cut {
        let _ = writeln!(
            faults,
            "{name}: {file}: left out: an answer without an end of data"
        );
    }
    let left_out = count_expired(loaded.expired);
    if left_out > 0 {
        let _ = writeln!(
            faults,
            "{name}: {file}: left out {left_out} that have expired"
        );
    }
}

/// How many items of a list have expired.
fn count_expired(expired: Option<Expired>) -> usize
    ensures { result ≡ count_expired expired }
{
    match expired {
        Some(expired) => expired.left_out,
        None => 0,
    }
}

/// Reports why a file with these bytes is refused, and what it looks like, and returns the status.
fn tell_load<F: Write>(
    name: &str,
    file: &str,
    text: &[u8],
    error: &LoadError<'_>,
    faults: &mut F,
) -> u8
    ensures { result ≡ load_status error.now }
{
    let status = load_status(error);
    let shown = Escaped(file);
    let _ = match error {
        LoadError::Units(stop) => {
            let offset = stop.offset;
            let cause = &stop.cause;
            writeln!(faults, "{name}: {shown}: offset {offset}: {cause}")
        }
        LoadError::Items(refusal) => {
            let place = refusal.place;
            let reason = &refusal.reason;
            writeln!(faults, "{name}: {shown}: {place}: {reason}")
        }
        LoadError::Memory => writeln!(faults, "{name}: {shown}: out of memory"),
    };
    match file_kind(text) {
        Kind::Units | Kind::Csv if status == REFUSED => {
            hint(name, file, Front::new().with(text), faults);
        }
        _ => {}
    }
    status
}

/// The status if the VRPs of a file can't be read.
fn load_status(error: &LoadError<'_>) -> u8
    ensures { result ≡ load_status error.now }
{
    match error {
        LoadError::Units(stop) => recording_status(&stop.cause),
        LoadError::Items(refusal) => match &refusal.reason {
            Reason::Memory => FAILED,
            _ => REFUSED,
        },
        LoadError::Memory => FAILED,
    }
}

/// The status if a recording can't be read.
fn recording_status(cause: &StopCause) -> u8
    ensures { result ≡ recording_status cause.now }
{
    match cause {
        StopCause::Read(Fault::Reader(_) | Fault::Writer(_) | Fault::TooMany | Fault::Memory)
        | StopCause::Refused(Refusal::Change(ChangeError::Memory)) => FAILED,
        StopCause::Read(_) | StopCause::Refused(_) => REFUSED,
    }
}
