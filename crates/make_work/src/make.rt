//! One run of the program, over any reader and writers.

ghost use Rattle.std.specs.Prelude.{◌≡◌, ◌++◌, drop, is_some, IfSome, IsNone, None, OnOk, []};
ghost use Rattle.std.specs.Io.KnownBytes.{Appends};
ghost use Rattle.std.specs.Process.{exit_status};
ghost use Rattle.make_work.specs.MakeStatus.{MakesText, RunsMaking, TellsMade};
ghost use Rattle.make_work.specs.MakeStatus.{expired_line, expired_said, lacking_line};
ghost use Rattle.make_work.specs.MakeStatus.{refusal_status, time_asked};
ghost use Rattle.make_work.specs.MakeInfo.{TellsText, info_by_words};
ghost use Rattle.make_work.specs.MakeWords.{ignored_by_words, request_by_words};
ghost use Rattle.make_work.specs.Making.{version_number};
ghost use Rattle.make_work.specs.PrivateTaking.{IsAskedFor, MakesAsserted, MakesOfLeft};
ghost use Rattle.make_work.specs.PrivateTaking.{MakesTaken};
ghost use Rattle.make_work.specs.Taking.{HasTaken, entries_asked};

use crate::csv_items::read_csv;
use crate::expiring::Expired;
use crate::gathering::{Gathering, Left};
use crate::info::{NAME, info_asked, tell_info, tell_unwritten};
use crate::item::{Reason, Refusal};
use crate::json_items::read_json;
use crate::refusing::{refuse_words, usage};
use crate::sequence::{Trouble, write_sequence};
use crate::words::{Format, Request, asked, broken_timing};
use data_slurm::Slurm;
use json::Scratch;
use program_frame::{FAILED, REFUSED, USAGE, WELL, words_after_name};
use rtr_units::fault::Fault;
use rtr_units::source::Sink;
use session_times::TimeRule;
use std::alloc::Global;
use std::fmt::Display;
use std::io;
use std::io::{ErrorKind, Read, Write};
use std::process::ExitCode;

/// Runs the program with the words that it was started with, its name first, and returns the exit
/// status, which is that of `run`. If there are no words, because they aren't text, it prints the
/// usage. `now` is the time of the clock, in seconds after the epoch. The filters of `slurm` remove
/// payloads, and then its assertions are added (RFC 8416).
pub fn program<N: Display, R: Read, W: Sink, F: Write>(
    alloc: Global,
    now: u64,
    words: Option<Vec<String>>,
    slurm: &Slurm,
    name: &N,
    input: &mut R,
    output: &mut W,
    faults: &mut F,
) -> ExitCode
    // Without words nothing is read or written.
    ensures no_words { IsNone words →
        (exit_status result ≡ 2) × (input.new ≡ input.old) × (output.new ≡ output.old) }
    // The same with words after the program's name that ask for nothing.
    ensures usage { IfSome words (λ all. info_by_words (drop 1 all.items) ≡ None →
        request_by_words (drop 1 all.items) ≡ None →
        (exit_status result ≡ 2) × (input.new ≡ input.old) × (output.new ≡ output.old)) }
    // With a question about the program itself, nothing is read, and a text is written.
    ensures tells { IfSome words (λ all. IfSome (info_by_words (drop 1 all.items)) (λ what.
        (input.new ≡ input.old)
        × TellsText (exit_status result) (W.state output.old) (W.state output.new))) }
    // Otherwise what they ask for is made of the input.
    ensures makes { IfSome words (λ all. info_by_words (drop 1 all.items) ≡ None →
        IfSome (request_by_words (drop 1 all.items)) (λ what.
        RunsMaking now what slurm.now.entries.items (ignored_by_words (drop 1 all.items))
        (R.remaining input.old) (R.remaining input.new) (exit_status result)
        (W.state output.old) (W.state output.new)
        (F.contents faults.old) (F.contents faults.new))) }
{
    let Some(words) = words else {
        return ExitCode::from(usage(faults));
    };
    let status = run_words(
        alloc,
        now,
        words_after_name(&words),
        slurm,
        name,
        input,
        output,
        faults,
    );
    ExitCode::from(status)
}

/// Answers the question about the program in the words after its name, or else runs with them.
fn run_words<N: Display, R: Read, W: Sink, F: Write>(
    alloc: Global,
    now: u64,
    words: &[String],
    slurm: &Slurm,
    name: &N,
    input: &mut R,
    output: &mut W,
    faults: &mut F,
) -> u8
    ensures usage { info_by_words words.now ≡ None → request_by_words words.now ≡ None →
        (result ≡ 2) × (input.new ≡ input.old) × (output.new ≡ output.old) }
    ensures tells { IfSome (info_by_words words.now) (λ what. (input.new ≡ input.old)
        × TellsText result (W.state output.old) (W.state output.new)) }
    ensures makes { info_by_words words.now ≡ None → IfSome (request_by_words words.now) (λ what.
        RunsMaking now what slurm.now.entries.items (ignored_by_words words.now)
        (R.remaining input.old) (R.remaining input.new) result
        (W.state output.old) (W.state output.new)
        (F.contents faults.old) (F.contents faults.new)) }
{
    match info_asked(words) {
        Some(info) => tell_info(info, output, faults),
        None => run_asked(alloc, now, words, slurm, name, input, output, faults),
    }
}

/// Runs with the words after the program's name, or reports what is wrong with them.
fn run_asked<N: Display, R: Read, W: Sink, F: Write>(
    alloc: Global,
    now: u64,
    words: &[String],
    slurm: &Slurm,
    name: &N,
    input: &mut R,
    output: &mut W,
    faults: &mut F,
) -> u8
    ensures usage { request_by_words words.now ≡ None →
        (result ≡ 2) × (input.new ≡ input.old) × (output.new ≡ output.old) }
    ensures makes { IfSome (request_by_words words.now) (λ what. RunsMaking now what
        slurm.now.entries.items (ignored_by_words words.now) (R.remaining input.old)
        (R.remaining input.new) result (W.state output.old) (W.state output.new)
        (F.contents faults.old)
        (F.contents faults.new)) }
{
    if let Some(asked) = asked(words) {
        return run(
            alloc, now, &asked, words, slurm, name, input, output, faults,
        );
    }
    match broken_timing(words) {
        Some(rule) => tell_times(rule, faults),
        None => refuse_words(words, faults),
    }
}

/// Reads all of the input, writes the sequence of its payloads, flushes the output once, and
/// returns the exit status. The values in JSON of names that follow an `--ignore` are ignored.
/// Items that have expired at the requested time, or else at `now`, are left out. The status is
/// - 0 if that succeeded, with a line on `faults` if payloads were left out that the version lacks,
///   and one about expired items, if there are any or a time is given;
/// - 1 if the input was refused;
/// - 3 if reading, writing, flushing or memory failed, or one of these lines.
///
/// Statuses other than 0 come with a line on `faults`. Each line begins with the program's name. If
/// the line can't be written, nothing else changes.
pub fn run<N: Display, R: Read, W: Sink, F: Write>(
    alloc: Global,
    now: u64,
    asked: &Request,
    words: &[String],
    slurm: &Slurm,
    name: &N,
    input: &mut R,
    output: &mut W,
    faults: &mut F,
) -> u8
    ensures { RunsMaking now asked.now slurm.now.entries.items (ignored_by_words words.now)
        (R.remaining input.old) (R.remaining input.new) result
        (W.state output.old) (W.state output.new)
        (F.contents faults.old) (F.contents faults.new) }
{
    let mut text: Vec<u8> = Vec::new(alloc);
    if let Err(error) = input.read_to_end(&mut text) {
        return tell_unread(name, &error, faults);
    }
    match asked.format {
        Format::Csv => make_of_csv(alloc, now, asked, slurm, name, &text, output, faults),
        Format::Json => make_of_json(alloc, now, asked, words, slurm, name, &text, output, faults),
    }
}

/// Prints why the input of this name can't be read, and returns the status.
fn tell_unread<N: Display, F: Write>(name: &N, error: &io::Error, faults: &mut F) -> u8
    ensures { result ≡ 3 }
{
    let _ = if error.kind() == ErrorKind::OutOfMemory {
        writeln!(faults, "{name}: out of memory")
    } else {
        writeln!(faults, "{name}: read failed: {error}")
    };
    FAILED
}

/// Writes the sequence of the items in CSV.
fn make_of_csv<'a, N: Display, W: Sink, F: Write>(
    alloc: Global,
    now: u64,
    asked: &Request,
    slurm: &'a Slurm,
    name: &N,
    text: &'a [u8],
    output: &mut W,
    faults: &mut F,
) -> u8
    ensures { MakesText Format.Csv now asked.now slurm.now.entries.items [] text.now result
        (W.state output.old) (W.state output.new) (F.contents faults.old) (F.contents faults.new) }
{
    let mut gathering = gathering_for(alloc, now, asked, slurm);
    match read_csv(alloc, text, asked.takes_unended, &mut gathering) {
        Ok(()) => make_of_asserted(asked, name, gathering, output, faults),
        Err(refusal) => tell_refusal(name, &refusal, faults),
    }
}

/// Writes the sequence of the items in JSON.
fn make_of_json<'a, N: Display, W: Sink, F: Write>(
    alloc: Global,
    now: u64,
    asked: &Request,
    words: &[String],
    slurm: &'a Slurm,
    name: &N,
    text: &'a [u8],
    output: &mut W,
    faults: &mut F,
) -> u8
    ensures { MakesText Format.Json now asked.now slurm.now.entries.items
        (ignored_by_words words.now) text.now result (W.state output.old) (W.state output.new)
        (F.contents faults.old) (F.contents faults.new) }
{
    let mut scratch = Scratch::new(alloc);
    let mut gathering = gathering_for(alloc, now, asked, slurm);
    match read_json(alloc, text, words, &mut scratch, &mut gathering) {
        Ok(()) => make_of_asserted(asked, name, gathering, output, faults),
        Err(refusal) => tell_refusal(name, &refusal, faults),
    }
}

/// Starts gathering items as the request asks.
fn gathering_for<'a>(alloc: Global, now: u64, asked: &Request, slurm: &'a Slurm) -> Gathering<'a>
    ensures settings { IsAskedFor now asked.now result }
    ensures none { HasTaken [] result }
    ensures filtered { entries_asked result.slurm ≡ slurm.now.entries.items }
{
    let version = asked.version.number();
    let at = time_asked(now, asked);
    Gathering::with_slurm(alloc, version, asked.leaves_out, at, slurm)
}

/// The time of the request, or else that of the clock.
fn time_asked(now: u64, asked: &Request) -> Option<u64>
    ensures { result ≡ time_asked now asked.now }
{
    Some(asked.at.unwrap_or(now))
}

/// Takes the assertions, and writes the sequence of the items that haven't expired.
fn make_of_asserted<N: Display, W: Sink, F: Write>(
    asked: &Request,
    name: &N,
    gathering: Gathering<'_>,
    output: &mut W,
    faults: &mut F,
) -> u8
    ensures { MakesAsserted asked.now gathering.entry result (W.state output.old)
        (W.state output.new) (F.contents faults.old) (F.contents faults.new) }
{
    let mut gathering = gathering;
    match gathering.take_assertions() {
        Ok(()) => make_of_taken(asked, name, gathering, output, faults),
        Err(_) => tell_memory(name, faults),
    }
}

/// Prints that memory ran out, and returns the status.
fn tell_memory<N: Display, F: Write>(name: &N, faults: &mut F) -> u8
    ensures { result ≡ 3 }
{
    let _ = writeln!(faults, "{name}: out of memory");
    FAILED
}

/// Writes the sequence of the items that haven't expired.
fn make_of_taken<N: Display, W: Sink, F: Write>(
    asked: &Request,
    name: &N,
    gathering: Gathering<'_>,
    output: &mut W,
    faults: &mut F,
) -> u8
    ensures { MakesTaken asked.now gathering.entry result (W.state output.old)
        (W.state output.new) (F.contents faults.old) (F.contents faults.new) }
{
    match gathering.finish() {
        Ok(left) => write(asked, name, left, output, faults),
        Err(refusal) => tell_refusal(name, &refusal, faults),
    }
}

/// Writes the sequence of the items that are left, and flushes it.
fn write<N: Display, W: Sink, F: Write>(
    asked: &Request,
    name: &N,
    left: Left<'_>,
    output: &mut W,
    faults: &mut F,
) -> u8
    ensures { MakesOfLeft asked.now left.entry result (W.state output.old) (W.state output.new)
        (F.contents faults.old) (F.contents faults.new) }
{
    let expired = left.expired;
    let answer = write_sequence(asked, left.gathered, output);
    let flushed = output.flush();
    match answer {
        Ok(left_out) => match flushed {
            Ok(()) => tell_made(asked, left_out, expired, faults),
            Err(error) => tell_unwritten(&Fault::Writer(error), faults),
        },
        Err(Trouble::Input(refusal)) => tell_refusal(name, &refusal, faults),
        Err(Trouble::Output(fault)) => tell_unwritten(&fault, faults),
    }
}

/// Prints what was left out, and returns the status: 3 if it can't be printed.
fn tell_made<F: Write>(
    asked: &Request,
    left_out: usize,
    expired: Option<Expired>,
    faults: &mut F,
) -> u8
    ensures { TellsMade (version_number asked.now.version) left_out (is_some asked.now.at) expired
        result (F.contents faults.old) (F.contents faults.new) }
{
    match tell_left_out(asked, left_out, expired, faults) {
        Ok(()) => WELL,
        Err(_) => FAILED,
    }
}

/// Prints what was left out: payloads that the version lacks, and items that have expired.
fn tell_left_out<F: Write>(
    asked: &Request,
    left_out: usize,
    expired: Option<Expired>,
    faults: &mut F,
) -> io::Result<()>
    ensures { OnOk result (Appends (F.contents faults.old) (F.contents faults.new)
        (lacking_line (version_number asked.now.version) left_out
        ++ expired_said (is_some asked.now.at) expired)) }
{
    match tell_lacking(asked.version.number(), left_out, faults) {
        Ok(()) => tell_expired(asked.at.is_some(), expired, faults),
        Err(error) => Err(error),
    }
}

/// Prints how many payloads were left out that the version lacks, if any.
fn tell_lacking<F: Write>(version: u8, left_out: usize, faults: &mut F) -> io::Result<()>
    ensures { OnOk result (Appends (F.contents faults.old) (F.contents faults.new)
        (lacking_line version left_out)) }
{
    if left_out == 0 {
        return Ok(());
    }
    writeln!(
        faults,
        "rtr_make: left out {left_out} that version {version} lacks"
    )
}

/// Prints how many items had expired, if any had or a time is given.
fn tell_expired<F: Write>(
    is_asked: bool,
    expired: Option<Expired>,
    faults: &mut F,
) -> io::Result<()>
    ensures { OnOk result (Appends (F.contents faults.old) (F.contents faults.new)
        (expired_said is_asked expired)) }
{
    match expired {
        Some(expired) if is_asked || expired.left_out > 0 => put_expired(expired, faults),
        _ => Ok(()),
    }
}

/// Prints how many items had expired, and when the next of the others expires.
fn put_expired<F: Write>(expired: Expired, faults: &mut F) -> io::Result<()>
    ensures { OnOk result (Appends (F.contents faults.old) (F.contents faults.new)
        (expired_line expired)) }
{
    let left_out = expired.left_out;
    match expired.next {
        Some(time) => writeln!(
            faults,
            "rtr_make: left out {left_out} that have expired; the next expires at {time}"
        ),
        None => writeln!(
            faults,
            "rtr_make: left out {left_out} that have expired; none of the others will"
        ),
    }
}

/// Prints why the input of this name is refused, and returns the status.
fn tell_refusal<N: Display, F: Write>(name: &N, refusal: &Refusal<'_>, faults: &mut F) -> u8
    ensures { result ≡ refusal_status refusal.now.reason }
{
    let reason = &refusal.reason;
    if let Reason::Memory = reason {
        let _ = writeln!(faults, "{name}: {reason}");
        return FAILED;
    }
    let place = refusal.place;
    let _ = writeln!(faults, "{name}: {place}: {reason}");
    REFUSED
}

/// Prints the rule that the timings break, and returns status 2.
fn tell_times<F: Write>(rule: TimeRule, faults: &mut F) -> u8
    ensures { result ≡ 2 }
{
    let text = rule.text();
    let _ = writeln!(faults, "{NAME}: {text}");
    USAGE
}
