//! The texts of --help and --version.

ghost use Rattle.std.specs.Prelude.{◌≡◌};
ghost use Rattle.make_work.specs.MakeInfo.{PutsSomeText, TellsText, info_by_words, info_named};

use program_frame::{FAILED, WELL, report};
use rtr_units::fault::Fault;
use rtr_units::piece::put;
use rtr_units::source::Sink;
use std::io::Write;

/// A question about the program itself.
#[derive(Clone, Copy, Debug, PartialEq, Eq)]
pub enum Info {
    /// Its help: what it does, and what each argument means.
    Help,
    /// Its version.
    Version,
}

/// Its name.
pub const NAME: &str = "rtr_make";

/// Its name and version, on one line.
const VERSION: &str = "rtr_make 0.3.0\n";

/// Its usage, on one line.
pub const SYNOPSIS: &str =
    "usage: rtr_make --csv | --json [--version 0|1|2] [--session N] [--serial N] \
[--refresh N] [--retry N] [--expire N] [--drop] [--empty] [--unended] [--ignore NAME] [--at N] \
[--slurm FILE] [FILE]";

/// What the program does, and what each argument means.
const HELP: &str = "rtr_make - write the RTR sequence of validated payloads

It reads what a validator prints from FILE, or from standard input if FILE is -
or isn't given, and writes the units that announce it, and an end of data, to
standard output.

  --csv            read lines of an AS number, a prefix and a max length
  --json           read a JSON object, as validators print it
  --version 0|1|2  the version of the units (default 2)
  --session N      the session of the end of data (default 0)
  --serial N       its serial number (default 1)
  --refresh N      its intervals in seconds (default 3600, 600 and 7200);
  --retry N        version 0 has none
  --expire N
  --drop           leave out payloads that the version lacks, and count them
  --empty          accept an input without payloads
  --unended        accept CSV whose last line has no line end
  --ignore NAME    ignore what the JSON has under this name
  --at N           leave out items that have expired at this time, in seconds
                   since 1970 (default now), and count them: by their expires
                   in JSON, by a column of the name Expires in CSV
  --slurm FILE     filter the payloads, and add others, by this SLURM file
                   (RFC 8416); may be repeated, but files must not overlap

Alone: --help prints this, and --version the program's version.
";

/// The question in the words after the program's name, if they are `--help` or `--version` alone.
pub fn info_asked(words: &[String]) -> Option<Info>
    ensures { result ≡ info_by_words words.now }
{
    match words {
        [word] => info_named(word.as_str()),
        _ => None,
    }
}

fn info_named(word: &str) -> Option<Info>
    ensures { result ≡ info_named word.now }
{
    match word {
        "--help" => Some(Info::Help),
        "--version" => Some(Info::Version),
        _ => None,
    }
}

/// Writes the text that is asked for, flushes it once, and returns the exit status: 0 if that
/// succeeded, otherwise 3, with a line on `faults`.
pub fn tell_info<W: Sink, F: Write>(info: Info, output: &mut W, faults: &mut F) -> u8
    ensures { TellsText result (W.state output.old) (W.state output.new) }
{
    let written = put_text(info, output);
    let flushed = output.flush();
    match written {
        Ok(()) => match flushed {
            Ok(()) => WELL,
            Err(error) => tell_unwritten(&Fault::Writer(error), faults),
        },
        Err(fault) => tell_unwritten(&fault, faults),
    }
}

/// Prints why the output can't be written, and returns the status.
pub(crate) fn tell_unwritten<F: Write>(fault: &Fault, faults: &mut F) -> u8
    ensures { result ≡ 3 }
{
    report(NAME, fault, faults);
    FAILED
}

/// Writes the text that is asked for.
fn put_text<W: Sink>(info: Info, output: &mut W) -> Result<(), Fault>
    ensures { PutsSomeText result (W.state output.old) (W.state output.new) }
{
    let text = match info {
        Info::Help => HELP,
        Info::Version => VERSION,
    };
    put(output, text.as_bytes())
}
