//! The arguments of the program.

ghost use Rattle.std.specs.Prelude.{◌≡◌, ◌&&◌, map, string_bytes};
ghost use Rattle.make_work.specs.MakeWords.{broken_by_words, has_timing, ignored_by_words};
ghost use Rattle.make_work.specs.MakeWords.{is_misplaced, timing_asked};
ghost use Rattle.make_work.specs.MakeWords.{is_one_of, nothing_said};
ghost use Rattle.make_work.specs.MakeWords.{number_of, once};
ghost use Rattle.make_work.specs.MakeWords.{request_by_words, request_of, said_alone};
ghost use Rattle.make_work.specs.MakeWords.{said_by, said_with};
ghost use Rattle.make_work.specs.MakeWords.{setting_named, version_of};
ghost use Rattle.make_work.specs.Making.{version_number};
ghost use Rattle.make_work.specs.PrivateWords.{word_taken};

use program_frame::{Wrong, file_after};
use rtr_base::state::{Serial, State};
use rtr_base::timing::Timing;
use session_times::{TimeRule, broken_time_rule};

/// The format of the payloads.
#[derive(Clone, Copy, Debug, PartialEq, Eq)]
pub enum Format {
    /// Comma-separated values.
    Csv,
    /// JSON.
    Json,
}

/// A version of the protocol.
#[derive(Clone, Copy, Debug, PartialEq, Eq)]
pub enum Version {
    /// The version of RFC 6810.
    V0,
    /// The version of RFC 8210.
    V1,
    /// The version with ASPAs.
    V2,
}

impl Version {
    /// The number of the version.
    pub fn number(self) -> u8
        ensures { result ≡ version_number self }
    {
        match self {
            Version::V0 => 0,
            Version::V1 => 1,
            Version::V2 => 2,
        }
    }
}

/// The result of parsing the arguments.
#[derive(Clone, Copy, Debug)]
pub struct Request {
    /// The format of the input.
    pub format: Format,
    /// The version of the units.
    pub version: Version,
    /// The session and the serial number of the end of data.
    pub state: State,
    /// Its timings; version 0 has none.
    pub timing: Timing,
    /// Whether payloads that the version lacks are left out. Otherwise they are refused.
    pub leaves_out: bool,
    /// Whether a sequence without payloads is written. Otherwise it is refused.
    pub takes_empty: bool,
    /// Whether CSV without a line end on its last line is accepted. Otherwise it is refused.
    pub takes_unended: bool,
    /// The time for which expiry is checked instead of the present: seconds after the epoch, the
    /// first second of 1970.
    pub at: Option<u64>,
}

/// An option with a value.
#[derive(Clone, Copy)]
enum Setting {
    Ignore,
    Version,
    Session,
    Serial,
    Refresh,
    Retry,
    Expire,
    At,
}

/// The state after the words so far.
#[derive(Clone, Copy)]
struct Said {
    format: Option<Format>,
    version: Option<Version>,
    session: Option<u16>,
    serial: Option<u32>,
    refresh: Option<u32>,
    retry: Option<u32>,
    expire: Option<u32>,
    leaves_out: Option<bool>,
    takes_empty: Option<bool>,
    takes_unended: Option<bool>,
    at: Option<u64>,
    ignores: bool,
}

/// Parses the words after the program's name, if they are valid: `--csv` or `--json`, and each of
/// the options at most once, in any order, except `--ignore`, which is allowed only with `--json`,
/// any number of times; `--unended` is allowed only with `--csv`. The defaults are version 2,
/// session 0, serial number 1, and the timings of RFC 8210 section 6. Version 0 has no timings:
/// none may be given with it. Timings must be in the ranges of that section, and the expire time
/// above the others.
pub fn asked(words: &[String]) -> Option<Request>
    ensures { result ≡ request_by_words words.now }
{
    match said_by(words) {
        Some(said) => said.request(),
        None => None,
    }
}

/// The first rule that the timings in the words break, if any.
pub fn broken_timing(words: &[String]) -> Option<TimeRule>
    ensures { result ≡ broken_by_words words.now }
{
    match said_by(words) {
        Some(said) => broken_time_rule(said.timing()),
        None => None,
    }
}

/// The first option that can't be combined with another one, if that is what is wrong with the
/// words. The last one of them may name a file.
pub fn misplaced(words: &[String]) -> Option<Wrong<'static>> {
    match said_by(words) {
        Some(said) => said.misplaced(),
        None => match file_after(words) {
            Some((before, _)) => said_by(before)?.misplaced(),
            None => None,
        },
    }
}

/// Parses the words, in any order, if they are valid.
fn said_by(words: &[String]) -> Option<Said>
    ensures { result ≡ said_by (map string_bytes words.now) nothing_said }
{
    let mut said = Said::nothing();
    let mut open: Option<Setting> = None;
    for word in words {
        (said, open) = said.after(open, word.as_str())?;
    }
    match open {
        Some(_) => None,
        None => Some(said),
    }
}

/// Whether the words after the program's name have an `--ignore` with this name.
pub fn is_ignored(words: &[String], name: &str) -> bool
    ensures { result ≡ is_one_of (ignored_by_words words.now) name.now }
{
    let mut follows = false;
    for word in words {
        let word = word.as_str();
        if is_both(follows, word == name) {
            return true;
        }
        follows = is_both(!follows, word == "--ignore");
    }
    false
}

fn is_both(first: bool, second: bool) -> bool
    ensures { result ≡ (first && second) }
{
    first && second
}

/// Sets this value, if none was set before.
fn once<T: Copy>(place: Option<T>, value: T) -> Option<T>
    ensures { result ≡ once place value }
{
    match place {
        Some(_) => None,
        None => Some(value),
    }
}

/// The option of this name that requires a value.
fn setting_named(word: &str) -> Option<Setting>
    ensures { result ≡ setting_named word.now }
{
    match word {
        "--ignore" => Some(Setting::Ignore),
        "--version" => Some(Setting::Version),
        "--session" => Some(Setting::Session),
        "--serial" => Some(Setting::Serial),
        "--refresh" => Some(Setting::Refresh),
        "--retry" => Some(Setting::Retry),
        "--expire" => Some(Setting::Expire),
        "--at" => Some(Setting::At),
        _ => None,
    }
}

/// The version of this number.
fn version_of(text: &str) -> Option<Version>
    ensures { result ≡ version_of text.now }
{
    match text {
        "0" => Some(Version::V0),
        "1" => Some(Version::V1),
        "2" => Some(Version::V2),
        _ => None,
    }
}

/// The number of 16 bits in the text.
fn short_number(text: &str) -> Option<u16>
    ensures { result ≡ number_of 16 text.now }
{
    match text.parse::<u16>() {
        Ok(number) => Some(number),
        Err(_) => None,
    }
}

/// The number of 32 bits in the text.
fn number(text: &str) -> Option<u32>
    ensures { result ≡ number_of 32 text.now }
{
    match text.parse::<u32>() {
        Ok(number) => Some(number),
        Err(_) => None,
    }
}

/// The number of 64 bits in the text.
pub fn long_number(text: &str) -> Option<u64>
    ensures { result ≡ number_of 64 text.now }
{
    match text.parse::<u64>() {
        Ok(number) => Some(number),
        Err(_) => None,
    }
}

impl Said {
    /// The state before the first word.
    fn nothing() -> Self
        ensures { result ≡ nothing_said }
    {
        Said {
            format: None,
            version: None,
            session: None,
            serial: None,
            refresh: None,
            retry: None,
            expire: None,
            leaves_out: None,
            takes_empty: None,
            takes_unended: None,
            at: None,
            ignores: false,
        }
    }

    /// The state after one more word, and the option whose value the next word must be. The word is
    /// the value of an open option, if there is one.
    fn after(self, before: Option<Setting>, word: &str) -> Option<(Said, Option<Setting>)>
        ensures { result ≡ word_taken before word.now self }
    {
        if let Some(setting) = before {
            return Some((self.setting(setting, word)?, None));
        }
        match setting_named(word) {
            Some(setting) => Some((self, Some(setting))),
            None => Some((self.alone(word)?, None)),
        }
    }

    /// Takes a word without a value.
    fn alone(self, word: &str) -> Option<Said>
        ensures { result ≡ said_alone word.now self }
    {
        let mut said = self;
        match word {
            "--csv" => said.format = Some(once(self.format, Format::Csv)?),
            "--json" => said.format = Some(once(self.format, Format::Json)?),
            "--drop" => said.leaves_out = Some(once(self.leaves_out, true)?),
            "--empty" => said.takes_empty = Some(once(self.takes_empty, true)?),
            "--unended" => said.takes_unended = Some(once(self.takes_unended, true)?),
            _ => return None,
        }
        Some(said)
    }

    /// Takes the value of an option.
    fn setting(self, setting: Setting, text: &str) -> Option<Said>
        ensures { result ≡ said_with setting text.now self }
    {
        let mut said = self;
        match setting {
            Setting::Ignore => said.ignores = true,
            Setting::Version => said.version = Some(once(self.version, version_of(text)?)?),
            Setting::Session => said.session = Some(once(self.session, short_number(text)?)?),
            Setting::Serial => said.serial = Some(once(self.serial, number(text)?)?),
            Setting::Refresh => said.refresh = Some(once(self.refresh, number(text)?)?),
            Setting::Retry => said.retry = Some(once(self.retry, number(text)?)?),
            Setting::Expire => said.expire = Some(once(self.expire, number(text)?)?),
            Setting::At => said.at = Some(once(self.at, long_number(text)?)?),
        }
        Some(said)
    }

    /// Whether a timing was given.
    fn has_timing(&self) -> bool
        ensures { result ≡ has_timing self.now }
    {
        self.refresh.is_some() || self.retry.is_some() || self.expire.is_some()
    }

    /// Whether an option was given that isn't allowed with this format: names to ignore with CSV,
    /// or unended lines with JSON.
    fn is_misplaced(&self, format: Format) -> bool
        ensures { result ≡ is_misplaced self.now format }
    {
        match format {
            Format::Csv => self.ignores,
            Format::Json => self.takes_unended.is_some(),
        }
    }

    /// The first option that can't be combined with another one.
    fn misplaced(&self) -> Option<Wrong<'static>> {
        match self.format {
            Some(Format::Csv) if self.ignores => Some(Wrong::Needs("--ignore", "--json")),
            Some(Format::Json) if self.takes_unended.is_some() => {
                Some(Wrong::Needs("--unended", "--csv"))
            }
            _ => self.untimely(),
        }
    }

    /// The first timing that was given for version 0, which has none.
    fn untimely(&self) -> Option<Wrong<'static>> {
        if self.version != Some(Version::V0) {
            return None;
        }
        let name = if self.refresh.is_some() {
            "--refresh"
        } else if self.retry.is_some() {
            "--retry"
        } else if self.expire.is_some() {
            "--expire"
        } else {
            return None;
        };
        Some(Wrong::Excluded(name, "--version 0"))
    }

    /// The timings that were given, with the recommended ones for the others.
    fn timing(&self) -> Timing
        ensures { result ≡ timing_asked self.now }
    {
        let timing = Timing::default();
        Timing {
            refresh: self.refresh.unwrap_or(timing.refresh),
            retry: self.retry.unwrap_or(timing.retry),
            expire: self.expire.unwrap_or(timing.expire),
        }
    }

    /// The request of all words.
    fn request(self) -> Option<Request>
        ensures { result ≡ request_of self }
    {
        let version = self.version.unwrap_or(Version::V2);
        if version.number() == 0 && self.has_timing() {
            return None;
        }
        let timing = self.timing();
        if broken_time_rule(timing).is_some() {
            return None;
        }
        let format = self.format?;
        if self.is_misplaced(format) {
            return None;
        }
        Some(Request {
            format,
            version,
            state: State::from_parts(self.session.unwrap_or(0), Serial(self.serial.unwrap_or(1))),
            timing,
            leaves_out: self.leaves_out.unwrap_or(false),
            takes_empty: self.takes_empty.unwrap_or(false),
            takes_unended: self.takes_unended.unwrap_or(false),
            at: self.at,
        })
    }
}
