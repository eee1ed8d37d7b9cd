//! The VRPs of a file.

ghost use Rattle.std.specs.Prelude.{◌≡◌, ◌==◌, ◌||◌, [], false};
ghost use Rattle.csv.specs.Reading.{strip_bom};
ghost use Rattle.make_work.specs.PrivateCsv.{has_mark};
ghost use Rattle.make_work.specs.Taking.{HasTaken, IsFor, entries_asked};
ghost use Rattle.make_work.specs.declared.words.Format.TheVariants as formats;
ghost use Rattle.validate_work.specs.Files.{LoadsItems, LoadsText, LoadsUnits, LoadsWhole};
ghost use Rattle.validate_work.specs.Files.{file_kind, is_unit, is_white, opens_json};
ghost use Rattle.validate_work.specs.PrivateFiles.{LoadsAsserted, LoadsGathered, LoadsKeptOf};
ghost use Rattle.validate_work.specs.PrivateFiles.{LoadsTaken};

use crate::recorded::take_payloads;
use crate::vrps::Vrps;
use data_recordings::{Recording, Stop, read_recording};
use data_slurm::Slurm;
use json::Scratch;
use make_work::{Expired, Gathered, Gathering, Refusal, read_csv, read_json};
use rtr_units::header::LAST_VERSION;
use rtr_units::source::SliceSource;
use std::alloc::Global;

/// The format of a file.
#[derive(Clone, Copy)]
pub enum Kind {
    /// Units of the protocol: a sequence, or a recorded session.
    Units,
    /// Comma-separated values, as validators print them.
    Csv,
    /// JSON, as validators print it.
    Json,
}

/// Why a file's VRPs can't be read.
#[derive(Debug, Drop)]
pub enum LoadError<'a> {
    /// The recording is refused.
    Units(Stop),
    /// A list of a validator is refused.
    Items(Refusal<'a>),
    /// An allocation failed.
    Memory,
}

/// The result of reading a file.
#[derive(Drop)]
pub struct Loaded {
    /// The payloads.
    pub vrps: Vrps,
    /// Whether an incomplete answer of a recording was dropped because the next one began before
    /// its end of data.
    pub has_cut: bool,
    /// How many items of a list have expired, and when the next one does, if a time is given.
    pub expired: Option<Expired>,
}

/// The format of a file with these bytes. A byte order mark at the front is ignored. JSON begins
/// with `{` or `[`, possibly after white space (RFC 8259 section 2); no text begins with a byte
/// below 9, but a unit does, with its version.
pub fn file_kind(text: &[u8]) -> Kind
    ensures { result ≡ file_kind text.now }
{
    let text = without_mark(text);
    if is_unit(text) {
        Kind::Units
    } else if opens_json(text) {
        Kind::Json
    } else {
        Kind::Csv
    }
}

/// Whether no text begins with these bytes.
fn is_unit(text: &[u8]) -> bool
    ensures { result ≡ is_unit text.now }
{
    text.is_empty() || text[0] < b'\t'
}

/// Whether the first byte that isn't white space begins an object or an array of JSON.
fn opens_json(text: &[u8]) -> bool
    ensures { result ≡ opens_json text.now }
{
    for byte in text {
        if !is_white(*byte) {
            return opens(*byte);
        }
    }
    false
}

/// Whether the byte begins an object or an array of JSON.
fn opens(byte: u8) -> bool
    ensures { result ≡ ((byte == 123) || (byte == 91)) }
{
    byte == b'{' || byte == b'['
}

/// Whether the byte is white space in JSON.
fn is_white(byte: u8) -> bool
    ensures { result ≡ is_white byte }
{
    byte == b' ' || byte == b'\t' || byte == b'\n' || byte == b'\r'
}

/// Reads the VRPs of a file with these bytes: units with `read_recording`, CSV and JSON with
/// `read_csv`, `read_json` and `Gathering` of `make_work`, as `rtr_make` reads them. If a time is
/// given, items that have expired by then are left out. The filters of SLURM files remove payloads,
/// and then their assertions are added (RFC 8416 section 4.1). `scratch` is memory for JSON.
pub fn load<'a>(
    alloc: Global,
    at: Option<u64>,
    slurm: &'a Slurm,
    text: &'a [u8],
    scratch: &'a mut Scratch,
) -> Result<Loaded, LoadError<'a>>
    ensures { LoadsText at slurm.now.entries.items text.now result }
{
    match file_kind(text) {
        Kind::Units => load_units(alloc, slurm, text),
        Kind::Csv => load_csv(alloc, at, slurm, text),
        Kind::Json => load_json(alloc, at, slurm, text, scratch),
    }
}

/// Reads the payloads of a recording.
fn load_units<'a>(alloc: Global, slurm: &'a Slurm, text: &'a [u8]) -> Result<Loaded, LoadError<'a>>
    ensures { LoadsUnits slurm.now.entries.items text.now result }
{
    let mut source = SliceSource::new(text);
    let recording = match read_recording(alloc, &mut source) {
        Ok(recording) => recording,
        Err(stop) => return Err(LoadError::Units(stop)),
    };
    if slurm.entries.is_empty() {
        return load_whole(alloc, recording);
    }
    load_kept(alloc, slurm, recording)
}

/// Loads the payloads of a recording.
fn load_whole<'a>(alloc: Global, recording: Recording) -> Result<Loaded, LoadError<'a>>
    ensures { LoadsWhole recording result }
{
    match Vrps::new(alloc, recording.payloads) {
        Ok(vrps) => Ok(Loaded {
            vrps,
            has_cut: recording.has_cut,
            expired: None,
        }),
        Err(_) => Err(LoadError::Memory),
    }
}

/// Loads the payloads that the filters of SLURM files leave, and the assertions of the files.
fn load_kept<'a>(
    alloc: Global,
    slurm: &'a Slurm,
    recording: Recording,
) -> Result<Loaded, LoadError<'a>>
    ensures { LoadsKeptOf slurm.now.entries.items recording result }
{
    let mut gathering = gathering_at(alloc, None, slurm);
    match take_payloads(&recording.payloads, &mut gathering) {
        Ok(()) => load_asserted(alloc, recording.has_cut, gathering),
        Err(_) => Err(LoadError::Memory),
    }
}

/// Reads the payloads in comma-separated values.
fn load_csv<'a>(
    alloc: Global,
    at: Option<u64>,
    slurm: &'a Slurm,
    text: &'a [u8],
) -> Result<Loaded, LoadError<'a>>
    ensures { LoadsItems formats.Csv at slurm.now.entries.items text.now result }
{
    let mut gathering = gathering_at(alloc, at, slurm);
    match read_csv(alloc, text, false, &mut gathering) {
        Ok(()) => load_asserted(alloc, false, gathering),
        Err(refusal) => Err(LoadError::Items(refusal)),
    }
}

/// Reads the payloads in JSON.
fn load_json<'a>(
    alloc: Global,
    at: Option<u64>,
    slurm: &'a Slurm,
    text: &'a [u8],
    scratch: &'a mut Scratch,
) -> Result<Loaded, LoadError<'a>>
    ensures { LoadsItems formats.Json at slurm.now.entries.items text.now result }
{
    let mut gathering = gathering_at(alloc, at, slurm);
    match read_json(alloc, text, &[], scratch, &mut gathering) {
        Ok(()) => load_asserted(alloc, false, gathering),
        Err(refusal) => Err(LoadError::Items(refusal)),
    }
}

/// Gathers the items that the filters of SLURM files leave, and if a time is given, of these the
/// ones that haven't expired.
fn gathering_at<'a>(alloc: Global, at: Option<u64>, slurm: &'a Slurm) -> Gathering<'a>
    ensures settings { IsFor 2 false at result }
    ensures none { HasTaken [] result }
    ensures filtered { entries_asked result.slurm ≡ slurm.now.entries.items }
{
    Gathering::with_slurm(alloc, LAST_VERSION, false, at, slurm)
}

/// Takes the assertions of SLURM files, and loads the payloads of the items that were taken.
/// `has_cut` is whether an answer of a recording was dropped.
fn load_asserted<'a>(
    alloc: Global,
    has_cut: bool,
    gathering: Gathering<'a>,
) -> Result<Loaded, LoadError<'a>>
    ensures { LoadsAsserted has_cut gathering.entry result }
{
    let mut gathering = gathering;
    match gathering.take_assertions() {
        Ok(()) => load_taken(alloc, has_cut, gathering),
        Err(_) => Err(LoadError::Memory),
    }
}

/// Loads the payloads of the items that were taken.
fn load_taken<'a>(
    alloc: Global,
    has_cut: bool,
    gathering: Gathering<'a>,
) -> Result<Loaded, LoadError<'a>>
    ensures { LoadsTaken has_cut gathering.entry result }
{
    match gathering.finish() {
        Ok(left) => load_gathered(alloc, has_cut, left.expired, left.gathered),
        Err(refusal) => Err(LoadError::Items(refusal)),
    }
}

/// Loads the payloads of the gathered items that haven't expired.
fn load_gathered<'a>(
    alloc: Global,
    has_cut: bool,
    expired: Option<Expired>,
    gathered: Result<Gathered, Refusal<'a>>,
) -> Result<Loaded, LoadError<'a>>
    ensures { LoadsGathered has_cut expired gathered.entry result }
{
    let gathered = match gathered {
        Ok(gathered) => gathered,
        Err(refusal) => return Err(LoadError::Items(refusal)),
    };
    match Vrps::new(alloc, gathered.payloads) {
        Ok(vrps) => Ok(Loaded {
            vrps,
            has_cut,
            expired,
        }),
        Err(_) => Err(LoadError::Memory),
    }
}

/// The text without a byte order mark at the front.
fn without_mark(text: &[u8]) -> &[u8]
    ensures { result.now ≡ strip_bom text.now }
{
    if has_mark(text) { &text[3..] } else { text }
}

/// Whether the text begins with U+FEFF.
fn has_mark(text: &[u8]) -> bool
    ensures { result ≡ has_mark text.now }
{
    text.len() >= 3 && text[0] == 0xef && text[1] == 0xbb && text[2] == 0xbf
}
