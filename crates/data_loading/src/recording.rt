//! Loading a whole recording.

ghost use Rattle.std.specs.Prelude.{◌≡◌, ◌≢◌, ◌≤◌, ◌/◌, ℕ, Err, length, min};
ghost use Rattle.data_loading.specs.Loading.{LoadsFrom};
ghost use Rattle.data_loading.specs.PrivateLoading.{StandsAt};
ghost use Rattle.data_loading.specs.declared.fault.LoadFault.TheVariants as faults;

use crate::fault::{LoadFault, LoadReason};
use crate::held::Held;
use crate::seen::first_seen;
use crate::taking::{refuse, take_unit};
use rtr_units::end::EndOfData;
use unit_views::fault::ViewFault;

/// What was loaded.
#[derive(Drop)]
pub struct Loaded {
    /// The length of the data in bytes.
    pub length: usize,
    /// Their end of data, with their version, session, serial number and times.
    pub end: EndOfData,
    /// Whether an incomplete answer was dropped because the next one began before its end of data.
    pub has_cut: bool,
}

/// Writes the data that a recording or a list leaves, in canonical form. Its answers come one after
/// the other, each with or without a cache response, their payload units in any order. The result
/// is that of `data_recordings::read_recording` for the same bytes. Nothing is allocated: `index`
/// is work space, one element for each payload unit of an answer, and so is `work`, which is as
/// long as the data of each answer, as `output` is. Their content is undefined after a fault, and
/// beyond the data. An index with an element for each 12 bytes of the input always suffices, and so
/// do buffers that are as long as the input.
///
/// `Refused` holds the first unit that the recording can't continue with, and its offset: `Read`
/// with the faults of `SessionView::first`, and with `Short` if the input ends inside an answer or
/// before the first one; `Refused` for a unit that `data_recordings` refuses; `UnitVersion` for a
/// payload unit or an end of data of another version than those before it in its answer, or than
/// the data that it changes. `NoIndex` and `NoRoom`: a buffer is too short for an answer.
pub fn load(
    input: &[u8],
    index: &mut [usize],
    work: &mut [u8],
    output: &mut [u8],
) -> Result<Loaded, LoadFault>
    ensures loads { LoadsFrom result input.now (length index.old)
        (min (length work.old) (length output.old)) output.new }
    ensures index { length input.now / 12 ≤ length index.old →
        (wanted : ℕ) → result ≢ Err (faults.NoIndex wanted) }
    ensures room { length input.now ≤ min (length work.old) (length output.old) →
        result ≢ Err faults.NoRoom }
{
    load_units(input, index, work, output)
}

/// Loads the units one after the other.
fn load_units(
    input: &[u8],
    index: &mut [usize],
    work: &mut [u8],
    output: &mut [u8],
) -> Result<Loaded, LoadFault>
    ensures { LoadsFrom result input.now (length index.old)
        (min (length work.old) (length output.old)) output.new }
{
    let mut held = Held::new();
    let mut at = 0;
    'units: loop {
        if at == input.len() {
            return finish(&held, input, index, output);
        }
        match first_seen(&input[at..]) {
            Ok((seen, size)) => {
                match take_unit(&mut held, &seen, size, at, input, index, work, output) {
                    Ok(()) => at += size,
                    Err(fault) => return Err(fault),
                }
            }
            Err(fault) => {
                let reason = LoadReason::Read(fault);
                return Err(refuse(&held, at, reason, input, index, output));
            }
        }
    }
}

/// The result of the whole input.
fn finish(
    held: &Held,
    input: &[u8],
    index: &mut [usize],
    output: &[u8],
) -> Result<Loaded, LoadFault>
    requires { StandsAt held.now (length input.now) input.now index.old output.now }
    ensures loads { (room : ℕ) →
        LoadsFrom result input.now (length index.old) room output.now }
    ensures same_length { length index.new ≡ length index.old }
{
    match (&held.pending, &held.end) {
        (None, Some(end)) => Ok(Loaded {
            length: held.length,
            end: *end,
            has_cut: held.has_cut,
        }),
        _ => {
            let reason = LoadReason::Read(ViewFault::Short);
            Err(refuse(held, input.len(), reason, input, index, output))
        }
    }
}
