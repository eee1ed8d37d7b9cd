//! Runs from a slice into another, without memory.

ghost use Rattle.std.specs.Prelude.{◌≡◌, ◌≢◌, ◌+◌, ◌-◌, ◌≤◌, ◌<◌, ℕ, List, length, Err, IfErr};
ghost use Rattle.rtr_payload.specs.Payloads.{Meaning, smallest_version as smallest};
ghost use Rattle.unit_views.specs.Placing.{Places};
ghost use Rattle.unit_views.specs.Views.{ViewMeans};
ghost use Rattle.rtr_wire.specs.Into.{NormalisesInto, RefusesVersion};
ghost use Rattle.rtr_wire.specs.PrivateSteps.{StepsInto};
ghost use Rattle.rtr_wire.specs.Sequences.{everything, for_version};

use crate::run::Passed;
use crate::writing::{Everything, ForVersion, Writing};
use rtr_payload::pdu::{Aspa, PayloadUnit, RouterKey};
use rtr_units::header::{HEADER_SIZE, LAST_VERSION};
use rtr_units::prefixes::{Ipv4Prefix, Ipv6Prefix};
use rtr_units::unit::Unit;
use unit_views::fault::ViewFault;
use unit_views::placing::place;
use unit_views::view::UnitView;

/// How far a call came: the whole units read from the front of the input, and the bytes written for
/// them to the front of the output. No byte of a refused unit counts, whereas `normalise` has
/// consumed the bytes of its reader that show the fault.
#[derive(Clone, Copy, Debug, PartialEq, Eq)]
pub struct Progress {
    /// The number of payload units that were read.
    pub units: u64,
    /// The number of these that were written.
    pub forms: u64,
    /// The number of bytes that were read.
    pub taken: usize,
    /// The number of bytes that were written.
    pub written: usize,
}

/// Why a call stopped before an end of data.
#[derive(Debug, Drop, thiserror::Error)]
pub enum IntoFault {
    /// The output is too short for the next unit.
    #[error("no room in the output")]
    NoRoom,
    /// The limit of units was reached.
    #[error("too many units")]
    TooMany,
    /// The next unit of the input is refused. The text is that of the fault.
    #[error(transparent)]
    Refused(ViewFault),
}

/// As `normalise_slice`, into a slice. It returns its progress, also when it stops early: the
/// output then begins with the form of the whole units before the one at which it stopped, and no
/// byte of that unit counts as read. The rest of the output is unchanged.
///
/// At most `limit` units are read, the end of data included: `TooMany` comes before the next one is
/// read. Then come `Refused`, with the faults of `UnitView::first`, and then `NoRoom`, which never
/// comes if the output is at least as long as the input.
pub fn normalise_into(
    input: &[u8],
    output: &mut [u8],
    limit: u64,
) -> (Progress, Result<(), IntoFault>)
    ensures bytes { NormalisesInto everything limit result.1
        input.now output.old output.new result.0 }
    ensures room { length input.now ≤ length output.old → result.1 ≢ Err IntoFault.NoRoom }
{
    run(Everything, input, output, limit)
}

/// As `normalise_for`, from a slice into a slice, as `normalise_into`. An end of data of version 0
/// has 12 bytes and one of a later version 24, so an output that is 12 bytes longer than the input
/// always suffices.
///
/// `Refused` with `UnitVersion` comes first for a version above 2, with nothing read or written.
pub fn normalise_for_into(
    input: &[u8],
    output: &mut [u8],
    limit: u64,
    version: u8,
) -> (Progress, Result<(), IntoFault>)
    ensures known { version ≤ 2 →
        NormalisesInto (for_version version) limit result.1
        input.now output.old output.new result.0 }
    ensures room { version ≤ 2 → length input.now + 12 ≤ length output.old →
        result.1 ≢ Err IntoFault.NoRoom }
    ensures unknown { 2 < version →
        RefusesVersion version result.0 result.1 output.old output.new }
{
    if version > LAST_VERSION {
        let fault = ViewFault::UnitVersion(version);
        return (came(0, 0, 0, 0), Err(IntoFault::Refused(fault)));
    }
    run(ForVersion { version }, input, output, limit)
}

/// Reads units from the input up to an end of data, and writes the output of each, and of the end
/// of data.
#[inline(always)]
fn run<S: Writing>(
    writing: S,
    input: &[u8],
    output: &mut [u8],
    limit: u64,
) -> (Progress, Result<(), IntoFault>)
    ensures { NormalisesInto (S.what writing) limit result.1
        input.now output.old output.new result.0 }
{
    let (mut left_out, mut taken, mut written) = (0, 0, 0);
    for units in 0..limit {
        match take_step(writing, &input[taken..], &mut output[written..]) {
            Ok(step) => {
                taken += step.taken;
                written += step.written;
                match step.passed {
                    Passed::Written => {}
                    Passed::LeftOut => left_out += 1,
                    Passed::End => return (came(units, left_out, taken, written), Ok(())),
                }
            }
            Err(e) => return (came(units, left_out, taken, written), Err(e)),
        }
    }
    let progress = came(limit, left_out, taken, written);
    (progress, Err(IntoFault::TooMany))
}

/// The progress after `units` payload units, `left_out` of which weren't written.
#[inline(always)]
fn came(units: u64, left_out: u64, taken: usize, written: usize) -> Progress
    requires { left_out ≤ units }
    ensures { result ≡ record {
      units = units;
      forms = units - left_out;
      taken = taken;
      written = written;
    } }
{
    Progress {
        units,
        forms: units - left_out,
        taken,
        written,
    }
}

/// One step of a run.
#[derive(Clone, Copy)]
struct Step {
    /// What kind of unit it read.
    passed: Passed,
    /// How many bytes it read.
    taken: usize,
    /// How many bytes it wrote.
    written: usize,
}

/// Views one unit, and writes its output.
///
/// Each type has its own path, on which the compiler knows the kind of the view at each step.
#[inline(always)]
fn take_step<S: Writing>(writing: S, rest: &[u8], output: &mut [u8]) -> Result<Step, IntoFault>
    ensures { StepsInto (S.what writing) result rest.now output.old output.new }
{
    let unit_type = if rest.len() < HEADER_SIZE { 0 } else { rest[1] };
    match unit_type {
        Ipv4Prefix::PDU => view_step::<{ Ipv4Prefix::PDU }, S>(writing, rest, output),
        Ipv6Prefix::PDU => view_step::<{ Ipv6Prefix::PDU }, S>(writing, rest, output),
        RouterKey::PDU => view_step::<{ RouterKey::PDU }, S>(writing, rest, output),
        Aspa::PDU => view_step::<{ Aspa::PDU }, S>(writing, rest, output),
        _ => view_step::<0, S>(writing, rest, output),
    }
}

/// The step for units of one type, or of any other. The code doesn't read `TYPE`; it only makes the
/// compiler copy the step for each type, as in `normalise_slice`.
#[inline(always)]
fn view_step<const TYPE: u8, S: Writing>(
    writing: S,
    rest: &[u8],
    output: &mut [u8],
) -> Result<Step, IntoFault>
    ensures { StepsInto (S.what writing) result rest.now output.old output.new }
{
    let (view, taken) = match UnitView::first(rest) {
        Ok(first) => first,
        Err(e) => return Err(IntoFault::Refused(e)),
    };
    match view {
        UnitView::End(end) => match place(writing.end(end).as_ref(), &[], output) {
            Some(written) => Ok(Step {
                passed: Passed::End,
                taken,
                written,
            }),
            None => Err(IntoFault::NoRoom),
        },
        _ => {
            if !writing.writes(smallest_version(&view)) {
                return Ok(Step {
                    passed: Passed::LeftOut,
                    taken,
                    written: 0,
                });
            }
            let came_in = view.version();
            let version = writing.version(came_in);
            match view.place_form_in(version, output) {
                Some(written) => Ok(Step {
                    passed: Passed::Written,
                    taken,
                    written,
                }),
                None => Err(IntoFault::NoRoom),
            }
        }
    }
}

/// The first version of the protocol that has such a payload.
#[inline(always)]
fn smallest_version(view: &UnitView<'_>) -> u8
    ensures { (m : Meaning) → ViewMeans view.now m → result ≡ smallest m.payload }
{
    match view {
        UnitView::Origin(_) => Ipv4Prefix::SMALLEST_VERSION,
        UnitView::RouterKey(_) => RouterKey::SMALLEST_VERSION,
        UnitView::Aspa(_) | UnitView::End(_) => Aspa::SMALLEST_VERSION,
    }
}
