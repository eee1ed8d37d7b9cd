//! Loading a recording or a list as data.

ghost use Rattle.std.specs.Prelude.{◌≡◌, ◌≢◌, ◌≤◌, ◌/◌, ℕ, Result, length, min};
ghost use Rattle.data_loading.specs.Loading.{LoadsFrom, RefusesLoad};
ghost use Rattle.data_loading.specs.declared.fault.LoadFault.{LoadFault};
ghost use Rattle.data_loading.specs.declared.recording.Loaded.{Loaded};
ghost use Rattle.rtr_c.specs.Answers.{rtr_no_index, rtr_no_room};
ghost use Rattle.rtr_c.specs.LoadAnswers.{AnswersLoad, change_status, data_loaded, load_answer};
ghost use Rattle.rtr_c.specs.LoadAnswers.{load_fault_detail, load_refused, load_fault_status};
ghost use Rattle.rtr_c.specs.LoadAnswers.{load_fault_wanted, nothing_loaded, recorded_status};

use crate::answer::{
    ACCEPTED, DUPLICATE, EMPTY_PROVIDERS, NO_INDEX, NO_ROOM, OLD_SERIAL, OTHER_SESSION,
    OTHER_VERSION, REPORT_INSIDE, RESET_INSIDE, TOO_LONG, UNKNOWN, WRITER, fault_detail,
    fault_status,
};
use crate::next::wanted;
use data_loading::{LoadFault, LoadReason, Loaded};
use data_memory::ChangeError;
use data_recordings::Refusal;
use rtr_wire::pdu::ViewFault;

/// The loaded data, or why none were loaded.
#[repr(C)]
#[derive(Drop)]
pub struct RtrLoaded {
    /// Bytes of the data, from the front of the output; like all that describes data, 0 unless the
    /// status is RTR_OK.
    pub length: usize,
    /// The offset of the unit at fault in the input; 0 if no unit is at fault.
    pub offset: usize,
    /// After RTR_SHORT, the least number of bytes needed from input + offset on, as in an rtr_unit;
    /// after RTR_NO_INDEX, the least number of entries that the index needs; else 0.
    pub wanted: usize,
    /// The serial number of the data.
    pub serial: u32,
    /// The refresh time of the data, in seconds; 0 in version 0.
    pub refresh: u32,
    /// The retry time of the data, likewise.
    pub retry: u32,
    /// The expire time of the data, likewise.
    pub expire: u32,
    /// The session of the data.
    pub session: u16,
    /// The protocol version of the data, and of each of their units.
    pub version: u8,
    /// Whether an answer was left out: the next one began before its end.
    pub has_cut: bool,
    /// The result of the call, an rtr_status, which the call returns too.
    pub status: u8,
    /// The version that RTR_OTHER_VERSION refuses; else the detail of the status, as in an
    /// rtr_answer.
    pub detail: u8,
}

// The fields stand one after the other, and two bytes are left at the end.
const _: () = prove!(size_of::<RtrLoaded>() == 48);

/// As `data_loading::load`.
#[unsafe(no_mangle)]
pub extern "C" fn rtr_load_nonnull(
    input: &[u8],
    index: &mut [usize],
    work: &mut [u8],
    output: &mut [u8],
    loaded: &mut RtrLoaded,
) -> u8
    ensures loads { (r : Result Loaded LoadFault)
        × LoadsFrom r input.now (length index.old) (min (length work.old) (length output.old))
        output.new
        × AnswersLoad (load_answer r input.now) loaded.new result }
    ensures index { length input.now / 12 ≤ length index.old → result ≢ rtr_no_index }
    ensures room { length input.now ≤ min (length work.old) (length output.old) →
        result ≢ rtr_no_room }
{
    *loaded = match data_loading::load(input, index, work, output) {
        Ok(whole) => RtrLoaded::of(&whole),
        Err(fault) => RtrLoaded::refused(&fault, input),
    };
    loaded.status
}

impl RtrLoaded {
    /// No data, for this reason.
    fn nothing(status: u8) -> Self
        ensures { result ≡ nothing_loaded status }
    {
        RtrLoaded {
            length: 0,
            offset: 0,
            wanted: 0,
            serial: 0,
            refresh: 0,
            retry: 0,
            expire: 0,
            session: 0,
            version: 0,
            has_cut: false,
            status,
            detail: 0,
        }
    }

    /// The data that were loaded.
    fn of(whole: &Loaded) -> Self
        ensures { result ≡ data_loaded whole.now }
    {
        let end = &whole.end;
        let mut loaded = RtrLoaded::nothing(ACCEPTED);
        loaded.length = whole.length;
        loaded.has_cut = whole.has_cut;
        loaded.serial = end.serial().0;
        loaded.session = end.session();
        loaded.version = end.version();
        if let Some(timing) = end.timing() {
            loaded.refresh = timing.refresh;
            loaded.retry = timing.retry;
            loaded.expire = timing.expire;
        }
        loaded
    }

    /// No data, for this fault of the input or of a buffer.
    fn refused(fault: &LoadFault, input: &[u8]) -> Self
        requires { (places : ℕ) × (room : ℕ) × RefusesLoad fault.now input.now places room }
        ensures { result ≡ load_refused fault.now input.now }
    {
        match fault {
            LoadFault::Refused { offset, reason } => RtrLoaded {
                offset: *offset,
                wanted: reason_wanted(reason, &input[*offset..]),
                detail: reason_detail(reason),
                ..RtrLoaded::nothing(reason_status(reason))
            },
            LoadFault::NoIndex { wanted } => RtrLoaded {
                wanted: *wanted,
                ..RtrLoaded::nothing(NO_INDEX)
            },
            LoadFault::NoRoom => RtrLoaded::nothing(NO_ROOM),
        }
    }
}

/// The status for what is wrong with a unit.
fn reason_status(reason: &LoadReason) -> u8
    ensures { result ≡ load_fault_status reason.now }
{
    match reason {
        LoadReason::Read(fault) => fault_status(fault),
        LoadReason::Refused(refusal) => refusal_status(*refusal),
        LoadReason::UnitVersion(_) => OTHER_VERSION,
    }
}

/// The status for a unit that isn't allowed at that point of a recording.
fn refusal_status(refusal: Refusal) -> u8
    ensures { result ≡ recorded_status refusal }
{
    match refusal {
        Refusal::Change(error) => change_status(error),
        Refusal::Session(_, _) => OTHER_SESSION,
        Refusal::Serial(_, _) => OLD_SERIAL,
        Refusal::CacheReset => RESET_INSIDE,
        Refusal::ErrorReport => REPORT_INSIDE,
    }
}

/// The status for a change that isn't allowed.
fn change_status(error: ChangeError) -> u8
    ensures { result ≡ change_status error }
{
    match error {
        ChangeError::Duplicate => DUPLICATE,
        ChangeError::Unknown => UNKNOWN,
        ChangeError::KeyTooLong => TOO_LONG,
        ChangeError::NoProviders => EMPTY_PROVIDERS,
        ChangeError::Memory => WRITER,
    }
}

/// The type, the version or the broken rule that is refused, or 0.
fn reason_detail(reason: &LoadReason) -> u8
    ensures { result ≡ load_fault_detail reason.now }
{
    match reason {
        LoadReason::Read(fault) => fault_detail(fault),
        LoadReason::Refused(_) => 0,
        LoadReason::UnitVersion(version) => *version,
    }
}

/// The least number of bytes needed of a unit that is cut off, given these bytes of the input, or
/// 0.
fn reason_wanted(reason: &LoadReason, left: &[u8]) -> usize
    ensures { result ≡ load_fault_wanted reason.now left.now }
{
    match reason {
        LoadReason::Read(ViewFault::Short) => wanted(left),
        _ => 0,
    }
}
