//! The result of a call on data and changes, in numbers.

ghost use Rattle.std.specs.Prelude.{◌≡◌};
ghost use Rattle.rtr_c.specs.DataAnswers.{flaw_told, reason_detail, reason_status, refused_told};
ghost use Rattle.rtr_c.specs.DataAnswers.{side_told, written_told};

use crate::answer::{ACCEPTED, NOT_CANONICAL, fault_detail, fault_status};
use data_slices::{Flaw, Reason};

/// The first of two inputs.
pub(crate) const FIRST: u8 = 1;
/// The second of two inputs.
pub(crate) const SECOND: u8 = 2;
/// Neither input alone.
pub(crate) const NEITHER: u8 = 0;

/// The result of a call on data and changes.
#[repr(C)]
#[derive(Drop)]
pub struct RtrDataAnswer {
    /// After RTR_OK the bytes of the output that were written, from its start; else 0. After
    /// RTR_NO_ROOM the output's contents are unspecified, after any other status unchanged.
    pub written: usize,
    /// The offset of the unit at fault in its input; 0 if no unit is at fault.
    pub offset: usize,
    /// The result of the call, an rtr_status, which the call returns too.
    pub status: u8,
    /// 1 or 2 if the first or the second input is at fault, else 0.
    pub side: u8,
    /// The detail of the status, as in an rtr_answer.
    pub detail: u8,
}

// The fields stand one after the other, and five bytes are left at the end.
const _: () = prove!(size_of::<RtrDataAnswer>() == 24);

impl RtrDataAnswer {
    /// The call succeeded, and wrote this number of bytes.
    pub(crate) fn wrote(written: usize) -> Self
        ensures { result ≡ written_told written }
    {
        RtrDataAnswer {
            written,
            offset: 0,
            status: ACCEPTED,
            side: NEITHER,
            detail: 0,
        }
    }

    /// The call was refused for a reason that isn't in one input alone.
    pub(crate) fn refused(status: u8, detail: u8) -> Self
        ensures { result ≡ refused_told status detail }
    {
        RtrDataAnswer::refused_at(NEITHER, 0, status, detail)
    }

    /// The call was refused for the unit at this offset of an input.
    pub(crate) fn refused_at(side: u8, offset: usize, status: u8, detail: u8) -> Self
        ensures { result ≡ side_told side offset status detail }
    {
        RtrDataAnswer {
            written: 0,
            offset,
            status,
            side,
            detail,
        }
    }

    /// The call was refused for the flaw of an input.
    pub(crate) fn of_flaw(side: u8, flaw: &Flaw) -> Self
        ensures { result ≡ flaw_told side flaw.now }
    {
        let reason = &flaw.reason;
        RtrDataAnswer::refused_at(
            side,
            flaw.offset,
            reason_status(reason),
            reason_detail(reason),
        )
    }
}

/// The status for the reason of a flaw.
pub(crate) fn reason_status(reason: &Reason) -> u8
    ensures { result ≡ reason_status reason.now }
{
    match reason {
        Reason::Refused(fault) => fault_status(fault),
        Reason::NotCanonical => NOT_CANONICAL,
    }
}

/// The type, the version or the broken rule that is refused, or 0.
pub(crate) fn reason_detail(reason: &Reason) -> u8
    ensures { result ≡ reason_detail reason.now }
{
    match reason {
        Reason::Refused(fault) => fault_detail(fault),
        Reason::NotCanonical => 0,
    }
}
