//! Applying a sequence of units to data: all of its changes, or none.

ghost use Rattle.std.specs.Prelude.{◌≡◌, Err, IfErr, IfOk};
ghost use Rattle.rtr_base.specs.declared.action.Action.TheVariants.{Announce};
ghost use Rattle.rtr_units.specs.StopCauses.{HoldsReadError, by_cause, reader_count};
ghost use Rattle.rtr_payload.specs.Meanings.{payload_of};
ghost use Rattle.data_memory.specs.Applying.{Applies, HoldsApplyError};
ghost use Rattle.data_memory.specs.Contents.{IsFit, Leaves};
ghost use Rattle.data_memory.specs.Data.{changed};
ghost use Rattle.data_memory.specs.PrivateApplying.{ReadsChange};

use super::Data;
use crate::apply_error::{ApplyCause, ApplyError};
use crate::change_error::ChangeError;
use rtr_base::action::Action;
use rtr_payload::payload::Payload;
use rtr_payload::pdu;
use rtr_units::end::EndOfData;
use rtr_units::fault::Fault;
use rtr_units::source::Source;
use rtr_wire::laws::plain_way;
use std::alloc::Global;

impl Data {
    /// Reads payload units up to an end of data, and applies the changes one after the other: all
    /// of them, or none. Returns the end of data; what follows it is not read.
    ///
    /// At most `limit` units are read, the end of data included: `TooMany` comes before the next
    /// header is read. The first unit that can't be read or whose change is refused decides. The
    /// faults are those of `pdu::Payload::read` and `pdu::Payload::into_payload`, and then those of
    /// `announce` and `withdraw`; `units` is the number of units before it. The data are then
    /// unchanged.
    ///
    /// The changes are applied to a copy of the data, which is allocated first: if that fails,
    /// `Memory` of a change comes with nothing read.
    pub fn apply<R: Source>(
        &mut self,
        alloc: Global,
        reader: &mut R,
        limit: u64,
    ) -> Result<EndOfData, ApplyError>
        ensures bytes { Applies limit result (R.state reader.old) (R.state reader.new)
            self.old self.new }
        ensures error { IfErr result (HoldsApplyError (R.fails reader.new)) }
    {
        let Ok(mut next) = self.clone(alloc) else {
            return Err(ApplyError {
                units: 0,
                cause: ApplyCause::Change(ChangeError::Memory),
            });
        };
        for units in 0..limit {
            match read_change(alloc, reader) {
                Ok(Ok((action, payload))) => match next.change(action, payload) {
                    Ok(()) => {}
                    Err(error) => {
                        let cause = ApplyCause::Change(error);
                        return Err(ApplyError { units, cause });
                    }
                },
                Ok(Err(end)) => {
                    *self = next;
                    return Ok(end);
                }
                Err(fault) => {
                    let cause = ApplyCause::Read(fault);
                    return Err(ApplyError { units, cause });
                }
            }
        }
        let cause = ApplyCause::Read(Fault::TooMany);
        Err(ApplyError {
            units: limit,
            cause,
        })
    }

    /// Applies the change of a unit, whose announcement a reader accepts.
    fn change(&mut self, action: Action, payload: Payload) -> Result<(), ChangeError>
        requires { action ≡ Announce → IsFit (payload_of payload) }
        ensures { Leaves result (changed action (payload_of payload) self.old) self.old self.new }
    {
        match action {
            Action::Announce => self.insert(payload),
            Action::Withdraw => self.withdraw(&payload.as_ref()),
        }
    }
}

/// Reads a unit, and returns its change, or the end of data.
fn read_change<R: Source>(
    alloc: Global,
    reader: &mut R,
) -> Result<Result<(Action, Payload), EndOfData>, Fault>
    ensures bytes { ReadsChange result (R.state reader.old).left (R.state reader.new).left }
    ensures count { (R.state reader.new).failed ≡
        reader_count (by_cause result) (R.state reader.old).failed }
    ensures error { IfErr result (HoldsReadError (R.fails reader.new)) }
{
    plain_way();
    match pdu::Payload::read(alloc, reader)? {
        Ok(Some(unit)) => Ok(Ok(unit.into_payload(alloc)?)),
        Ok(None) => unreachable!(),
        Err(end) => Ok(Err(end)),
    }
}
