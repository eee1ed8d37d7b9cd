//! The data that a recording leaves.

ghost use Rattle.std.specs.Prelude.{◌≡◌, ◌||◌, Ok, Err, IfErr, MatchResult};
ghost use Rattle.rtr_base.specs.declared.action.Action.TheVariants.{Announce};
ghost use Rattle.rtr_units.specs.AnyEnd.{end_meaning};
ghost use Rattle.rtr_payload.specs.Meanings.{payload_of};
ghost use Rattle.rtr_payload.specs.UnitBytes.{unit_bytes, unit_fields};
ghost use Rattle.rtr_payload.specs.UnitFields.{HasFields};
ghost use Rattle.data_memory.specs.Contents.{IsFit};
ghost use Rattle.data_memory.specs.Data.{changed};
ghost use Rattle.data_memory.specs.declared.change_error.ChangeError.TheVariants.{Memory};
ghost use Rattle.unit_any.specs.AnyFields.{HasAnyFields};
ghost use Rattle.unit_any.specs.AnyUnits.{any_bytes, any_fields};
ghost use Rattle.unit_any.specs.declared.any_unit.AnyUnit.TheVariants as units;
ghost use Rattle.data_recordings.specs.PrivateRecordings.{
  FinishesAt,
  Gives,
  TakesBegun,
  TakesCurrent,
  TakesUnit,
};
ghost use Rattle.data_recordings.specs.RecordingRead.{HoldsStopError, ReadsRecording};
ghost use Rattle.data_recordings.specs.Recordings.{begins_anew, begun_in, closed};
ghost use Rattle.data_recordings.specs.Recordings.{is_wanted, last_serial};
ghost use Rattle.data_recordings.specs.Recordings.{last_session, nothing, opens_answer};
ghost use Rattle.data_recordings.specs.Recordings.{refusal_in, whole};

use crate::order::{is_other, refused_in};
use crate::stop::{Refusal, Stop, StopCause};
use data_memory::{ChangeError, Data};
use rtr_base::action::Action;
use rtr_payload::payload;
use rtr_payload::pdu::Payload;
use rtr_units::end::EndOfData;
use rtr_units::fault::Fault;
use rtr_units::source::Source;
use rtr_units::unit::Unit;
use std::alloc::Global;
use std::marker::Model;
use unit_any::AnyUnit;

/// What a recording leaves.
#[derive(Drop)]
pub struct Recording {
    /// The result of its whole answers, applied to no payloads.
    pub payloads: Data,
    /// The end of data of the last whole answer.
    pub end: EndOfData,
    /// Whether an incomplete answer was dropped because the next one began before its end of data.
    pub has_cut: bool,
}

/// Reads a recording up to the end of the input, and returns the payloads that result from applying
/// its whole answers one after the other to no payloads, by the rules of `Data::announce` and
/// `Data::withdraw` (RFC 8210 sections 5.6, 5.7 and 5.10).
///
/// A cache response opens an answer, and an end of data closes it (section 8.1). Until then the
/// data before it remain, as they do in a router: an answer that a cache response cuts off changes
/// nothing. Units without a cache response before them open one, too, in the session of the last
/// whole answer. An answer begins with no payloads in another session than the last whole one
/// (section 5.1), after a cache reset (sections 5.9 and 8.3), and after a reset query, unless a
/// serial query comes in between (sections 5.3 and 5.4). Serial notifies and versions are ignored.
///
/// The first unit that can't follow decides, and its offset is returned: `Read` with the faults of
/// `AnyUnit::read` and `pdu::Payload::into_payload`; `Refused` with those of `Data::announce` and
/// `Data::withdraw`, with `Memory` if an answer changes the payloads before it and they can't be
/// copied, with `Session` at an end of data of another session than its answer (section 5.8), with
/// `Serial` at an end of changes whose serial number comes before that of the data that they
/// change, and with `CacheReset` and `ErrorReport` at such a unit inside an answer. `Read(Short)`
/// also comes if the input ends before an end of data, or inside an answer; `Read(TooMany)` after
/// 2^64 - 1 units.
pub fn read_recording<R: Source>(alloc: Global, reader: &mut R) -> Result<Recording, Stop>
    ensures bytes { ReadsRecording result (R.state reader.old) (R.state reader.new) }
    ensures error { IfErr result (HoldsStopError (R.fails reader.new)) }
{
    let mut held = Held::new(alloc);
    let mut offset: u64 = 0;
    for count in 0..u64::MAX {
        match AnyUnit::read(alloc, reader) {
            Ok(Some(unit)) => {
                let size = unit.size();
                match held.take(alloc, unit) {
                    Ok(()) => offset = offset.saturating_add(u64::from(size)),
                    Err(cause) => return Err(Stop { offset, cause }),
                }
            }
            Ok(None) => return held.finish(offset),
            Err(fault) => {
                let cause = StopCause::Read(fault);
                return Err(Stop { offset, cause });
            }
        }
    }
    let cause = StopCause::Read(Fault::TooMany);
    Err(Stop { offset, cause })
}

/// The state of a recording that was read up to some offset.
#[derive(Drop)]
struct Held {
    /// The payloads that the whole answers leave.
    kept: Data,
    /// The end of data of the last whole answer, if there was one.
    end: Option<EndOfData>,
    /// The answer that is open, if one is.
    pending: Option<OpenAnswer>,
    /// Whether all data were requested last, by a reset query or by a cache reset; none if nothing
    /// was requested since the last answer began.
    asks_all: Option<bool>,
    /// Whether an answer was cut off.
    has_cut: bool,
}

impl Model for Held {
    ghost use Rattle.std.specs.Option.{option_map};
    ghost use Rattle.rtr_units.specs.AnyEnd.{end_meaning};
    ghost use Rattle.data_recordings.specs.Recordings.{SoMuch};

    ghost Value = { SoMuch };

    ghost view = { λ h. record {
      kept = h.kept;
      end = option_map end_meaning h.end;
      pending = h.pending;
      asks_all = h.asks_all;
      has_cut = h.has_cut;
    } };
}

impl Held {
    /// The state before the first unit.
    fn new(alloc: Global) -> Self
        ensures { result ≡ nothing }
    {
        Held {
            kept: Data::new(alloc),
            end: None,
            pending: None,
            asks_all: None,
            has_cut: false,
        }
    }

    /// Takes a unit.
    fn take(&mut self, alloc: Global, unit: AnyUnit) -> Result<(), StopCause>
        requires { HasAnyFields (any_bytes unit) (any_fields unit) }
        ensures { TakesUnit result unit self.old self.new }
    {
        match unit {
            AnyUnit::Payload(unit) => self.take_payload(alloc, unit),
            AnyUnit::CacheResponse(unit) => match self.open(alloc, unit.session()) {
                Ok(()) => Ok(()),
                Err(error) => Err(StopCause::Refused(Refusal::Change(error))),
            },
            AnyUnit::EndOfData(unit) => match self.close(alloc, unit) {
                Ok(()) => Ok(()),
                Err(refusal) => Err(StopCause::Refused(refusal)),
            },
            AnyUnit::CacheReset(_) if self.pending.is_some() => {
                Err(StopCause::Refused(Refusal::CacheReset))
            }
            AnyUnit::Error(_) if self.pending.is_some() => {
                Err(StopCause::Refused(Refusal::ErrorReport))
            }
            AnyUnit::CacheReset(_) | AnyUnit::ResetQuery(_) => {
                self.asks_all = Some(true);
                Ok(())
            }
            AnyUnit::SerialQuery(_) => {
                self.asks_all = Some(false);
                Ok(())
            }
            AnyUnit::SerialNotify(_) | AnyUnit::Error(_) => Ok(()),
        }
    }

    /// Opens an answer of this session, and drops a pending one. The only error is `Memory`.
    fn open(&mut self, alloc: Global, session: u16) -> Result<(), ChangeError>
        ensures { MatchResult result (λ _. self.new ≡ opens_answer self.old session)
            (λ e. e ≡ Memory) }
    {
        let answer = self.begin(alloc, Some(session))?;
        self.has_cut |= self.pending.is_some();
        self.pending = Some(answer);
        self.asks_all = None;
        Ok(())
    }

    /// The answer of this session that begins next. The only error is `Memory`.
    fn begin(&self, alloc: Global, session: Option<u16>) -> Result<OpenAnswer, ChangeError>
        ensures { MatchResult result (λ answer. answer ≡ begun_in self.now session)
            (λ e. e ≡ Memory) }
    {
        let has_all = self.is_wanted();
        if self.begins_anew(session) {
            return Ok(OpenAnswer {
                payloads: Data::new(alloc),
                session,
                since: None,
                has_all,
            });
        }
        let Ok(payloads) = self.kept.clone(alloc) else {
            return Err(ChangeError::Memory);
        };
        Ok(OpenAnswer {
            payloads,
            session,
            since: self.last_serial(),
            has_all,
        })
    }

    /// Whether an answer of this session begins with no payloads.
    fn begins_anew(&self, session: Option<u16>) -> bool
        ensures { result ≡ begins_anew self.now session }
    {
        self.is_wanted() || is_other(self.last_session(), session)
    }

    /// Whether the next answer is to a request for all data.
    fn is_wanted(&self) -> bool
        ensures { result ≡ is_wanted self.now }
    {
        match (self.asks_all, &self.pending) {
            (Some(all), _) => all,
            (None, Some(cut)) => cut.has_all,
            (None, None) => false,
        }
    }

    /// The session of the last whole answer.
    fn last_session(&self) -> Option<u16>
        ensures { result ≡ last_session self.now }
    {
        match &self.end {
            Some(end) => Some(end.session()),
            None => None,
        }
    }

    /// The serial number of the last whole answer.
    fn last_serial(&self) -> Option<u32>
        ensures { result ≡ last_serial self.now }
    {
        match &self.end {
            Some(end) => Some(end.serial().0),
            None => None,
        }
    }

    /// Closes the answer.
    fn close(&mut self, alloc: Global, end: EndOfData) -> Result<(), Refusal>
        ensures { MatchResult result
            (λ _. closed self.old (end_meaning end) ≡ Ok self.new)
            (λ e. closed self.old (end_meaning end) ≡ Err e) }
    {
        let answer = match self.pending.take() {
            Some(answer) => answer,
            None => self.take_begun(alloc),
        };
        match answer.refusal(&end) {
            Some(refusal) => Err(refusal),
            None => {
                self.keep(answer.payloads, end);
                Ok(())
            }
        }
    }

    /// Begins an answer without a cache response. It takes the kept payloads, without a copy.
    fn take_begun(&mut self, alloc: Global) -> OpenAnswer
        ensures { TakesBegun result self.old self.new }
    {
        let session = self.last_session();
        let has_all = self.is_wanted();
        let is_anew = self.begins_anew(session);
        self.asks_all = None;
        let kept = std::mem::replace(&mut self.kept, Data::new(alloc));
        if is_anew {
            return OpenAnswer {
                payloads: Data::new(alloc),
                session,
                since: None,
                has_all,
            };
        }
        OpenAnswer {
            payloads: kept,
            session,
            since: self.last_serial(),
            has_all,
        }
    }

    /// Keeps the result of a whole answer.
    fn keep(&mut self, payloads: Data, end: EndOfData)
        ensures { self.new ≡ whole self.old payloads (end_meaning end) }
    {
        self.kept = payloads;
        self.pending = None;
        self.end = Some(end);
    }

    /// Takes a payload unit.
    fn take_payload(&mut self, alloc: Global, unit: Payload) -> Result<(), StopCause>
        requires { HasFields (unit_bytes unit) (unit_fields unit) }
        ensures { TakesUnit result (units.Payload unit) self.old self.new }
    {
        let (action, payload) = match unit.into_payload(alloc) {
            Ok(meaning) => meaning,
            Err(fault) => return Err(StopCause::Read(fault)),
        };
        let mut answer = match self.take_current(alloc) {
            Ok(answer) => answer,
            Err(error) => return Err(StopCause::Refused(Refusal::Change(error))),
        };
        match changed_by(answer.payloads, action, payload) {
            Ok(payloads) => {
                answer.payloads = payloads;
                self.pending = Some(answer);
                Ok(())
            }
            Err(error) => Err(StopCause::Refused(Refusal::Change(error))),
        }
    }

    /// Takes the answer of the next payload unit. The only error is `Memory`.
    fn take_current(&mut self, alloc: Global) -> Result<OpenAnswer, ChangeError>
        ensures { TakesCurrent result self.old self.new }
    {
        match self.pending.take() {
            Some(answer) => Ok(answer),
            None => {
                let answer = self.begin(alloc, self.last_session())?;
                self.asks_all = None;
                Ok(answer)
            }
        }
    }

    /// Returns the result of the recording, if the input ends at this offset.
    fn finish(self, offset: u64) -> Result<Recording, Stop>
        ensures { FinishesAt result self offset }
    {
        match (self.pending, self.end) {
            (None, Some(end)) => Ok(Recording {
                payloads: self.kept,
                end,
                has_cut: self.has_cut,
            }),
            _ => Err(Stop {
                offset,
                cause: StopCause::Read(Fault::Short),
            }),
        }
    }
}

/// An answer whose end of data hasn't come.
#[derive(Drop)]
struct OpenAnswer {
    /// The result of its units so far.
    payloads: Data,
    /// Its session, if it is known from its cache response or the whole answer before it.
    session: Option<u16>,
    /// The serial number of the data that it changes; none if it began with no payloads, or was the
    /// first.
    since: Option<u32>,
    /// Whether it answers a request for all data.
    has_all: bool,
}

impl Model for OpenAnswer {
    ghost use Rattle.data_recordings.specs.Recordings as spec;

    ghost Value = { spec.OpenAnswer };

    ghost view = { λ a. record {
      payloads = a.payloads;
      session = a.session;
      since = a.since;
      has_all = a.has_all;
    } };
}

impl OpenAnswer {
    /// Why an end of data can't close the answer.
    fn refusal(&self, end: &EndOfData) -> Option<Refusal>
        ensures { result ≡ refusal_in self.now (end_meaning end.now) }
    {
        refused_in(self.session, self.since, end)
    }
}

/// The data after the change of a unit, whose announcement a reader accepts.
fn changed_by(
    mut payloads: Data,
    action: Action,
    payload: payload::Payload,
) -> Result<Data, ChangeError>
    requires { action ≡ Announce → IsFit (payload_of payload) }
    ensures { Gives result (changed action (payload_of payload) payloads) }
{
    let answer = match action {
        Action::Announce => payloads.announce(payload),
        Action::Withdraw => payloads.withdraw(&payload.as_ref()),
    };
    match answer {
        Ok(()) => Ok(payloads),
        Err(error) => Err(error),
    }
}
