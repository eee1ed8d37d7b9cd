//! Handling the units that come, and the result of a response's changes.

ghost use Rattle.std.specs.Prelude.{◌≡◌, ◌≢◌, ◌≤◌, ◌<◌, ◌+◌, ◌^◌, ◌⊎◌, ◌↔◌, IsTrue, true, false};
ghost use Rattle.std.specs.Prelude.{None, Some, max, min};
ghost use Rattle.std.specs.declared.cmp.Ordering.TheVariants.{Less};
ghost use Rattle.rtr_base.specs.Serial.{serial_cmp};
ghost use Rattle.session_router.specs.Heeding.{Heeds, HeedsAsked, HeedsReading, HeedsUnit};
ghost use Rattle.session_router.specs.Heeding.{HeedsWaiting, IsIdle};
ghost use Rattle.session_router.specs.After.{once_adopted, once_begun, once_noted};
ghost use Rattle.session_router.specs.After.{once_without_data};
ghost use Rattle.session_router.specs.After.{router_after};
ghost use Rattle.session_router.specs.Pace.{Paces, PacesNoData, PacesShow, SameDue, is_news};
ghost use Rattle.session_router.specs.Pace.{rise_wait_at_show, rises_at_show};
ghost use Rattle.session_router.specs.Rules.{Begins, Fresh, IsPayloadOf, MayAnswer, Rule};
ghost use Rattle.session_router.specs.Rules.{SameKnown};
ghost use Rattle.session_router.specs.Rules.{Adopts};
ghost use Rattle.session_router.specs.Step.{made_until};
ghost use Rattle.session_router.specs.declared.event.Action.TheVariants as actions;
ghost use Rattle.session_router.specs.declared.event.Event.TheVariants as events;
ghost use Rattle.session_router.specs.declared.head.Kind.TheVariants as kinds;
ghost use Rattle.session_router.specs.declared.router.Phase.TheVariants as phases;

use crate::event::{Action, Cause};
use crate::head::{Head, Kind, Known};
use crate::router::{FIRST_WAIT, Phase, Router};
use rtr_base::error_code::ErrorCode;
use rtr_base::state::Serial;
use std::cmp::Ordering;

impl Router {
    #[inline(always)]
    pub(crate) fn came(&mut self, now: u64, unit: &Head) -> Action
        requires time { now < 2 ^ 63 }
        requires fresh { Fresh self.old now }
        ensures rule { Rule self.old now (events.Came unit.now) result self.new }
        ensures fresh { Fresh self.new now }
        ensures paces { Paces self.old now (events.Came unit.now) result self.new }
        ensures becomes { self.new ≡ router_after self.old now (events.Came unit.now) result }
        ensures heeds { HeedsUnit self.old now unit.now result self.new }
        ensures idles { IsIdle (events.Came unit.now) self.old → result ≡ actions.Wait }
    {
        match self.phase {
            Phase::Offline | Phase::Connecting => Action::Wait,
            Phase::Asked => self.answered(now, unit),
            Phase::Reading => self.read_on(now, unit),
            Phase::Waiting => self.notified(now, unit),
            Phase::Applying => self.end(now, None, Cause::NotApplied),
        }
    }

    /// Takes a unit while an answer is awaited. The first unit of the answer sets the version of
    /// the session; a notify before it doesn't (RFC 8210 section 7). A later notify is recorded, as
    /// in a response.
    fn answered(&mut self, now: u64, unit: &Head) -> Action
        requires time { now < 2 ^ 63 }
        requires asked { self.old.phase ≡ phases.Asked }
        requires fresh { Fresh self.old now }
        ensures rule { Rule self.old now (events.Came unit.now) result self.new }
        ensures fresh { Fresh self.new now }
        ensures paces { Paces self.old now (events.Came unit.now) result self.new }
        ensures becomes { self.new ≡ router_after self.old now (events.Came unit.now) result }
        ensures heeds { HeedsAsked self.old unit.now result }
    {
        match unit.kind {
            Kind::ErrorReport => self.reported(now, unit),
            Kind::SerialNotify if !self.agreed => Action::Wait,
            _ if self.agreed && unit.version != self.version => {
                self.end(
                    now,
                    Some(ErrorCode::UNEXPECTED_PROTOCOL_VERSION),
                    Cause::OtherVersion,
                )
            }
            _ if unit.version > self.version => {
                self.end(
                    now,
                    Some(ErrorCode::UNSUPPORTED_PROTOCOL_VERSION),
                    Cause::HigherVersion,
                )
            }
            Kind::SerialNotify => self.note_serial(unit),
            Kind::CacheResponse if self.changes => self.begin_changes(now, unit),
            Kind::CacheResponse => self.begin(unit),
            Kind::CacheReset if self.changes => self.reset(now, unit),
            _ => self.end(
                now,
                Some(ErrorCode::UNSUPPORTED_PDU_TYPE),
                Cause::OutOfPlace,
            ),
        }
    }

    /// Takes a report instead of an answer.
    fn reported(&mut self, now: u64, unit: &Head) -> Action
        requires time { now < 2 ^ 63 }
        requires asked { self.old.phase ≡ phases.Asked }
        requires kind { unit.now.kind ≡ kinds.ErrorReport }
        requires fresh { Fresh self.old now }
        ensures rule { Rule self.old now (events.Came unit.now) result self.new }
        ensures fresh { Fresh self.new now }
        ensures paces { Paces self.old now (events.Came unit.now) result self.new }
        ensures becomes { self.new ≡ router_after self.old now (events.Came unit.now) result }
        ensures heeds { HeedsAsked self.old unit.now result }
    {
        let lower = unit.version < self.version
            || unit.code == ErrorCode::UNSUPPORTED_PROTOCOL_VERSION;
        if unit.code == ErrorCode::NO_DATA_AVAILABLE && unit.version == self.version {
            self.has_none(now)
        } else if lower && !self.agreed && self.version > 0 {
            self.fall(now, self.version - 1)
        } else {
            self.end(now, None, Cause::Reported)
        }
    }

    /// Handles a cache without data. It is asked for all data again after each retry time, until it
    /// has some (RFC 8210 section 8.4).
    fn has_none(&mut self, now: u64) -> Action
        requires time { now < 2 ^ 63 }
        ensures action { result ≡ actions.NoData }
        ensures becomes { self.new ≡ once_without_data self.old now }
        ensures same { SameKnown self.old self.new }
        ensures phase { self.new.phase ≡ phases.Waiting }
        ensures version { self.new.version ≡ self.old.version }
        ensures agreed { self.new.agreed ≡ true }
        ensures floor { self.new.floor ≡ max self.old.floor self.old.version }
        ensures resync { self.new.resync ≡ true }
        ensures paces { PacesNoData self.old now self.new }
    {
        self.agreed = true;
        self.floor = self.floor.max(self.version);
        self.resync = true;
        self.phase = Phase::Waiting;
        self.due = now + self.settings.retry(&self.known);
        Action::NoData
    }

    /// Takes a cache response that begins the answer to a serial query.
    fn begin_changes(&mut self, now: u64, unit: &Head) -> Action
        requires time { now < 2 ^ 63 }
        requires asked { self.old.phase ≡ phases.Asked }
        requires kind { unit.now.kind ≡ kinds.CacheResponse }
        requires changes { self.old.changes ≡ true }
        requires version { unit.now.version ≤ self.old.version }
        requires agreed { self.old.agreed ≡ true → unit.now.version ≡ self.old.version }
        requires fresh { Fresh self.old now }
        ensures rule { Rule self.old now (events.Came unit.now) result self.new }
        ensures fresh { Fresh self.new now }
        ensures paces { Paces self.old now (events.Came unit.now) result self.new }
        ensures becomes { self.new ≡ router_after self.old now (events.Came unit.now) result }
        ensures heeds { HeedsAsked self.old unit.now result }
    {
        if unit.version < self.version {
            self.fall(now, unit.version)
        } else if unit.session != self.known.session {
            self.other_session(now)
        } else {
            self.begin(unit)
        }
    }

    /// Takes a cache response that begins the answer.
    fn begin(&mut self, unit: &Head) -> Action
        requires asked { self.old.phase ≡ phases.Asked }
        requires kind { unit.now.kind ≡ kinds.CacheResponse }
        requires may { MayAnswer self.old unit.now }
        requires own { self.old.changes ≡ true → unit.now.session ≡ self.old.known.session }
        ensures action { result ≡ actions.Begin }
        ensures becomes { self.new ≡ once_begun self.old unit.now }
        ensures begins { Begins self.old unit.now self.new }
        ensures same { SameDue self.old self.new }
    {
        self.version = unit.version;
        self.agreed = true;
        self.floor = self.floor.max(unit.version);
        self.session = unit.session;
        self.units = 0;
        self.bytes = 0;
        self.phase = Phase::Reading;
        Action::Begin
    }

    /// Takes a cache reset in answer to a serial query: asks for all data (RFC 8210 section 8.3).
    fn reset(&mut self, now: u64, unit: &Head) -> Action
        requires time { now < 2 ^ 63 }
        requires asked { self.old.phase ≡ phases.Asked }
        requires kind { unit.now.kind ≡ kinds.CacheReset }
        requires changes { self.old.changes ≡ true }
        requires version { unit.now.version ≤ self.old.version }
        requires agreed { self.old.agreed ≡ true → unit.now.version ≡ self.old.version }
        requires fresh { Fresh self.old now }
        ensures rule { Rule self.old now (events.Came unit.now) result self.new }
        ensures fresh { Fresh self.new now }
        ensures paces { Paces self.old now (events.Came unit.now) result self.new }
        ensures becomes { self.new ≡ router_after self.old now (events.Came unit.now) result }
        ensures heeds { HeedsAsked self.old unit.now result }
    {
        if unit.version < self.version {
            return self.fall(now, unit.version);
        }
        self.agreed = true;
        self.floor = self.floor.max(unit.version);
        self.resync = true;
        self.ask(now)
    }

    /// Takes a unit in a response.
    #[inline(always)]
    fn read_on(&mut self, now: u64, unit: &Head) -> Action
        requires time { now < 2 ^ 63 }
        requires reading { self.old.phase ≡ phases.Reading }
        requires fresh { Fresh self.old now }
        ensures rule { Rule self.old now (events.Came unit.now) result self.new }
        ensures fresh { Fresh self.new now }
        ensures paces { Paces self.old now (events.Came unit.now) result self.new }
        ensures becomes { self.new ≡ router_after self.old now (events.Came unit.now) result }
        ensures heeds { HeedsReading self.old unit.now result }
    {
        match unit.kind {
            Kind::ErrorReport
                if unit.code == ErrorCode::NO_DATA_AVAILABLE && unit.version == self.version => {
                self.has_none(now)
            }
            Kind::ErrorReport => self.end(now, None, Cause::Reported),
            _ if unit.version != self.version => {
                self.end(
                    now,
                    Some(ErrorCode::UNEXPECTED_PROTOCOL_VERSION),
                    Cause::OtherVersion,
                )
            }
            Kind::Prefix => self.keep(now, unit),
            Kind::RouterKey if self.version >= 1 => self.keep(now, unit),
            Kind::Aspa if self.version >= 2 => self.keep(now, unit),
            Kind::RouterKey | Kind::Aspa => self.end(
                now,
                Some(ErrorCode::UNSUPPORTED_PDU_TYPE),
                Cause::NoSuchPayload,
            ),
            Kind::SerialNotify => self.note(now, unit),
            Kind::EndOfData => self.finish(now, unit),
            Kind::SerialQuery | Kind::ResetQuery | Kind::CacheResponse | Kind::CacheReset => {
                self.end(
                    now,
                    Some(ErrorCode::UNSUPPORTED_PDU_TYPE),
                    Cause::OutOfPlace,
                )
            }
        }
    }

    /// Takes a payload unit of the version in a response.
    #[inline(always)]
    fn keep(&mut self, now: u64, unit: &Head) -> Action
        requires time { now < 2 ^ 63 }
        requires reading { self.old.phase ≡ phases.Reading }
        requires version { unit.now.version ≡ self.old.version }
        requires kind { IsPayloadOf self.old.version unit.now.kind }
        requires fresh { Fresh self.old now }
        ensures rule { Rule self.old now (events.Came unit.now) result self.new }
        ensures fresh { Fresh self.new now }
        ensures paces { Paces self.old now (events.Came unit.now) result self.new }
        ensures becomes { self.new ≡ router_after self.old now (events.Came unit.now) result }
        ensures heeds { HeedsReading self.old unit.now result }
    {
        let size = unit.size as u64;
        if self.units >= self.settings.most_units
            || self.bytes > self.settings.most_bytes
            || self.settings.most_bytes - self.bytes < size
        {
            return self.end(now, None, Cause::TooLong);
        }
        self.units += 1;
        self.bytes += size;
        Action::Keep
    }

    /// Takes a notify of the version inside a response. Keeps its serial number until the response
    /// ends, if it is of the same session.
    fn note(&mut self, now: u64, unit: &Head) -> Action
        requires time { now < 2 ^ 63 }
        requires reading { self.old.phase ≡ phases.Reading }
        requires kind { unit.now.kind ≡ kinds.SerialNotify }
        requires version { unit.now.version ≡ self.old.version }
        requires fresh { Fresh self.old now }
        ensures rule { Rule self.old now (events.Came unit.now) result self.new }
        ensures fresh { Fresh self.new now }
        ensures paces { Paces self.old now (events.Came unit.now) result self.new }
        ensures becomes { self.new ≡ router_after self.old now (events.Came unit.now) result }
        ensures heeds { HeedsReading self.old unit.now result }
    {
        if unit.session != self.session {
            return self.other_session(now);
        }
        self.note_serial(unit)
    }

    /// Keeps the serial number of a notify until the data are there.
    fn note_serial(&mut self, unit: &Head) -> Action
        ensures action { result ≡ actions.Wait }
        ensures notes { self.new ≡ once_noted self.old unit.now }
    {
        self.noted = true;
        self.note = unit.serial;
        Action::Wait
    }

    /// Takes the end of data of a response, of its version.
    fn finish(&mut self, now: u64, unit: &Head) -> Action
        requires time { now < 2 ^ 63 }
        requires reading { self.old.phase ≡ phases.Reading }
        requires kind { unit.now.kind ≡ kinds.EndOfData }
        requires version { unit.now.version ≡ self.old.version }
        requires fresh { Fresh self.old now }
        ensures rule { Rule self.old now (events.Came unit.now) result self.new }
        ensures fresh { Fresh self.new now }
        ensures paces { Paces self.old now (events.Came unit.now) result self.new }
        ensures becomes { self.new ≡ router_after self.old now (events.Came unit.now) result }
        ensures heeds { HeedsReading self.old unit.now result }
    {
        if unit.session != self.session {
            return self.other_session(now);
        }
        if self.changes && is_before(unit.serial, self.known.serial) {
            return self.end(now, Some(ErrorCode::CORRUPT_DATA), Cause::OldSerial);
        }
        if self.changes && unit.serial == self.known.serial && self.units > 0 {
            return self.end(now, Some(ErrorCode::CORRUPT_DATA), Cause::OtherData);
        }
        self.answer = Known {
            version: unit.version,
            session: unit.session,
            serial: unit.serial,
            refresh: unit.refresh,
            retry: unit.retry,
            expire: unit.expire,
        };
        self.came = now;
        self.phase = Phase::Applying;
        Action::Apply(self.changes)
    }

    /// Records that all changes were applied: their result is the data.
    pub(crate) fn applied(&mut self, now: u64) -> Action
        requires time { now < 2 ^ 63 }
        requires fresh { Fresh self.old now }
        requires in_time { self.old.phase ≡ phases.Applying → now < made_until self.old }
        ensures rule { Rule self.old now events.Applied result self.new }
        ensures fresh { Fresh self.new now }
        ensures paces { Paces self.old now events.Applied result self.new }
        ensures becomes { self.new ≡ router_after self.old now events.Applied result }
        ensures heeds { Heeds self.old now events.Applied result self.new }
        ensures idles { IsIdle events.Applied self.old → result ≡ actions.Wait }
    {
        match self.phase {
            Phase::Applying => {
                self.take(now);
                Action::Show
            }
            _ => Action::Wait,
        }
    }

    /// Adopts the data that result from the changes.
    fn take(&mut self, now: u64)
        requires time { now < 2 ^ 63 }
        requires applying { self.old.phase ≡ phases.Applying }
        requires in_time { now < made_until self.old }
        ensures becomes { self.new ≡ once_adopted self.old now }
        ensures shows { Adopts self.old now self.new }
        ensures paces { PacesShow self.old now self.new }
        ensures expires { now < self.new.expires }
    {
        let came = self.came.min(now);
        let more = self.noted && self.note != self.answer.serial;
        self.due = if more {
            now
        } else {
            came + self.settings.refresh(&self.answer)
        };
        self.expires = came + self.settings.expire(&self.answer);
        if self.is_news() {
            self.wait = FIRST_WAIT;
        }
        self.rise_by(now);
        self.known = self.answer;
        self.has_data = true;
        self.resync = false;
        self.answered = true;
        self.floor = self.answer.version;
        self.phase = Phase::Waiting;
    }

    /// Once data come after a silent fall, sets the highest version to be tried again after their
    /// refresh time, if that is earlier and the wait hasn't grown.
    fn rise_by(&mut self, now: u64)
        requires time { now < 2 ^ 63 }
        ensures { self.new ≡ record self.old {
          rise_wait = rise_wait_at_show self.old;
          rises = rises_at_show self.old now;
        } }
    {
        let refresh = self.settings.refresh(&self.answer);
        if !self.silent {
            self.rise_wait = 0;
        } else if self.rise_wait as u64 <= self.settings.refresh(&self.known) {
            self.rise_wait = self.rise_wait.min(refresh as u32);
            self.rises = self.rises.min(self.came.min(now) + refresh);
        }
    }

    /// Reports whether the answer changes the data.
    fn is_news(&self) -> bool
        ensures { result ≡ is_news self.now }
    {
        !self.has_data
            || self.known.session != self.answer.session
            || self.known.serial != self.answer.serial
            || self.known.version != self.answer.version
    }

    /// Takes a unit that wasn't requested: a notify of another serial number than that of the data
    /// leads to a query.
    fn notified(&mut self, now: u64, unit: &Head) -> Action
        requires time { now < 2 ^ 63 }
        requires waiting { self.old.phase ≡ phases.Waiting }
        requires fresh { Fresh self.old now }
        ensures rule { Rule self.old now (events.Came unit.now) result self.new }
        ensures fresh { Fresh self.new now }
        ensures paces { Paces self.old now (events.Came unit.now) result self.new }
        ensures becomes { self.new ≡ router_after self.old now (events.Came unit.now) result }
        ensures heeds { HeedsWaiting self.old now unit.now result self.new }
    {
        match unit.kind {
            Kind::ErrorReport => self.end(now, None, Cause::Reported),
            _ if unit.version != self.version => {
                self.end(
                    now,
                    Some(ErrorCode::UNEXPECTED_PROTOCOL_VERSION),
                    Cause::OtherVersion,
                )
            }
            Kind::SerialNotify if self.has_data && unit.session != self.known.session => {
                self.other_session(now)
            }
            Kind::SerialNotify => {
                if !self.has_data || unit.serial != self.known.serial {
                    self.due = self.due.min(now);
                }
                Action::Wait
            }
            _ => self.end(
                now,
                Some(ErrorCode::UNSUPPORTED_PDU_TYPE),
                Cause::OutOfPlace,
            ),
        }
    }
}

/// Whether a serial number comes before another one (RFC 1982; RFC 8210 section 5.1).
fn is_before(serial: u32, other: u32) -> bool
    ensures { IsTrue result ↔ (serial_cmp serial other ≡ Some Less) }
{
    matches!(
        Serial(serial).partial_cmp(&Serial(other)),
        Some(Ordering::Less)
    )
}
