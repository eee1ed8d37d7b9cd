//! How connections end, and what the router does next.

ghost use Rattle.std.specs.Prelude.{◌≡◌, ◌≢◌, ◌≤◌, ◌<◌, ◌+◌, ◌*◌, ◌-◌, ◌^◌, ◌⊎◌, true, false, None};
ghost use Rattle.std.specs.Prelude.{Some, min, max, if◌then◌else◌, ℕ};
ghost use Rattle.session_router.specs.Heeding.{Heeds, HeedsExpiry, IsIdle, ends_with};
ghost use Rattle.session_router.specs.After.{forgets, once_failed, once_fallen_by_word};
ghost use Rattle.session_router.specs.After.{once_fallen_silently, once_rested, once_risen};
ghost use Rattle.session_router.specs.After.{router_after};
ghost use Rattle.session_router.specs.Pace.{Paces, PacesFailure, PacesFall, PacesGivingUp, grows};
ghost use Rattle.session_router.specs.Pace.{grows_slow, longest_rest, next_rise, next_wait, rest};
ghost use Rattle.session_router.specs.Rules.{Drops, Fails, Fresh, GivesUp, HasLost, Rule};
ghost use Rattle.session_router.specs.Rules.{SameKnown};
ghost use Rattle.session_router.specs.Rules.{awaits_changes, is_answering};
ghost use Rattle.session_router.specs.Times.{shortened};
ghost use Rattle.session_router.specs.declared.event.Action.TheVariants as actions;
ghost use Rattle.session_router.specs.declared.event.Cause.TheVariants as causes;
ghost use Rattle.session_router.specs.declared.event.Event.{Event};
ghost use Rattle.session_router.specs.declared.event.Event.TheVariants as events;
ghost use Rattle.session_router.specs.declared.router.Phase.TheVariants as phases;

use crate::event::{Action, Cause, Ending};
use crate::head::Fault;
use crate::router::{FIRST_WAIT, Phase, Router};
use rtr_base::error_code::ErrorCode;

/// The longest time until the highest version is tried again: a day, in milliseconds.
const LONGEST_RISE: u32 = 86_400_000;

impl Router {
    /// Ends the connection because of a failure.
    pub(crate) fn end(&mut self, now: u64, report: Option<ErrorCode>, cause: Cause) -> Action
        requires time { now < 2 ^ 63 }
        ensures action { result ≡ ends_with false report cause }
        ensures becomes { self.new ≡ once_failed false self.old now }
        ensures same { SameKnown self.old self.new }
        ensures phase { self.new.phase ≡ phases.Offline }
        ensures fails { Fails self.old self.new }
        ensures paces { PacesFailure self.old now false self.new }
    {
        let rest = if self.awaits_changes() {
            self.resync = true;
            self.settings.pause as u64
        } else {
            let grows = self.grows();
            self.rest(grows)
        };
        self.phase = Phase::Offline;
        self.due = now + rest;
        Action::End(Ending {
            drop: false,
            report,
            cause,
        })
    }

    /// Ends the connection because the deadline of what was under way has passed.
    pub(crate) fn give_up(&mut self, now: u64) -> Action
        requires time { now < 2 ^ 63 }
        ensures action { result ≡ ends_with false None causes.Slow }
        ensures becomes { self.new ≡ once_rested (grows_slow self.old) self.old now }
        ensures same { SameKnown self.old self.new }
        ensures phase { self.new.phase ≡ phases.Offline }
        ensures gives_up { GivesUp self.old self.new }
        ensures paces { PacesGivingUp self.old now self.new }
    {
        let grows = self.is_answering() || self.grows();
        let rest = self.rest(grows);
        self.phase = Phase::Offline;
        self.due = now + rest;
        Action::End(Ending {
            drop: false,
            report: None,
            cause: Cause::Slow,
        })
    }

    /// Drops the data, and ends the connection.
    fn drop_all(&mut self, now: u64, report: Option<ErrorCode>, cause: Cause) -> Action
        requires time { now < 2 ^ 63 }
        ensures action { result ≡ ends_with true report cause }
        ensures becomes { self.new ≡ once_failed true self.old now }
        ensures lost { HasLost self.old self.new }
        ensures phase { self.new.phase ≡ phases.Offline }
        ensures fails { Fails self.old self.new }
        ensures paces { PacesFailure self.old now true self.new }
    {
        self.has_data = false;
        self.resync = true;
        self.floor = 0;
        self.wait = FIRST_WAIT;
        self.phase = Phase::Offline;
        self.due = now + self.settings.pause as u64;
        Action::End(Ending {
            drop: true,
            report,
            cause,
        })
    }

    /// Handles that the cache has begun another session (RFC 8210 section 5.1).
    pub(crate) fn other_session(&mut self, now: u64) -> Action
        requires time { now < 2 ^ 63 }
        ensures action { result ≡
            ends_with self.old.has_data (Some (record { 0 = 0 })) causes.OtherSession }
        ensures becomes { self.new ≡ once_failed self.old.has_data self.old now }
        ensures data_then { Drops self.old.has_data self.old self.new }
        ensures fresh { Fresh self.old now → Fresh self.new now }
        ensures phase { self.new.phase ≡ phases.Offline }
        ensures fails { Fails self.old self.new }
        ensures paces { PacesFailure self.old now self.old.has_data self.new }
    {
        if self.has_data {
            self.drop_all(now, Some(ErrorCode::CORRUPT_DATA), Cause::OtherSession)
        } else {
            self.end(now, Some(ErrorCode::CORRUPT_DATA), Cause::OtherSession)
        }
    }

    /// Handles that the data have expired (RFC 8210 section 6).
    pub(crate) fn expire(&mut self, now: u64) -> Action
        requires time { now < 2 ^ 63 }
        ensures rule { (e : Event) → Rule self.old now e result self.new }
        ensures has_data { self.new.has_data ≡ false }
        ensures heeds { HeedsExpiry self.old result }
        ensures paces { (e : Event) → Paces self.old now e result self.new }
        ensures becomes { (e : Event) → self.new ≡ router_after self.old now e result }
        ensures acts { result ≢ actions.Wait }
    {
        match self.phase {
            Phase::Offline => {
                self.has_data = false;
                self.floor = 0;
                self.wait = FIRST_WAIT;
                self.due = self.due.min(now + self.settings.pause as u64);
                Action::Drop
            }
            _ => self.drop_all(now, None, Cause::Expired),
        }
    }

    /// Ends the connection, and reconnects at once in a lower version (RFC 8210 section 7).
    pub(crate) fn fall(&mut self, now: u64, version: u8) -> Action
        requires time { now < 2 ^ 63 }
        ensures action { result ≡ ends_with false None causes.Lower }
        ensures becomes { self.new ≡ once_fallen_by_word self.old now version }
        ensures same { SameKnown self.old self.new }
        ensures phase { self.new.phase ≡ phases.Offline }
        ensures version { self.new.version ≡ version }
        ensures floor { self.new.floor ≡ self.old.floor }
        ensures resync { self.new.resync ≡ self.old.resync }
        ensures paces { PacesFall self.old now self.new }
    {
        self.version = version;
        self.fell = true;
        self.silent = false;
        self.phase = Phase::Offline;
        self.due = now;
        Action::End(Ending {
            drop: false,
            report: None,
            cause: Cause::Lower,
        })
    }

    /// Falls to the next lower version when the cache closes without an error report. The highest
    /// one is tried again after the refresh time, and later each time that it ends so.
    fn fall_silently(&mut self, now: u64) -> Action
        requires time { now < 2 ^ 63 }
        requires version { 1 ≤ self.old.version }
        ensures action { result ≡ ends_with false None causes.Lower }
        ensures becomes { self.new ≡ once_fallen_silently self.old now }
        ensures same { SameKnown self.old self.new }
        ensures phase { self.new.phase ≡ phases.Offline }
        ensures version { self.new.version + 1 ≡ self.old.version }
        ensures floor { self.new.floor ≡ self.old.floor }
        ensures resync { self.new.resync ≡ self.old.resync }
        ensures paces { PacesFall self.old now self.new }
    {
        if !self.silent {
            self.rise_wait = self.next_rise();
            self.rises = now + self.rise_wait as u64;
        }
        self.version -= 1;
        self.fell = true;
        self.silent = true;
        self.phase = Phase::Offline;
        self.due = now;
        Action::End(Ending {
            drop: false,
            report: None,
            cause: Cause::Lower,
        })
    }

    /// How long until the highest version is tried again: the refresh time, doubled each time, up
    /// to a day.
    fn next_rise(&self) -> u32
        ensures { result ≡ next_rise self.now }
    {
        let refresh = self.settings.refresh(&self.known) as u32;
        refresh.max(self.rise_wait.saturating_mul(2).min(LONGEST_RISE))
    }

    /// Ends the connection, and reconnects at once in the highest version. The data stay.
    pub(crate) fn rise(&mut self, now: u64) -> Action
        ensures action { result ≡ ends_with false None causes.Higher }
        ensures becomes { self.new ≡ once_risen self.old now }
    {
        self.phase = Phase::Offline;
        self.due = now;
        Action::End(Ending {
            drop: false,
            report: None,
            cause: Cause::Higher,
        })
    }

    /// Handles a connection that couldn't be made, or is gone. If no version was agreed on yet, the
    /// next connection may be in a lower version, but not in one below that in which the cache
    /// answered before.
    pub(crate) fn lost(&mut self, now: u64) -> Action
        requires time { now < 2 ^ 63 }
        requires fresh { Fresh self.old now }
        ensures rule { Rule self.old now events.Lost result self.new }
        ensures fresh { Fresh self.new now }
        ensures paces { Paces self.old now events.Lost result self.new }
        ensures becomes { self.new ≡ router_after self.old now events.Lost result }
        ensures heeds { Heeds self.old now events.Lost result self.new }
        ensures idles { IsIdle events.Lost self.old → result ≡ actions.Wait }
    {
        match self.phase {
            Phase::Offline => Action::Wait,
            Phase::Asked if !self.agreed && self.version > self.floor => self.fall_silently(now),
            _ => self.end(now, None, Cause::Lost),
        }
    }

    /// Takes a refused unit. Its version is checked first (RFC 8210 section 7), and no report is
    /// sent about an error report.
    pub(crate) fn faulty(&mut self, now: u64, fault: &Fault) -> Action
        requires time { now < 2 ^ 63 }
        requires fresh { Fresh self.old now }
        ensures rule { Rule self.old now (events.Faulty fault.now) result self.new }
        ensures fresh { Fresh self.new now }
        ensures paces { Paces self.old now (events.Faulty fault.now) result self.new }
        ensures becomes { self.new ≡ router_after self.old now (events.Faulty fault.now) result }
        ensures heeds { Heeds self.old now (events.Faulty fault.now) result self.new }
        ensures idles { IsIdle (events.Faulty fault.now) self.old → result ≡ actions.Wait }
    {
        match self.phase {
            Phase::Offline | Phase::Connecting => Action::Wait,
            _ if fault.code.is_none() => self.end(now, None, Cause::Faulty),
            Phase::Asked if !self.agreed && fault.version > self.version => {
                self.end(
                    now,
                    Some(ErrorCode::UNSUPPORTED_PROTOCOL_VERSION),
                    Cause::HigherVersion,
                )
            }
            Phase::Asked if !self.agreed => self.end(now, fault.code, Cause::Faulty),
            _ if fault.version != self.version => {
                self.end(
                    now,
                    Some(ErrorCode::UNEXPECTED_PROTOCOL_VERSION),
                    Cause::OtherVersion,
                )
            }
            _ => self.end(now, fault.code, Cause::Faulty),
        }
    }

    /// Handles that the changes of a response couldn't be kept or applied.
    pub(crate) fn not_applied(&mut self, now: u64, code: Option<ErrorCode>) -> Action
        requires time { now < 2 ^ 63 }
        requires fresh { Fresh self.old now }
        ensures rule { Rule self.old now (events.NotApplied code) result self.new }
        ensures fresh { Fresh self.new now }
        ensures paces { Paces self.old now (events.NotApplied code) result self.new }
        ensures becomes { self.new ≡ router_after self.old now (events.NotApplied code) result }
        ensures heeds { Heeds self.old now (events.NotApplied code) result self.new }
        ensures idles { IsIdle (events.NotApplied code) self.old → result ≡ actions.Wait }
    {
        match self.phase {
            Phase::Reading | Phase::Applying => self.end(now, code, Cause::NotApplied),
            _ => Action::Wait,
        }
    }

    /// Whether the answer to a serial query is awaited.
    fn awaits_changes(&self) -> bool
        ensures { result ≡ awaits_changes self.now }
    {
        self.is_answering() && self.changes
    }

    /// Whether an answer is awaited, read or applied.
    fn is_answering(&self) -> bool
        ensures { result ≡ is_answering self.now.phase }
    {
        matches!(self.phase, Phase::Asked | Phase::Reading | Phase::Applying)
    }

    /// Whether waits grow: without data, or after a cache that was alive a moment ago.
    fn grows(&self) -> bool
        ensures { result ≡ grows self.now }
    {
        !self.has_data || self.answered || self.agreed
    }

    /// How long to wait after a failure that isn't that of a serial query: if waits grow, longer
    /// each time, up to the retry time; otherwise the retry time. If a cache was silent for that
    /// long and the router has no data, the cache may have a lower version, whatever it answered
    /// before.
    fn rest(&mut self, grows: bool) -> u64
        ensures value { result ≡ rest grows self.old }
        ensures most { result < 2 ^ 32 }
        ensures same { self.new ≡ record self.old {
          wait = next_wait grows self.old;
          floor = if forgets self.old then 0 else self.old.floor;
        } }
    {
        let retry = self.settings.retry(&self.known);
        if !self.has_data && retry <= self.wait as u64 {
            self.floor = 0;
        }
        let wait = if grows {
            self.grown(self.longest_rest())
        } else {
            retry
        };
        wait.max(self.settings.pause as u64)
    }

    /// The limit of growing waits: the retry time, or the refresh time if nothing was asked.
    fn longest_rest(&self) -> u64
        ensures value { result ≡ longest_rest self.now }
        ensures most { result < 2 ^ 32 }
    {
        let retry = self.settings.retry(&self.known);
        match self.phase {
            Phase::Waiting if self.has_data => retry.max(self.settings.refresh(&self.known)),
            _ => retry,
        }
    }

    /// The next growing wait.
    fn grown(&mut self, most: u64) -> u64
        requires { most < 2 ^ 32 }
        ensures value { result ≡ shortened self.old.settings.chance (min most self.old.wait) }
        ensures most { result < 2 ^ 32 }
        ensures same { self.new ≡ record self.old { wait = next_wait true self.old } }
    {
        let wait = most.min(self.wait as u64);
        self.wait = self.wait.saturating_mul(2);
        wait - wait * (self.settings.chance as u64) / 131_072
    }
}
