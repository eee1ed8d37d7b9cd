//! The router's end of a session.

ghost use Rattle.std.specs.Prelude.{◌≡◌, ◌≢◌, ◌≤◌, ◌<◌, ◌+◌, ◌^◌, true, false, min, if◌then◌else◌};
ghost use Rattle.session_router.specs.Heeding.{Heeds, IsIdle};
ghost use Rattle.session_router.specs.After.{has_data_at, new_router, once_asked, once_connected};
ghost use Rattle.session_router.specs.After.{router_after};
ghost use Rattle.session_router.specs.Pace.{IsLimited, Paces, SamePace, due_in, soonest, wakes_at};
ghost use Rattle.session_router.specs.Rules.{AsksAll, AsksOwn, Fresh, Rule, SameKnown, query};
ghost use Rattle.session_router.specs.Step.{IsStep, made_until};
ghost use Rattle.session_router.specs.declared.event.Action.TheVariants as actions;
ghost use Rattle.session_router.specs.declared.event.Event.TheVariants as events;
ghost use Rattle.session_router.specs.declared.router.Phase.TheVariants as phases;

use crate::event::{Action, Cause, Event};
use crate::head::{Head, Known, Query};
use crate::settings::{HIGHEST, Settings};

/// What a router is doing.
#[derive(Clone, Copy)]
pub enum Phase {
    /// It has no connection, until `due`.
    Offline,
    /// Its caller opens a connection.
    Connecting,
    /// It awaits the first unit of an answer.
    Asked,
    /// It reads a response.
    Reading,
    /// A response is complete, and its changes are being applied.
    Applying,
    /// It waits for a notify, or until `due`.
    Waiting,
}

/// A router's end of the protocol. It holds the state of the session, but not the data.
///
/// Times are in milliseconds of a monotonic clock.
#[derive(Clone, Copy)]
pub struct Router {
    pub settings: Settings,
    pub phase: Phase,
    /// The version of its queries, or the version that was agreed on.
    pub version: u8,
    /// Whether the cache answered on this connection.
    pub agreed: bool,
    /// Whether the next connection begins in `version`, to which it fell.
    pub fell: bool,
    /// Whether it fell to `version` at a close without an error report.
    pub silent: bool,
    /// How long after such a fall the highest version is tried again, in milliseconds, or 0; and at
    /// what time.
    pub rise_wait: u32,
    pub rises: u64,
    /// The version in which the cache answered, or 0: the router doesn't fall below it at a silent
    /// close.
    pub floor: u8,
    /// Whether the last query was a serial query.
    pub changes: bool,
    /// Whether the next query must be a reset query.
    pub resync: bool,
    /// Whether the connection, or the last one if there is none, brought data.
    pub answered: bool,
    /// The next growing wait, in milliseconds.
    pub wait: u32,
    /// The session of the response that it reads.
    pub session: u16,
    /// The payload units of the response so far, and their bytes.
    pub units: u32,
    pub bytes: u64,
    /// Whether a notify came after the query was sent, and its serial number.
    pub noted: bool,
    pub note: u32,
    /// The identity of the data that the response makes.
    pub answer: Known,
    pub has_data: bool,
    /// The identity of the data or, after they were dropped, of the last ones.
    pub known: Known,
    /// When the end of data of `answer` came.
    pub came: u64,
    /// When the data are dropped.
    pub expires: u64,
    /// When the last query was sent.
    pub asked: u64,
    /// When the last connection was begun.
    pub tried: u64,
    /// When it connects, gives up, or sends a query.
    pub due: u64,
}

impl Router {
    /// A router without data, which connects at its first `Tick`.
    pub fn new(settings: Settings) -> Router
        ensures { result ≡ new_router settings }
    {
        let none = Known {
            version: 0,
            session: 0,
            serial: 0,
            refresh: 0,
            retry: 0,
            expire: 0,
        };
        Router {
            settings: Settings {
                highest: settings.highest.min(HIGHEST),
                ..settings
            },
            phase: Phase::Offline,
            version: 0,
            agreed: false,
            fell: false,
            silent: false,
            rise_wait: 0,
            rises: 0,
            floor: 0,
            changes: false,
            resync: false,
            answered: false,
            wait: FIRST_WAIT,
            session: 0,
            units: 0,
            bytes: 0,
            noted: false,
            note: 0,
            answer: none,
            has_data: false,
            known: none,
            came: 0,
            expires: 0,
            asked: 0,
            tried: 0,
            due: 0,
        }
    }

    /// A router without data that continues with a cache that was asked before: its waits keep
    /// growing.
    pub fn again(&self) -> Router
        ensures { result ≡ record (new_router self.now.settings) { wait = self.now.wait } }
    {
        Router {
            wait: self.wait,
            ..Router::new(self.settings)
        }
    }

    /// Takes the next step, at this time. An event is ignored if the data have expired, or the
    /// deadline of what is under way has passed.
    pub fn step(&mut self, now: u64, event: Event) -> Action
        requires time { now < 2 ^ 63 }
        ensures steps { IsStep self.old now event result self.new }
    {
        if self.has_data && now >= self.expires {
            return self.expire(now);
        }
        if self.is_late(now) {
            return self.give_up(now);
        }
        if self.is_stale(now) {
            return self.end(now, None, Cause::Expired);
        }
        match event {
            Event::Tick => self.tick(now),
            Event::Asked => self.wished(now),
            Event::Connected => self.connected(now),
            Event::Lost => self.lost(now),
            Event::Came(unit) => self.came(now, &unit),
            Event::Faulty(fault) => self.faulty(now, &fault),
            Event::Applied => self.applied(now),
            Event::NotApplied(code) => self.not_applied(now, code),
        }
    }

    /// The step at a unit: does what `step` does, but is inlined, so that a payload unit of a
    /// response costs no call.
    #[inline(always)]
    pub fn hear(&mut self, now: u64, unit: &Head) -> Action
        requires time { now < 2 ^ 63 }
        ensures steps { IsStep self.old now (events.Came unit.now) result self.new }
    {
        if (self.has_data && now >= self.expires) || self.is_late(now) || self.is_stale(now) {
            return self.step(now, Event::Came(*unit));
        }
        self.came(now, unit)
    }

    /// When to call `step` with `Tick`, if nothing comes before.
    pub fn wakes(&self) -> u64
        ensures { result ≡ wakes_at self.now }
    {
        let due = match self.phase {
            Phase::Waiting => self
                .due
                .max(self.asked.saturating_add(self.settings.pause as u64)),
            _ => self.due,
        };
        if self.has_data {
            due.min(self.expires)
        } else {
            due
        }
    }

    /// Whether there are data at this time: until they expire, even if no step has dropped expired
    /// ones yet.
    pub fn has_data_at(&self, now: u64) -> bool
        ensures { result ≡ has_data_at self.now now }
    {
        self.has_data && now < self.expires
    }

    /// Whether the answer whose changes are being applied has expired.
    fn is_stale(&self, now: u64) -> bool
        ensures stale { result ≡ true → self.now.phase ≡ phases.Applying }
        ensures over { result ≡ true → made_until self.now ≤ now }
        ensures in_time { result ≡ false → self.now.phase ≡ phases.Applying
            → now < made_until self.now }
    {
        match self.phase {
            Phase::Applying => {
                now.saturating_sub(self.came) >= self.settings.expire(&self.answer)
            }
            _ => false,
        }
    }

    /// Handles the caller's request for the present data.
    fn wished(&mut self, now: u64) -> Action
        requires time { now < 2 ^ 63 }
        requires fresh { Fresh self.old now }
        ensures action { result ≡ actions.Wait }
        ensures rule { Rule self.old now events.Asked result self.new }
        ensures fresh { Fresh self.new now }
        ensures paces { Paces self.old now events.Asked result self.new }
        ensures becomes { self.new ≡ router_after self.old now events.Asked result }
    {
        match self.phase {
            Phase::Waiting => self.due = self.due.min(now),
            Phase::Offline => self.due = self.due.min(self.soonest(now)),
            _ => {}
        }
        Action::Wait
    }

    /// Now, or a pause after the last query or connection, whichever is later.
    fn soonest(&self, now: u64) -> u64
        requires time { now < 2 ^ 63 }
        ensures { result ≡ soonest self.now now }
    {
        let pause = self.settings.pause as u64;
        if now.saturating_sub(self.asked.max(self.tried)) >= pause {
            now
        } else {
            now + pause
        }
    }

    /// Reports whether the deadline of what is under way has passed.
    fn is_late(&self, now: u64) -> bool
        ensures late { result ≡ true → IsLimited self.now.phase }
        ensures due { result ≡ true → self.now.due ≤ now }
        ensures in_time { result ≡ false → IsLimited self.now.phase → now < self.now.due }
    {
        match self.phase {
            Phase::Connecting | Phase::Asked | Phase::Reading => now >= self.due,
            _ => false,
        }
    }

    fn tick(&mut self, now: u64) -> Action
        requires time { now < 2 ^ 63 }
        requires fresh { Fresh self.old now }
        requires in_time { IsLimited self.old.phase → now < self.old.due }
        ensures rule { Rule self.old now events.Tick result self.new }
        ensures fresh { Fresh self.new now }
        ensures paces { Paces self.old now events.Tick result self.new }
        ensures becomes { self.new ≡ router_after self.old now events.Tick result }
        ensures heeds { Heeds self.old now events.Tick result self.new }
        ensures idles { IsIdle events.Tick self.old → result ≡ actions.Wait }
        ensures acts { due_in self.old.phase self.old ≤ now → self.old.phase ≢ phases.Applying
            → result ≢ actions.Wait }
    {
        match self.phase {
            Phase::Offline if now >= self.due => self.connect(now),
            Phase::Waiting
                if now >= self.due
                    && now.saturating_sub(self.asked) >= self.settings.pause as u64 => {
                if self.silent && now >= self.rises {
                    self.rise(now)
                } else {
                    self.ask(now)
                }
            }
            _ => Action::Wait,
        }
    }

    /// Requests a connection, in the version that it fell to, or the highest (RFC 8210 section 7).
    fn connect(&mut self, now: u64) -> Action
        requires time { now < 2 ^ 63 }
        requires offline { self.old.phase ≡ phases.Offline }
        requires due { self.old.due ≤ now }
        requires fresh { Fresh self.old now }
        ensures action { result ≡ actions.Connect }
        ensures rule { Rule self.old now events.Tick result self.new }
        ensures fresh { Fresh self.new now }
        ensures paces { Paces self.old now events.Tick result self.new }
        ensures becomes { self.new ≡ once_connected self.old now }
    {
        if !self.fell {
            self.version = self.settings.highest;
            self.silent = false;
        }
        self.fell = false;
        self.agreed = false;
        self.phase = Phase::Connecting;
        self.tried = now;
        self.due = now + self.settings.connect_limit as u64;
        Action::Connect
    }

    fn connected(&mut self, now: u64) -> Action
        requires time { now < 2 ^ 63 }
        requires fresh { Fresh self.old now }
        ensures rule { Rule self.old now events.Connected result self.new }
        ensures fresh { Fresh self.new now }
        ensures paces { Paces self.old now events.Connected result self.new }
        ensures becomes { self.new ≡ router_after self.old now events.Connected result }
        ensures heeds { Heeds self.old now events.Connected result self.new }
        ensures idles { IsIdle events.Connected self.old → result ≡ actions.Wait }
    {
        match self.phase {
            Phase::Connecting => {
                self.answered = false;
                self.ask(now)
            }
            _ => Action::Wait,
        }
    }

    /// Sends a serial query if there are data of the version of the session, or else a reset query
    /// (RFC 8210 sections 8.1 and 8.2). The whole response limit applies to the answer.
    pub(crate) fn ask(&mut self, now: u64) -> Action
        requires time { now < 2 ^ 63 }
        ensures action { result ≡ actions.Ask (query self.new) }
        ensures becomes { self.new ≡ once_asked self.old now }
        ensures same { SameKnown self.old self.new }
        ensures phase { self.new.phase ≡ phases.Asked }
        ensures own { self.new.changes ≡ true → AsksOwn self.new }
        ensures all { self.new.changes ≡ false → AsksAll self.new }
        ensures resync { self.new.resync ≡ self.old.resync }
        ensures reset { self.old.resync ≡ true → self.new.changes ≡ false }
        ensures version { self.new.version ≡ self.old.version }
        ensures agreed { self.new.agreed ≡ self.old.agreed }
        ensures floor { self.new.floor ≡ self.old.floor }
        ensures settings { self.new.settings ≡ self.old.settings }
        ensures asked { self.new.asked ≡ now }
        ensures fell { self.new.fell ≡ self.old.fell }
        ensures wait { self.new.wait ≡ self.old.wait }
        ensures answered { self.new.answered ≡ self.old.answered }
        ensures noted { self.new.noted ≡ false }
        ensures due { self.new.due ≡ now + self.old.settings.response_limit }
    {
        self.phase = Phase::Asked;
        self.asked = now;
        self.noted = false;
        self.due = now + self.settings.response_limit as u64;
        self.changes = self.has_data && !self.resync && self.known.version == self.version;
        if self.changes {
            Action::Ask(Query {
                changes: true,
                version: self.version,
                session: self.known.session,
                serial: self.known.serial,
            })
        } else {
            Action::Ask(Query {
                changes: false,
                version: self.version,
                session: 0,
                serial: 0,
            })
        }
    }
}

/// The first growing wait, in milliseconds.
pub(crate) const FIRST_WAIT: u32 = 1000;
