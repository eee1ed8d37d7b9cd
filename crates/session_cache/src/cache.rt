//! The cache's end of one connection.

ghost use Rattle.std.specs.Prelude.{◌≡◌, ◌≢◌, ◌<◌, ◌≤◌, ◌+◌, ◌^◌, ◌↔◌, ◌⊎◌, IsTrue, true, false};
ghost use Rattle.session_cache.specs.CacheRules.{CacheRule, HasVersion, IsQuery, heard, informed};
ghost use Rattle.session_cache.specs.CacheRules.{sent_back};
ghost use Rattle.session_cache.specs.CacheSteps.{IsCacheStep, cache_wakes_at, has_moved, has_news};
ghost use Rattle.session_cache.specs.Serving.{Serves, ServesTick, ServesUnit};
ghost use Rattle.session_cache.specs.declared.event.CacheEvent.TheVariants as events;

use crate::event::{Answer, CacheEvent, Present, Reason};
use crate::settings::CacheSettings;
use rtr_base::error_code::ErrorCode;
use session_router::head::{Head, Kind};
use session_router::settings::HIGHEST;

/// The cache's end of one connection. It records which data the router has heard of, but not the
/// data.
///
/// Times are in milliseconds of a monotonic clock.
#[derive(Clone, Copy)]
pub struct Cache {
    pub settings: CacheSettings,
    /// Whether the connection is open.
    pub live: bool,
    /// Whether a query came. Its version is that of the connection.
    pub asked: bool,
    pub version: u8,
    /// Whether the router has heard of data, by an answer or a notify.
    pub told: bool,
    /// Whether a cache reset told the router to ask for all data, and it hasn't heard of any since.
    pub reset: bool,
    /// The session and the serial number of the data that it has heard of, or that were the newest
    /// at the cache reset.
    pub session: u16,
    pub serial: u32,
    /// The earliest time of the next notify.
    pub notify_from: u64,
    /// The deadline for the next query, after which the connection ends.
    pub due: u64,
}

impl Cache {
    /// The end of a connection that was made at this time.
    pub fn new(now: u64, settings: CacheSettings) -> Cache
        requires time { now < 2 ^ 63 }
        ensures settings { result.settings ≡ settings }
        ensures live { result.live ≡ true }
        ensures asked { result.asked ≡ false }
        ensures version { result.version ≡ 0 }
        ensures told { result.told ≡ false }
        ensures reset { result.reset ≡ false }
        ensures session { result.session ≡ 0 }
        ensures serial { result.serial ≡ 0 }
        ensures notify_from { result.notify_from ≡ 0 }
        ensures due { result.due ≡ now + settings.first_limit }
    {
        Cache {
            settings,
            live: true,
            asked: false,
            version: 0,
            told: false,
            reset: false,
            session: 0,
            serial: 0,
            notify_from: 0,
            due: now + settings.first_limit as u64,
        }
    }

    /// Takes the next step, at this time, with these as the newest data. Events are ignored after
    /// the deadline for a query, and after the end of the connection.
    pub fn step(&mut self, now: u64, present: Present, event: CacheEvent) -> Answer
        requires time { now < 2 ^ 63 }
        ensures steps { IsCacheStep self.old now present event result self.new }
    {
        if !self.live {
            return Answer::Wait;
        }
        if now >= self.due {
            return self.close(None, Reason::Slow);
        }
        match event {
            CacheEvent::Tick => self.tick(now, &present),
            CacheEvent::Full => self.report(HIGHEST, ErrorCode::INTERNAL_ERROR, Reason::Full),
            CacheEvent::Came(unit, kept) => self.came(now, &present, &unit, kept),
            CacheEvent::Faulty(fault) => self.faulty(&fault),
            CacheEvent::Lost => self.close(None, Reason::Lost),
        }
    }

    /// When to call `step` with `Tick`, given the newest data, if nothing comes before.
    pub fn wakes(&self, present: Present) -> u64
        ensures { result ≡ cache_wakes_at self.now present }
    {
        if !self.live {
            u64::MAX
        } else if self.has_moved(&present) {
            0
        } else if self.has_news(&present) {
            self.due.min(self.notify_from)
        } else {
            self.due
        }
    }

    /// Whether the router has heard of data of another session.
    fn has_moved(&self, present: &Present) -> bool
        ensures { result ≡ has_moved self.now present.now }
    {
        present.has && self.told && self.session != present.session
    }

    /// Reports whether to notify a router that has sent a query: it wasn't sent the newest data or
    /// a notify of them, nor a cache reset. Data of another session are notified once.
    fn has_news(&self, present: &Present) -> bool
        ensures { result ≡ has_news self.now present.now }
    {
        let advised = self.told || self.reset;
        let same = self.session != present.session || self.serial == present.serial;
        self.asked && present.has && !(advised && same)
    }

    fn tick(&mut self, now: u64, present: &Present) -> Answer
        requires time { now < 2 ^ 63 }
        requires live { self.old.live ≡ true }
        requires in_time { now < self.old.due }
        ensures rule { CacheRule self.old now present.now events.Tick result self.new }
        ensures serves { ServesTick self.old now present.now result }
    {
        if self.has_moved(present) {
            return self.close(None, Reason::NewSession);
        }
        if now < self.notify_from || !self.has_news(present) {
            return Answer::Wait;
        }
        self.tell(present);
        self.notify_from = now + self.settings.pause as u64;
        Answer::Notify
    }

    /// Records that the router was notified of the present data.
    fn tell(&mut self, present: &Present)
        ensures { self.new ≡ informed self.old present.now }
    {
        self.told = true;
        self.reset = false;
        self.session = present.session;
        self.serial = present.serial;
    }

    /// Records that the router was sent a cache reset.
    fn send_back(&mut self, present: &Present)
        ensures { self.new ≡ sent_back self.old present.now }
    {
        self.reset = true;
        self.session = present.session;
        self.serial = present.serial;
    }

    /// Takes a query. The first one sets the version of the connection (RFC 8210 section 7).
    fn hear(&mut self, now: u64, version: u8)
        requires time { now < 2 ^ 63 }
        ensures { self.new ≡ heard self.old now version }
    {
        self.asked = true;
        self.version = version;
        self.due = now + self.settings.idle_limit as u64;
    }

    fn came(&mut self, now: u64, present: &Present, unit: &Head, kept: bool) -> Answer
        requires time { now < 2 ^ 63 }
        requires live { self.old.live ≡ true }
        requires in_time { now < self.old.due }
        ensures rule { CacheRule self.old now present.now (events.Came unit.now kept) result
            self.new }
        ensures serves { ServesUnit self.old present.now unit.now kept result }
    {
        match unit.kind {
            Kind::ErrorReport => self.close(None, Reason::Reported),
            _ if self.asked && unit.version != self.version => {
                self.report(
                    unit.version,
                    ErrorCode::UNEXPECTED_PROTOCOL_VERSION,
                    Reason::OtherVersion,
                )
            }
            _ if unit.version > HIGHEST => {
                self.report(
                    unit.version,
                    ErrorCode::UNSUPPORTED_PROTOCOL_VERSION,
                    Reason::NoVersion,
                )
            }
            Kind::ResetQuery | Kind::SerialQuery => self.queried(now, present, unit, kept),
            _ => self.report(unit.version, ErrorCode::INVALID_REQUEST, Reason::NoQuery),
        }
    }

    /// Takes a query of the version of the connection.
    fn queried(&mut self, now: u64, present: &Present, unit: &Head, kept: bool) -> Answer
        requires time { now < 2 ^ 63 }
        requires live { self.old.live ≡ true }
        requires in_time { now < self.old.due }
        requires kind { IsQuery unit.now.kind }
        requires version { HasVersion self.old unit.now }
        ensures rule { CacheRule self.old now present.now (events.Came unit.now kept) result
            self.new }
        ensures serves { ServesUnit self.old present.now unit.now kept result }
    {
        if !present.has {
            self.hear(now, unit.version);
            return Answer::NoData;
        }
        if self.has_moved(present) {
            return self.close(None, Reason::NewSession);
        }
        let known = unit.session == present.session && (kept || unit.serial == present.serial);
        let answer = match unit.kind {
            Kind::ResetQuery => Answer::All,
            _ if known => Answer::Changes(unit.serial),
            _ if self.settings.refuses => {
                return self.report(unit.version, ErrorCode::CORRUPT_DATA, Reason::Unknown);
            }
            _ => {
                self.hear(now, unit.version);
                self.send_back(present);
                return Answer::Reset;
            }
        };
        self.hear(now, unit.version);
        self.tell(present);
        answer
    }
}
