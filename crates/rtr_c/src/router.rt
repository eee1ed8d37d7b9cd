//! A router's machine, in numbers.

ghost use Rattle.std.specs.Prelude.{◌≡◌};
ghost use Rattle.rtr_c.specs.Routers.{shown_known, phase_number, phase_of, router_of, settings_of};

use session_router::head::Known;
use session_router::router::{Phase, Router};
use session_router::settings::Settings;

/// The settings of a router: as `session_router::settings::Settings`.
#[repr(C)]
#[derive(Clone, Copy)]
pub struct RtrSettings {
    /// The most bytes of an answer's payload units; default 128 MiB.
    pub most_bytes: u64,
    /// The least time between two queries or connections; default 1 s.
    pub pause: u32,
    /// The time limit for connecting; default 30 seconds.
    pub connect_limit: u32,
    /// The time limit from a query to its end of data; default 2 minutes.
    pub response_limit: u32,
    /// The refresh time, used instead of the cache's (RFC 8210 section 6) if it isn't 0.
    pub refresh: u32,
    /// The retry time, likewise.
    pub retry: u32,
    /// The expire time, likewise.
    pub expire: u32,
    /// The most payload units of an answer; default 4 million.
    pub most_units: u32,
    /// A random number: growing waits are shortened by chance / 131072.
    pub chance: u16,
    /// The version in which a connection begins: 0, 1 or 2.
    pub highest: u8,
}

// The fields stand one after the other, and one byte is left at the end.
const _: () = prove!(size_of::<RtrSettings>() == 40);

/// The identity of data, and their times in seconds: as `session_router::head::Known`.
#[repr(C)]
#[derive(Clone, Copy)]
pub struct RtrKnown {
    /// The serial number of the data.
    pub serial: u32,
    /// The refresh time of the data, in seconds.
    pub refresh: u32,
    /// The retry time of the data, in seconds.
    pub retry: u32,
    /// The expire time of the data, in seconds.
    pub expire: u32,
    /// The session of the data.
    pub session: u16,
    /// The protocol version of the data.
    pub version: u8,
}

// The fields stand one after the other, and one byte is left at the end.
const _: () = prove!(size_of::<RtrKnown>() == 20);

/// A router's end of a session: as `session_router::router::Router`, with a number for the phase.
#[repr(C)]
#[derive(Clone, Copy)]
pub struct RtrRouter {
    pub settings: RtrSettings,
    pub expires: u64,
    pub came: u64,
    pub asked: u64,
    pub tried: u64,
    pub due: u64,
    pub rises: u64,
    pub bytes: u64,
    /// The session, serial number and times of the data, if `has_data`.
    pub known: RtrKnown,
    pub answer: RtrKnown,
    pub wait: u32,
    pub rise_wait: u32,
    /// The number of payload units of the response so far.
    pub units: u32,
    pub note: u32,
    pub session: u16,
    /// The state of the router, an rtr_phase; any other number stands for RTR_PHASE_OFFLINE.
    pub phase: u8,
    pub version: u8,
    pub floor: u8,
    pub agreed: bool,
    pub fell: bool,
    pub silent: bool,
    pub changes: bool,
    pub resync: bool,
    pub answered: bool,
    pub noted: bool,
    pub has_data: bool,
}

// The fields stand one after the other, and three bytes are left at the end.
const _: () = prove!(size_of::<RtrRouter>() == 168);

/// The settings of the struct.
pub(crate) fn settings_from(settings: &RtrSettings) -> Settings
    ensures { result ≡ settings_of settings.now }
{
    Settings {
        highest: settings.highest,
        pause: settings.pause,
        connect_limit: settings.connect_limit,
        response_limit: settings.response_limit,
        refresh: settings.refresh,
        retry: settings.retry,
        expire: settings.expire,
        most_units: settings.most_units,
        most_bytes: settings.most_bytes,
        chance: settings.chance,
    }
}

/// The struct for settings.
pub(crate) fn settings_to(settings: &Settings) -> RtrSettings
    ensures { settings_of result ≡ settings.now }
{
    RtrSettings {
        most_bytes: settings.most_bytes,
        pause: settings.pause,
        connect_limit: settings.connect_limit,
        response_limit: settings.response_limit,
        refresh: settings.refresh,
        retry: settings.retry,
        expire: settings.expire,
        most_units: settings.most_units,
        chance: settings.chance,
        highest: settings.highest,
    }
}

fn known_from(known: &RtrKnown) -> Known
    ensures { result ≡ shown_known known.now }
{
    Known {
        version: known.version,
        session: known.session,
        serial: known.serial,
        refresh: known.refresh,
        retry: known.retry,
        expire: known.expire,
    }
}

fn known_to(known: &Known) -> RtrKnown
    ensures { shown_known result ≡ known.now }
{
    RtrKnown {
        serial: known.serial,
        refresh: known.refresh,
        retry: known.retry,
        expire: known.expire,
        session: known.session,
        version: known.version,
    }
}

fn phase_from(phase: u8) -> Phase
    ensures { result ≡ phase_of phase }
{
    match phase {
        1 => Phase::Connecting,
        2 => Phase::Asked,
        3 => Phase::Reading,
        4 => Phase::Applying,
        5 => Phase::Waiting,
        _ => Phase::Offline,
    }
}

fn phase_to(phase: Phase) -> u8
    ensures number { result ≡ phase_number phase }
    ensures same { phase_of result ≡ phase }
{
    match phase {
        Phase::Offline => 0,
        Phase::Connecting => 1,
        Phase::Asked => 2,
        Phase::Reading => 3,
        Phase::Applying => 4,
        Phase::Waiting => 5,
    }
}

/// The machine of the struct.
pub(crate) fn router_from(router: &RtrRouter) -> Router
    ensures { result ≡ router_of router.now }
{
    Router {
        settings: settings_from(&router.settings),
        phase: phase_from(router.phase),
        version: router.version,
        agreed: router.agreed,
        fell: router.fell,
        silent: router.silent,
        rise_wait: router.rise_wait,
        rises: router.rises,
        floor: router.floor,
        changes: router.changes,
        resync: router.resync,
        answered: router.answered,
        wait: router.wait,
        session: router.session,
        units: router.units,
        bytes: router.bytes,
        noted: router.noted,
        note: router.note,
        answer: known_from(&router.answer),
        has_data: router.has_data,
        known: known_from(&router.known),
        came: router.came,
        expires: router.expires,
        asked: router.asked,
        tried: router.tried,
        due: router.due,
    }
}

/// The struct for a machine.
pub(crate) fn router_to(router: &Router) -> RtrRouter
    ensures router { router_of result ≡ router.now }
    ensures phase { result.phase ≡ phase_number router.now.phase }
{
    RtrRouter {
        settings: settings_to(&router.settings),
        expires: router.expires,
        came: router.came,
        asked: router.asked,
        tried: router.tried,
        due: router.due,
        rises: router.rises,
        bytes: router.bytes,
        known: known_to(&router.known),
        answer: known_to(&router.answer),
        wait: router.wait,
        rise_wait: router.rise_wait,
        units: router.units,
        note: router.note,
        session: router.session,
        phase: phase_to(router.phase),
        version: router.version,
        floor: router.floor,
        agreed: router.agreed,
        fell: router.fell,
        silent: router.silent,
        changes: router.changes,
        resync: router.resync,
        answered: router.answered,
        noted: router.noted,
        has_data: router.has_data,
    }
}
