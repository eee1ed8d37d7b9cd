//! A cache's machine, in numbers.

ghost use Rattle.std.specs.Prelude.{◌≡◌};
ghost use Rattle.rtr_c.specs.Caches.{cache_of, cache_settings_of, present_of};

use session_cache::cache::Cache;
use session_cache::event::Present;
use session_cache::settings::CacheSettings;

/// The identity of the newest data of a cache: as `session_cache::event::Present`.
#[repr(C)]
#[derive(Clone, Copy)]
pub struct RtrPresent {
    /// The serial number of the newest data.
    pub serial: u32,
    /// The session of the newest data.
    pub session: u16,
    /// Whether there are data; if not, the two other fields are ignored.
    pub has: bool,
}

// The fields stand one after the other, and one byte is left at the end.
const _: () = prove!(size_of::<RtrPresent>() == 8);

/// The settings of a cache's end: as `session_cache::settings::CacheSettings`.
#[repr(C)]
#[derive(Clone, Copy)]
pub struct RtrCacheSettings {
    /// The time limit to the first query; default 30 seconds.
    pub first_limit: u32,
    /// The time limit from a query to the next; default 25 hours.
    pub idle_limit: u32,
    /// The least time between two notifies; default 1 minute.
    pub pause: u32,
    /// Whether a serial query whose changes aren't known is answered by a report of code 0 and the
    /// end, instead of a cache reset; default false.
    pub refuses: bool,
}

// The fields stand one after the other, and three bytes are left at the end.
const _: () = prove!(size_of::<RtrCacheSettings>() == 16);

/// A cache's end of a connection: as `session_cache::cache::Cache`.
#[repr(C)]
#[derive(Clone, Copy)]
pub struct RtrCache {
    pub settings: RtrCacheSettings,
    pub notify_from: u64,
    pub due: u64,
    /// The serial number of the newest data that the router was sent or notified of, if `told`; or
    /// of the newest data at the cache reset that made it ask for all data, if `reset`.
    pub serial: u32,
    pub session: u16,
    /// The version of the connection, if a query came, `asked`.
    pub version: u8,
    pub live: bool,
    pub asked: bool,
    pub told: bool,
    pub reset: bool,
}

// The fields stand one after the other, and five bytes are left at the end.
const _: () = prove!(size_of::<RtrCache>() == 48);

/// The data of the struct.
pub(crate) fn present_from(present: &RtrPresent) -> Present
    ensures { result ≡ present_of present.now }
{
    Present {
        has: present.has,
        session: present.session,
        serial: present.serial,
    }
}

/// The settings of the struct.
pub(crate) fn cache_settings_from(settings: &RtrCacheSettings) -> CacheSettings
    ensures { result ≡ cache_settings_of settings.now }
{
    CacheSettings {
        first_limit: settings.first_limit,
        idle_limit: settings.idle_limit,
        pause: settings.pause,
        refuses: settings.refuses,
    }
}

/// The struct for settings.
pub(crate) fn cache_settings_to(settings: &CacheSettings) -> RtrCacheSettings
    ensures { cache_settings_of result ≡ settings.now }
{
    RtrCacheSettings {
        first_limit: settings.first_limit,
        idle_limit: settings.idle_limit,
        pause: settings.pause,
        refuses: settings.refuses,
    }
}

/// The machine of the struct.
pub(crate) fn cache_from(cache: &RtrCache) -> Cache
    ensures { result ≡ cache_of cache.now }
{
    Cache {
        settings: cache_settings_from(&cache.settings),
        live: cache.live,
        asked: cache.asked,
        version: cache.version,
        told: cache.told,
        reset: cache.reset,
        session: cache.session,
        serial: cache.serial,
        notify_from: cache.notify_from,
        due: cache.due,
    }
}

/// The struct for a machine.
pub(crate) fn cache_to(cache: &Cache) -> RtrCache
    ensures { cache_of result ≡ cache.now }
{
    RtrCache {
        settings: cache_settings_to(&cache.settings),
        notify_from: cache.notify_from,
        due: cache.due,
        serial: cache.serial,
        session: cache.session,
        version: cache.version,
        live: cache.live,
        asked: cache.asked,
        told: cache.told,
        reset: cache.reset,
    }
}
