//! The settings of a router, and the times of data.

ghost use Rattle.std.specs.Prelude.{◌≡◌, ◌<◌, ◌≤◌, ◌*◌, ◌^◌, ◌==◌, if◌then◌else◌, min};
ghost use Rattle.session_router.specs.Times.{expire_ms, refresh_ms, retry_ms, set_or};

use crate::head::Known;

/// The highest version of the protocol that routers and caches support.
pub const HIGHEST: u8 = 2;

/// The settings of a router. Times are in milliseconds.
#[derive(Clone, Copy)]
pub struct Settings {
    /// The version in which a connection begins, at most 2.
    pub highest: u8,
    /// The least time between two queries, and before a connection that follows a failure.
    pub pause: u32,
    /// The limit for making a connection.
    pub connect_limit: u32,
    /// The limit from a query to the end of data of its answer.
    pub response_limit: u32,
    /// The times that replace those of the cache, unless they are zero.
    pub refresh: u32,
    pub retry: u32,
    pub expire: u32,
    /// The greatest number of payload units of an answer, and of bytes in them.
    pub most_units: u32,
    pub most_bytes: u64,
    /// How much growing waits are shortened: by `wait * chance / 131072`, less than half. If
    /// routers that lost one cache at the same time each have a random number, they ask it again at
    /// different times.
    pub chance: u16,
}

impl Settings {
    /// The default settings, with this version as the highest, or 2 if it is above 2.
    pub fn usual(highest: u8) -> Settings
        ensures highest { result.highest ≡ min highest 2 }
        ensures pause { result.pause ≡ 1000 }
        ensures connect_limit { result.connect_limit ≡ 30000 }
        ensures response_limit { result.response_limit ≡ 120000 }
        ensures refresh { result.refresh ≡ 0 }
        ensures retry { result.retry ≡ 0 }
        ensures expire { result.expire ≡ 0 }
        ensures most_units { result.most_units ≡ 4000000 }
        ensures most_bytes { result.most_bytes ≡ 134217728 }
        ensures chance { result.chance ≡ 0 }
    {
        Settings {
            highest: highest.min(HIGHEST),
            pause: 1000,
            connect_limit: 30_000,
            response_limit: 120_000,
            refresh: 0,
            retry: 0,
            expire: 0,
            most_units: 4_000_000,
            most_bytes: 134_217_728,
            chance: 0,
        }
    }

    /// The time from the end of data to the next query. If the cache's times would drop the data
    /// first, it is at most half of the time until they are dropped.
    pub(crate) fn refresh(&self, known: &Known) -> u64
        ensures value { result ≡ refresh_ms self.now known.now }
        ensures most { result < 2 ^ 32 }
    {
        let named = chosen(
            self.refresh,
            known.version,
            known.refresh.clamp(1, 86_400),
            3600,
        );
        let expire = self.expire(known);
        if named < expire { named } else { expire / 2 }
    }

    /// The time from a failed query to the next one.
    pub(crate) fn retry(&self, known: &Known) -> u64
        ensures value { result ≡ retry_ms self.now known.now }
        ensures most { result < 2 ^ 32 }
    {
        chosen(self.retry, known.version, known.retry.clamp(1, 7200), 600)
    }

    /// The time from the end of data until the data are dropped.
    pub(crate) fn expire(&self, known: &Known) -> u64
        ensures value { result ≡ expire_ms self.now known.now }
        ensures least { 1 ≤ result }
        ensures most { result < 2 ^ 32 }
    {
        chosen(
            self.expire,
            known.version,
            known.expire.clamp(600, 172_800),
            7200,
        )
    }
}

/// The milliseconds of a setting, or else those of these seconds: of the end of data, or the
/// recommended ones if its version has none (RFC 8210 section 6).
fn chosen(set: u32, version: u8, named: u32, recommended: u32) -> u64
    requires named { named ≤ 172800 }
    requires recommended { recommended ≤ 172800 }
    ensures value { result ≡ set_or set (1000 * (if version == 0 then recommended else named)) }
    ensures least { 1 ≤ named → 1 ≤ recommended → 1 ≤ result }
    ensures most { result < 2 ^ 32 }
{
    if set != 0 {
        return set as u64;
    }
    let seconds = if version == 0 { recommended } else { named };
    1000 * (seconds as u64)
}
