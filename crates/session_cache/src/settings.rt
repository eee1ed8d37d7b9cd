//! The settings of a cache's end.

ghost use Rattle.std.specs.Prelude.{◌≡◌, false};

/// The settings of a cache's end. Times are in milliseconds.
#[derive(Clone, Copy)]
pub struct CacheSettings {
    /// The limit from the connection to the first query.
    pub first_limit: u32,
    /// The limit from a query to the next one.
    pub idle_limit: u32,
    /// The least time between two notifies.
    pub pause: u32,
    /// Whether to answer a serial query whose changes aren't available with a report of code 0 and
    /// the end of the connection, instead of a cache reset. Some routers, such as BIRD 2.0, ask
    /// again at once after such a report, and wait for their whole retry time after a cache reset;
    /// most do the opposite.
    pub refuses: bool,
}

impl CacheSettings {
    /// The defaults: 30 seconds to the first query, 25 hours between two, since a router asks at
    /// least once a day (RFC 8210 section 6), a minute between two notifies (section 8.2), and
    /// cache resets (section 8.3).
    pub fn usual() -> CacheSettings
        ensures first_limit { result.first_limit ≡ 30000 }
        ensures idle_limit { result.idle_limit ≡ 90000000 }
        ensures pause { result.pause ≡ 60000 }
        ensures refuses { result.refuses ≡ false }
    {
        CacheSettings {
            first_limit: 30_000,
            idle_limit: 90_000_000,
            pause: 60_000,
            refuses: false,
        }
    }
}
