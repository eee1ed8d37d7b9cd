//! The limits of a server.

ghost use Rattle.std.specs.Prelude.{◌≡◌};
ghost use Rattle.session_server.specs.Limits.{usual_cache_settings, usual_server_settings};

use session_cache::settings::CacheSettings;

/// The limits of a server. Times are in milliseconds.
#[derive(Clone, Copy)]
pub struct ServerSettings {
    /// The settings of each connection's machine.
    pub cache: CacheSettings,
    /// The limit from the first byte of a unit to its last.
    pub unit_limit: u32,
    /// How long a router may read nothing of an answer.
    pub write_limit: u32,
    /// The limit from the start of an answer until all of it is sent.
    pub response_limit: u32,
    /// The limit from the end of a connection to its close: to send its last report, and for the
    /// router to read it.
    pub report_limit: u32,
    /// How long changes are kept, at least, after newer data came.
    pub keep: u64,
    /// The greatest number of bytes of changes that are kept.
    pub keep_bytes: usize,
    /// The greatest number of connections that are served at once. A further connection gets a
    /// report of code 1.
    pub most_connections: u32,
    /// The greatest number of further connections that get their report at once.
    pub most_refused: u32,
    /// A connection ends if more than this many newer data come while it is sent an answer.
    pub most_behind: u32,
}

impl ServerSettings {
    /// The defaults, for a cache of some hundred routers: those of `CacheSettings`, 10 seconds for
    /// a unit, 30 for a write, 10 minutes for an answer, 10 seconds for a last report; two hours of
    /// changes, which is the recommended expire time (RFC 8210 section 6), in 64 MiB; 1024
    /// connections, 64 more that are refused, and two newer data.
    pub fn usual() -> ServerSettings
        ensures { result ≡ usual_server_settings }
    {
        ServerSettings {
            cache: CacheSettings::usual(),
            unit_limit: 10_000,
            write_limit: 30_000,
            response_limit: 600_000,
            report_limit: 10_000,
            keep: 7_200_000,
            keep_bytes: 67_108_864,
            most_connections: 1024,
            most_refused: 64,
            most_behind: 2,
        }
    }
}
