//! What a server keeps: its data in which version, how many bytes of changes, and for how long data
//! that couldn't be saved.

ghost use Rattle.std.specs.Prelude.{◌≡◌, ◌≤◌};
ghost use Rattle.session_server.specs.Keeping.{kept_version, keeps_more, retry_after};

use crate::settings::ServerSettings;
use session_cache::event::Present;
use session_router::settings::HIGHEST;

impl ServerSettings {
    /// Reports whether `more` bytes of encoded changes are kept for further routers, beside `kept`
    /// bytes that already are: if the sum is at most `keep_bytes`.
    pub fn keeps(&self, kept: usize, more: usize) -> bool
        ensures { result ≡ keeps_more self.now kept more }
    {
        kept <= self.keep_bytes && more <= self.keep_bytes - kept
    }
}

/// Returns the version to which new data are converted before the stores take them. `session` and
/// `new` are their session and version, `version` is that of the present data. It is that of the
/// present data if these have the same session and no lower version than the new data, which can
/// follow them then. Otherwise it is the highest, which has a form for each payload; stores that
/// hold the same session in a lower version refuse it, until the data come in a new session.
pub fn kept_version(present: &Present, version: u8, session: u16, new: u8) -> u8
    ensures version { result ≡ kept_version present.now version session new }
    ensures whole { new ≤ 2 → new ≤ result }
    ensures known { version ≤ 2 → result ≤ 2 }
{
    if present.has && present.session == session && new <= version {
        version
    } else {
        HIGHEST
    }
}

/// Returns the pause in milliseconds before a failed save is retried, given the pause before the
/// last try, or 0 after the first: one second at first, then twice the last pause, at most a
/// minute.
pub fn retry_after(previous: u32) -> u32
    ensures { result ≡ retry_after previous }
{
    if previous == 0 {
        1000
    } else {
        previous.saturating_mul(2).min(60_000)
    }
}
