//! What a server keeps, in numbers: its data in which version, changes up to a limit, and for how
//! long data that couldn't be saved.

ghost use Rattle.std.specs.Prelude.{◌≡◌, ◌≤◌};
ghost use Rattle.session_server.specs.Keeping.{kept_version, keeps_more, retry_after};
ghost use Rattle.rtr_c.specs.Caches.{present_of};
ghost use Rattle.rtr_c.specs.Servers.{server_settings_of};

use crate::cache::{RtrPresent, present_from};
use crate::server_calls::{RtrServerSettings, server_settings_from};
use session_server::keeping::{kept_version, retry_after};

/// Returns the version to which new data of this session and version are converted before the
/// stores take them, where the present data have `present_version`, as
/// `session_server::keeping::kept_version`.
#[unsafe(no_mangle)]
pub extern "C" fn rtr_stores_version(
    present: &RtrPresent,
    present_version: u8,
    session: u16,
    version: u8,
) -> u8
    ensures version { result
        ≡ kept_version (present_of present.now) present_version session version }
    ensures whole { version ≤ 2 → version ≤ result }
    ensures known { present_version ≤ 2 → result ≤ 2 }
{
    kept_version(&present_from(present), present_version, session, version)
}

/// Reports whether `length` bytes of encoded changes are kept for further routers, beside
/// `kept_bytes` bytes that already are, as `session_server::settings::ServerSettings::keeps`.
#[unsafe(no_mangle)]
pub extern "C" fn rtr_server_keeps(
    settings: &RtrServerSettings,
    kept_bytes: usize,
    length: usize,
) -> bool
    ensures { result ≡ keeps_more (server_settings_of settings.now) kept_bytes length }
{
    server_settings_from(settings).keeps(kept_bytes, length)
}

/// Returns the pause in milliseconds before a failed save is retried, after a pause of `previous`
/// before the last try, or 0, as `session_server::keeping::retry_after`.
#[unsafe(no_mangle)]
pub extern "C" fn rtr_retry_after(previous: u32) -> u32
    ensures { result ≡ retry_after previous }
{
    retry_after(previous)
}
