//! The limits of a server and its door, in numbers: which new connections it serves.

ghost use Rattle.std.specs.Prelude.{◌≡◌};
ghost use Rattle.session_server.specs.Doors.{new_door, entered, entry_at, has_inside, once_left};
ghost use Rattle.session_server.specs.Limits.{usual_server_settings};
ghost use Rattle.rtr_c.specs.Servers.{door_of, entry_number, numbered_entry, server_settings_of};

use crate::cache::{RtrCacheSettings, cache_settings_from, cache_settings_to};
use session_server::door::{Door, Entry};
use session_server::settings::ServerSettings;

/// The limits of a server: as `session_server::settings::ServerSettings`.
#[repr(C)]
#[derive(Clone, Copy)]
pub struct RtrServerSettings {
    pub cache: RtrCacheSettings,
    /// How long, at least, changes from data are kept after newer data came; default 2 hours.
    pub keep: u64,
    /// The most bytes of changes that are kept; default 64 MiB.
    pub keep_bytes: usize,
    /// From a unit's first byte to its last; default 10 seconds.
    pub unit_limit: u32,
    /// Without a byte of an answer sent; default 30 seconds.
    pub write_limit: u32,
    /// To send a whole answer; default 10 minutes.
    pub response_limit: u32,
    /// To send the last report, and for the router to read it; default 10 seconds.
    pub report_limit: u32,
    /// The most connections that are served at once; default 1024.
    pub most_connections: u32,
    /// The most connections above that limit that get a report of code 1 at once; default 64.
    pub most_refused: u32,
    /// How many newer data may come while a connection is sent an answer; default 2.
    pub most_behind: u32,
}

// The fields stand one after the other, and four bytes are left at the end.
const _: () = prove!(size_of::<RtrServerSettings>() == 64);

/// The door of a server: as `session_server::door::Door`.
#[repr(C)]
#[derive(Clone, Copy)]
pub struct RtrDoor {
    pub most_connections: u32,
    pub most_refused: u32,
    /// The connections that are served.
    pub served: u32,
    /// The connections that are being refused.
    pub refused: u32,
}

// The fields stand one after the other.
const _: () = prove!(size_of::<RtrDoor>() == 16);

/// The settings of the struct.
pub(crate) fn server_settings_from(settings: &RtrServerSettings) -> ServerSettings
    ensures { result ≡ server_settings_of settings.now }
{
    ServerSettings {
        cache: cache_settings_from(&settings.cache),
        unit_limit: settings.unit_limit,
        write_limit: settings.write_limit,
        response_limit: settings.response_limit,
        report_limit: settings.report_limit,
        keep: settings.keep,
        keep_bytes: settings.keep_bytes,
        most_connections: settings.most_connections,
        most_refused: settings.most_refused,
        most_behind: settings.most_behind,
    }
}

/// The struct for settings.
pub(crate) fn server_settings_to(settings: &ServerSettings) -> RtrServerSettings
    ensures { server_settings_of result ≡ settings.now }
{
    RtrServerSettings {
        cache: cache_settings_to(&settings.cache),
        keep: settings.keep,
        keep_bytes: settings.keep_bytes,
        unit_limit: settings.unit_limit,
        write_limit: settings.write_limit,
        response_limit: settings.response_limit,
        report_limit: settings.report_limit,
        most_connections: settings.most_connections,
        most_refused: settings.most_refused,
        most_behind: settings.most_behind,
    }
}

/// The door of the struct.
fn door_from(door: &RtrDoor) -> Door
    ensures { result ≡ door_of door.now }
{
    Door {
        most_connections: door.most_connections,
        most_refused: door.most_refused,
        served: door.served,
        refused: door.refused,
    }
}

/// The struct for a door.
fn door_to(door: &Door) -> RtrDoor
    ensures { door_of result ≡ door.now }
{
    RtrDoor {
        most_connections: door.most_connections,
        most_refused: door.most_refused,
        served: door.served,
        refused: door.refused,
    }
}

/// The number of what a new connection gets.
fn entry_to(entry: Entry) -> u8
    ensures { result ≡ entry_number entry }
{
    match entry {
        Entry::Serve => 0,
        Entry::Refuse => 1,
        Entry::Wait => 2,
    }
}

/// The entry of this number; `Wait` for all greater numbers.
fn entry_from(number: u8) -> Entry
    ensures { result ≡ numbered_entry number }
{
    match number {
        0 => Entry::Serve,
        1 => Entry::Refuse,
        _ => Entry::Wait,
    }
}

/// The defaults, as `session_server::settings::ServerSettings::usual`.
#[unsafe(no_mangle)]
pub extern "C" fn rtr_server_settings_usual(settings: &mut RtrServerSettings)
    ensures { server_settings_of settings.new ≡ usual_server_settings }
{
    *settings = server_settings_to(&ServerSettings::usual());
}

/// Begins the door of a server without connections, whatever the struct holds, as
/// `session_server::door::Door::new`.
#[unsafe(no_mangle)]
pub extern "C" fn rtr_door_init(door: &mut RtrDoor, settings: &RtrServerSettings)
    ensures { door_of door.new ≡ new_door (server_settings_of settings.now) }
{
    *door = door_to(&Door::new(&server_settings_from(settings)));
}

/// What a new connection would get now, as `session_server::door::Door::next`.
#[unsafe(no_mangle)]
pub extern "C" fn rtr_door_next(door: &RtrDoor, spare: bool) -> u8
    ensures { result ≡ entry_number (entry_at (door_of door.now) spare) }
{
    entry_to(door_from(door).next(spare))
}

/// Counts a connection that was accepted, as `session_server::door::Door::enter`.
#[unsafe(no_mangle)]
pub extern "C" fn rtr_door_enter(door: &mut RtrDoor, spare: bool) -> u8
    ensures entry { result ≡ entry_number (entry_at (door_of door.old) spare) }
    ensures door { door_of door.new
        ≡ entered (door_of door.old) (entry_at (door_of door.old) spare) }
{
    let mut counted = door_from(door);
    let entry = counted.enter(spare);
    *door = door_to(&counted);
    entry_to(entry)
}

/// Counts that a connection with this entry was closed, as `session_server::door::Door::leave`.
#[unsafe(no_mangle)]
pub extern "C" fn rtr_door_leave(door: &mut RtrDoor, entry: u8) -> bool
    ensures counted { result ≡ has_inside (door_of door.old) (numbered_entry entry) }
    ensures door { door_of door.new ≡ once_left (door_of door.old) (numbered_entry entry) }
{
    let mut counted = door_from(door);
    let has = counted.leave(entry_from(entry));
    *door = door_to(&counted);
    has
}
