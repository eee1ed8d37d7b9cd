//! The door of a server: whether a new connection is served, refused with a report, or has to wait.

ghost use Rattle.std.specs.Prelude.{◌≡◌};
ghost use Rattle.session_server.specs.Doors.{new_door, entry_at, entered, has_inside, once_left};

use crate::settings::ServerSettings;

/// What a server does with a new connection.
#[derive(Clone, Copy, PartialEq, Eq)]
pub enum Entry {
    /// Serve it.
    Serve,
    /// Send the report that there are too many connections, of code 1, and close it: tell its
    /// machine `CacheEvent::Full`.
    Refuse,
    /// Don't accept it now. If it is accepted already, close it without a report.
    Wait,
}

/// Counts the connections of a server, each from its entry until it is closed.
#[derive(Clone, Copy)]
pub struct Door {
    /// The greatest number of connections that are served at once, and of further ones that are
    /// refused at once.
    pub most_connections: u32,
    pub most_refused: u32,
    /// The number of connections that are served now, and that are refused now.
    pub served: u32,
    pub refused: u32,
}

impl Door {
    /// The door of a server without connections.
    pub fn new(settings: &ServerSettings) -> Door
        ensures { result ≡ new_door settings.now }
    {
        Door {
            most_connections: settings.most_connections,
            most_refused: settings.most_refused,
            served: 0,
            refused: 0,
        }
    }

    /// Returns what a new connection would get now; `spare` is whether the system has another
    /// descriptor beside that of the connection. Changes nothing.
    pub fn next(&self, spare: bool) -> Entry
        ensures { result ≡ entry_at self.now spare }
    {
        if spare && self.served < self.most_connections {
            Entry::Serve
        } else if self.refused < self.most_refused {
            Entry::Refuse
        } else {
            Entry::Wait
        }
    }

    /// Counts a connection that was accepted, and returns what it gets.
    pub fn enter(&mut self, spare: bool) -> Entry
        ensures entry { result ≡ entry_at self.old spare }
        ensures door { self.new ≡ entered self.old (entry_at self.old spare) }
    {
        let entry = self.next(spare);
        match entry {
            Entry::Serve => self.served += 1,
            Entry::Refuse => self.refused += 1,
            Entry::Wait => {}
        }
        entry
    }

    /// Records that a connection with this entry was closed. Returns false, and changes nothing, if
    /// there is no such connection.
    pub fn leave(&mut self, entry: Entry) -> bool
        ensures counted { result ≡ has_inside self.old entry }
        ensures door { self.new ≡ once_left self.old entry }
    {
        let has = match entry {
            Entry::Serve => self.served > 0,
            Entry::Refuse => self.refused > 0,
            Entry::Wait => false,
        };
        match entry {
            Entry::Serve if has => self.served -= 1,
            Entry::Refuse if has => self.refused -= 1,
            _ => {}
        }
        has
    }
}
