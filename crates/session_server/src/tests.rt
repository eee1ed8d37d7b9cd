//! Runs of a server's door, and of a connection.

use crate::connection::{Connection, Cut, Next};
use crate::door::{Door, Entry};
use crate::keeping::{kept_version, retry_after};
use crate::settings::ServerSettings;
use session_cache::cache::Cache;
use session_cache::event::Present;
use session_cache::settings::CacheSettings;
use std::process::Abort;
use std::rt::HostRuntime;

/// A connection that comes or leaves.
enum Move {
    Comes(bool, Entry),
    Leaves(Entry, bool),
}

fn word(entry: Entry) -> &'static str {
    match entry {
        Entry::Serve => "serve",
        Entry::Refuse => "refuse",
        Entry::Wait => "wait",
    }
}

/// Each move, its result, and how many connections are served and refused then.
fn follow(rt: &impl Abort, door: &mut Door, rows: &[(Move, u32, u32)]) {
    for (i, (step, served, refused)) in rows.iter().enumerate() {
        match step {
            Move::Comes(spare, want) => {
                assert_eq!(rt; word(door.next(*spare)), word(*want), "next at {i}");
                assert_eq!(rt; word(door.enter(*spare)), word(*want), "at {i}");
            }
            Move::Leaves(entry, want) => assert_eq!(rt; door.leave(*entry), *want, "at {i}"),
        }
        assert_eq!(rt; door.served, *served, "served at {i}");
        assert_eq!(rt; door.refused, *refused, "refused at {i}");
    }
}

// With limits of two and one: the third is refused, the fourth waits until one of them leaves. One
// for which the system has no other descriptor is refused though there is a place.
#[test]
fn who_comes_and_leaves(rt: HostRuntime) {
    let mut door = Door::new(&ServerSettings {
        most_connections: 2,
        most_refused: 1,
        ..ServerSettings::usual()
    });
    follow(
        &rt,
        &mut door,
        &[
            (Move::Leaves(Entry::Serve, false), 0, 0),
            (Move::Leaves(Entry::Refuse, false), 0, 0),
            (Move::Comes(true, Entry::Serve), 1, 0),
            (Move::Comes(false, Entry::Refuse), 1, 1),
            (Move::Comes(false, Entry::Wait), 1, 1),
            (Move::Comes(true, Entry::Serve), 2, 1),
            (Move::Comes(true, Entry::Wait), 2, 1),
            (Move::Leaves(Entry::Wait, false), 2, 1),
            (Move::Leaves(Entry::Refuse, true), 2, 0),
            (Move::Comes(true, Entry::Refuse), 2, 1),
            (Move::Leaves(Entry::Serve, true), 1, 1),
            (Move::Comes(true, Entry::Serve), 2, 1),
        ],
    );
}

/// What happens to a connection.
enum Event {
    Nothing,
    Came(usize),
    Heard(usize),
    Answers(usize, u64, bool),
    Ends(usize, bool),
    Sent(usize, bool),
    Closed,
    Broke,
}

fn next_word(next: Next) -> &'static str {
    match next {
        Next::Wait => "wait",
        Next::Hear => "hear",
        Next::Tick => "tick",
        Next::Lose => "lose",
        Next::Send => "send",
        Next::Finish => "finish",
        Next::Close(None) => "close",
        Next::Close(Some(Cut::Slow)) => "too slow",
        Next::Close(Some(Cut::NewSession)) => "new session",
        Next::Close(Some(Cut::Behind)) => "behind",
    }
}

fn tell(rt: &impl Abort, connection: &mut Connection, now: u64, event: &Event, i: usize) {
    match event {
        Event::Nothing => {}
        Event::Came(size) => connection.received(now, *size),
        Event::Heard(size) => connection.heard(now, *size),
        Event::Answers(size, number, want) => {
            assert_eq!(rt; connection.answers(now, *size, *number), *want, "at {i}");
        }
        Event::Ends(size, want) => assert_eq!(rt; connection.ends(now, *size), *want, "at {i}"),
        Event::Sent(size, want) => assert_eq!(rt; connection.sent(now, *size), *want, "at {i}"),
        Event::Closed => connection.closed(),
        Event::Broke => connection.broke(),
    }
}

/// Each row has a time, an event, the session and the number of the newest data, the next action,
/// and until when. The router was told of data of session 7, and its machine waits until 90 s.
fn serve(rt: &impl Abort, rows: &[(u64, Event, u16, u64, &'static str, u64)]) {
    let mut cache = Cache::new(60_000, CacheSettings::usual());
    cache.told = true;
    cache.session = 7;
    let mut connection = Connection::new(0, ServerSettings::usual());
    for (i, (now, event, session, number, want, wakes)) in rows.iter().enumerate() {
        tell(rt, &mut connection, *now, event, i);
        let present = Present {
            has: true,
            session: *session,
            serial: 1,
        };
        let next = connection.next(*now, &cache, &present, *number);
        assert_eq!(rt; next_word(next), *want, "at {i}");
        assert_eq!(rt; connection.wakes(&cache, &present), *wakes, "wakes at {i}");
        let reads = matches!(next, Next::Wait | Next::Hear | Next::Tick) && !connection.closed
            || matches!(next, Next::Close(Some(Cut::Slow))) && connection.unsent == 0;
        assert_eq!(rt; connection.reads(), reads, "reads at {i}");
    }
}

// The last byte of a unit has ten seconds from the first one; units that came together are heard
// one after the other; the close is told last.
#[test]
fn units_come(rt: HostRuntime) {
    serve(
        &rt,
        &[
            (0, Event::Nothing, 7, 1, "wait", 90_000),
            (1000, Event::Came(5), 7, 1, "hear", 0),
            (1000, Event::Heard(0), 7, 1, "wait", 11_000),
            (9000, Event::Came(23), 7, 1, "hear", 0),
            (9000, Event::Heard(8), 7, 1, "hear", 0),
            (9000, Event::Heard(12), 7, 1, "hear", 0),
            (9000, Event::Heard(0), 7, 1, "wait", 19_000),
            (18_999, Event::Came(0), 7, 1, "wait", 19_000),
            (19_000, Event::Nothing, 7, 1, "too slow", 19_000),
            (19_000, Event::Came(4), 7, 1, "hear", 0),
            (19_001, Event::Heard(12), 7, 1, "wait", 90_000),
            (90_000, Event::Nothing, 7, 1, "tick", 90_000),
            (90_000, Event::Came(8), 7, 1, "hear", 0),
            (90_000, Event::Closed, 7, 1, "hear", 0),
            (90_000, Event::Heard(8), 7, 1, "lose", 0),
        ],
    );
}

// An answer has thirty seconds for each byte and ten minutes for all, and ends at a new session and
// at the third newer data; a report and its close have ten seconds.
#[test]
fn answers_are_sent(rt: HostRuntime) {
    serve(
        &rt,
        &[
            (1000, Event::Answers(9, 5, true), 7, 5, "send", 31_000),
            (1000, Event::Answers(9, 5, false), 7, 5, "send", 31_000),
            (1000, Event::Ends(9, false), 7, 5, "send", 31_000),
            (1000, Event::Sent(10, false), 7, 5, "send", 31_000),
            (2000, Event::Sent(0, true), 7, 7, "send", 31_000),
            (31_000, Event::Nothing, 7, 5, "too slow", 31_000),
            (30_999, Event::Sent(1, true), 7, 8, "behind", 60_999),
            (30_999, Event::Nothing, 8, 8, "new session", 60_999),
            (590_000, Event::Sent(1, true), 7, 5, "send", 601_000),
            (601_000, Event::Nothing, 7, 5, "too slow", 601_000),
            (590_000, Event::Sent(7, true), 8, 8, "tick", 0),
            (2000, Event::Ends(6, true), 8, 9, "send", 12_000),
            (11_000, Event::Sent(5, true), 8, 9, "send", 12_000),
            (11_000, Event::Came(8), 8, 9, "send", 12_000),
            (11_999, Event::Sent(1, true), 8, 9, "finish", 12_000),
            (12_000, Event::Nothing, 8, 9, "close", 12_000),
            (11_000, Event::Closed, 8, 9, "close", 12_000),
        ],
    );
    serve(
        &rt,
        &[
            (1000, Event::Ends(0, true), 7, 1, "close", 0),
            (1000, Event::Ends(5, false), 7, 1, "close", 0),
        ],
    );
}

// A connection that breaks is closed, with bytes unheard or unsent, and stays so.
#[test]
fn connections_break(rt: HostRuntime) {
    serve(
        &rt,
        &[
            (1000, Event::Came(5), 7, 1, "hear", 0),
            (1000, Event::Broke, 7, 1, "close", 0),
            (1000, Event::Came(5), 7, 1, "close", 0),
            (1000, Event::Closed, 7, 1, "close", 0),
            (1000, Event::Answers(9, 1, false), 7, 1, "close", 0),
        ],
    );
    serve(
        &rt,
        &[
            (1000, Event::Answers(9, 1, true), 7, 1, "send", 31_000),
            (1000, Event::Broke, 7, 1, "close", 0),
            (99_000, Event::Sent(9, true), 8, 1, "close", 0),
            (99_000, Event::Ends(5, false), 8, 1, "close", 0),
        ],
    );
}

// Whether there are data, their session and version, those of new ones, and the version of these.
#[test]
fn versions_are_kept(rt: HostRuntime) {
    let rows = [
        (false, 7, 0, 7, 0, 2),
        (true, 7, 1, 7, 0, 1),
        (true, 7, 1, 7, 1, 1),
        (true, 7, 1, 7, 2, 2),
        (true, 8, 1, 7, 1, 2),
        (true, 7, 0, 7, 0, 0),
        (true, 7, 2, 7, 0, 2),
    ];
    for (i, (has, session, version, of, new, want)) in rows.iter().enumerate() {
        let present = Present {
            has: *has,
            session: *session,
            serial: 1,
        };
        let kept = kept_version(&present, *version, *of, *new);
        assert_eq!(rt; kept, *want, "at {i}");
    }
}

// A sum above the largest number is above each limit.
#[test]
fn changes_are_kept(rt: HostRuntime) {
    let mut settings = ServerSettings::usual();
    settings.keep_bytes = 100;
    let rows = [
        (0, 100, true),
        (40, 60, true),
        (40, 61, false),
        (100, 0, true),
        (101, 0, false),
        (1, usize::MAX, false),
        (usize::MAX, 1, false),
    ];
    for (i, (kept, more, want)) in rows.iter().enumerate() {
        assert_eq!(rt; settings.keeps(*kept, *more), *want, "at {i}");
    }
}

#[test]
fn saving_is_retried(rt: HostRuntime) {
    let waits = [1000, 2000, 4000, 8000, 16_000, 32_000, 60_000, 60_000];
    let mut wait = 0;
    for (i, want) in waits.iter().enumerate() {
        wait = retry_after(wait);
        assert_eq!(rt; wait, *want, "at {i}");
    }
    assert_eq!(rt; retry_after(u32::MAX), 60_000, "after the longest");
}
