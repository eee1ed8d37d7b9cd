//! Runs of a cache's end, as in docs/SESSIONS.md.

use crate::cache::Cache;
use crate::event::{Answer, CacheEvent, Present, Reason};
use crate::settings::CacheSettings;
use rtr_base::error_code::ErrorCode;
use session_router::head::{Fault, Head, Kind};
use std::process::Abort;
use std::rt::HostRuntime;

const NONE: Present = Present {
    has: false,
    session: 0,
    serial: 0,
};

fn data(session: u16, serial: u32) -> Present {
    Present {
        has: true,
        session,
        serial,
    }
}

fn head(kind: Kind, version: u8, session: u16, serial: u32) -> Head {
    Head {
        kind,
        version,
        session,
        serial,
        code: ErrorCode::CORRUPT_DATA,
        refresh: 0,
        retry: 0,
        expire: 0,
        size: 12,
    }
}

fn reset(version: u8) -> CacheEvent {
    CacheEvent::Came(head(Kind::ResetQuery, version, 0, 0), false)
}

fn since(version: u8, session: u16, serial: u32, kept: bool) -> CacheEvent {
    CacheEvent::Came(head(Kind::SerialQuery, version, session, serial), kept)
}

fn faulty(version: u8, code: Option<u16>) -> CacheEvent {
    CacheEvent::Faulty(Fault {
        version,
        code: code.map(ErrorCode),
    })
}

/// An answer in a word.
fn word(answer: Answer) -> &'static str {
    match answer {
        Answer::Wait => "wait",
        Answer::All => "all",
        Answer::Changes(5) => "changes since 5",
        Answer::Changes(6) => "changes since 6",
        Answer::Changes(_) => "changes",
        Answer::Reset => "cache reset",
        Answer::NoData => "no data",
        Answer::Notify => "notify",
        Answer::End(closing) => match closing.report {
            None => "end",
            Some(report) => match (report.version, report.code) {
                (1, ErrorCode(0)) => "report 0 in 1, end",
                (1, ErrorCode(3)) => "report 3 in 1, end",
                (1, ErrorCode(5)) => "report 5 in 1, end",
                (1, ErrorCode(8)) => "report 8 in 1, end",
                (2, ErrorCode(1)) => "report 1 in 2, end",
                (2, ErrorCode(4)) => "report 4 in 2, end",
                _ => "report, end",
            },
        },
    }
}

/// Tells a cache these events, and compares its answers with the words.
fn follow(rt: &impl Abort, cache: &mut Cache, rows: &[(u32, Present, CacheEvent, &str)]) {
    for (i, (now, present, event, want)) in rows.iter().enumerate() {
        let got = word(cache.step(*now as u64, *present, *event));
        assert_eq!(rt; got, *want, "at {i}");
    }
}

#[test]
fn queries_and_notifies(rt: HostRuntime) {
    let mut cache = Cache::new(0, CacheSettings::usual());
    assert_eq!(rt; cache.wakes(data(7, 5)), 30_000);
    follow(
        &rt,
        &mut cache,
        &[
            (1, NONE, CacheEvent::Tick, "wait"),
            (2, data(7, 5), CacheEvent::Tick, "wait"),
            (3, NONE, since(1, 7, 5, true), "no data"),
            (4, data(7, 5), CacheEvent::Tick, "notify"),
            (5, data(7, 5), reset(1), "all"),
            (6, data(7, 6), CacheEvent::Tick, "wait"),
            (60_003, data(7, 6), CacheEvent::Tick, "wait"),
            (60_004, data(7, 6), CacheEvent::Tick, "notify"),
            (60_005, data(7, 6), CacheEvent::Tick, "wait"),
            (60_006, data(7, 6), since(1, 7, 5, true), "changes since 5"),
            (60_007, data(7, 6), since(1, 7, 6, false), "changes since 6"),
            (60_008, data(7, 6), since(1, 7, 4, false), "cache reset"),
            (60_009, data(7, 6), since(1, 8, 6, true), "cache reset"),
            (60_010, data(8, 1), CacheEvent::Tick, "end"),
            (60_011, data(8, 1), reset(1), "wait"),
        ],
    );
}

#[test]
fn times(rt: HostRuntime) {
    let mut cache = Cache::new(10, CacheSettings::usual());
    follow(
        &rt,
        &mut cache,
        &[
            (20, data(7, 5), reset(1), "all"),
            (30, data(7, 6), CacheEvent::Tick, "notify"),
        ],
    );
    assert_eq!(rt; cache.wakes(data(7, 6)), 90_000_020);
    assert_eq!(rt; cache.wakes(data(7, 7)), 60_030);
    assert_eq!(rt; cache.wakes(data(8, 7)), 0);
    let late = word(cache.step(90_000_020, data(7, 6), reset(1)));
    assert_eq!(rt; late, "end");
    assert_eq!(rt; cache.wakes(data(7, 6)), u64::MAX);
    let mut silent = Cache::new(10, CacheSettings::usual());
    follow(
        &rt,
        &mut silent,
        &[
            (30_009, data(7, 5), CacheEvent::Tick, "wait"),
            (30_010, data(7, 5), CacheEvent::Tick, "end"),
        ],
    );
}

/// One event on a new connection, and one on a connection of version 1.
#[test]
fn ends(rt: HostRuntime) {
    let prefix = CacheEvent::Came(head(Kind::Prefix, 1, 0, 0), false);
    let report = CacheEvent::Came(head(Kind::ErrorReport, 0, 0, 0), false);
    let rows = [
        (prefix, "report 3 in 1, end", "report 3 in 1, end"),
        (report, "end", "end"),
        (reset(2), "all", "report 8 in 1, end"),
        (reset(3), "report 4 in 2, end", "report 8 in 1, end"),
        (
            faulty(1, Some(5)),
            "report 5 in 1, end",
            "report 5 in 1, end",
        ),
        (
            faulty(7, Some(5)),
            "report 4 in 2, end",
            "report 8 in 1, end",
        ),
        (faulty(1, None), "end", "end"),
        (CacheEvent::Full, "report 1 in 2, end", "report, end"),
        (CacheEvent::Lost, "end", "end"),
    ];
    for (i, (event, first, later)) in rows.iter().enumerate() {
        let mut cache = Cache::new(0, CacheSettings::usual());
        let got = word(cache.step(1, data(7, 5), *event));
        assert_eq!(rt; got, *first, "at {i}");
        let mut cache = Cache::new(0, CacheSettings::usual());
        let all = word(cache.step(1, data(7, 5), reset(1)));
        assert_eq!(rt; all, "all", "before {i}");
        let got = word(cache.step(2, data(7, 5), *event));
        assert_eq!(rt; got, *later, "at {i}, later");
    }
}

/// After a cache reset the router counts as told of no data, so the next data may be of another
/// session.
#[test]
fn cache_resets(rt: HostRuntime) {
    let mut cache = Cache::new(0, CacheSettings::usual());
    follow(
        &rt,
        &mut cache,
        &[
            (1, data(7, 5), since(1, 7, 4, false), "cache reset"),
            (2, data(7, 5), CacheEvent::Tick, "wait"),
            (3, data(8, 5), CacheEvent::Tick, "wait"),
        ],
    );
    assert_eq!(rt; cache.wakes(data(8, 5)), 90_000_001);
    follow(
        &rt,
        &mut cache,
        &[
            (4, data(8, 5), reset(1), "all"),
            (5, data(8, 6), CacheEvent::Tick, "notify"),
            (6, data(8, 6), since(1, 8, 4, false), "cache reset"),
            (7, data(9, 6), CacheEvent::Tick, "end"),
        ],
    );
    let mut cache = Cache::new(0, CacheSettings::usual());
    follow(
        &rt,
        &mut cache,
        &[
            (1, data(7, 5), since(1, 3, 5, true), "cache reset"),
            (2, data(7, 6), CacheEvent::Tick, "notify"),
            (3, data(8, 6), CacheEvent::Tick, "end"),
        ],
    );
}

#[test]
fn refuses(rt: HostRuntime) {
    let mut cache = Cache::new(
        0,
        CacheSettings {
            refuses: true,
            ..CacheSettings::usual()
        },
    );
    follow(
        &rt,
        &mut cache,
        &[
            (1, data(7, 5), since(1, 7, 5, true), "changes since 5"),
            (2, data(7, 5), since(1, 7, 4, false), "report 0 in 1, end"),
        ],
    );
    assert_eq!(rt;
        Reason::Unknown.text(),
        "no data of this session and serial number"
    );
}
