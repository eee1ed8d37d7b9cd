//! Runs of a router, as in docs/SESSIONS.md.

use crate::event::{Action, Event};
use crate::head::{Fault, Head, Kind};
use crate::router::Router;
use crate::settings::Settings;
use rtr_base::error_code::ErrorCode;
use std::process::Abort;

fn head(kind: Kind, version: u8, session: u16, serial: u32) -> Head {
    Head {
        kind,
        version,
        session,
        serial,
        code: ErrorCode::CORRUPT_DATA,
        refresh: 3600,
        retry: 600,
        expire: 7200,
        size: 20,
    }
}

fn came(kind: Kind, version: u8, session: u16, serial: u32) -> Event {
    Event::Came(head(kind, version, session, serial))
}

fn report(version: u8, code: u16) -> Event {
    Event::Came(Head {
        code: ErrorCode(code),
        ..head(Kind::ErrorReport, version, 0, 0)
    })
}

/// An action in a word.
fn word(action: Action) -> &'static str {
    match action {
        Action::Wait => "wait",
        Action::Connect => "connect",
        Action::Ask(query) => match (query.changes, query.version) {
            (true, 0) => "serial query 0",
            (true, 1) => "serial query 1",
            (true, _) => "serial query 2",
            (false, 0) => "reset query 0",
            (false, 1) => "reset query 1",
            (false, _) => "reset query 2",
        },
        Action::Begin => "begin",
        Action::Keep => "keep",
        Action::Apply(true) => "apply",
        Action::Apply(false) => "apply to none",
        Action::Show => "show",
        Action::NoData => "no data",
        Action::Drop => "drop",
        Action::End(ending) => match (ending.drop, ending.report) {
            (true, Some(ErrorCode(0))) => "drop, report 0, end",
            (true, _) => "drop, end",
            (false, None) => "end",
            (false, Some(ErrorCode(0))) => "report 0, end",
            (false, Some(ErrorCode(4))) => "report 4, end",
            (false, Some(ErrorCode(5))) => "report 5, end",
            (false, Some(ErrorCode(8))) => "report 8, end",
            (false, _) => "report, end",
        },
    }
}

/// Tells a router these events, and compares its actions with the words.
fn follow(rt: &impl Abort, router: &mut Router, rows: &[(u32, Event, &str)]) {
    for (i, (now, event, want)) in rows.iter().enumerate() {
        let got = word(router.step(*now as u64, *event));
        assert_eq!(rt; got, *want, "at {i}");
    }
}

/// Loads data of session 7 and serial number 5, at these times.
fn load(rt: &impl Abort, router: &mut Router, version: u8, now: u32) {
    let at = now as u64;
    let wakes = router.wakes();
    assert!(rt; wakes <= at, "it wakes later");
    let begins = came(Kind::CacheResponse, version, 7, 0);
    let ends = came(Kind::EndOfData, version, 7, 5);
    assert_eq!(rt; word(router.step(at, Event::Tick)), "connect");
    let _query = router.step(at, Event::Connected);
    assert_eq!(rt; word(router.step(at, begins)), "begin");
    assert_eq!(rt; word(router.step(at, ends)), "apply to none");
    assert_eq!(rt; word(router.step(at, Event::Applied)), "show");
}

#[test]
fn a_session(rt: HostRuntime) {
    let mut router = Router::new(Settings::usual(1));
    load(&rt, &mut router, 1, 0);
    assert_eq!(rt; router.wakes(), 3_600_000);
    follow(
        &rt,
        &mut router,
        &[
            (8, came(Kind::SerialNotify, 1, 7, 5), "wait"),
            (9, Event::Tick, "wait"),
            (10, came(Kind::SerialNotify, 1, 7, 6), "wait"),
            (11, Event::Tick, "wait"),
            (1000, Event::Tick, "serial query 1"),
            (1001, came(Kind::CacheReset, 1, 0, 0), "reset query 1"),
            (121_000, came(Kind::CacheResponse, 1, 7, 0), "begin"),
            (121_000, came(Kind::RouterKey, 1, 0, 0), "keep"),
            (121_000, came(Kind::SerialNotify, 1, 7, 7), "wait"),
            (121_000, came(Kind::EndOfData, 1, 7, 6), "apply to none"),
            (121_000, Event::Applied, "show"),
            (121_000, Event::Tick, "serial query 1"),
            (121_001, came(Kind::CacheResponse, 1, 7, 0), "begin"),
            (121_002, came(Kind::Aspa, 1, 0, 0), "report 5, end"),
        ],
    );
    assert_eq!(rt; router.wakes(), 122_002);
}

#[test]
fn a_serial_query_that_fails(rt: HostRuntime) {
    let mut router = Router::new(Settings::usual(1));
    load(&rt, &mut router, 1, 0);
    follow(
        &rt,
        &mut router,
        &[
            (10, Event::Lost, "end"),
            (1010, Event::Tick, "connect"),
            (1011, Event::Connected, "serial query 1"),
            (1012, report(1, 3), "end"),
            (2012, Event::Tick, "connect"),
            (2013, Event::Connected, "reset query 1"),
            (2014, Event::Lost, "end"),
        ],
    );
    assert_eq!(rt; router.wakes(), 602_014);
    load(&rt, &mut router, 1, 602_014);
    follow(
        &rt,
        &mut router,
        &[
            (602_015, came(Kind::SerialNotify, 1, 7, 6), "wait"),
            (603_014, Event::Tick, "serial query 1"),
            (603_015, came(Kind::CacheResponse, 1, 7, 0), "begin"),
            (603_016, came(Kind::Prefix, 1, 0, 0), "keep"),
            (603_017, came(Kind::EndOfData, 1, 7, 5), "report 0, end"),
            (604_017, Event::Tick, "connect"),
            (604_018, Event::Connected, "reset query 1"),
        ],
    );
}

#[test]
fn no_data_available(rt: HostRuntime) {
    let mut router = Router::new(Settings::usual(1));
    load(&rt, &mut router, 1, 0);
    follow(
        &rt,
        &mut router,
        &[
            (3_600_000, Event::Tick, "serial query 1"),
            (3_600_001, report(1, 2), "no data"),
            (4_200_001, Event::Tick, "reset query 1"),
            (4_200_002, report(1, 2), "no data"),
            (4_800_001, Event::Tick, "wait"),
            (4_800_002, Event::Tick, "reset query 1"),
            (4_800_003, came(Kind::CacheResponse, 1, 7, 0), "begin"),
            (4_800_004, Event::Lost, "end"),
            (4_801_004, Event::Tick, "connect"),
            (4_801_005, Event::Connected, "reset query 1"),
            (4_921_005, Event::Tick, "end"),
            (4_923_005, Event::Tick, "connect"),
        ],
    );
}

#[test]
fn its_caller_asks(rt: HostRuntime) {
    let mut router = Router::new(Settings::usual(1));
    load(&rt, &mut router, 1, 0);
    follow(
        &rt,
        &mut router,
        &[
            (500, Event::Asked, "wait"),
            (999, Event::Tick, "wait"),
            (1000, Event::Tick, "serial query 1"),
            (1001, Event::Asked, "wait"),
            (1002, Event::Lost, "end"),
            (2002, Event::Tick, "connect"),
            (2003, Event::Lost, "end"),
            (2500, Event::Asked, "wait"),
        ],
    );
    assert_eq!(rt; router.wakes(), 3003);
    follow(
        &rt,
        &mut router,
        &[
            (3003, Event::Tick, "connect"),
            (3004, Event::Lost, "end"),
            (4100, Event::Asked, "wait"),
            (4100, Event::Tick, "connect"),
        ],
    );
}

#[test]
fn data_expire_from_their_receipt(rt: HostRuntime) {
    let mut router = Router::new(Settings::usual(1));
    follow(
        &rt,
        &mut router,
        &[
            (0, Event::Tick, "connect"),
            (0, Event::Connected, "reset query 1"),
            (1, came(Kind::CacheResponse, 1, 7, 0), "begin"),
            (1000, came(Kind::EndOfData, 1, 7, 5), "apply to none"),
            (5000, Event::Applied, "show"),
        ],
    );
    assert_eq!(rt; router.wakes(), 3_601_000);
    assert!(rt; router.has_data_at(7_200_999), "data are there");
    assert!(rt; !router.has_data_at(7_201_000), "data are there no more");
    follow(
        &rt,
        &mut router,
        &[
            (3_601_000, Event::Tick, "serial query 1"),
            (3_601_001, came(Kind::CacheResponse, 1, 7, 0), "begin"),
            (3_601_002, came(Kind::EndOfData, 1, 7, 6), "apply"),
            (7_201_000, Event::Applied, "drop, end"),
            (7_202_000, Event::Tick, "connect"),
            (7_202_000, Event::Connected, "reset query 1"),
            (7_202_001, came(Kind::CacheResponse, 1, 7, 0), "begin"),
            (7_202_002, came(Kind::EndOfData, 1, 7, 6), "apply to none"),
            (14_402_002, Event::Applied, "end"),
        ],
    );
}

#[test]
fn a_close_after_each_answer(rt: HostRuntime) {
    let mut router = Router::new(Settings::usual(1));
    load(&rt, &mut router, 1, 0);
    let rows: [(u32, u32); 14] = [
        (0, 1000),
        (1000, 3000),
        (3000, 7000),
        (7000, 15_000),
        (15_000, 31_000),
        (31_000, 63_000),
        (63_000, 127_000),
        (127_000, 255_000),
        (255_000, 511_000),
        (511_000, 1_023_000),
        (1_023_000, 2_047_000),
        (2_047_000, 4_095_000),
        (4_095_000, 7_695_000),
        (7_695_000, 11_295_000),
    ];
    for (now, wakes) in rows {
        assert_eq!(rt; word(router.step(now as u64, Event::Lost)), "end");
        assert_eq!(rt; router.wakes(), wakes as u64);
        follow(
            &rt,
            &mut router,
            &[
                (wakes, Event::Tick, "connect"),
                (wakes, Event::Connected, "serial query 1"),
                (wakes, came(Kind::CacheResponse, 1, 7, 0), "begin"),
                (wakes, came(Kind::EndOfData, 1, 7, 5), "apply"),
                (wakes, Event::Applied, "show"),
            ],
        );
    }
}

#[test]
fn a_version_rises(rt: HostRuntime) {
    let mut router = Router::new(Settings::usual(2));
    follow(
        &rt,
        &mut router,
        &[
            (0, Event::Tick, "connect"),
            (1, Event::Connected, "reset query 2"),
            (2, Event::Lost, "end"),
            (2, Event::Tick, "connect"),
            (3, Event::Connected, "reset query 1"),
            (4, came(Kind::CacheResponse, 1, 7, 0), "begin"),
            (5, came(Kind::EndOfData, 1, 7, 5), "apply to none"),
            (5, Event::Applied, "show"),
            (3_600_004, Event::Tick, "wait"),
            (3_600_005, Event::Tick, "end"),
            (3_600_005, Event::Tick, "connect"),
            (3_600_006, Event::Connected, "reset query 2"),
            (3_600_007, Event::Lost, "end"),
            (3_600_007, Event::Tick, "connect"),
            (3_600_008, Event::Connected, "serial query 1"),
            (3_600_009, came(Kind::CacheResponse, 1, 7, 0), "begin"),
            (3_600_010, came(Kind::EndOfData, 1, 7, 6), "apply"),
            (3_600_010, Event::Applied, "show"),
            (7_200_010, Event::Tick, "serial query 1"),
            (7_200_011, came(Kind::CacheResponse, 1, 7, 0), "begin"),
            (7_200_012, came(Kind::EndOfData, 1, 7, 7), "apply"),
            (7_200_012, Event::Applied, "show"),
            (10_800_012, Event::Tick, "end"),
            (10_800_012, Event::Tick, "connect"),
            (10_800_013, Event::Connected, "reset query 2"),
            (10_800_014, came(Kind::CacheResponse, 2, 7, 0), "begin"),
            (10_800_015, came(Kind::EndOfData, 2, 7, 7), "apply to none"),
            (10_800_015, Event::Applied, "show"),
            (14_400_015, Event::Tick, "serial query 2"),
        ],
    );
}

#[test]
fn another_session(rt: HostRuntime) {
    let mut router = Router::new(Settings::usual(1));
    load(&rt, &mut router, 1, 0);
    follow(
        &rt,
        &mut router,
        &[
            (10, came(Kind::SerialNotify, 1, 7, 6), "wait"),
            (1000, Event::Tick, "serial query 1"),
            (
                1001,
                came(Kind::CacheResponse, 1, 8, 0),
                "drop, report 0, end",
            ),
            (2000, Event::Tick, "wait"),
            (2001, Event::Tick, "connect"),
            (2002, Event::Connected, "reset query 1"),
            (2003, came(Kind::CacheResponse, 1, 8, 0), "begin"),
            (2004, came(Kind::EndOfData, 1, 7, 1), "report 0, end"),
        ],
    );
    assert_eq!(rt; router.wakes(), 3004);
}

#[test]
fn versions_fall(rt: HostRuntime) {
    let mut router = Router::new(Settings::usual(2));
    follow(
        &rt,
        &mut router,
        &[
            (0, Event::Tick, "connect"),
            (1, Event::Connected, "reset query 2"),
            (2, report(1, 4), "end"),
            (2, Event::Tick, "connect"),
            (3, Event::Connected, "reset query 1"),
            (4, Event::Lost, "end"),
            (4, Event::Tick, "connect"),
            (5, Event::Connected, "reset query 0"),
            (6, report(0, 2), "no data"),
            (600_006, Event::Tick, "reset query 0"),
            (600_007, came(Kind::CacheResponse, 0, 9, 0), "begin"),
            (600_008, Event::Lost, "end"),
        ],
    );
    load(&rt, &mut router, 2, 601_008);
    follow(
        &rt,
        &mut router,
        &[
            (700_000, Event::Lost, "end"),
            (701_000, Event::Tick, "connect"),
            (701_001, Event::Connected, "serial query 2"),
            (701_002, Event::Lost, "end"),
            (702_002, Event::Tick, "connect"),
            (702_003, Event::Connected, "reset query 2"),
            (702_004, Event::Lost, "end"),
        ],
    );
}

#[test]
fn waits_grow(rt: HostRuntime) {
    let settings = Settings {
        chance: 32768,
        ..Settings::usual(1)
    };
    let mut router = Router::new(settings);
    let rows: [(u32, u32); 11] = [
        (0, 1000),
        (1000, 2500),
        (2500, 5500),
        (5500, 11_500),
        (11_500, 23_500),
        (23_500, 47_500),
        (47_500, 95_500),
        (95_500, 191_500),
        (191_500, 383_500),
        (383_500, 767_500),
        (767_500, 1_217_500),
    ];
    for (now, wakes) in rows {
        assert_eq!(rt; word(router.step(now as u64, Event::Tick)), "connect");
        assert_eq!(rt; word(router.step(now as u64, Event::Lost)), "end");
        assert_eq!(rt; router.wakes(), wakes as u64);
    }
}

#[test]
fn data_expire(rt: HostRuntime) {
    let settings = Settings {
        refresh: 8_000_000,
        retry: 20_000_000,
        ..Settings::usual(1)
    };
    let mut router = Router::new(settings);
    load(&rt, &mut router, 1, 0);
    follow(
        &rt,
        &mut router,
        &[
            (3_600_000, Event::Tick, "serial query 1"),
            (3_600_001, report(1, 2), "no data"),
            (7_199_999, Event::Tick, "wait"),
            (7_200_000, came(Kind::SerialNotify, 1, 7, 6), "drop, end"),
            (7_201_000, Event::Tick, "connect"),
            (7_201_000, Event::Connected, "reset query 1"),
        ],
    );
}

#[test]
fn faults_and_limits(rt: HostRuntime) {
    let settings = Settings {
        most_units: 2,
        ..Settings::usual(2)
    };
    let mut router = Router::new(settings);
    let broken = |version| Event::Faulty(Fault {
        version,
        code: Some(ErrorCode::CORRUPT_DATA),
    });
    follow(
        &rt,
        &mut router,
        &[
            (0, Event::Tick, "connect"),
            (0, Event::Connected, "reset query 2"),
            (0, came(Kind::SerialNotify, 3, 1, 1), "wait"),
            (0, broken(3), "report 4, end"),
            (1000, Event::Tick, "connect"),
            (1000, Event::Connected, "reset query 2"),
            (1000, came(Kind::CacheResponse, 1, 7, 0), "begin"),
            (1000, came(Kind::Prefix, 1, 0, 0), "keep"),
            (1000, came(Kind::Prefix, 1, 0, 0), "keep"),
            (1000, came(Kind::Prefix, 1, 0, 0), "end"),
            (3000, Event::Tick, "connect"),
            (3000, Event::Connected, "reset query 2"),
            (3000, came(Kind::CacheResponse, 2, 7, 0), "begin"),
            (3000, broken(1), "report 8, end"),
            (7000, Event::Tick, "connect"),
            (37_000, Event::Connected, "end"),
        ],
    );
}
