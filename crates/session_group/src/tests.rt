//! Runs of groups, as in docs/SESSIONS.md.

use crate::event::{Answer, Event, Shown};
use crate::group::{Group, GroupError};
use crate::settings::Settings;
use std::process::Abort;
use std::rt::HostRuntime;

/// A group of this number of members at time 0, with the usual settings.
fn group_of(rt: &impl Abort, count: usize) -> Group {
    match Group::new(count, Settings::usual(), 0) {
        Ok(group) => group,
        Err(_) => panic!(rt; "refused"),
    }
}

/// What happens to the shown data, in a word.
fn word(answer: &Answer) -> &'static str {
    match answer.shown {
        Shown::Same => "same",
        Shown::Data(0) => "data of 0",
        Shown::Data(1) => "data of 1",
        Shown::Data(2) => "data of 2",
        Shown::Data(_) => "data of another",
        Shown::Nothing => "nothing",
    }
}

/// The members that stop and start, with 99 for none.
fn who(answer: &Answer) -> (usize, usize) {
    (answer.stops.unwrap_or(99), answer.starts.unwrap_or(99))
}

/// Each event, and then the shown data, the member that stops, and the member that starts.
fn follow(rt: &impl Abort, group: &mut Group, rows: &[(usize, Event, &'static str, usize, usize)]) {
    for (member, event, shown, stops, starts) in rows {
        let answer = group.step(0, *member, *event);
        assert_eq!(rt; word(&answer), *shown);
        assert_eq!(rt; who(&answer), (*stops, *starts));
    }
}

/// Times at which time passes, and the member that starts.
fn pass(rt: &impl Abort, group: &mut Group, rows: &[(u32, usize)]) {
    for (now, starts) in rows {
        let answer = group.tick(*now as u64);
        assert_eq!(rt; word(&answer), "same");
        assert_eq!(rt; who(&answer), (99, *starts));
    }
}

#[test]
fn down_and_up(rt: HostRuntime) {
    let mut group = group_of(&rt, 3);
    follow(
        &rt,
        &mut group,
        &[
            (0, Event::Fails, "same", 99, 1),
            (1, Event::Shows(5), "data of 1", 99, 99),
            (0, Event::Fails, "same", 99, 99),
            (1, Event::Fails, "same", 99, 2),
            (2, Event::Shows(6), "data of 2", 99, 99),
            (1, Event::Drops, "same", 99, 99),
            (0, Event::Shows(7), "data of 0", 1, 99),
            (2, Event::Drops, "same", 99, 99),
            (0, Event::Shows(7), "data of 0", 99, 99),
            (0, Event::Drops, "nothing", 99, 1),
            (0, Event::Fails, "same", 99, 99),
            (1, Event::Fails, "same", 99, 2),
        ],
    );
    assert!(rt; group.best().is_none());
}

// Old data are shown until another member has a whole answer, and the preferred member's again as
// soon as it has one.
#[test]
fn old_data_give_way(rt: HostRuntime) {
    let mut group = group_of(&rt, 2);
    follow(
        &rt,
        &mut group,
        &[
            (0, Event::Shows(5), "data of 0", 99, 99),
            (0, Event::Fails, "same", 99, 1),
            (1, Event::Shows(6), "data of 1", 99, 99),
            (0, Event::Fails, "same", 99, 99),
            (1, Event::Fails, "same", 99, 99),
            (0, Event::Shows(5), "data of 0", 1, 99),
            (0, Event::Fails, "same", 99, 1),
            (1, Event::Shows(6), "data of 1", 99, 99),
            (1, Event::Drops, "data of 0", 99, 99),
            (0, Event::Drops, "nothing", 99, 99),
        ],
    );
}

// An empty answer is a failure, and drops the data of before; unless the settings say otherwise.
#[test]
fn empty_answers(rt: HostRuntime) {
    let mut group = group_of(&rt, 2);
    follow(
        &rt,
        &mut group,
        &[
            (0, Event::Shows(0), "same", 99, 1),
            (1, Event::Shows(1), "data of 1", 99, 99),
            (1, Event::Shows(0), "nothing", 99, 99),
        ],
    );
    let settings = Settings {
        empty_is_data: true,
        ..Settings::usual()
    };
    let mut group = match Group::new(2, settings, 0) {
        Ok(group) => group,
        Err(_) => panic!(rt; "refused"),
    };
    follow(
        &rt,
        &mut group,
        &[
            (0, Event::Shows(0), "data of 0", 99, 99),
            (0, Event::Drops, "nothing", 99, 1),
            (1, Event::Shows(0), "data of 1", 99, 99),
        ],
    );
}

// Members that are silent are joined by the next one after five seconds each.
#[test]
fn patience(rt: HostRuntime) {
    let mut group = group_of(&rt, 3);
    assert_eq!(rt; group.wakes(), 5000);
    pass(&rt, &mut group, &[(0, 99), (4999, 99), (5001, 1)]);
    assert_eq!(rt; group.wakes(), 10_001);
    follow(
        &rt,
        &mut group,
        &[(1, Event::Shows(5), "data of 1", 99, 99)],
    );
    assert_eq!(rt; group.wakes(), u64::MAX);
    pass(&rt, &mut group, &[(20_000, 99), (30_000, 99)]);
    assert_eq!(rt; who(&group.step(30_000, 1, Event::Fails)), (99, 2));
    assert_eq!(rt; group.wakes(), u64::MAX);
    pass(&rt, &mut group, &[(40_000, 99), (50_000, 99)]);
    follow(&rt, &mut group, &[(0, Event::Shows(5), "data of 0", 1, 99)]);
}

#[test]
fn members_that_there_are(rt: HostRuntime) {
    let refused = match Group::new(17, Settings::usual(), 0) {
        Ok(_) => false,
        Err(GroupError::TooManyMembers) => true,
    };
    assert!(rt; refused);
    let mut group = group_of(&rt, 16);
    for member in 0..15 {
        let answer = group.step(0, member, Event::Fails);
        assert_eq!(rt; who(&answer), (99, member + 1));
    }
    follow(
        &rt,
        &mut group,
        &[
            (15, Event::Fails, "same", 99, 99),
            (16, Event::Shows(5), "same", 99, 99),
            (15, Event::Shows(5), "data of another", 99, 99),
        ],
    );
    let mut none = group_of(&rt, 0);
    follow(&rt, &mut none, &[(0, Event::Shows(5), "same", 99, 99)]);
    pass(&rt, &mut none, &[(5000, 99), (10_000, 99)]);
}
