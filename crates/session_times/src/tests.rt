//! The bounds of RFC 8210 section 6, on both sides of each.

use crate::{TimeRule, broken_time_rule};
use rtr_base::timing::Timing;
use std::process::Abort;
use std::rt::HostRuntime;

fn broken(refresh: u32, retry: u32, expire: u32) -> Option<TimeRule> {
    broken_time_rule(Timing {
        refresh,
        retry,
        expire,
    })
}

fn same(rt: &impl Abort, rows: &[(u32, u32, u32, Option<TimeRule>)]) {
    for (i, (refresh, retry, expire, want)) in rows.iter().enumerate() {
        let got = broken(*refresh, *retry, *expire);
        assert_eq!(rt; got, *want, "at {i}");
    }
}

#[test]
fn bounds(rt: HostRuntime) {
    same(
        &rt,
        &[
            (3600, 600, 7200, None),
            (1, 1, 600, None),
            (86_400, 7200, 172_800, None),
            (0, 600, 7200, Some(TimeRule::Refresh)),
            (86_401, 600, 172_800, Some(TimeRule::Refresh)),
            (3600, 0, 7200, Some(TimeRule::Retry)),
            (3600, 7201, 172_800, Some(TimeRule::Retry)),
            (1, 1, 599, Some(TimeRule::Expire)),
            (1, 1, 172_801, Some(TimeRule::Expire)),
            (0, 0, 10, Some(TimeRule::Refresh)),
            (u32::MAX, 600, 7200, Some(TimeRule::Refresh)),
        ],
    );
}

#[test]
fn order(rt: HostRuntime) {
    same(
        &rt,
        &[
            (7200, 600, 7200, Some(TimeRule::AboveRefresh)),
            (7199, 600, 7200, None),
            (600, 7200, 7200, Some(TimeRule::AboveRetry)),
            (600, 7199, 7200, None),
            (7200, 7200, 7200, Some(TimeRule::AboveRefresh)),
        ],
    );
    assert_eq!(rt;
        TimeRule::AboveRetry.text(),
        "the expire time has to be longer than the retry time"
    );
}
