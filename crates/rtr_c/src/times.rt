//! The rules on the times of a cache, in numbers.

ghost use Rattle.std.specs.Prelude.{◌≡◌};
ghost use Rattle.std.specs.Option.{option_copied};
ghost use Rattle.session_times.specs.AllowedTimes.{broken_time_rule};
ghost use Rattle.rtr_c.specs.TimeRules.{end_rule, time_rule_name, time_rule_number};

use rtr_base::timing::Timing;
use session_times::{TimeRule, broken_time_rule};

/// The first rule that these times break, in seconds, as `session_times::broken_time_rule`: 1 to 5,
/// or 0 if they keep all rules.
#[unsafe(no_mangle)]
pub extern "C" fn rtr_times_rule(refresh: u32, retry: u32, expire: u32) -> u8
    ensures { result ≡ time_rule_number (broken_time_rule (record {
      refresh = refresh;
      retry = retry;
      expire = expire;
    })) }
{
    match broken_time_rule(Timing {
        refresh,
        retry,
        expire,
    }) {
        None => 0,
        Some(TimeRule::Refresh) => 1,
        Some(TimeRule::Retry) => 2,
        Some(TimeRule::Expire) => 3,
        Some(TimeRule::AboveRefresh) => 4,
        Some(TimeRule::AboveRetry) => 5,
    }
}

/// Returns the first rule that the times of an end of data of this version break, as
/// `rtr_times_rule`; 0 for version 0, which has no times.
#[unsafe(no_mangle)]
pub extern "C" fn rtr_end_rule(version: u8, refresh: u32, retry: u32, expire: u32) -> u8
    ensures { result ≡ end_rule version (record {
      refresh = refresh;
      retry = retry;
      expire = expire;
    }) }
{
    if version == 0 {
        0
    } else {
        rtr_times_rule(refresh, retry, expire)
    }
}

/// The text of the rule with this number.
pub(crate) fn time_rule(number: u16) -> Option<&'static str>
    ensures { option_copied result ≡ time_rule_name number }
{
    match number {
        1 => Some(TimeRule::Refresh.text()),
        2 => Some(TimeRule::Retry.text()),
        3 => Some(TimeRule::Expire.text()),
        4 => Some(TimeRule::AboveRefresh.text()),
        5 => Some(TimeRule::AboveRetry.text()),
        _ => None,
    }
}
