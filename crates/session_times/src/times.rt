//! The rules on the times of a cache.

ghost use Rattle.std.specs.Prelude.{◌≡◌, ◌↔◌, None};
ghost use Rattle.session_times.specs.AllowedTimes.{AreAllowedTimes, broken_time_rule, rule_text};

use rtr_base::timing::Timing;

/// A rule on the times of a cache (RFC 8210 section 6).
#[derive(Clone, Copy, Debug, PartialEq, Eq)]
pub enum TimeRule {
    /// The refresh time is 1 to 86400 seconds.
    Refresh,
    /// The retry time is 1 to 7200 seconds.
    Retry,
    /// The expire time is 600 to 172800 seconds.
    Expire,
    /// The expire time is longer than the refresh time.
    AboveRefresh,
    /// The expire time is longer than the retry time.
    AboveRetry,
}

/// The first rule that these times break, if any.
pub fn broken_time_rule(timing: Timing) -> Option<TimeRule>
    ensures first { result ≡ broken_time_rule timing }
    ensures allowed { result ≡ None ↔ AreAllowedTimes timing }
{
    let Timing {
        refresh,
        retry,
        expire,
    } = timing;
    if !(1..=86_400).contains(&refresh) {
        Some(TimeRule::Refresh)
    } else if !(1..=7200).contains(&retry) {
        Some(TimeRule::Retry)
    } else if !(600..=172_800).contains(&expire) {
        Some(TimeRule::Expire)
    } else if expire <= refresh {
        Some(TimeRule::AboveRefresh)
    } else if expire <= retry {
        Some(TimeRule::AboveRetry)
    } else {
        None
    }
}

impl TimeRule {
    /// The text of the rule.
    pub fn text(self) -> &'static str
        ensures { result.now ≡ rule_text self }
    {
        match self {
            TimeRule::Refresh => "the refresh time has to be 1 to 86400 seconds",
            TimeRule::Retry => "the retry time has to be 1 to 7200 seconds",
            TimeRule::Expire => "the expire time has to be 600 to 172800 seconds",
            TimeRule::AboveRefresh => "the expire time has to be longer than the refresh time",
            TimeRule::AboveRetry => "the expire time has to be longer than the retry time",
        }
    }
}
