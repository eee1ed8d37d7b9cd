//! A group of members in order of preference.

ghost use Rattle.std.specs.Prelude.{◌≡◌, ◌<◌, ◌^◌, ◌↔◌, true, IfOk, IsErrOf};
ghost use Rattle.session_group.specs.Groups.{answer, asks_next, best_of, change_shown, counts};
ghost use Rattle.session_group.specs.Groups.{group_after, group_ticked, has_data, has_failed};
ghost use Rattle.session_group.specs.Groups.{if_less};
ghost use Rattle.session_group.specs.Groups.{answer_between, is_running, may_ask_next, news};
ghost use Rattle.session_group.specs.Groups.{once_heard, tick_answer, group_wakes};
ghost use Rattle.session_group.specs.Runs.{IsNewGroup};

use crate::event::{Answer, Event, Shown};
use crate::settings::Settings;
use std::error::Error;
use std::fmt;

/// The most members of a group.
pub const MOST: usize = 16;

/// Members in order of preference: 0 is preferred most. It records which members have data, not the
/// data.
///
/// A member is *current* from a complete answer until its next failure. A complete answer of a
/// member stops all members after it, so only the last running member can be current.
///
/// Times are milliseconds of a monotonic clock.
#[derive(Clone, Copy)]
pub struct Group {
    pub settings: Settings,
    /// The number of members.
    pub count: usize,
    /// The number of running members, which are the first ones.
    pub runs: usize,
    /// Whether each running member has data.
    pub has: [bool; 16],
    /// Whether the last running member is current.
    pub current: bool,
    /// When the next member starts, unless the last running one is current by then.
    pub due: u64,
}

/// Why `Group::new` fails.
#[derive(Clone, Copy, Debug, PartialEq, Eq)]
pub enum GroupError {
    /// More than 16 members.
    TooManyMembers,
}

impl fmt::Display for GroupError {
    ghost use Rattle.std.specs.Prelude.{Some};
    ghost use Rattle.session_group.specs.Texts.{group_error_text};

    ghost output = { λ e. Some (group_error_text e) };

    fn fmt<W: fmt::Write>(&self, f: &mut fmt::Formatter<W>) -> fmt::Result {
        f.write_str(match self {
            GroupError::TooManyMembers => "more than 16 members",
        })
    }
}

impl Error for GroupError {}

impl Group {
    /// Returns a group of `count` members without data. The caller starts the first member now.
    pub fn new(count: usize, settings: Settings, now: u64) -> Result<Group, GroupError>
        requires time { now < 2 ^ 63 }
        ensures new { IfOk result (IsNewGroup count settings now) }
        ensures too_many { IsErrOf result GroupError.TooManyMembers ↔ (16 < count) }
    {
        if count > MOST {
            return Err(GroupError::TooManyMembers);
        }
        Ok(Group {
            settings,
            count,
            runs: count.min(1),
            has: [false; 16],
            current: false,
            due: now + settings.patience as u64,
        })
    }

    /// Returns the member whose data are shown: the current member, or, if none is current, the
    /// member with data whose complete answer came last. Either is the last member that has data.
    pub fn best(&self) -> Option<usize>
        ensures { result ≡ best_of self.now }
    {
        let mut best = None;
        for member in 0..MOST {
            if self.has_data(member) {
                best = Some(member);
            }
        }
        best
    }

    /// Reports whether a member has data. A stopped member has none.
    pub fn has_data(&self, member: usize) -> bool
        ensures { result ≡ has_data self.now member }
    {
        member < self.runs && member < MOST && self.has[member]
    }

    /// Returns when to call `tick`, if no event comes before: at the end of the patience while no
    /// member is current and another one can start, otherwise never, which is the greatest number.
    pub fn wakes(&self) -> u64
        ensures { result ≡ group_wakes self.now }
    {
        if self.may_ask_next() {
            self.due
        } else {
            u64::MAX
        }
    }

    /// Time passed. Starts the next member if the patience is over.
    pub fn tick(&mut self, now: u64) -> Answer
        requires time { now < 2 ^ 63 }
        ensures group { self.new ≡ group_ticked self.old now }
        ensures answer { result ≡ tick_answer self.old now }
    {
        let before = *self;
        if self.may_ask_next() && now >= self.due {
            self.ask_next(now);
        }
        self.answer(&before, None)
    }

    /// Takes an event of a member. Ignores those of stopped members.
    pub fn step(&mut self, now: u64, member: usize, event: Event) -> Answer
        requires time { now < 2 ^ 63 }
        ensures group { self.new ≡ group_after self.old now member event }
        ensures answer { result ≡ answer self.old now member event }
    {
        let before = *self;
        if member < self.runs && member < MOST {
            self.hear(now, member, event);
        }
        self.answer(&before, news(&before.settings, member, event))
    }

    /// Returns what the caller does after a step from `before`. `news` is the member with new data.
    fn answer(&self, before: &Group, news: Option<usize>) -> Answer
        ensures { result ≡ answer_between before.now self.now news }
    {
        Answer {
            shown: change(before.best(), self.best(), news),
            stops: if_less(self.runs, before.runs),
            starts: if_less(before.runs, self.runs),
        }
    }

    /// Takes an event of a running member.
    fn hear(&mut self, now: u64, member: usize, event: Event)
        requires time { now < 2 ^ 63 }
        requires running { is_running self.old member ≡ true }
        ensures { self.new ≡ once_heard self.old now member event }
    {
        match event {
            Event::Shows(payloads) if self.settings.counts(payloads) => {
                self.has[member] = true;
                self.runs = member + 1;
                self.current = true;
            }
            Event::Shows(_) | Event::Drops => {
                self.has[member] = false;
                self.fail(now, member);
            }
            Event::Fails => self.fail(now, member),
        }
    }

    /// A member failed. If it is the last running one, it is no longer current, and the next one
    /// starts.
    fn fail(&mut self, now: u64, member: usize)
        requires time { now < 2 ^ 63 }
        requires running { is_running self.old member ≡ true }
        ensures { self.new ≡ has_failed self.old now member }
    {
        if member + 1 == self.runs {
            self.current = false;
            if self.may_ask_next() {
                self.ask_next(now);
            }
        }
    }

    /// Reports whether the next member starts when the patience is over.
    fn may_ask_next(&self) -> bool
        ensures { result ≡ may_ask_next self.now }
    {
        !self.current && self.runs < self.count && self.runs < MOST
    }

    /// Starts the next member.
    fn ask_next(&mut self, now: u64)
        requires time { now < 2 ^ 63 }
        requires another { may_ask_next self.old ≡ true }
        ensures { self.new ≡ asks_next self.old now }
    {
        self.has[self.runs] = false;
        self.runs += 1;
        self.due = now + self.settings.patience as u64;
    }
}

/// Returns what happens to the shown data, if the best member was `before` and is `now`, and `news`
/// has new data.
fn change(before: Option<usize>, now: Option<usize>, news: Option<usize>) -> Shown
    ensures { result ≡ change_shown before now news }
{
    match (before, now) {
        (None, None) => Shown::Same,
        (Some(_), None) => Shown::Nothing,
        (None, Some(member)) => Shown::Data(member),
        (Some(shown), Some(member)) => {
            let is_new = match news {
                Some(teller) => teller == member,
                None => false,
            };
            if member == shown && !is_new {
                Shown::Same
            } else {
                Shown::Data(member)
            }
        }
    }
}

/// Returns the member with new data.
fn news(settings: &Settings, member: usize, event: Event) -> Option<usize>
    ensures { result ≡ news settings.now member event }
{
    match event {
        Event::Shows(payloads) if settings.counts(payloads) => Some(member),
        _ => None,
    }
}

fn if_less(number: usize, other: usize) -> Option<usize>
    ensures { result ≡ if_less number other }
{
    if number < other { Some(number) } else { None }
}
