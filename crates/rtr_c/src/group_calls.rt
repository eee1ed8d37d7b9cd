//! A group of caches by preference: one call for each event of a member, and one for time.

ghost use Rattle.std.specs.Prelude.{◌≡◌, false, is_some};
ghost use Rattle.std.specs.Option.{unwrap_or};
ghost use Rattle.session_group.specs.Groups.{best_of, counts, group_wakes};
ghost use Rattle.session_group.specs.declared.event.Event.TheVariants as events;
ghost use Rattle.rtr_c.specs.GroupsShown.{IsGroupStep, IsGroupTick, IsInitialGroup, group_of};
ghost use Rattle.rtr_c.specs.GroupsShown.{group_settings_of};
ghost use Rattle.rtr_c.specs.Routers.{clock};

use crate::answer::{ACCEPTED, TOO_MANY_MEMBERS};
use crate::group::{
    RtrGroup, RtrGroupAnswer, RtrGroupSettings, group_answer_to, group_from, group_settings_from,
    group_settings_to, group_to,
};
use crate::numbers::clock;
use session_group::event::Event;
use session_group::group::{Group, GroupError};
use session_group::settings::Settings;

/// The default settings, as `session_group::settings::Settings::usual`.
#[unsafe(no_mangle)]
pub extern "C" fn rtr_group_usual(settings: &mut RtrGroupSettings)
    ensures patience { settings.new.patience ≡ 5000 }
    ensures empty_is_data { settings.new.empty_is_data ≡ false }
{
    *settings = group_settings_to(&Settings::usual());
}

/// Begins a group of this number of members, whatever the struct holds, as
/// `session_group::group::Group::new`. For more than 16 it returns `TOO_MANY_MEMBERS`, and the
/// group has no members.
#[unsafe(no_mangle)]
pub extern "C" fn rtr_group_init(
    group: &mut RtrGroup,
    settings: &RtrGroupSettings,
    count: usize,
    now: u64,
) -> u8
    ensures { IsInitialGroup settings.now count (clock now) result group.new }
{
    let settings = group_settings_from(settings);
    match Group::new(count, settings, clock(now)) {
        Ok(machine) => {
            *group = group_to(&machine);
            ACCEPTED
        }
        Err(GroupError::TooManyMembers) => {
            *group = RtrGroup {
                settings: group_settings_to(&settings),
                count: 0,
                runs: 0,
                due: clock(now) + settings.patience as u64,
                has: [false; 16],
                current: false,
            };
            TOO_MANY_MEMBERS
        }
    }
}

/// The member whose data are shown, as `session_group::group::Group::best`: returns whether there
/// is one, and 0 if there is none.
#[unsafe(no_mangle)]
pub extern "C" fn rtr_group_best(group: &RtrGroup, member: &mut usize) -> bool
    ensures some { result ≡ is_some (best_of (group_of group.now)) }
    ensures member { member.new ≡ unwrap_or (best_of (group_of group.now)) 0 }
{
    let best = group_from(group).best();
    *member = best.unwrap_or(0);
    best.is_some()
}

/// Reports whether a whole answer with this number of payloads counts as data, as
/// `session_group::settings::Settings::counts`. Otherwise it is a failure.
#[unsafe(no_mangle)]
pub extern "C" fn rtr_group_counts(group: &RtrGroup, payloads: usize) -> bool
    ensures { result ≡ counts (group_settings_of group.now.settings) payloads }
{
    group_settings_from(&group.settings).counts(payloads)
}

/// When to call `rtr_group_tick`, if nothing happens before.
#[unsafe(no_mangle)]
pub extern "C" fn rtr_group_wakes(group: &RtrGroup) -> u64
    ensures { result ≡ group_wakes (group_of group.now) }
{
    group_from(group).wakes()
}

/// Time passed.
#[unsafe(no_mangle)]
pub extern "C" fn rtr_group_tick(group: &mut RtrGroup, now: u64, answer: &mut RtrGroupAnswer)
    ensures { IsGroupTick group.old (clock now) answer.new group.new }
{
    let mut machine = group_from(group);
    let told = machine.tick(clock(now));
    *group = group_to(&machine);
    *answer = group_answer_to(&told);
}

/// Takes a step of the machine.
fn step(group: &mut RtrGroup, now: u64, member: usize, event: Event) -> RtrGroupAnswer
    ensures { IsGroupStep group.old (clock now) member event result group.new }
{
    let mut machine = group_from(group);
    let answer = machine.step(clock(now), member, event);
    *group = group_to(&machine);
    group_answer_to(&answer)
}

/// Reports that the member shows data of a whole answer, with this number of payloads.
#[unsafe(no_mangle)]
pub extern "C" fn rtr_group_shows(
    group: &mut RtrGroup,
    now: u64,
    member: usize,
    payloads: usize,
    answer: &mut RtrGroupAnswer,
)
    ensures { IsGroupStep group.old (clock now) member (events.Shows payloads) answer.new
        group.new }
{
    *answer = step(group, now, member, Event::Shows(payloads));
}

/// Reports that the member has no data any more.
#[unsafe(no_mangle)]
pub extern "C" fn rtr_group_drops(
    group: &mut RtrGroup,
    now: u64,
    member: usize,
    answer: &mut RtrGroupAnswer,
)
    ensures { IsGroupStep group.old (clock now) member events.Drops answer.new group.new }
{
    *answer = step(group, now, member, Event::Drops);
}

/// Reports that the member failed, and keeps its data.
#[unsafe(no_mangle)]
pub extern "C" fn rtr_group_fails(
    group: &mut RtrGroup,
    now: u64,
    member: usize,
    answer: &mut RtrGroupAnswer,
)
    ensures { IsGroupStep group.old (clock now) member events.Fails answer.new group.new }
{
    *answer = step(group, now, member, Event::Fails);
}
