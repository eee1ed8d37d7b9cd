//! A group of caches by preference, in numbers.

ghost use Rattle.std.specs.Prelude.{◌≡◌};
ghost use Rattle.rtr_c.specs.GroupsShown.{answer_shown, group_of, group_settings_of, member_shown};
ghost use Rattle.rtr_c.specs.GroupsShown.{shown_number};

use session_group::event::{Answer, Shown};
use session_group::group::Group;
use session_group::settings::Settings;

/// The settings of a group: as `session_group::settings::Settings`.
#[repr(C)]
#[derive(Clone, Copy)]
pub struct RtrGroupSettings {
    /// How long, in milliseconds, a member may have no whole answer before the next one is started
    /// too, while none is current; default 5 seconds.
    pub patience: u32,
    /// Whether a whole answer without payloads counts as data, and not as a failure that drops
    /// them; default false.
    pub empty_is_data: bool,
}

// The fields stand one after the other, and three bytes are left at the end.
const _: () = prove!(size_of::<RtrGroupSettings>() == 8);

/// A group: as `session_group::group::Group`.
#[repr(C)]
#[derive(Clone, Copy)]
pub struct RtrGroup {
    /// The settings of the group.
    pub settings: RtrGroupSettings,
    /// The number of members.
    pub count: usize,
    /// The number of members that run, from the first on.
    pub runs: usize,
    /// When the next member is started, while none is current.
    pub due: u64,
    /// Whether each member that runs has data.
    pub has: [bool; 16],
    /// Whether the last member that runs is current.
    pub current: bool,
}

// The fields stand one after the other, and seven bytes are left at the end.
const _: () = prove!(size_of::<RtrGroup>() == 56);

/// The caller's next actions: as `session_group::event::Answer`. Fields that an answer doesn't have
/// are 0.
#[repr(C)]
#[derive(Clone, Copy)]
pub struct RtrGroupAnswer {
    /// The member whose data to show, for RTR_GROUP_DATA.
    pub member: usize,
    /// The first member to stop, if `stops`.
    pub stop: usize,
    /// The member to start, if `starts`.
    pub start: usize,
    /// How the shown data change, an rtr_group_shown.
    pub shown: u8,
    /// Whether members have to be stopped.
    pub stops: bool,
    /// Whether a member has to be started.
    pub starts: bool,
}

// The fields stand one after the other, and five bytes are left at the end.
const _: () = prove!(size_of::<RtrGroupAnswer>() == 32);

/// The settings of the struct.
pub(crate) fn group_settings_from(settings: &RtrGroupSettings) -> Settings
    ensures { result ≡ group_settings_of settings.now }
{
    Settings {
        patience: settings.patience,
        empty_is_data: settings.empty_is_data,
    }
}

/// The struct for settings.
pub(crate) fn group_settings_to(settings: &Settings) -> RtrGroupSettings
    ensures { group_settings_of result ≡ settings.now }
{
    RtrGroupSettings {
        patience: settings.patience,
        empty_is_data: settings.empty_is_data,
    }
}

/// The group of the struct.
pub(crate) fn group_from(group: &RtrGroup) -> Group
    ensures { result ≡ group_of group.now }
{
    Group {
        settings: group_settings_from(&group.settings),
        count: group.count,
        runs: group.runs,
        has: group.has,
        current: group.current,
        due: group.due,
    }
}

/// The struct for a group.
pub(crate) fn group_to(group: &Group) -> RtrGroup
    ensures { group_of result ≡ group.now }
{
    RtrGroup {
        settings: group_settings_to(&group.settings),
        count: group.count,
        runs: group.runs,
        due: group.due,
        has: group.has,
        current: group.current,
    }
}

/// An answer, in numbers.
pub(crate) fn group_answer_to(answer: &Answer) -> RtrGroupAnswer
    ensures { result ≡ answer_shown answer.now }
{
    RtrGroupAnswer {
        member: member_to(answer.shown),
        stop: answer.stops.unwrap_or(0),
        start: answer.starts.unwrap_or(0),
        shown: shown_to(answer.shown),
        stops: answer.stops.is_some(),
        starts: answer.starts.is_some(),
    }
}

fn shown_to(shown: Shown) -> u8
    ensures { result ≡ shown_number shown }
{
    match shown {
        Shown::Same => 0,
        Shown::Data(_) => 1,
        Shown::Nothing => 2,
    }
}

fn member_to(shown: Shown) -> usize
    ensures { result ≡ member_shown shown }
{
    match shown {
        Shown::Data(member) => member,
        Shown::Same | Shown::Nothing => 0,
    }
}
