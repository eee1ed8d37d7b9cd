//! A router's machine: one call for each event, and for what it sends.

ghost use Rattle.std.specs.Prelude.{◌≡◌, ℕ, Option, min};
ghost use Rattle.std.specs.Option.{option_map, unwrap_or};
ghost use Rattle.unit_views.specs.Placing.{Places};
ghost use Rattle.session_router.specs.After.{has_data_at, new_router};
ghost use Rattle.session_router.specs.Pace.{wakes_at};
ghost use Rattle.session_router.specs.declared.event.Event.TheVariants as events;
ghost use Rattle.session_bytes.specs.Reading.{Hears};
ghost use Rattle.session_bytes.specs.Sent.{query_bytes};
ghost use Rattle.session_bytes.specs.declared.telling.Told.{Told};
ghost use Rattle.rtr_c.specs.Numbers.{status_code};
ghost use Rattle.rtr_c.specs.RouterActions.{IsRouterStep, PlacesReport, query_of, read_told};
ghost use Rattle.rtr_c.specs.RouterActions.{with_status};
ghost use Rattle.rtr_c.specs.Routers.{clock, router_of, settings_of};
ghost use Rattle.rtr_c.specs.declared.router_action.RtrAction.{RtrAction};

use crate::answer::{fault_detail, fault_status};
use crate::next::wanted;
use crate::numbers::{clock, code_of};
use crate::router::{RtrRouter, RtrSettings, router_from, router_to, settings_from, settings_to};
use crate::router_action::{
    KEEP, RtrAction, action_to, ending_from, plain, query_from, refusal_from,
};
use session_bytes::{Told, place_ending, place_query, tell};
use session_router::event::Event;
use session_router::router::Router;
use session_router::settings::Settings;

/// The default settings, as `session_router::settings::Settings::usual`.
#[unsafe(no_mangle)]
pub extern "C" fn rtr_settings_usual(settings: &mut RtrSettings, highest: u8)
    ensures highest { settings.new.highest ≡ min highest 2 }
    ensures pause { settings.new.pause ≡ 1000 }
    ensures connect_limit { settings.new.connect_limit ≡ 30000 }
    ensures response_limit { settings.new.response_limit ≡ 120000 }
    ensures times { (settings.new.refresh ≡ 0) × (settings.new.retry ≡ 0)
        × (settings.new.expire ≡ 0) }
    ensures most_units { settings.new.most_units ≡ 4000000 }
    ensures most_bytes { settings.new.most_bytes ≡ 134217728 }
    ensures chance { settings.new.chance ≡ 0 }
{
    *settings = settings_to(&Settings::usual(highest));
}

/// Begins a router without data, whatever the struct holds, as
/// `session_router::router::Router::new`.
#[unsafe(no_mangle)]
pub extern "C" fn rtr_router_init(router: &mut RtrRouter, settings: &RtrSettings)
    ensures { router_of router.new ≡ new_router (settings_of settings.now) }
{
    *router = router_to(&Router::new(settings_from(settings)));
}

/// Begins a router without data again, which continues with its cache, as
/// `session_router::router::Router::again`.
#[unsafe(no_mangle)]
pub extern "C" fn rtr_router_again(router: &mut RtrRouter)
    ensures { router_of router.new ≡
        record (new_router (settings_of router.old.settings)) { wait = router.old.wait } }
{
    *router = router_to(&router_from(router).again());
}

/// Whether the router has data at this time.
#[unsafe(no_mangle)]
pub extern "C" fn rtr_router_has_data(router: &RtrRouter, now: u64) -> bool
    ensures { result ≡ has_data_at (router_of router.now) now }
{
    router_from(router).has_data_at(now)
}

/// When to call `rtr_router_tick`, if nothing comes before.
#[unsafe(no_mangle)]
pub extern "C" fn rtr_router_wakes(router: &RtrRouter) -> u64
    ensures { result ≡ wakes_at (router_of router.now) }
{
    router_from(router).wakes()
}

/// Takes a step of the machine.
fn step(router: &mut RtrRouter, now: u64, event: Event) -> RtrAction
    ensures { IsRouterStep router.old (clock now) event result router.new }
{
    let mut machine = router_from(router);
    let action = machine.step(clock(now), event);
    *router = router_to(&machine);
    action_to(action, machine.version)
}

/// Time passed.
#[unsafe(no_mangle)]
pub extern "C" fn rtr_router_tick(router: &mut RtrRouter, now: u64, action: &mut RtrAction)
    ensures { IsRouterStep router.old (clock now) events.Tick action.new router.new }
{
    *action = step(router, now, Event::Tick);
}

/// Requests the present data.
#[unsafe(no_mangle)]
pub extern "C" fn rtr_router_asked(router: &mut RtrRouter, now: u64, action: &mut RtrAction)
    ensures { IsRouterStep router.old (clock now) events.Asked action.new router.new }
{
    *action = step(router, now, Event::Asked);
}

/// Reports that a connection was opened.
#[unsafe(no_mangle)]
pub extern "C" fn rtr_router_connected(router: &mut RtrRouter, now: u64, action: &mut RtrAction)
    ensures { IsRouterStep router.old (clock now) events.Connected action.new router.new }
{
    *action = step(router, now, Event::Connected);
}

/// Reports that no connection could be opened, or that it was lost, and all input was read.
#[unsafe(no_mangle)]
pub extern "C" fn rtr_router_lost(router: &mut RtrRouter, now: u64, action: &mut RtrAction)
    ensures { IsRouterStep router.old (clock now) events.Lost action.new router.new }
{
    *action = step(router, now, Event::Lost);
}

/// Reports that all changes of the response were applied.
#[unsafe(no_mangle)]
pub extern "C" fn rtr_router_applied(router: &mut RtrRouter, now: u64, action: &mut RtrAction)
    ensures { IsRouterStep router.old (clock now) events.Applied action.new router.new }
{
    *action = step(router, now, Event::Applied);
}

/// Reports that no change was applied: one was refused with this status, or memory ran out.
#[unsafe(no_mangle)]
pub extern "C" fn rtr_router_not_applied(
    router: &mut RtrRouter,
    now: u64,
    status: u8,
    action: &mut RtrAction,
)
    ensures { (told : RtrAction) × (action.new ≡ with_status told status)
        × IsRouterStep router.old (clock now)
        (events.NotApplied (option_map (λ c. record { 0 = c }) (status_code status))) told
        router.new }
{
    *action = RtrAction {
        status,
        ..step(router, now, Event::NotApplied(code_of(status)))
    };
}

/// Tells the router of the units at the front of the input, as `session_bytes::tell`.
#[unsafe(no_mangle)]
pub extern "C" fn rtr_router_read_nonnull(
    router: &mut RtrRouter,
    now: u64,
    input: &[u8],
    ended: bool,
    action: &mut RtrAction,
)
    ensures { (told : Told) × Hears (router_of router.old) (clock now) input.now ended told
        (router_of router.new)
        × (action.new ≡ read_told told input.now (router_of router.new).version) }
{
    let mut machine = router_from(router);
    let told = tell(&mut machine, clock(now), input, ended);
    *router = router_to(&machine);
    *action = told_to(&told, input, machine.version);
}

/// The result for the units of an input, in numbers.
fn told_to(told: &Told, input: &[u8], version: u8) -> RtrAction
    ensures { result ≡ read_told told.now input.now version }
{
    match told {
        Told::Awaits => RtrAction {
            wanted: wanted(input),
            ..plain(0)
        },
        Told::Kept(taken) => RtrAction {
            taken: *taken,
            ..plain(KEEP)
        },
        Told::Acted { start, end, action } => RtrAction {
            start: *start,
            taken: *end,
            ..action_to(*action, version)
        },
        Told::Refused { fault, action } => RtrAction {
            status: fault_status(fault),
            detail: fault_detail(fault),
            ..action_to(*action, version)
        },
    }
}

/// Writes the query of an action, as `session_bytes::place_query`. Returns its length in bytes, 8
/// or 12, or 0 if the output is too short.
#[unsafe(no_mangle)]
pub extern "C" fn rtr_router_query_nonnull(action: &RtrAction, output: &mut [u8]) -> usize
    ensures { (n : Option ℕ) × Places n (query_bytes (query_of action.now)) output.old output.new
        × (result ≡ unwrap_or n 0) }
{
    place_query(&query_from(action), output).unwrap_or(0)
}

/// Writes the report that an action owes about the unit at the front of the input, as
/// `session_bytes::place_ending`. Reports whether it was written.
#[unsafe(no_mangle)]
pub extern "C" fn rtr_router_report_nonnull(
    action: &RtrAction,
    input: &[u8],
    output: &mut [u8],
    written: &mut usize,
) -> bool
    ensures { PlacesReport action.now input.now output.old output.new written.new result }
{
    let placed = place_ending(
        action.version,
        &ending_from(action),
        refusal_from(action.status, action.detail),
        input,
        output,
    );
    *written = placed.unwrap_or(0);
    placed.is_some()
}
