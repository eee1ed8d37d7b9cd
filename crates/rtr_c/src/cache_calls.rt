//! A cache's machine: one call for each event, and for what it sends.

ghost use Rattle.std.specs.Prelude.{◌≡◌, ◌+◌, ℕ, Option, true, false};
ghost use Rattle.std.specs.Option.{unwrap_or};
ghost use Rattle.session_cache.specs.CacheSteps.{cache_wakes_at};
ghost use Rattle.session_cache.specs.declared.event.CacheEvent.TheVariants as events;
ghost use Rattle.session_bytes.specs.Answered.{PlacesOpening};
ghost use Rattle.session_bytes.specs.Serving.{HearsRouter};
ghost use Rattle.session_bytes.specs.declared.serving.Served.{Served};
ghost use Rattle.rtr_c.specs.Caches.{cache_of, cache_settings_of, present_of};
ghost use Rattle.rtr_c.specs.Routers.{clock};
ghost use Rattle.rtr_c.specs.Servings.{IsServingStep, PlacesAnswer, served_of, state_of, unit_told};

use crate::answer::{fault_detail, fault_status};
use crate::cache::{
    RtrCache, RtrCacheSettings, RtrPresent, cache_from, cache_settings_from, cache_settings_to,
    cache_to, present_from,
};
use crate::next::wanted;
use crate::numbers::clock;
use crate::router_action::refusal_from;
use crate::serving::{RtrServing, answer_from, serving_to, state_from, waiting};
use session_bytes::{Served, place_opening, place_owed, serve};
use session_cache::cache::Cache;
use session_cache::event::{CacheEvent, Present};
use session_cache::settings::CacheSettings;

/// The default settings, as `session_cache::settings::CacheSettings::usual`.
#[unsafe(no_mangle)]
pub extern "C" fn rtr_cache_settings_usual(settings: &mut RtrCacheSettings)
    ensures first_limit { settings.new.first_limit ≡ 30000 }
    ensures idle_limit { settings.new.idle_limit ≡ 90000000 }
    ensures pause { settings.new.pause ≡ 60000 }
    ensures refuses { settings.new.refuses ≡ false }
{
    *settings = cache_settings_to(&CacheSettings::usual());
}

/// Begins a connection that was made at this time, whatever the struct holds, as
/// `session_cache::cache::Cache::new`.
#[unsafe(no_mangle)]
pub extern "C" fn rtr_cache_init(cache: &mut RtrCache, now: u64, settings: &RtrCacheSettings)
    ensures settings { cache_settings_of cache.new.settings ≡ cache_settings_of settings.now }
    ensures live { cache.new.live ≡ true }
    ensures asked { cache.new.asked ≡ false }
    ensures version { cache.new.version ≡ 0 }
    ensures told { cache.new.told ≡ false }
    ensures reset { cache.new.reset ≡ false }
    ensures session { cache.new.session ≡ 0 }
    ensures serial { cache.new.serial ≡ 0 }
    ensures notify_from { cache.new.notify_from ≡ 0 }
    ensures due { cache.new.due ≡ clock now + settings.now.first_limit }
{
    *cache = cache_to(&Cache::new(clock(now), cache_settings_from(settings)));
}

/// When to call `rtr_cache_tick`, given the newest data, if nothing comes before.
#[unsafe(no_mangle)]
pub extern "C" fn rtr_cache_wakes(cache: &RtrCache, present: &RtrPresent) -> u64
    ensures { result ≡ cache_wakes_at (cache_of cache.now) (present_of present.now) }
{
    cache_from(cache).wakes(present_from(present))
}

/// Takes a step of the machine.
fn step(cache: &mut RtrCache, now: u64, present: &RtrPresent, event: CacheEvent) -> RtrServing
    ensures { IsServingStep cache.old (clock now) present.now event result cache.new }
{
    let present = present_from(present);
    let mut machine = cache_from(cache);
    let answer = machine.step(clock(now), present, event);
    *cache = cache_to(&machine);
    serving_to(&answer, machine.version, &present)
}

/// Time passed, or there are new data.
#[unsafe(no_mangle)]
pub extern "C" fn rtr_cache_tick(
    cache: &mut RtrCache,
    now: u64,
    present: &RtrPresent,
    serving: &mut RtrServing,
)
    ensures { IsServingStep cache.old (clock now) present.now events.Tick serving.new cache.new }
{
    *serving = step(cache, now, present, CacheEvent::Tick);
}

/// The connection is above the limit of the cache.
#[unsafe(no_mangle)]
pub extern "C" fn rtr_cache_full(
    cache: &mut RtrCache,
    now: u64,
    present: &RtrPresent,
    serving: &mut RtrServing,
)
    ensures { IsServingStep cache.old (clock now) present.now events.Full serving.new cache.new }
{
    *serving = step(cache, now, present, CacheEvent::Full);
}

/// The connection was lost, and all input was read; or sending took too long.
#[unsafe(no_mangle)]
pub extern "C" fn rtr_cache_lost(
    cache: &mut RtrCache,
    now: u64,
    present: &RtrPresent,
    serving: &mut RtrServing,
)
    ensures { IsServingStep cache.old (clock now) present.now events.Lost serving.new cache.new }
{
    *serving = step(cache, now, present, CacheEvent::Lost);
}

/// Tells the cache of the unit at the front of the input, as `session_bytes::serve`.
#[unsafe(no_mangle)]
pub extern "C" fn rtr_cache_read_nonnull(
    cache: &mut RtrCache,
    now: u64,
    present: &RtrPresent,
    kept: &[u32],
    input: &[u8],
    ended: bool,
    serving: &mut RtrServing,
)
    ensures { (came : Served)
        × HearsRouter (cache_of cache.old) (clock now) (present_of present.now) kept.now input.now
        ended came (cache_of cache.new)
        × (serving.new ≡ unit_told came input.now cache.new.version (present_of present.now)) }
{
    let present = present_from(present);
    let mut machine = cache_from(cache);
    let came = serve(&mut machine, clock(now), present, kept, input, ended);
    *cache = cache_to(&machine);
    *serving = served_to(&came, input, machine.version, &present);
}

/// The result for the unit at the front of an input, in numbers.
fn served_to(came: &Served, input: &[u8], version: u8, present: &Present) -> RtrServing
    ensures { result ≡ unit_told came.now input.now version present.now }
{
    match came {
        Served::Awaits => RtrServing {
            wanted: wanted(input),
            ..waiting()
        },
        Served::Answered(size, answer) => RtrServing {
            taken: *size,
            ..serving_to(answer, version, present)
        },
        Served::Refused(fault, answer) => RtrServing {
            status: fault_status(fault),
            detail: fault_detail(fault),
            ..serving_to(answer, version, present)
        },
    }
}

/// Writes the unit that an answer begins with, as `session_bytes::place_opening`. Returns its
/// length in bytes, 8 or 12, or 0 if it begins with none or the output is too short.
#[unsafe(no_mangle)]
pub extern "C" fn rtr_cache_unit_nonnull(serving: &RtrServing, output: &mut [u8]) -> usize
    ensures { (n : Option ℕ)
        × PlacesOpening serving.now.version (served_of serving.now) (state_of serving.now) n
        output.old output.new × (result ≡ unwrap_or n 0) }
{
    let answer = answer_from(serving);
    place_opening(serving.version, &answer, &state_from(serving), output).unwrap_or(0)
}

/// Writes the report that an answer owes about the unit at the front of the input, as
/// `session_bytes::place_owed`. Reports whether it was written.
#[unsafe(no_mangle)]
pub extern "C" fn rtr_cache_report_nonnull(
    serving: &RtrServing,
    input: &[u8],
    output: &mut [u8],
    written: &mut usize,
) -> bool
    ensures { PlacesAnswer serving.now input.now output.old output.new written.new result }
{
    let answer = answer_from(serving);
    let refusal = refusal_from(serving.status, serving.detail);
    let placed = place_owed(serving.version, &answer, refusal, input, output);
    *written = placed.unwrap_or(0);
    placed.is_some()
}
