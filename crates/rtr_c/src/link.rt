//! A router's end with its bytes and its data, in numbers.

ghost use Rattle.std.specs.Prelude.{◌≡◌, ◌≢◌, ◌≤◌, ◌+◌, true};
ghost use Rattle.session_client.specs.Holding.{due_size};
ghost use Rattle.session_client.specs.Turning.{IsInStep, flag};
ghost use Rattle.rtr_c.specs.Links.{are_flags, came_before, client_of, flag_set, has_flags};
ghost use Rattle.rtr_c.specs.Links.{IsPlainLink, holding_number};
ghost use Rattle.rtr_c.specs.Links.{is_begun, link_router, numbered_holding, suits_phase};
ghost use Rattle.rtr_c.specs.Routers.{router_of};

use crate::router::{RtrKnown, RtrRouter, RtrSettings, router_from, router_to};
use session_client::client::{Client, Holding};

/// The mark of a struct that a call initialised.
const MARK: u32 = 1_280_461_387;

/// The numbers of the contents of the front of the input.
const NOTHING: u8 = 0;

const UNITS: u8 = 1;

const ANSWER: u8 = 2;

/// A router's end of a session: as `session_client::Client`. All fields are numbers, so that each
/// call reads any bytes; a flag is 0 or 1.
#[repr(C)]
#[derive(Clone, Copy)]
pub struct RtrLink {
    pub settings: RtrSettings,
    pub expires: u64,
    pub came: u64,
    pub asked: u64,
    pub tried: u64,
    pub due: u64,
    pub rises: u64,
    pub bytes: u64,
    /// The latest time that was passed.
    pub latest: u64,
    /// How many bytes came on the connection.
    pub received: u64,
    /// The length of the payload units at the front of the input.
    pub kept: usize,
    /// The length of the end of data behind them, in a whole answer, or 0.
    pub end_size: usize,
    /// The offset in the input at which the next bytes are read.
    pub filled: usize,
    /// The length of the data, or 0.
    pub shown: usize,
    /// How many bytes of the output are still to be sent.
    pub unsent: usize,
    pub known: RtrKnown,
    pub answer: RtrKnown,
    pub wait: u32,
    pub rise_wait: u32,
    pub units: u32,
    pub note: u32,
    pub mark: u32,
    pub session: u16,
    /// As in an `RtrRouter`.
    pub phase: u8,
    pub version: u8,
    pub floor: u8,
    pub agreed: u8,
    pub fell: u8,
    pub silent: u8,
    pub changes: u8,
    pub resync: u8,
    pub answered: u8,
    pub noted: u8,
    pub has_data: u8,
    /// What the first bytes of the input are: 0 nothing that counts, 1 payload units, 2 a whole
    /// answer.
    pub holding: u8,
    /// Whether an answer is changes of the data, and not of no data.
    pub since: u8,
    /// Whether there are data.
    pub shows: u8,
    /// Whether they are in the second data buffer.
    pub second: u8,
    pub opened: u8,
    pub closed: u8,
}

// The fields stand one after the other, and one byte is left at the end.
const _: () = prove!(size_of::<RtrLink>() == 232);

/// Whether a flag is set.
pub(crate) fn flag_from(number: u8) -> bool
    ensures { result ≡ flag_set number }
{
    number != 0
}

/// The number of a flag.
pub(crate) fn flag_to(set: bool) -> u8
    ensures number { result ≡ flag set }
    ensures same { flag_set result ≡ set }
    ensures most { result ≤ 1 }
{
    if set { 1 } else { 0 }
}

/// The machine that the struct has.
fn router_in(link: &RtrLink) -> RtrRouter
    ensures { result ≡ link_router link.now }
{
    RtrRouter {
        settings: link.settings,
        expires: link.expires,
        came: link.came,
        asked: link.asked,
        tried: link.tried,
        due: link.due,
        rises: link.rises,
        bytes: link.bytes,
        known: link.known,
        answer: link.answer,
        wait: link.wait,
        rise_wait: link.rise_wait,
        units: link.units,
        note: link.note,
        session: link.session,
        phase: link.phase,
        version: link.version,
        floor: link.floor,
        agreed: flag_from(link.agreed),
        fell: flag_from(link.fell),
        silent: flag_from(link.silent),
        changes: flag_from(link.changes),
        resync: flag_from(link.resync),
        answered: flag_from(link.answered),
        noted: flag_from(link.noted),
        has_data: flag_from(link.has_data),
    }
}

/// The contents of the front of the input.
fn holding_from(number: u8, size: usize, since: bool) -> Holding
    ensures { result ≡ numbered_holding number size since }
{
    match number {
        UNITS => Holding::Units,
        ANSWER => Holding::Answer(size, since),
        _ => Holding::Nothing,
    }
}

/// The client of the struct.
pub(crate) fn client_from(link: &RtrLink) -> Client
    ensures client { result ≡ client_of link.now }
    ensures step { is_begun link.now ≡ true → IsInStep result }
    ensures within { is_begun link.now ≡ true
        → result.kept + due_size result.holding ≤ result.filled }
{
    Client {
        router: router_from(&router_in(link)),
        holding: holding_from(link.holding, link.end_size, flag_from(link.since)),
        kept: link.kept,
        filled: link.filled,
        shown: if flag_from(link.shows) {
            Some(link.shown)
        } else {
            None
        },
        unsent: link.unsent,
        second: flag_from(link.second),
        opened: flag_from(link.opened),
        closed: flag_from(link.closed),
    }
}

/// The number of the contents of the front of the input, the length of the end of data of a whole
/// answer, and whether that answer changes the data.
fn holding_to(holding: Holding) -> (u8, usize, u8)
    ensures number { result.0 ≡ holding_number holding }
    ensures same { numbered_holding result.0 result.1 (flag_set result.2) ≡ holding }
    ensures size { result.1 ≡ due_size holding }
    ensures most { result.2 ≤ 1 }
    ensures none { result.0 ≢ 2 → (result.1 ≡ 0) × (result.2 ≡ 0) }
{
    match holding {
        Holding::Nothing => (NOTHING, 0, 0),
        Holding::Units => (UNITS, 0, 0),
        Holding::Answer(size, since) => (ANSWER, size, flag_to(since)),
    }
}

/// The struct for a client whose latest time is `latest`, after `received` bytes came.
pub(crate) fn link_to(client: &Client, latest: u64, received: u64) -> RtrLink
    ensures client { client_of result ≡ client.now }
    ensures latest { result.latest ≡ latest }
    ensures received { result.received ≡ received }
    ensures begun { IsInStep client.now
        → client.now.kept + due_size client.now.holding ≤ client.now.filled
        → is_begun result ≡ true }
    ensures plain { IsPlainLink result }
{
    let router = router_to(&client.router);
    let (holding, end_size, since) = holding_to(client.holding);
    RtrLink {
        settings: router.settings,
        expires: router.expires,
        came: router.came,
        asked: router.asked,
        tried: router.tried,
        due: router.due,
        rises: router.rises,
        bytes: router.bytes,
        latest,
        received,
        kept: client.kept,
        end_size,
        filled: client.filled,
        shown: client.shown.unwrap_or(0),
        unsent: client.unsent,
        known: router.known,
        answer: router.answer,
        wait: router.wait,
        rise_wait: router.rise_wait,
        units: router.units,
        note: router.note,
        mark: MARK,
        session: router.session,
        phase: router.phase,
        version: router.version,
        floor: router.floor,
        agreed: flag_to(router.agreed),
        fell: flag_to(router.fell),
        silent: flag_to(router.silent),
        changes: flag_to(router.changes),
        resync: flag_to(router.resync),
        answered: flag_to(router.answered),
        noted: flag_to(router.noted),
        has_data: flag_to(router.has_data),
        holding,
        since,
        shows: flag_to(client.shown.is_some()),
        second: flag_to(client.second),
        opened: flag_to(client.opened),
        closed: flag_to(client.closed),
    }
}

/// The number of bytes of the connection that came before those of the input.
pub(crate) fn came_before(link: &RtrLink) -> u64
    ensures { result ≡ came_before link.now }
{
    link.received.saturating_sub(link.filled as u64)
}

/// Whether the contents of the front of the input are possible in this phase.
fn suits_phase(phase: u8, holding: u8) -> bool
    ensures { result ≡ suits_phase phase holding }
{
    match phase {
        3 => holding == UNITS,
        4 => holding == ANSWER,
        _ => phase <= 5 && holding == NOTHING,
    }
}

/// Whether these are valid flags.
pub(crate) fn are_flags(a: u8, b: u8, c: u8, d: u8) -> bool
    ensures { result ≡ are_flags a b c d }
{
    a <= 1 && b <= 1 && c <= 1 && d <= 1
}

/// Whether all flags are valid.
fn has_flags(link: &RtrLink) -> bool
    ensures { result ≡ has_flags link.now }
{
    are_flags(link.agreed, link.fell, link.silent, link.changes)
        && are_flags(link.resync, link.answered, link.noted, link.has_data)
        && are_flags(link.since, link.shows, link.second, link.opened)
        && link.closed <= 1
}

/// Whether a call made the struct, as far as its fields show.
pub(crate) fn is_begun(link: &RtrLink) -> bool
    ensures { result ≡ is_begun link.now }
{
    link.mark == MARK
        && suits_phase(link.phase, link.holding)
        && link.end_size <= link.filled
        && link.kept <= link.filled - link.end_size
        && has_flags(link)
}
