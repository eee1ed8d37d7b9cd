//! The contents of the buffers of a router's end, in numbers.

ghost use Rattle.std.specs.Prelude.{◌≡◌, ◌≢◌, ◌≤◌};
ghost use Rattle.rtr_c.specs.LinkStates.{no_state, state_told};
ghost use Rattle.rtr_c.specs.Links.{client_of, data_length, link_ok, next_status};

use crate::link::{RtrLink, client_from};
use crate::link_status::{OK, next_status};
use session_client::client::Client;

/// The contents of the buffers at a time.
#[repr(C)]
#[derive(Clone, Copy)]
pub struct RtrLinkState {
    /// When to call rtr_link_next, if nothing comes before. It may have passed.
    pub wakes: u64,
    /// The offset in the input at which the next bytes are read.
    pub filled: usize,
    /// The number of unsent bytes of the output, from its front.
    pub unsent: usize,
    /// The length of the data, in canonical form; 0 if there are none.
    pub shown: usize,
    /// The length of the payload units of a whole answer, at the front of the input, which the next
    /// rtr_link_next applies; or 0.
    pub answer: usize,
    /// Whether there are data, which haven't expired at this time.
    pub has_data: bool,
    /// Whether the data are in the second buffer.
    pub second: bool,
    /// Whether a whole answer is there.
    pub answers: bool,
    /// Whether its units are changes of the data, and not all payloads.
    pub since: bool,
}

// The fields stand one after the other, and four bytes are left at the end.
const _: () = prove!(size_of::<RtrLinkState>() == 48);

/// The state of the client's buffers at this time.
fn state_of(client: &Client, now: u64) -> RtrLinkState
    ensures { result ≡ state_told client.now now }
{
    let has_data = client.shown.is_some() && client.router.has_data_at(now);
    let (answer, since) = client.answer().unwrap_or((0, false));
    RtrLinkState {
        wakes: client.router.wakes(),
        filled: client.filled,
        unsent: client.unsent,
        shown: if has_data {
            client.shown.unwrap_or(0)
        } else {
            0
        },
        answer,
        has_data,
        second: client.second,
        answers: client.answer().is_some(),
        since,
    }
}

/// The state of a call that was refused.
fn none() -> RtrLinkState
    ensures { result ≡ no_state }
{
    RtrLinkState {
        wakes: 0,
        filled: 0,
        unsent: 0,
        shown: 0,
        answer: 0,
        has_data: false,
        second: false,
        answers: false,
        since: false,
    }
}

/// The contents of buffers of these lengths.
#[unsafe(no_mangle)]
pub extern "C" fn rtr_link_state_of(
    link: &RtrLink,
    now: u64,
    input: usize,
    first: usize,
    second: usize,
    output: usize,
    state: &mut RtrLinkState,
) -> u8
    ensures status { result ≡ next_status link.now now input first second output }
    ensures refused { result ≢ link_ok → state.new ≡ no_state }
    ensures state { result ≡ link_ok → state.new ≡ state_told (client_of link.now) now }
    ensures filled { state.new.filled ≤ input }
    ensures unsent { state.new.unsent ≤ output }
    ensures shown { state.new.shown ≤ data_length link.now first second }
{
    let status = next_status(link, now, input, first, second, output);
    *state = if status == OK {
        state_of(&client_from(link), now)
    } else {
        none()
    };
    status
}
