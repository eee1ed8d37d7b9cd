//! A router's end with its bytes and its data: one call for each event, and one for the caller's
//! next action. Each call accepts any bytes as its struct.

ghost use Rattle.std.specs.Prelude.{◌≡◌, ◌≢◌, ◌≤◌, ◌+◌, ◌-◌, ◌^◌, ◌<◌, ℕ, List, length, take, drop};
ghost use Rattle.std.specs.Prelude.{true};
ghost use Rattle.session_router.specs.declared.settings.Settings.{Settings};
ghost use Rattle.session_client.specs.Holding.{IsClient, client_again, data_in, new_client};
ghost use Rattle.session_client.specs.Makings.{Octets};
ghost use Rattle.session_client.specs.declared.next.Todo.{Todo};
ghost use Rattle.rtr_c.specs.LinkTodos.{AsksNow, GivesUpRoom, TakesTurn, TellsTodo, refused_todo};
ghost use Rattle.rtr_c.specs.Links.{again_status, client_of, giving_up_status, is_begun, link_ok};
ghost use Rattle.rtr_c.specs.Links.{IsPlainLink, lost_status, more_received};
ghost use Rattle.rtr_c.specs.Links.{next_status, opened_status, received_status, sent_status};
ghost use Rattle.rtr_c.specs.Links.{telling_status};
ghost use Rattle.rtr_c.specs.Routers.{settings_of};

use crate::link::{RtrLink, came_before, client_from, link_to};
use crate::link_status::{
    OK, again_status, giving_up_status, lost_status, next_status, opened_status, received_status,
    sent_status, telling_status,
};
use crate::link_todo::{RtrTodo, received_after, refused, todo_to};
use crate::router::{RtrSettings, settings_from};
use session_client::client::Client;

/// Begins a client without data, whatever the struct holds, as `session_client::Client::new`.
#[unsafe(no_mangle)]
pub extern "C" fn rtr_link_init(link: &mut RtrLink, settings: &RtrSettings)
    ensures client { client_of link.new ≡ new_client (settings_of settings.now) }
    ensures latest { link.new.latest ≡ 0 }
    ensures received { link.new.received ≡ 0 }
    ensures begun { is_begun link.new ≡ true }
    ensures plain { IsPlainLink link.new }
{
    *link = link_to(&Client::new(settings_from(settings)), 0, 0);
}

/// Begins a client without data again, which continues with its cache, as
/// `session_client::Client::again`.
#[unsafe(no_mangle)]
pub extern "C" fn rtr_link_again(link: &mut RtrLink) -> u8
    ensures status { result ≡ again_status link.old }
    ensures refused { result ≢ link_ok → link.new ≡ link.old }
    ensures client { result ≡ link_ok → client_of link.new ≡ client_again (client_of link.old) }
    ensures latest { result ≡ link_ok → link.new.latest ≡ link.old.latest }
    ensures received { result ≡ link_ok → link.new.received ≡ 0 }
    ensures begun { is_begun link.old ≡ true → is_begun link.new ≡ true }
    ensures plain { result ≡ link_ok → IsPlainLink link.new }
{
    let status = again_status(link);
    if status == OK {
        *link = link_to(&client_from(link).again(), link.latest, 0);
    }
    status
}

/// Reports that a connection was opened, as `session_client::Client::opened`.
#[unsafe(no_mangle)]
pub extern "C" fn rtr_link_opened(link: &mut RtrLink) -> u8
    ensures status { result ≡ opened_status link.old }
    ensures refused { result ≢ link_ok → link.new ≡ link.old }
    ensures opened { result ≡ link_ok → link.new ≡ record link.old { opened = 1 } }
    ensures begun { is_begun link.old ≡ true → is_begun link.new ≡ true }
{
    let status = opened_status(link);
    if status == OK {
        link.opened = 1;
    }
    status
}

/// Reports that no connection could be opened, or that the peer closed it, as
/// `session_client::Client::closed`.
#[unsafe(no_mangle)]
pub extern "C" fn rtr_link_lost(link: &mut RtrLink) -> u8
    ensures status { result ≡ lost_status link.old }
    ensures refused { result ≢ link_ok → link.new ≡ link.old }
    ensures closed { result ≡ link_ok → link.new ≡ record link.old { closed = 1 } }
    ensures begun { is_begun link.old ≡ true → is_begun link.new ≡ true }
{
    let status = lost_status(link);
    if status == OK {
        link.closed = 1;
    }
    status
}

/// Reports that `size` bytes were read into the input, as `session_client::Client::received`.
#[unsafe(no_mangle)]
pub extern "C" fn rtr_link_received_nonnull(link: &mut RtrLink, input: &[u8], size: usize) -> u8
    ensures status { result ≡ received_status link.old (length input.now) size }
    ensures refused { result ≢ link_ok → link.new ≡ link.old }
    ensures filled { result ≡ link_ok
        → link.new ≡ record link.old {
          filled = link.old.filled + size;
          received = more_received link.old.received size;
        } }
    ensures begun { is_begun link.old ≡ true → is_begun link.new ≡ true }
    ensures serves { result ≡ link_ok → (s : Settings) (before buffer : Octets)
        → take link.old.filled before ≡ take link.old.filled input.now
        → IsClient s (client_of link.old) before buffer
        → IsClient s (client_of link.new) input.now buffer }
{
    let status = received_status(link, input.len(), size);
    if status == OK {
        let mut client = client_from(link);
        client.received(size, input);
        link.filled = client.filled;
        link.received = link.received.saturating_add(size as u64);
    }
    status
}

/// Reports that `size` bytes of the output were sent, as `session_client::Client::sent`.
#[unsafe(no_mangle)]
pub extern "C" fn rtr_link_sent_nonnull(link: &mut RtrLink, output: &mut [u8], size: usize) -> u8
    ensures status { result ≡ sent_status link.old (length output.old) size }
    ensures refused { result ≢ link_ok → (link.new ≡ link.old) × (output.new ≡ output.old) }
    ensures unsent { result ≡ link_ok
        → link.new ≡ record link.old { unsent = link.old.unsent - size } }
    ensures left { result ≡ link_ok
        → take link.new.unsent output.new ≡ drop size (take link.old.unsent output.old) }
    ensures begun { is_begun link.old ≡ true → is_begun link.new ≡ true }
{
    let status = sent_status(link, output.len(), size);
    if status == OK {
        let mut client = client_from(link);
        client.sent(size, output);
        link.unsent = client.unsent;
    }
    status
}

/// The caller's next action, as `session_client::Client::next`.
#[unsafe(no_mangle)]
pub extern "C" fn rtr_link_next_nonnull(
    link: &mut RtrLink,
    now: u64,
    input: &mut [u8],
    first: &mut [u8],
    second: &mut [u8],
    index: &mut [usize],
    output: &mut [u8],
    todo: &mut RtrTodo,
) -> u8
    ensures status { result ≡ next_status link.old now (length input.old) (length first.old)
        (length second.old) (length output.old) }
    ensures refused { result ≢ link_ok → (link.new ≡ link.old) × (todo.new ≡ refused_todo)
        × (input.new ≡ input.old) × (first.new ≡ first.old) × (second.new ≡ second.old)
        × (index.new ≡ index.old) × (output.new ≡ output.old) }
    ensures next { result ≡ link_ok → (t : Todo)
        × TellsTodo now link.old link.new input.new output.new todo.new t
        × TakesTurn now (client_of link.old) input.old first.old second.old (length index.old)
        output.old (client_of link.new) input.new first.new second.new output.new t }
{
    let status = next_status(
        link,
        now,
        input.len(),
        first.len(),
        second.len(),
        output.len(),
    );
    *todo = if status == OK {
        take_turn(link, now, input, first, second, index, output)
    } else {
        refused()
    };
    status
}

/// Calls the client of the struct.
fn take_turn(
    link: &mut RtrLink,
    now: u64,
    input: &mut [u8],
    first: &mut [u8],
    second: &mut [u8],
    index: &mut [usize],
    output: &mut [u8],
) -> RtrTodo
    requires begun { is_begun link.old ≡ true }
    requires filled { link.old.filled ≤ length input.old }
    requires unsent { link.old.unsent ≤ length output.old }
    requires time { now < 2 ^ 63 }
    ensures { (t : Todo) × TellsTodo now link.old link.new input.new output.new result t
        × TakesTurn now (client_of link.old) input.old first.old second.old (length index.old)
        output.old (client_of link.new) input.new first.new second.new output.new t }
{
    let before = came_before(link);
    let mut client = client_from(link);
    let todo = client.next(now, input, first, second, index, output);
    let received = received_after(&todo, link.received);
    *link = link_to(&client, now, received);
    todo_to(&todo, client.second, before, client.router.wakes())
}

/// Requests the present data, as `session_client::Client::ask_now`.
#[unsafe(no_mangle)]
pub extern "C" fn rtr_link_ask_now_nonnull(
    link: &mut RtrLink,
    now: u64,
    input: &mut [u8],
    output: &mut [u8],
    todo: &mut RtrTodo,
) -> u8
    ensures status { result ≡ telling_status link.old now (length input.old) (length output.old) }
    ensures refused { result ≢ link_ok → (link.new ≡ link.old) × (todo.new ≡ refused_todo)
        × (input.new ≡ input.old) × (output.new ≡ output.old) }
    ensures asks { result ≡ link_ok → (t : Todo)
        × TellsTodo now link.old link.new input.new output.new todo.new t
        × AsksNow now (client_of link.old) input.old output.old (client_of link.new) input.new
        output.new t }
{
    let status = telling_status(link, now, input.len(), output.len());
    *todo = if status == OK {
        ask_now(link, now, input, output)
    } else {
        refused()
    };
    status
}

/// Calls the client of the struct.
fn ask_now(link: &mut RtrLink, now: u64, input: &mut [u8], output: &mut [u8]) -> RtrTodo
    requires begun { is_begun link.old ≡ true }
    requires filled { link.old.filled ≤ length input.old }
    requires unsent { link.old.unsent ≤ length output.old }
    requires time { now < 2 ^ 63 }
    ensures { (t : Todo) × TellsTodo now link.old link.new input.new output.new result t
        × AsksNow now (client_of link.old) input.old output.old (client_of link.new) input.new
        output.new t }
{
    let before = came_before(link);
    let mut client = client_from(link);
    let todo = client.ask_now(now, input, output);
    let received = received_after(&todo, link.received);
    *link = link_to(&client, now, received);
    todo_to(&todo, client.second, before, client.router.wakes())
}

/// Reports that a buffer can't grow, as `session_client::Client::give_up`.
#[unsafe(no_mangle)]
pub extern "C" fn rtr_link_give_up_nonnull(
    link: &mut RtrLink,
    now: u64,
    input: &mut [u8],
    output: &mut [u8],
    todo: &mut RtrTodo,
) -> u8
    ensures status { result ≡ giving_up_status link.old now (length input.old)
        (length output.old) }
    ensures refused { result ≢ link_ok → (link.new ≡ link.old) × (todo.new ≡ refused_todo)
        × (input.new ≡ input.old) × (output.new ≡ output.old) }
    ensures gives { result ≡ link_ok → (t : Todo)
        × TellsTodo now link.old link.new input.new output.new todo.new t
        × GivesUpRoom now (client_of link.old) input.old output.old (client_of link.new) input.new
        output.new t }
{
    let status = giving_up_status(link, now, input.len(), output.len());
    *todo = if status == OK {
        give_up(link, now, input, output)
    } else {
        refused()
    };
    status
}

/// Calls the client of the struct.
fn give_up(link: &mut RtrLink, now: u64, input: &mut [u8], output: &mut [u8]) -> RtrTodo
    requires begun { is_begun link.old ≡ true }
    requires filled { link.old.filled ≤ length input.old }
    requires report { 65535 ≤ length output.old }
    requires time { now < 2 ^ 63 }
    ensures { (t : Todo) × TellsTodo now link.old link.new input.new output.new result t
        × GivesUpRoom now (client_of link.old) input.old output.old (client_of link.new) input.new
        output.new t }
{
    let before = came_before(link);
    let mut client = client_from(link);
    let todo = client.give_up(now, input, output);
    let received = received_after(&todo, link.received);
    *link = link_to(&client, now, received);
    todo_to(&todo, client.second, before, client.router.wakes())
}
