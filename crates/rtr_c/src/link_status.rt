//! The statuses of calls for a router's end.

ghost use Rattle.std.specs.Prelude.{◌≡◌, ◌≤◌, ◌<◌, ◌+◌, ◌^◌, true, List, length, ℕ};
ghost use Rattle.session_client.specs.Holding.{Fits};
ghost use Rattle.rtr_c.specs.Links.{again_status, client_of, data_length, giving_up_status};
ghost use Rattle.rtr_c.specs.Links.{is_begun, is_linked};
ghost use Rattle.rtr_c.specs.Links.{link_ok, lost_status, next_status, opened_status};
ghost use Rattle.rtr_c.specs.Links.{received_status, sent_status, shown_size, suits_time};
ghost use Rattle.rtr_c.specs.Links.{telling_status};

use crate::link::{RtrLink, flag_from, is_begun};

/// The call succeeded.
pub(crate) const OK: u8 = 0;
/// The fields of the struct aren't those of any state that a call leaves.
pub(crate) const NOT_BEGUN: u8 = 1;
/// A buffer is shorter than its contents, or an output shorter than a report.
pub(crate) const SHORT_BUFFER: u8 = 2;
/// The time is before the latest one, or not below 2^63.
pub(crate) const BAD_TIME: u8 = 3;
/// No connection is there, or being opened, to which this can happen now.
pub(crate) const OUT_OF_TURN: u8 = 4;
/// More bytes than the buffer can hold, or than are unsent.
pub(crate) const TOO_LONG: u8 = 5;

/// The length of the longest report.
const REPORT: usize = 65_535;

/// The latest time that is allowed.
const LAST: u64 = u64::MAX / 2;

/// Whether this time is allowed: not before the latest one, and below 2^63.
fn suits_time(link: &RtrLink, now: u64) -> bool
    ensures { result ≡ suits_time link.now now }
{
    link.latest <= now && now <= LAST
}

/// The number of bytes of data.
fn shown_size(link: &RtrLink) -> usize
    ensures { result ≡ shown_size link.now }
{
    if flag_from(link.shows) { link.shown } else { 0 }
}

/// The length of the buffer with the data.
fn data_length(link: &RtrLink, first: usize, second: usize) -> usize
    ensures { result ≡ data_length link.now first second }
{
    if flag_from(link.second) {
        second
    } else {
        first
    }
}

/// The status of a call with an input and an output of these lengths.
pub(crate) fn telling_status(link: &RtrLink, now: u64, input: usize, output: usize) -> u8
    ensures status { result ≡ telling_status link.now now input output }
    ensures begun { result ≡ link_ok → is_begun link.now ≡ true }
    ensures filled { result ≡ link_ok → link.now.filled ≤ input }
    ensures unsent { result ≡ link_ok → link.now.unsent ≤ output }
    ensures time { result ≡ link_ok → now < 2 ^ 63 }
{
    if !is_begun(link) {
        NOT_BEGUN
    } else if !(link.filled <= input && link.unsent <= output) {
        SHORT_BUFFER
    } else if !suits_time(link, now) {
        BAD_TIME
    } else {
        OK
    }
}

/// The status of a call that also has data buffers.
pub(crate) fn next_status(
    link: &RtrLink,
    now: u64,
    input: usize,
    first: usize,
    second: usize,
    output: usize,
) -> u8
    ensures status { result ≡ next_status link.now now input first second output }
    ensures begun { result ≡ link_ok → is_begun link.now ≡ true }
    ensures filled { result ≡ link_ok → link.now.filled ≤ input }
    ensures unsent { result ≡ link_ok → link.now.unsent ≤ output }
    ensures shown { result ≡ link_ok → shown_size link.now ≤ data_length link.now first second }
    ensures time { result ≡ link_ok → now < 2 ^ 63 }
{
    if !is_begun(link) {
        NOT_BEGUN
    } else if !(shown_size(link) <= data_length(link, first, second)) {
        SHORT_BUFFER
    } else {
        telling_status(link, now, input, output)
    }
}

/// The status of a call that may write a report.
pub(crate) fn giving_up_status(link: &RtrLink, now: u64, input: usize, output: usize) -> u8
    ensures status { result ≡ giving_up_status link.now now input output }
    ensures begun { result ≡ link_ok → is_begun link.now ≡ true }
    ensures filled { result ≡ link_ok → link.now.filled ≤ input }
    ensures report { result ≡ link_ok → 65535 ≤ output }
    ensures time { result ≡ link_ok → now < 2 ^ 63 }
{
    if !is_begun(link) {
        NOT_BEGUN
    } else if output < REPORT {
        SHORT_BUFFER
    } else {
        telling_status(link, now, input, output)
    }
}

/// The status of a call that begins a client again.
pub(crate) fn again_status(link: &RtrLink) -> u8
    ensures status { result ≡ again_status link.now }
    ensures begun { result ≡ link_ok → is_begun link.now ≡ true }
{
    if is_begun(link) { OK } else { NOT_BEGUN }
}

/// The status of reporting that a connection was opened.
pub(crate) fn opened_status(link: &RtrLink) -> u8
    ensures { result ≡ opened_status link.now }
{
    if !is_begun(link) {
        NOT_BEGUN
    } else if link.phase == 1 && !flag_from(link.opened) && !flag_from(link.closed) {
        OK
    } else {
        OUT_OF_TURN
    }
}

/// The status of reporting that a connection was lost.
pub(crate) fn lost_status(link: &RtrLink) -> u8
    ensures { result ≡ lost_status link.now }
{
    if !is_begun(link) {
        NOT_BEGUN
    } else if link.phase == 0 || flag_from(link.closed) {
        OUT_OF_TURN
    } else {
        OK
    }
}

/// Whether there is a connection that wasn't lost.
fn is_linked(link: &RtrLink) -> bool
    ensures { result ≡ is_linked link.now }
{
    (link.phase >= 2 || (link.phase == 1 && flag_from(link.opened))) && !flag_from(link.closed)
}

/// The status after `size` bytes were read into an input of this length.
pub(crate) fn received_status(link: &RtrLink, input: usize, size: usize) -> u8
    ensures status { result ≡ received_status link.now input size }
    ensures begun { result ≡ link_ok → is_begun link.now ≡ true }
    ensures within { result ≡ link_ok → link.now.filled + size ≤ input }
{
    if !is_begun(link) {
        NOT_BEGUN
    } else if !(link.filled <= input) {
        SHORT_BUFFER
    } else if !is_linked(link) {
        OUT_OF_TURN
    } else if input - link.filled < size {
        TOO_LONG
    } else {
        OK
    }
}

/// The status after `size` bytes were sent of an output of this length.
pub(crate) fn sent_status(link: &RtrLink, output: usize, size: usize) -> u8
    ensures status { result ≡ sent_status link.now output size }
    ensures begun { result ≡ link_ok → is_begun link.now ≡ true }
    ensures room { result ≡ link_ok → link.now.unsent ≤ output }
    ensures within { result ≡ link_ok → size ≤ link.now.unsent }
{
    if !is_begun(link) {
        NOT_BEGUN
    } else if !(link.unsent <= output) {
        SHORT_BUFFER
    } else if link.unsent < size {
        TOO_LONG
    } else {
        OK
    }
}
