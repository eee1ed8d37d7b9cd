//! Runs of a client over its buffers, as in docs/SESSIONS.md. Units are as in RFC 8210 section 5.

use crate::client::Client;
use crate::next::Todo;
use session_router::settings::Settings;
use std::process::Abort;

const RESET: [u8; 8] = [1, 2, 0, 0, 0, 0, 0, 8];

const RESPONSE: [u8; 8] = [1, 3, 0, 7, 0, 0, 0, 8];

/// The first bytes of a response.
const CUT: [u8; 5] = [1, 3, 0, 7, 0];

const NOTIFY: [u8; 12] = [1, 0, 0, 7, 0, 0, 0, 12, 0, 0, 0, 6];

/// 192.0.2.0/24 of AS64496.
const PREFIX: [u8; 20] = [
    1, 4, 0, 0, 0, 0, 0, 20, 1, 24, 24, 0, 192, 0, 2, 0, 0, 0, 251, 240,
];

const WITHDRAWAL: [u8; 20] = [
    1, 4, 0, 0, 0, 0, 0, 20, 0, 24, 24, 0, 192, 0, 2, 0, 0, 0, 251, 240,
];

/// Error code 2, "No Data Available", with no unit and no text.
const NO_DATA: [u8; 16] = [1, 10, 0, 2, 0, 0, 0, 16, 0, 0, 0, 0, 0, 0, 0, 0];

/// The ends of data with serial numbers 5 and 6, of 3,600, 600 and 7,200 seconds.
const END_5: [u8; 24] = [
    1, 7, 0, 7, 0, 0, 0, 24, 0, 0, 0, 5, 0, 0, 14, 16, 0, 0, 2, 88, 0, 0, 28, 32,
];

const END_6: [u8; 24] = [
    1, 7, 0, 7, 0, 0, 0, 24, 0, 0, 0, 6, 0, 0, 14, 16, 0, 0, 2, 88, 0, 0, 28, 32,
];

/// The serial queries from these serial numbers on.
const QUERY_5: [u8; 12] = [1, 1, 0, 7, 0, 0, 0, 12, 0, 0, 0, 5];

const QUERY_6: [u8; 12] = [1, 1, 0, 7, 0, 0, 0, 12, 0, 0, 0, 6];

/// The caller's next action in a word, and the length that is wanted.
fn word(todo: &Todo) -> (&'static str, usize) {
    match todo {
        Todo::Go => ("go", 0),
        Todo::Wait => ("wait", 0),
        Todo::Connect => ("connect", 0),
        Todo::Close { ending, .. } => if ending.drop {
            ("close without data", 0)
        } else {
            ("close", 0)
        },
        Todo::Data => ("data", 0),
        Todo::Dropped => ("dropped", 0),
        Todo::NoData { offset } => ("no data", *offset),
        Todo::InputRoom(size) => ("input", *size),
        Todo::DataRoom(size) => ("data room", *size),
        Todo::IndexRoom(size) => ("index", *size),
        Todo::OutputRoom(size) => ("output", *size),
    }
}

/// A client and its buffers, of which the caller passes these lengths.
#[derive(Drop)]
struct World {
    client: Client,
    input: [u8; 200],
    first: [u8; 200],
    second: [u8; 200],
    index: [usize; 4],
    output: [u8; 66_000],
    input_room: usize,
    data_room: usize,
    index_room: usize,
    output_room: usize,
}

fn begin() -> World {
    World {
        client: Client::new(Settings::usual(1)),
        input: [0; 200],
        first: [0; 200],
        second: [0; 200],
        index: [0; 4],
        output: [0; 66_000],
        input_room: 200,
        data_room: 200,
        index_room: 4,
        output_room: 66_000,
    }
}

/// What a caller does.
#[derive(Clone, Copy)]
enum Act<'a> {
    Next,
    Opened,
    Closed,
    AskNow,
    GiveUp,
    Reads(&'a [u8]),
    /// These bytes are to be sent, and are.
    Sends(&'a [u8]),
}

fn next(rt: &impl Abort, w: &mut World, now: u64) -> Todo {
    let rooms = [w.input_room, w.data_room, w.index_room, w.output_room];
    turn(
        rt,
        &mut w.client,
        now,
        &rooms,
        &mut w.input,
        &mut w.first,
        &mut w.second,
        &mut w.index,
        &mut w.output,
    )
}

fn turn(
    rt: &impl Abort,
    client: &mut Client,
    now: u64,
    rooms: &[usize; 4],
    input: &mut [u8],
    first: &mut [u8],
    second: &mut [u8],
    index: &mut [usize],
    output: &mut [u8],
) -> Todo {
    let [a, b, c, d] = *rooms;
    assert!(rt; now < 1_000_000_000);
    assert!(rt; a <= input.len() && b <= first.len() && b <= second.len());
    assert!(rt; c <= index.len() && d <= output.len());
    let input = &mut input[..a];
    let output = &mut output[..d];
    assert!(rt; client.fits(input) && client.is_in_step());
    assert!(rt; client.unsent <= output.len());
    client.next(
        now,
        input,
        &mut first[..b],
        &mut second[..b],
        &mut index[..c],
        output,
    )
}

fn ask_now(rt: &impl Abort, w: &mut World, now: u64) -> Todo {
    assert!(rt; now < 1_000_000_000);
    assert!(rt; w.client.fits(&w.input) && w.client.unsent <= 66_000);
    assert!(rt; w.client.is_in_step());
    w.client.ask_now(now, &mut w.input, &mut w.output)
}

fn give_up(rt: &impl Abort, w: &mut World, now: u64) -> Todo {
    assert!(rt; now < 1_000_000_000);
    assert!(rt; w.client.fits(&w.input) && w.client.unsent <= 66_000);
    assert!(rt; w.client.is_in_step());
    w.client.give_up(now, &mut w.input, &mut w.output)
}

fn reads(rt: &impl Abort, w: &mut World, bytes: &[u8]) {
    let from = w.client.filled;
    assert!(rt; bytes.len() <= 200 && from <= 200 - bytes.len());
    w.input[from..from + bytes.len()].copy_from_slice(bytes);
    assert!(rt; w.client.fits(&w.input));
    w.client.received(bytes.len(), &w.input);
}

fn sends(rt: &impl Abort, w: &mut World, bytes: &[u8], at: usize) {
    let size = w.client.unsent;
    assert!(rt; size <= 66_000);
    assert!(rt; &w.output[..size] == bytes, "at {at}");
    w.client.sent(size, &mut w.output);
}

/// Does this, and compares the caller's next action with the words.
fn play(rt: &impl Abort, w: &mut World, rows: &[(u64, Act, &str, usize)]) {
    for (i, (now, act, want, room)) in rows.iter().enumerate() {
        let got = match act {
            Act::Next => word(&next(rt, w, *now)),
            Act::AskNow => word(&ask_now(rt, w, *now)),
            Act::GiveUp => word(&give_up(rt, w, *now)),
            Act::Opened => {
                w.client.opened();
                ("", 0)
            }
            Act::Closed => {
                w.client.closed();
                ("", 0)
            }
            Act::Reads(bytes) => {
                reads(rt, w, bytes);
                ("", 0)
            }
            Act::Sends(bytes) => {
                sends(rt, w, bytes, i);
                ("", 0)
            }
        };
        assert_eq!(rt; got.0, *want, "at {i}");
        assert_eq!(rt; got.1, *room, "at {i}");
    }
}

/// Loads one prefix of session 7 and serial number 5, at this time.
fn load(rt: &impl Abort, w: &mut World, now: u64) {
    play(
        rt,
        w,
        &[
            (now, Act::Next, "connect", 0),
            (now, Act::Opened, "", 0),
            (now, Act::Next, "go", 0),
            (now, Act::Sends(&RESET), "", 0),
            (now, Act::Reads(&RESPONSE), "", 0),
            (now, Act::Reads(&PREFIX), "", 0),
            (now, Act::Next, "go", 0),
            (now, Act::Next, "go", 0),
            (now, Act::Next, "wait", 0),
            (now, Act::Reads(&END_5), "", 0),
            (now, Act::Next, "go", 0),
            (now, Act::Next, "data", 0),
            (now, Act::Next, "wait", 0),
        ],
    );
    assert!(rt; w.client.second);
    assert!(rt; w.client.shown == Some(44));
    assert!(rt; &w.second[..20] == &PREFIX[..]);
    assert!(rt; &w.second[20..44] == &END_5[..]);
}

#[test]
fn an_answer_that_comes_byte_for_byte(rt: HostRuntime) {
    let mut w = begin();
    w.input_room = 20;
    w.data_room = 0;
    w.index_room = 0;
    play(
        &rt,
        &mut w,
        &[
            (0, Act::Next, "connect", 0),
            (0, Act::Opened, "", 0),
            (0, Act::Next, "go", 0),
            (0, Act::Sends(&RESET), "", 0),
        ],
    );
    let mut answer = [0; 52];
    answer[..8].copy_from_slice(&RESPONSE);
    answer[8..28].copy_from_slice(&PREFIX);
    answer[28..].copy_from_slice(&END_5);
    let mut wants = 0;
    for byte in answer {
        reads(&rt, &mut w, &[byte]);
        for _ in 0..2 {
            if let Todo::InputRoom(size) = next(&rt, &mut w, 1) {
                assert_eq!(rt; size, w.input_room.saturating_add(65_535));
                w.input_room = w.input_room.saturating_add(12);
                wants = 1;
            }
        }
    }
    assert_eq!(rt; wants, 1);
    play(&rt, &mut w, &[(1, Act::Next, "data room", 68)]);
    w.data_room = 67;
    play(&rt, &mut w, &[(1, Act::Next, "data room", 68)]);
    w.data_room = 68;
    play(&rt, &mut w, &[(1, Act::Next, "index", 1)]);
    w.index_room = 1;
    play(
        &rt,
        &mut w,
        &[(1, Act::Next, "data", 0), (1, Act::Next, "wait", 0)],
    );
    assert!(rt; w.client.shown == Some(44));
    assert!(rt; &w.second[..20] == &PREFIX[..]);
}

#[test]
fn a_change_and_a_cut(rt: HostRuntime) {
    let mut w = begin();
    load(&rt, &mut w, 0);
    play(
        &rt,
        &mut w,
        &[
            (3_599_999, Act::Next, "wait", 0),
            (3_600_000, Act::Next, "go", 0),
            (3_600_000, Act::Sends(&QUERY_5), "", 0),
            (3_600_000, Act::Reads(&RESPONSE), "", 0),
            (3_600_000, Act::Reads(&WITHDRAWAL), "", 0),
            (3_600_000, Act::Reads(&END_6), "", 0),
            (3_600_000, Act::Next, "go", 0),
            (3_600_000, Act::Next, "go", 0),
            (3_600_000, Act::Next, "go", 0),
            (3_600_000, Act::Next, "data", 0),
            (3_600_000, Act::Reads(&CUT), "", 0),
            (3_600_000, Act::Next, "wait", 0),
            (3_600_000, Act::Closed, "", 0),
            (3_600_000, Act::Next, "close", 0),
            (3_600_000, Act::Next, "go", 0),
            (3_600_000, Act::Next, "wait", 0),
        ],
    );
    assert!(rt; !w.client.second);
    assert!(rt; w.client.shown == Some(24));
    assert!(rt; &w.first[..24] == &END_6[..]);
}

#[test]
fn what_was_said_of_the_last_connection(rt: HostRuntime) {
    // The connection is closed inside a unit, and the next one is opened at once.
    let mut w = begin();
    load(&rt, &mut w, 0);
    play(
        &rt,
        &mut w,
        &[
            (3_000_000, Act::Reads(&CUT), "", 0),
            (3_000_000, Act::Closed, "", 0),
            (3_000_000, Act::Next, "close", 0),
            (6_000_000, Act::Next, "connect", 0),
            (6_000_000, Act::Next, "wait", 0),
            (6_000_000, Act::Opened, "", 0),
            (6_000_000, Act::Next, "go", 0),
        ],
    );
    // A connection is opened too late.
    let mut w = begin();
    play(
        &rt,
        &mut w,
        &[
            (0, Act::Next, "connect", 0),
            (30_000, Act::Opened, "", 0),
            (30_000, Act::Next, "close", 0),
            (1_000_000, Act::Next, "connect", 0),
            (1_000_000, Act::Next, "wait", 0),
            (1_000_000, Act::Opened, "", 0),
            (1_000_000, Act::Next, "go", 0),
            (1_000_000, Act::Sends(&RESET), "", 0),
        ],
    );
}

#[test]
fn a_notify_and_a_wish(rt: HostRuntime) {
    let mut w = begin();
    load(&rt, &mut w, 0);
    play(
        &rt,
        &mut w,
        &[
            (5_000, Act::Reads(&NOTIFY), "", 0),
            (5_000, Act::Next, "go", 0),
            (5_000, Act::Next, "go", 0),
            (5_000, Act::Sends(&QUERY_5), "", 0),
            (5_000, Act::Reads(&RESPONSE), "", 0),
            (5_000, Act::Reads(&END_6), "", 0),
            (5_000, Act::Next, "go", 0),
            (5_000, Act::Next, "go", 0),
            (5_000, Act::Next, "data", 0),
            (9_000, Act::Next, "wait", 0),
            (9_000, Act::AskNow, "go", 0),
            (9_000, Act::Next, "go", 0),
            (9_000, Act::Sends(&QUERY_6), "", 0),
        ],
    );
}

#[test]
fn data_that_expire(rt: HostRuntime) {
    let mut w = begin();
    load(&rt, &mut w, 0);
    play(
        &rt,
        &mut w,
        &[(7_200_000, Act::Next, "close without data", 0)],
    );
    assert!(rt; w.client.shown.is_none());
    let mut w = begin();
    load(&rt, &mut w, 0);
    play(
        &rt,
        &mut w,
        &[
            (6_900_000, Act::Closed, "", 0),
            (6_900_000, Act::Next, "go", 0),
            (6_900_000, Act::Next, "close", 0),
            (7_200_000, Act::Next, "dropped", 0),
        ],
    );
    assert!(rt; w.client.shown.is_none());
}

#[test]
fn a_cache_without_data(rt: HostRuntime) {
    let mut w = begin();
    play(
        &rt,
        &mut w,
        &[
            (0, Act::Next, "connect", 0),
            (0, Act::Opened, "", 0),
            (0, Act::Next, "go", 0),
            (0, Act::Reads(&NO_DATA), "", 0),
            (0, Act::Next, "no data", 0),
            (0, Act::Next, "wait", 0),
        ],
    );
}

#[test]
fn an_output_that_is_not_sent(rt: HostRuntime) {
    let mut w = begin();
    w.output_room = 65_540;
    play(
        &rt,
        &mut w,
        &[
            (0, Act::Next, "connect", 0),
            (0, Act::Opened, "", 0),
            (0, Act::Next, "go", 0),
            (0, Act::Next, "output", 65_543),
            (0, Act::Sends(&RESET), "", 0),
            (0, Act::Next, "wait", 0),
            (0, Act::GiveUp, "close", 0),
        ],
    );
}
