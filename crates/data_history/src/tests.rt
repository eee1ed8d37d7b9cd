//! Histories of three serial numbers, with the units of RFC 8210 sections 5.6 and 5.8.

use crate::{
    CheckFault, Limits, Refused, Room, SinceFault, Stores, TakeFault, Untaken, check_history,
    first_into, first_store_into, knows, next_into, old_store_into, open_old, open_saved,
    seal_head, serials_into, since_into, take_into,
};
use rtr_base::state::Serial;
use std::process::Abort;
use std::rt::HostRuntime;
use std::test::Fail;

/// A prefix of AS64496 with a prefix length and a max length of 24, announced or withdrawn.
const fn prefix(version: u8, flags: u8, address: [u8; 3]) -> [u8; 20] {
    let [a, b, c] = address;
    [
        version, 4, 0, 0, 0, 0, 0, 20, flags, 24, 24, 0, a, b, c, 0, 0, 0, 0xfb, 0xf0,
    ]
}

/// An end of data of version 1 with the times that RFC 8210 section 6 recommends.
const fn end(session: u8, serial: u8) -> [u8; 24] {
    [
        1, 7, 0, session, 0, 0, 0, 24, 0, 0, 0, serial, 0, 0, 0x0e, 0x10, 0, 0, 2, 0x58, 0, 0,
        0x1c, 0x20,
    ]
}

/// The time and the length, which come before a part.
const fn part(time: u8, size: u8) -> [u8; 16] {
    [0, 0, 0, 0, 0, 0, 0, time, 0, 0, 0, 0, 0, 0, 0, size]
}

const A: [u8; 3] = [192, 0, 2];

const B: [u8; 3] = [198, 51, 100];

const C: [u8; 3] = [203, 0, 113];

const ALL: Limits = Limits {
    time: u64::MAX,
    bytes: usize::MAX,
};

fn joined(rt: &HostRuntime, parts: &[&[u8]]) -> Result<Vec<u8>, Fail> {
    let mut bytes = Vec::new(rt.alloc());
    for part in parts {
        bytes.extend_from_slice(part)?;
    }
    Ok(bytes)
}

/// The data of serial numbers 1 to 3: A and B; B and C; C.
fn data(rt: &HostRuntime, serial: u8) -> Result<Vec<u8>, Fail> {
    let (a, b, c) = (prefix(1, 1, A), prefix(1, 1, B), prefix(1, 1, C));
    let end = end(7, serial);
    match serial {
        1 => joined(rt, &[&a, &b, &end]),
        2 => joined(rt, &[&b, &c, &end]),
        _ => joined(rt, &[&c, &end]),
    }
}

/// The history of the data of serial numbers 1 to 3, which came at the times 10, 20 and 30.
fn history(rt: &HostRuntime) -> Result<Vec<u8>, Fail> {
    joined(
        rt,
        &[
            &part(30, 44),
            &prefix(1, 1, C),
            &end(7, 3),
            &part(30, 44),
            &prefix(1, 1, B),
            &end(7, 2),
            &part(20, 64),
            &prefix(1, 1, A),
            &prefix(1, 0, C),
            &end(7, 1),
        ],
    )
}

/// Stores the data of the serial numbers 1 to 3 under these limits.
fn stored(rt: &HostRuntime, limits: &Limits) -> Result<Vec<u8>, Fail> {
    let (mut kept, mut buffer) = ([0; 512], [0; 512]);
    let mut size = first_into(&data(rt, 1)?, 10, &mut kept).unwrap_or(0);
    for (serial, now) in [(2, 20), (3, 30)] {
        let mut output = [0; 512];
        let old = kept.get(..size).unwrap_or(&[]);
        let new = data(rt, serial)?;
        size = next_into(old, &new, now, limits, &mut buffer, &mut output).unwrap_or(0);
        kept = output;
    }
    joined(rt, &[kept.get(..size).unwrap_or(&[])])
}

#[test]
fn a_first_history_is_the_data(rt: HostRuntime) -> Result<(), Fail> {
    let mut output = [0; 80];
    let new = data(&rt, 1)?;
    assert_eq!(rt; first_into(&new, 10, &mut output).ok(), Some(80));
    assert_eq!(rt; &output[..], &joined(&rt, &[&part(10, 64), &new])?[..]);
    Ok(())
}

#[test]
fn newer_data_keep_the_steps_back(rt: HostRuntime) -> Result<(), Fail> {
    assert_eq!(rt; &stored(&rt, &ALL)?[..], &history(&rt)?[..]);
    Ok(())
}

#[test]
fn limits_drop_the_oldest_steps(rt: HostRuntime) -> Result<(), Fail> {
    let all = history(&rt)?;
    for (time, bytes, size) in [
        (10, usize::MAX, 200),
        (9, usize::MAX, 120),
        (u64::MAX, 140, 200),
        (u64::MAX, 139, 120),
        (u64::MAX, 59, 60),
    ] {
        let got = stored(&rt, &Limits { time, bytes })?;
        assert_eq!(rt;
            &got[..],
            all.get(..size).unwrap_or(&[]),
            "at {time}, {bytes}"
        );
    }
    Ok(())
}

#[test]
fn data_that_are_not_newer_are_refused(rt: HostRuntime) -> Result<(), Fail> {
    let (mut buffer, mut output) = ([0; 512], [0; 512]);
    let old = history(&rt)?;
    for (serial, same) in [(3, true), (2, false), (1, false)] {
        let new = data(&rt, serial)?;
        match next_into(&old, &new, 40, &ALL, &mut buffer, &mut output) {
            Err(Refused::Same) => assert!(rt; same, "at {serial}"),
            Err(Refused::Serial) => assert!(rt; !same, "at {serial}"),
            _ => assert!(rt; false, "at {serial}"),
        }
    }
    Ok(())
}

#[test]
fn another_session_begins_a_history(rt: HostRuntime) -> Result<(), Fail> {
    let (mut buffer, mut output) = ([0; 512], [0; 60]);
    let new = joined(&rt, &[&prefix(1, 1, B), &end(8, 1)])?;
    let got = next_into(&history(&rt)?, &new, 40, &ALL, &mut buffer, &mut output);
    assert_eq!(rt; got.ok(), Some(60));
    assert_eq!(rt; &output[..], &joined(&rt, &[&part(40, 44), &new])?[..]);
    Ok(())
}

/// The same data and serial number as in the history, but data expire a second later.
#[test]
fn only_times_that_differ_are_named(rt: HostRuntime) -> Result<(), Fail> {
    let (mut buffer, mut output) = ([0; 512], [0; 512]);
    let mut end = end(7, 3);
    end[23] = 0x21;
    let old = history(&rt)?;
    for (address, times) in [(C, true), (A, false)] {
        let new = joined(&rt, &[&prefix(1, 1, address), &end])?;
        match next_into(&old, &new, 40, &ALL, &mut buffer, &mut output) {
            Err(Refused::Times) => assert!(rt; times),
            Err(Refused::Serial) => assert!(rt; !times),
            _ => assert!(rt; false, "neither"),
        }
    }
    Ok(())
}

/// Old and new data have 244 bytes together, and the output 280.
#[test]
fn slices_that_are_too_short_are_named(rt: HostRuntime) -> Result<(), Fail> {
    let (old, new) = (history(&rt)?, joined(&rt, &[&prefix(1, 1, A), &end(7, 4)])?);
    for (buffer_size, size, room, least) in [
        (0, 512, Room::Buffer, 244),
        (63, 512, Room::Buffer, 244),
        (244, 0, Room::Output, 280),
        (244, 279, Room::Output, 280),
    ] {
        let (mut buffer, mut output) = ([0; 512], [0; 512]);
        let got = next_into(
            &old,
            &new,
            40,
            &ALL,
            buffer.get_mut(..buffer_size).unwrap_or(&mut []),
            output.get_mut(..size).unwrap_or(&mut []),
        );
        match got {
            Err(
                Refused::NoRoom {
                    room: short,
                    wanted,
                },
            ) => {
                assert_eq!(rt; short, room, "at {buffer_size}, {size}");
                assert_eq!(rt; wanted, least, "at {buffer_size}, {size}");
            }
            _ => assert!(rt; false, "at {buffer_size}, {size}"),
        }
    }
    let (mut buffer, mut output) = ([0; 244], [0; 280]);
    let got = next_into(&old, &new, 40, &ALL, &mut buffer, &mut output);
    assert_eq!(rt; got.ok(), Some(280));
    Ok(())
}

/// Returns the output for a serial query.
fn since(rt: &HostRuntime, serial: u32, version: u8) -> Result<Vec<u8>, Fail> {
    let (mut index, mut buffer, mut spare, mut output) = ([0; 16], [0; 512], [0; 512], [0; 512]);
    let history = history(rt)?;
    let serial = Serial(serial);
    let size = since_into(
        &history,
        serial,
        version,
        &mut index,
        &mut buffer,
        &mut spare,
        &mut output,
    );
    joined(rt, &[output.get(..size.unwrap_or(0)).unwrap_or(&[])])
}

/// Two steps back have three changes, of 60 bytes, and an end of data of 24.
#[test]
fn slices_that_are_too_short_for_changes_are_named(rt: HostRuntime) -> Result<(), Fail> {
    let history = history(&rt)?;
    for (sizes, room, least) in [
        ([6, 400, 200, 412], Room::Index, 7),
        ([7, 83, 200, 412], Room::Buffer, 400),
        ([7, 400, 63, 412], Room::Spare, 200),
        ([7, 400, 200, 83], Room::Output, 96),
    ] {
        let (mut index, mut buffer, mut spare, mut output) = (
            [0; 512], [0; 512], [0; 512], [0; 512],
        );
        let [places, first, second, last] = sizes;
        let got = since_into(
            &history,
            Serial(1),
            1,
            index.get_mut(..places).unwrap_or(&mut []),
            buffer.get_mut(..first).unwrap_or(&mut []),
            spare.get_mut(..second).unwrap_or(&mut []),
            output.get_mut(..last).unwrap_or(&mut []),
        );
        let wanted = Err(SinceFault::NoRoom {
            room,
            wanted: least,
        });
        assert_eq!(rt; got, wanted, "at {least}");
    }
    Ok(())
}

#[test]
fn changes_since_are_written(rt: HostRuntime) -> Result<(), Fail> {
    let (a, b, c) = (prefix(1, 0, A), prefix(1, 0, B), prefix(1, 1, C));
    let end = end(7, 3);
    assert_eq!(rt; &since(&rt, 3, 1)?[..], &joined(&rt, &[&end])?[..]);
    assert_eq!(rt; &since(&rt, 2, 1)?[..], &joined(&rt, &[&b, &end])?[..]);
    assert_eq!(rt;
        &since(&rt, 1, 1)?[..],
        &joined(&rt, &[&c, &a, &b, &end])?[..]
    );
    let end = [0, 7, 0, 7, 0, 0, 0, 12, 0, 0, 0, 3];
    assert_eq!(rt;
        &since(&rt, 2, 0)?[..],
        &joined(&rt, &[&prefix(0, 0, B), &end])?[..]
    );
    Ok(())
}

#[test]
fn unknown_serial_numbers_are_named(rt: HostRuntime) -> Result<(), Fail> {
    let (mut index, mut buffer, mut spare, mut output) = ([0; 16], [0; 512], [0; 512], [0; 512]);
    let history = history(&rt)?;
    for (serial, known) in [(0, false), (1, true), (2, true), (3, true), (4, false)] {
        let serial = Serial(serial);
        assert_eq!(rt; knows(&history, serial), known);
        let got = since_into(
            &history,
            serial,
            1,
            &mut index,
            &mut buffer,
            &mut spare,
            &mut output,
        );
        assert_eq!(rt; got == Err(SinceFault::Unknown), !known);
    }
    Ok(())
}

#[test]
fn cut_bytes_are_no_history(rt: HostRuntime) -> Result<(), Fail> {
    let (mut index, mut buffer) = ([0; 16], [0; 512]);
    let history = history(&rt)?;
    for size in 0..=history.len() {
        let cut = history.get(..size).unwrap_or(&[]);
        match check_history(cut, &mut index, &mut buffer) {
            Ok(end) => {
                assert!(rt; [60, 120, 200].contains(&size), "at {size}");
                assert_eq!(rt; end.serial(), Serial(3));
            }
            Err(fault) => {
                assert!(rt; ![60, 120, 200].contains(&size), "at {size}");
                assert_eq!(rt; fault, CheckFault::Malformed);
            }
        }
    }
    Ok(())
}

/// The hashes are those of the test vectors of FNV-1a.
#[test]
fn heads_have_length_and_checksum(rt: HostRuntime) -> Result<(), Fail> {
    for (bytes, size, hash) in [
        (
            &b""[..],
            0,
            [0xcb, 0xf2, 0x9c, 0xe4, 0x84, 0x22, 0x23, 0x25],
        ),
        (
            &b"foobar"[..],
            6,
            [0x85, 0x94, 0x41, 0x71, 0xf7, 0x39, 0x67, 0xe8],
        ),
    ] {
        let sizes = [0, 0, 0, 0, 0, 0, 0, size];
        let mut file = joined(&rt, &[b"rtrkept2", &sizes, &hash])?;
        file.extend_from_slice(bytes)?;
        assert_eq!(rt; &seal_head(bytes)[..], file.get(..24).unwrap_or(&[]));
        assert_eq!(rt; open_saved(&file), Some(bytes));
        assert_eq!(rt; open_old(&file), None);
        let mut old = joined(&rt, &[b"rtrkept1", &hash])?;
        old.extend_from_slice(bytes)?;
        assert_eq!(rt; open_old(&old), Some(bytes));
        assert_eq!(rt; open_saved(&old), None);
    }
    Ok(())
}

#[test]
fn changed_files_are_refused(rt: HostRuntime) -> Result<(), Fail> {
    let saved = history(&rt)?;
    let file = joined(&rt, &[&seal_head(&saved), &saved])?;
    for size in 0..=file.len() {
        let cut = file.get(..size).unwrap_or(&[]);
        assert_eq!(rt; open_saved(cut).is_some(), size == file.len(), "at {size}");
    }
    for at in 0..file.len() {
        let mut changed = joined(&rt, &[&file])?;
        if let Some(byte) = changed.get_mut(at) {
            *byte ^= 4;
        }
        assert!(rt; open_saved(&changed).is_none(), "at {at}");
    }
    Ok(())
}

/// Reports whether all of these bytes are 1.
fn are_ones(bytes: Option<&[u8]>) -> bool {
    bytes.unwrap_or(&[]).iter().all(|byte| *byte == 1)
}

/// A file of the earlier format has the head `rtrkept1` and a history, whose store begins with an
/// empty part of sessions.
#[test]
fn files_of_the_form_before_are_opened(rt: HostRuntime) -> Result<(), Fail> {
    let saved = history(&rt)?;
    let checksum = seal_head(&saved);
    let file = joined(
        &rt,
        &[b"rtrkept1", checksum.get(16..).unwrap_or(&[]), &saved],
    )?;
    let mut output = [1; 512];
    assert_eq!(rt; old_store_into(&file, &mut output), Ok(file.len()));
    let store = joined(&rt, &[&part(0, 0), &saved])?;
    assert_eq!(rt; output.get(..file.len()), Some(&store[..]));
    assert!(rt; are_ones(output.get(file.len()..)));
    let ones = [1; 15];
    let one_byte_short = joined(&rt, &[&saved, &ones])?;
    let mut short = joined(&rt, &[&one_byte_short])?;
    let wanted = CheckFault::NoRoom {
        room: Room::Output,
        wanted: file.len(),
    };
    assert_eq!(rt; old_store_into(&file, &mut short[..]), Err(wanted));
    assert_eq!(rt; &short[..], &one_byte_short[..]);
    for at in 0..file.len() {
        let mut changed = joined(&rt, &[&file])?;
        if let Some(byte) = changed.get_mut(at) {
            *byte ^= 4;
        }
        let got = old_store_into(&changed, &mut output);
        assert_eq!(rt; got, Err(CheckFault::Malformed), "at {at}");
    }
    let present = joined(&rt, &[&seal_head(&saved), &saved])?;
    let got = old_store_into(&present, &mut output);
    assert_eq!(rt; got, Err(CheckFault::Malformed));
    Ok(())
}

#[test]
fn earlier_serial_numbers_are_listed(rt: HostRuntime) -> Result<(), Fail> {
    let saved = history(&rt)?;
    let mut serials = [9; 3];
    assert_eq!(rt; serials_into(&saved, &mut serials), Ok(2));
    assert_eq!(rt; serials, [2, 1, 9]);
    let mut short = [9; 1];
    let wanted = CheckFault::NoRoom {
        room: Room::Output,
        wanted: 2,
    };
    assert_eq!(rt; serials_into(&saved, &mut short), Err(wanted));
    assert_eq!(rt; short, [9]);
    let first = joined(&rt, &[&part(0, 64), &data(&rt, 1)?])?;
    assert_eq!(rt; serials_into(&first, &mut []), Ok(0));
    for size in [0, 15] {
        let cut = saved.get(..size).unwrap_or(&[]);
        let got = serials_into(cut, &mut serials);
        assert_eq!(rt; got, Err(CheckFault::Malformed), "at {size}");
    }
    Ok(())
}

/// Returns the store after newer data of a session.
fn taken(rt: &HostRuntime, store: &[u8], present: u16, next: u16) -> Result<Vec<u8>, Fail> {
    let mut output = [0; 512];
    let size = take_into(store, present, next, &history(rt)?, &mut output).unwrap_or(0);
    joined(rt, &[output.get(..size).unwrap_or(&[])])
}

#[test]
fn a_session_that_was_left_is_not_taken_up_again(rt: HostRuntime) -> Result<(), Fail> {
    let mut output = [0; 512];
    let history = history(&rt)?;
    let size = first_store_into(&history, &mut output).unwrap_or(0);
    let first = joined(&rt, &[output.get(..size).unwrap_or(&[])])?;
    assert_eq!(rt; &first[..], &joined(&rt, &[&part(0, 0), &history])?[..]);
    assert_eq!(rt; &taken(&rt, &first, 7, 7)?[..], &first[..]);
    let second = taken(&rt, &first, 7, 8)?;
    assert_eq!(rt;
        &second[..],
        &joined(&rt, &[&part(0, 2), &[0, 7], &history])?[..]
    );
    let third = taken(&rt, &second, 8, 0x0102)?;
    assert_eq!(rt;
        &third[..],
        &joined(&rt, &[&part(0, 4), &[0, 8, 0, 7], &history])?[..]
    );
    for next in [7, 8] {
        let got = take_into(&third, 0x0102, next, &history, &mut output);
        assert_eq!(rt; got, Err(TakeFault::SessionLeft), "at {next}");
    }
    Ok(())
}

/// The two buffers of a cache, and its work space.
#[derive(Drop)]
struct Buffers {
    first: [u8; 512],
    second: [u8; 512],
    buffer: [u8; 512],
    spare: [u8; 512],
}

const EMPTY: Buffers = Buffers {
    first: [0; 512],
    second: [0; 512],
    buffer: [0; 512],
    spare: [0; 512],
};

fn take(stores: &mut Stores, new: &[u8], now: u64, b: &mut Buffers) -> Result<usize, Untaken> {
    stores.take(
        new,
        now,
        &ALL,
        &mut b.buffer,
        &mut b.spare,
        &mut b.first,
        &mut b.second,
    )
}

/// Returns the serial number that a router gets.
fn served(stores: &Stores, b: &Buffers) -> Option<u32> {
    let history = stores.history(&b.first, &b.second)?;
    let (mut index, mut buffer) = ([0; 16], [0; 512]);
    match check_history(history, &mut index, &mut buffer) {
        Ok(end) => Some(end.serial().0),
        Err(_) => None,
    }
}

#[test]
fn data_are_served_once_they_are_saved(rt: HostRuntime) -> Result<(), Fail> {
    let (mut stores, mut b) = (Stores::new(), EMPTY);
    assert_eq!(rt; served(&stores, &b), None);
    assert_eq!(rt;
        take(&mut stores, &data(&rt, 1)?, 10, &mut b).ok(),
        Some(96)
    );
    assert_eq!(rt; served(&stores, &b), None);
    assert!(rt;
        matches!(
            take(&mut stores, &data(&rt, 2)?, 20, &mut b),
            Err(Untaken::Waits)
        )
    );
    stores.saved();
    assert_eq!(rt; served(&stores, &b), Some(1));
    assert_eq!(rt;
        take(&mut stores, &data(&rt, 2)?, 20, &mut b).ok(),
        Some(176)
    );
    assert_eq!(rt; served(&stores, &b), Some(1));
    stores.give_up();
    assert_eq!(rt; served(&stores, &b), Some(1));
    assert!(rt; stores.to_save(&b.first, &b.second).is_none());
    assert_eq!(rt;
        take(&mut stores, &data(&rt, 2)?, 20, &mut b).ok(),
        Some(176)
    );
    stores.saved();
    assert_eq!(rt;
        take(&mut stores, &data(&rt, 3)?, 30, &mut b).ok(),
        Some(216)
    );
    stores.saved();
    let saved = joined(&rt, &[&part(0, 0), &history(&rt)?])?;
    let kept = b.first.get(..216).unwrap_or(&[]);
    assert_eq!(rt; b.second.get(..216).unwrap_or(kept), &saved[..]);
    assert!(rt;
        matches!(
            take(&mut stores, &data(&rt, 2)?, 40, &mut b),
            Err(Untaken::Refused(Refused::Serial))
        )
    );
    assert_eq!(rt; served(&stores, &b), Some(3));
    Ok(())
}

#[test]
fn a_start_serves_what_was_saved(rt: HostRuntime) -> Result<(), Fail> {
    let (mut index, mut buffer, mut b) = ([0; 16], [0; 512], EMPTY);
    let saved = joined(&rt, &[&part(0, 2), &[0, 9], &history(&rt)?])?;
    let size = saved.len();
    match b.first.get_mut(..size) {
        Some(front) => front.copy_from_slice(&saved),
        None => return Ok(()),
    }
    for cut in 0..size {
        let start = Stores::start(cut, &b.first, &mut index, &mut buffer);
        assert_eq!(rt; start.is_ok(), [78, 138].contains(&cut), "at {cut}");
    }
    let mut stores = match Stores::start(size, &b.first, &mut index, &mut buffer) {
        Ok(stores) => stores,
        Err(_) => return Err(Fail::new("no start")),
    };
    assert_eq!(rt; served(&stores, &b), Some(3));
    let again = joined(&rt, &[&prefix(1, 1, B), &end(9, 1)])?;
    assert!(rt;
        matches!(
            take(&mut stores, &again, 40, &mut b),
            Err(Untaken::SessionLeft)
        )
    );
    let other = joined(&rt, &[&prefix(1, 1, B), &end(8, 1)])?;
    assert_eq!(rt; take(&mut stores, &other, 40, &mut b).ok(), Some(80));
    let store = joined(&rt, &[&part(0, 4), &[0, 7, 0, 9], &part(40, 44), &other])?;
    assert_eq!(rt; stores.to_save(&b.first, &b.second), Some(&store[..]));
    Ok(())
}

#[test]
fn without_a_file_a_start_has_its_session(rt: HostRuntime) -> Result<(), Fail> {
    let (mut stores, mut b) = (Stores::unsaved(7), EMPTY);
    assert_eq!(rt;
        take(&mut stores, &data(&rt, 1)?, 10, &mut b).ok(),
        Some(96)
    );
    assert_eq!(rt; served(&stores, &b), Some(1));
    assert!(rt; stores.to_save(&b.first, &b.second).is_none());
    let other = joined(&rt, &[&prefix(1, 1, B), &end(8, 2)])?;
    assert!(rt;
        matches!(
            take(&mut stores, &other, 20, &mut b),
            Err(Untaken::OtherSession)
        )
    );
    assert_eq!(rt;
        take(&mut stores, &data(&rt, 2)?, 20, &mut b).ok(),
        Some(176)
    );
    assert_eq!(rt; served(&stores, &b), Some(2));
    Ok(())
}
