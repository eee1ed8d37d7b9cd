//! Headers that are refused, and readers that fail.

use crate::expect::expect_equal;
use crate::samples::{KEY, decoded, expect_rows};
use crate::session::next;
use crate::support::{ONES, Pieces};
use rtr_units::source::{Counted, Source};
use std::alloc::Global;

/// Headers that are refused, and why: types that no unit has, then each type's lengths.
const REFUSED: &str = "\
01 05 00 00 00 00 00 08 -> unit type 5 is not allowed here
01 0c 00 00 00 00 00 08 -> unit type 12 is not allowed here
01 ff 00 00 00 01 00 00 -> unit type 255 is not allowed here
03 07 00 00 00 00 00 08 -> version 3 is not supported here
01 09 00 00 00 01 00 00 -> unit is longer than 65535 bytes
01 0a 00 00 00 01 00 00 -> unit is longer than 65535 bytes
01 0b 00 00 ff ff ff ff -> unit is longer than 65535 bytes
01 00 00 00 00 00 00 08 -> invalid unit length
01 01 00 00 00 00 00 0d -> invalid unit length
01 02 00 00 00 00 00 0c -> invalid unit length
01 03 00 00 00 00 00 07 -> invalid unit length
01 04 00 00 00 00 00 20 -> invalid unit length
01 06 00 00 00 00 00 14 -> invalid unit length
00 07 00 00 00 00 00 18 -> invalid unit length
01 07 00 00 00 00 00 0c -> invalid unit length
01 08 00 00 ff ff ff ff -> invalid unit length
01 09 00 00 00 00 00 1f -> invalid unit length
01 0a 00 00 00 00 00 0f -> invalid unit length
02 0b 00 00 00 00 00 0e -> invalid unit length
02 0b 01 00 00 00 00 0c -> ASPA unit has no providers
";

/// Why the header is refused where bytes follow it, if no more than it is taken, and the reader
/// gives no error.
fn refusal(alloc: Global, header: &str) -> Option<String> {
    let mut input = decoded(alloc, header)?;
    input.extend_from_slice(&[7; 40]).ok()?;
    let mut reader = Counted::new(Pieces::new(&input, ONES));
    let answer = next(alloc, &mut reader);
    if reader.failures() > 0 || reader.into_inner().taken() != 8 {
        return None;
    }
    answer
}

#[test]
fn refused_headers(rt: HostRuntime) {
    expect_rows(&rt, rt.alloc(), REFUSED, refusal);
}

#[test]
fn readers_that_fail(rt: HostRuntime) {
    let input = decoded(rt.alloc(), KEY).expect(&rt, "a key");
    for call in 1..=input.len() {
        let mut reader = Counted::new(Pieces::failing(&input, ONES, call));
        let answer = next(rt.alloc(), &mut reader);
        expect_equal(&rt, answer.as_deref(), Some("read failed"));
        let counts = (reader.failures(), reader.into_inner().taken());
        expect_equal(&rt, counts, (1, call.saturating_sub(1)));
    }
}
