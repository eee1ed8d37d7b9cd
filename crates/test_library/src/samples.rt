//! Units written as hex, and tables of rows.

use rtr_base::state::{Serial, State};
use std::alloc::Global;
use std::process::Abort;
use std::test::Fail;

/// A serial notify.
pub const NOTIFY: &str = "01 00 12 34 00 00 00 0c de ad be ef";

/// A serial query.
pub const QUERY: &str = "01 01 12 34 00 00 00 0c de ad be ef";

/// An IPv4 prefix unit with host bits.
pub const IPV4_STRAY: &str = "01 04 00 00 00 00 00 14 01 17 1a 00 c0 00 02 0a 00 01 00 0f";

/// An IPv4 prefix unit in its form: 192.0.2.0/23 up to 26 of ASN 65551.
pub const IPV4: &str = "01 04 00 00 00 00 00 14 01 17 1a 00 c0 00 02 00 00 01 00 0f";

/// An IPv6 prefix unit with host bits.
pub const IPV6_STRAY: &str =
    "01 06 00 00 00 00 00 20 01 17 1a 00 20 01 0d b8 00 00 00 02 00 0a 00 00 de ad be ef \
     00 01 00 0f";

/// The form of `IPV6_STRAY`: 2001:c00::/23 up to 26 of ASN 65551.
pub const IPV6: &str =
    "01 06 00 00 00 00 00 20 01 17 1a 00 20 01 0c 00 00 00 00 00 00 00 00 00 00 00 00 00 \
     00 01 00 0f";

/// A router key unit that announces.
pub const KEY: &str =
    "01 09 01 00 00 00 00 24 01 02 03 04 05 06 07 08 09 0a 0b 0c 0d 0e 0f 10 11 12 13 14 \
     00 01 00 0f 15 16 17 18";

/// The key identifier of `KEY`.
#[rattlefmt::skip]
pub const IDENTIFIER: [u8; 20] = [
    1, 2, 3, 4, 5, 6, 7, 8, 9, 10, 11, 12, 13, 14, 15, 16, 17, 18, 19, 20,
];

/// An ASPA unit that withdraws and names two providers.
pub const ASPA_NAMED: &str = "02 0b 00 00 00 00 00 14 00 01 00 0f 00 01 00 0d 00 01 00 0e";

/// The announcement that `ASPA_NAMED` would be.
pub const ASPA: &str = "02 0b 01 00 00 00 00 14 00 01 00 0f 00 01 00 0d 00 01 00 0e";

/// The form of `ASPA_NAMED`.
pub const ASPA_BARE: &str = "02 0b 00 00 00 00 00 0c 00 01 00 0f";

/// An end of data of version 0.
pub const END_0: &str = "00 07 12 34 00 00 00 0c de ad be ef";

/// An end of data of version 1.
pub const END_1: &str = "01 07 12 34 00 00 00 18 de ad be ef 00 00 0e 10 00 00 02 58 00 00 1c 20";

/// What follows the version in `END_1`.
pub const END_REST: &str = "07 12 34 00 00 00 18 de ad be ef 00 00 0e 10 00 00 02 58 00 00 1c 20";

/// An error report with code 3, no unit and the text "no".
pub const REPORT: &str = "01 0a 00 03 00 00 00 12 00 00 00 00 00 00 00 02 6e 6f";

/// The state of these units that have one.
pub fn state() -> State {
    State::from_parts(0x1234, Serial(0xdeadbeef))
}

/// The bytes of the text: pairs of hex digits between spaces.
pub fn decoded(alloc: Global, text: &str) -> Option<Vec<u8>> {
    let mut all = Vec::new(alloc);
    for word in text.split_ascii_whitespace() {
        let piece = hex::decode(alloc, word).ok()?;
        all.extend_from_slice(&piece).ok()?;
    }
    Some(all)
}

/// The bytes of the texts, one text after the other.
pub fn bytes(alloc: Global, texts: &[&str]) -> Result<Vec<u8>, Fail> {
    let mut all = Vec::new(alloc);
    for text in texts {
        let piece = decoded(alloc, text).ok_or("a text that stands for no bytes")?;
        all.extend_from_slice(&piece)?;
    }
    Ok(all)
}

/// The first bytes, at most this many.
pub fn front(bytes: &[u8], count: usize) -> &[u8] {
    let (front, _) = bytes.split_at(count.min(bytes.len()));
    front
}

/// Asserts that each row of a table, `INPUT -> ANSWER`, has an input that gets this answer.
pub fn expect_rows(
    rt: &impl Abort,
    alloc: Global,
    rows: &str,
    answer: fn(Global, &str) -> Option<String>,
)
    requires { IsAlwaysCallable answer }
{
    for row in rows.lines() {
        let (input, want) = row.split_once(" -> ").unwrap_or((row, ""));
        expect_row(rt, row, answer(alloc, input), want);
    }
}

/// Asserts that the answer is the one in its row.
fn expect_row(rt: &impl Abort, row: &str, answer: Option<String>, want: &str) {
    assert!(rt; answer.as_deref() == Some(want), "at {row}: {answer:?}");
}
