//! Texts of payloads.

use crate::expect::written;
use crate::payload::made::payload;
use crate::samples::expect_rows;
use rtr_payload::payload::Payload;
use std::alloc::Global;

/// The text of the payload's part.
fn part_text(alloc: Global, payload: &Payload) -> Option<String> {
    match payload {
        Payload::Origin(origin) => written(alloc, origin),
        Payload::RouterKey(key) => written(alloc, key),
        Payload::Aspa(aspa) => written(alloc, aspa),
    }
}

/// The text of a payload, if it is that of its part.
fn text(alloc: Global, words: &str) -> Option<String> {
    let payload = payload(alloc, words)?;
    let text = written(alloc, &payload)?;
    (part_text(alloc, &payload)? == text).then_some(text)
}

/// Payloads, and their texts.
const TEXTS: &str = "\
origin 65551 192.0.2.0 23 26 -> 192.0.2.0/23-26 AS65551
origin 65551 192.0.2.0 23 23 -> 192.0.2.0/23-23 AS65551
origin 0 192.0.2.0 23 -> 192.0.2.0/23 AS0
origin 4294967295 2001:db8:: 32 48 -> 2001:db8::/32-48 AS4294967295
key 64496 90 fbff -> router key 5a07070707070707070707070707070707070707 AS64496 -_8
aspa 64496 -> ASPA AS64496: no providers
aspa 64496 64497 -> ASPA AS64496: AS64497
aspa 64496 64498 64497 -> ASPA AS64496: AS64498 AS64497
";

#[test]
fn texts_of_payloads(rt: HostRuntime) {
    expect_rows(&rt, rt.alloc(), TEXTS, text);
}
