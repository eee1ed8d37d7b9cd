//! The order of meanings.

use crate::expect::expect_equal;
use crate::payload::made::{ASCENDING, payloads};
use crate::support::hash_of;
use rtr_payload::payload::Payload;
use std::cmp::Ordering;
use std::process::Abort;

/// How two values compare, by `cmp`, `partial_cmp` and `==`.
fn compared<T: Ord>(left: &T, right: &T) -> (Ordering, Option<Ordering>, bool) {
    (left.cmp(right), left.partial_cmp(right), left == right)
}

/// Asserts how the payload at this place of an ascending list compares with each of the list, also
/// when both are borrowed.
fn expect_place(rt: &impl Abort, payloads: &[Payload], i: usize, left: &Payload) {
    for (j, right) in payloads.iter().enumerate() {
        let want = (i.cmp(&j), Some(i.cmp(&j)), i == j);
        expect_equal(rt, compared(left, right), want);
        expect_equal(rt, compared(&left.as_ref(), &right.as_ref()), want);
    }
}

#[test]
fn payloads_ascend(rt: HostRuntime) {
    let payloads = payloads(rt.alloc(), ASCENDING).expect(&rt, "payloads");
    for (i, left) in payloads.iter().enumerate() {
        expect_place(&rt, &payloads, i, left);
        expect_equal(&rt, hash_of(left), hash_of(&left.as_ref()));
    }
}
