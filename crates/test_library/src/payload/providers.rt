//! Providers of ASPA units.

use crate::base::rows::named;
use crate::expect::{expect, expect_equal, expect_text};
use crate::payload::made::providers;
use crate::samples::expect_rows;
use rtr_base::asn::Asn;
use rtr_payload::pdu::{ProviderAsns, ProviderIterError};
use std::alloc::Global;
use std::cell::Cell;

/// An iterator over this many ASNs, which counts how many were taken. Its size hint is their
/// number.
#[derive(Drop)]
struct Asns<'a> {
    left: u32,
    asked: &'a Cell<u32>,
}

impl<'a> Iterator for Asns<'a> {
    type Item = Asn;

    ghost use Rattle.std.specs.Iterator.{at_most};

    ghost remaining = { λ asns. at_most asns.left };

    fn next(&mut self) -> Option<Asn> {
        self.asked.set(self.asked.get().saturating_add(1));
        if self.left == 0 {
            return None;
        }
        self.left -= 1;
        Some(Asn::from_u32(self.left))
    }

    fn size_hint(&self) -> (usize, Option<usize>) {
        (self.left as usize, Some(self.left as usize))
    }
}

/// Numbers of ASNs, the number of providers made from them or the error, and how often the next
/// one was asked for.
const COUNTS: &str = "\
0 -> 0 by 1
16379 -> 16379 by 16380
16380 -> 16380 by 16381
16381 -> provider ASNs size overflow by 16381
4294967295 -> provider ASNs size overflow by 16381
";

fn provider_count(alloc: Global, left: &str) -> Option<String> {
    let left = left.parse().ok()?;
    let asked = &Cell::new(0);
    let made = ProviderAsns::try_from_iter(alloc, Asns { left, asked });
    let answer = match made {
        Ok(made) => made.asn_count().to_string(alloc),
        Err(error) => error.to_string(alloc),
    };
    let asked = asked.get();
    format!(in alloc; "{} by {asked}", answer.ok()?).ok()
}

#[test]
fn provider_counts(rt: HostRuntime) {
    expect_equal(&rt, ProviderAsns::MAX_COUNT, 16380);
    expect_rows(&rt, rt.alloc(), COUNTS, provider_count);
}

/// The error that says there are too many, by itself: its debug text and its text.
#[test]
fn texts_of_too_many(rt: HostRuntime) {
    let left = 16381;
    let asked = &Cell::new(0);
    match ProviderAsns::try_from_iter(rt.alloc(), Asns { left, asked }) {
        Err(ProviderIterError::Count(error)) => {
            let text = format!(in rt.alloc(); "{error:?}: {error}").expect(&rt, "memory");
            let want = "ProviderAsnsError(()): provider ASNs size overflow";
            expect_equal(&rt, text.as_str(), want);
        }
        _ => assert!(rt; false, "so many providers were taken"),
    }
}

#[test]
fn providers_in_their_order(rt: HostRuntime) {
    let some = providers(rt.alloc(), "7 5 7").expect(&rt, "providers");
    let mut each = some.iter();
    for asn in [7, 5, 7] {
        expect_equal(&rt, each.next(), Some(Asn::from_u32(asn)));
    }
    expect(&rt, each.next().is_none());
    expect(&rt, each.next().is_none());
}

#[test]
fn providers_debug(rt: HostRuntime) {
    let shown = named(
        rt.alloc(),
        &providers(rt.alloc(), "7 5 7").expect(&rt, "providers"),
    );
    expect_equal(&rt, shown.as_deref(), Some("[Asn(7), Asn(5), Asn(7)]"));
}

/// The debug text of providers with these numbers, if it is that of an iterator over them.
fn text_of_many(alloc: Global, count: u32) -> Option<String> {
    let asns = (0..count).map(|i| Asn::from_u32(i));
    let providers = ProviderAsns::try_from_iter(alloc, asns).ok()?;
    let shown = named(alloc, &providers)?;
    (named(alloc, &providers.iter())? == shown).then_some(shown)
}

/// The debug text of a list of these numbers.
fn text_of_list(alloc: Global, count: u32) -> Option<String> {
    let mut items = Vec::new(alloc);
    for i in 0..count {
        items.push(Asn::from_u32(i)).ok()?;
    }
    named(alloc, &items.as_slice())
}

/// The text is that of a list of all items.
#[test]
fn many_providers_debug(rt: HostRuntime) {
    for count in [8, 9, 20, 101, 16380] {
        let wanted = text_of_list(rt.alloc(), count);
        expect(&rt, wanted.is_some());
        expect_equal(&rt, text_of_many(rt.alloc(), count), wanted);
    }
}

const ORDERS: &str = "\
1 and 1 0 -> Less
1 0 and 256 -> Less
256 and 1 -> Greater
7 5 and 7 5 -> Equal
";

fn order(alloc: Global, text: &str) -> Option<String> {
    let (left, right) = text.split_once(" and ")?;
    let left = providers(alloc, left)?;
    let right = providers(alloc, right)?;
    named(alloc, &left.cmp(&right))
}

#[test]
fn provider_lists_ascend(rt: HostRuntime) {
    expect_rows(&rt, rt.alloc(), ORDERS, order);
}

#[test]
fn providers_without_memory(rt: HostRuntime) {
    expect_text(&rt, rt.alloc(), ProviderIterError::Memory, "out of memory");
}
