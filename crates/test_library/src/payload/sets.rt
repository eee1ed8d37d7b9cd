//! Members of std's sets.

use crate::expect::{expect_equal, expect_same};
use crate::payload::made::{ASCENDING, aspa, key, origin, payloads};
use rtr_payload::payload::{Aspa, Payload, PayloadRef, RouteOrigin, RouterKey};
use std::alloc::Global;
use std::collections::{BTreeSet, HashSet};
use std::hash::Hash;
use std::test::Fail;

/// How many members sets of these keys have.
fn members<K: Ord + Hash + Drop>(
    alloc: Global,
    for_tree: Vec<K>,
    for_table: Vec<K>,
) -> Result<(usize, usize), Fail> {
    let mut tree = BTreeSet::new(alloc);
    for key in for_tree {
        tree.insert(key)?;
    }
    let mut table = HashSet::new(alloc);
    for key in for_table {
        table.insert(key)?;
    }
    Ok((tree.len(), table.len()))
}

/// How many members sets of these have, borrowed.
fn lent_members<'a, T, K: Ord + Hash + Drop + From<&'a T>>(
    alloc: Global,
    parts: &'a [T],
) -> Result<(usize, usize), Fail> {
    let mut tree = BTreeSet::new(alloc);
    let mut table = HashSet::new(alloc);
    for part in parts {
        tree.insert(K::from(part))?;
        table.insert(K::from(part))?;
    }
    Ok((tree.len(), table.len()))
}

/// The keys that are written in these lines.
fn keys(alloc: Global, lines: &str) -> Option<Vec<RouterKey>> {
    let mut keys = Vec::new(alloc);
    for line in lines.lines() {
        keys.push(key(alloc, line)?).ok()?;
    }
    Some(keys)
}

/// The ASPAs that are written in these lines.
fn aspas(alloc: Global, lines: &str) -> Option<Vec<Aspa>> {
    let mut aspas = Vec::new(alloc);
    for line in lines.lines() {
        aspas.push(aspa(alloc, line)?).ok()?;
    }
    Some(aspas)
}

#[test]
fn no_max_length_is_the_prefix_length(rt: HostRuntime) {
    let plain = origin("65551 192.0.2.0 24").expect(&rt, "an origin");
    let given = origin("65551 192.0.2.0 24 24").expect(&rt, "an origin");
    expect_same(&rt, &plain, &given);
    let lengths = (plain.prefix.max_len(), given.prefix.max_len());
    expect_equal(&rt, lengths, (None, Some(24)));
    let long = origin("0 :: 0").expect(&rt, "an origin");
    expect_equal(&rt, (plain.is_v4(), long.is_v4()), (true, false));
}

/// How many members sets of these origins have.
fn origin_members(alloc: Global, origins: &[RouteOrigin]) -> Result<(usize, usize), Fail> {
    let for_tree = Vec::from_slice(alloc, origins)?;
    let for_table = Vec::from_slice(alloc, origins)?;
    members(alloc, for_tree, for_table)
}

#[test]
fn origins_in_sets(rt: HostRuntime) -> Result<(), Fail> {
    let plain = origin("65551 192.0.2.0 24").expect(&rt, "an origin");
    let given = origin("65551 192.0.2.0 24 24").expect(&rt, "an origin");
    let longer = origin("65551 192.0.2.0 24 25").expect(&rt, "an origin");
    expect_equal(&rt, origin_members(rt.alloc(), &[plain, given])?, (1, 1));
    expect_equal(&rt, origin_members(rt.alloc(), &[plain, longer])?, (2, 2));
    let lent = lent_members::<RouteOrigin, PayloadRef<'_>>(rt.alloc(), &[plain, given])?;
    expect_equal(&rt, lent, (1, 1));
    Ok(())
}

#[test]
fn equal_payloads_in_sets(rt: HostRuntime) -> Result<(), Fail> {
    let lines = "origin 65551 192.0.2.0 24\norigin 65551 192.0.2.0 24 24";
    let for_tree = payloads(rt.alloc(), lines).expect(&rt, "payloads");
    let for_table = payloads(rt.alloc(), lines).expect(&rt, "payloads");
    expect_equal(&rt, members(rt.alloc(), for_tree, for_table)?, (1, 1));
    Ok(())
}

#[test]
fn keys_in_sets(rt: HostRuntime) -> Result<(), Fail> {
    let same = keys(rt.alloc(), "9 1 15\n9 1 15").expect(&rt, "keys");
    let other = keys(rt.alloc(), "9 1 15\n9 1 16").expect(&rt, "keys");
    expect_equal(&rt, members(rt.alloc(), same, other)?, (1, 2));
    Ok(())
}

#[test]
fn aspas_in_sets(rt: HostRuntime) -> Result<(), Fail> {
    let other = aspas(rt.alloc(), "1 2 3\n1 3 2").expect(&rt, "ASPAs");
    let same = aspas(rt.alloc(), "1 2 3\n1 2 3").expect(&rt, "ASPAs");
    expect_equal(&rt, members(rt.alloc(), other, same)?, (2, 1));
    Ok(())
}

/// Whether the payload is new to the tree, and whether it is to the table.
fn insert(
    tree: &mut BTreeSet<Payload>,
    table: &mut HashSet<Payload>,
    payload: &Payload,
) -> Result<(bool, bool), Fail> {
    let is_new = tree.insert(payload.clone()?)?;
    Ok((is_new, table.insert(payload.clone()?)?))
}

#[test]
fn payloads_in_sets(rt: HostRuntime) -> Result<(), Fail> {
    let payloads = payloads(rt.alloc(), ASCENDING).expect(&rt, "payloads");
    let mut tree = BTreeSet::new(rt.alloc());
    let mut table = HashSet::new(rt.alloc());
    for payload in &payloads {
        for is_new in [true, false] {
            expect_equal(
                &rt,
                insert(&mut tree, &mut table, payload)?,
                (is_new, is_new),
            );
        }
    }
    expect_equal(
        &rt,
        (tree.len(), table.len()),
        (payloads.len(), payloads.len()),
    );
    Ok(())
}

#[test]
fn lent_keys_in_sets(rt: HostRuntime) -> Result<(), Fail> {
    let keys = keys(rt.alloc(), "9 1 15\n9 1 16\n9 1 15").expect(&rt, "keys");
    let lent = lent_members::<RouterKey, PayloadRef<'_>>(rt.alloc(), &keys)?;
    expect_equal(&rt, lent, (2, 2));
    Ok(())
}

#[test]
fn lent_aspas_in_sets(rt: HostRuntime) -> Result<(), Fail> {
    let aspas = aspas(rt.alloc(), "1 2 3\n1 2 3\n1 3 2").expect(&rt, "ASPAs");
    let lent = lent_members::<Aspa, PayloadRef<'_>>(rt.alloc(), &aspas)?;
    expect_equal(&rt, lent, (2, 2));
    Ok(())
}
