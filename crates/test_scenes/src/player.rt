//! The end that a scene has played.

use crate::cache_end::CacheEnd;
use crate::deed::Deed;
use crate::line::{Given, bytes};
use crate::router_end::RouterEnd;
use std::alloc::Global;
use std::test::Fail;

#[derive(Drop)]
pub enum Player {
    Router(RouterEnd),
    Cache(CacheEnd),
}

impl Player {
    /// The clock comes to this time.
    pub fn pass(&mut self, time: u64) -> Result<(), Fail> {
        match self {
            Player::Router(router) => router.pass(time),
            Player::Cache(cache) => cache.pass(time),
        }
    }

    /// What the end did since the last call.
    pub fn take_deeds(&mut self) -> Vec<Deed> {
        match self {
            Player::Router(router) => router.take_deeds(),
            Player::Cache(cache) => cache.take_deeds(),
        }
    }

    /// The name of the end.
    pub fn name(&self) -> &'static str {
        match self {
            Player::Router(_) => "router",
            Player::Cache(_) => "cache",
        }
    }

    /// This happens.
    pub fn give(&mut self, given: Given<'_>, alloc: Global) -> Result<(), Fail> {
        match self {
            Player::Router(router) => give_router(router, given, alloc),
            Player::Cache(cache) => give_cache(cache, given, alloc),
        }
    }
}

fn give_router(router: &mut RouterEnd, given: Given<'_>, alloc: Global) -> Result<(), Fail> {
    match given {
        Given::Accepts => router.accepted(),
        Given::Refuses => router.refused(),
        Given::Asks => router.asked(),
        Given::Sends(hex) => router.received(&bytes(alloc, hex)?),
        Given::Closes => router.closed(false),
        Given::Breaks => router.closed(true),
        _ => Ok(()),
    }
}

fn give_cache(cache: &mut CacheEnd, given: Given<'_>, alloc: Global) -> Result<(), Fail> {
    match given {
        Given::Connects => cache.connected(false),
        Given::ConnectsBeyond => cache.connected(true),
        Given::Sends(hex) => cache.received(&bytes(alloc, hex)?),
        Given::Closes => cache.closed(false),
        Given::Breaks => cache.closed(true),
        Given::Data(units) => cache.renewed(bytes(alloc, units)?),
        Given::Forgets(serial) => cache.editions.forget(serial),
        _ => Ok(()),
    }
}
