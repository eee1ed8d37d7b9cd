//! The pipe between two ends.

use std::alloc::Global;
use std::test::Fail;
use unit_any::SessionView;

/// A connection, if there is one, and what is on its way.
#[derive(Drop)]
pub struct Link {
    /// Whether the router wants a connection, and there is none yet.
    pub is_wanted: bool,
    pub is_up: bool,
    pub router_closed: bool,
    pub cache_closed: bool,
    /// Whether it is one more than the cache may have.
    pub is_one_more: bool,
    /// Whether the cache said that it has no data.
    pub had_no_data: bool,
    pub to_router: Vec<u8>,
    pub to_cache: Vec<u8>,
}

impl Link {
    /// No connection.
    pub fn new(alloc: Global) -> Link {
        Link {
            is_wanted: false,
            is_up: false,
            router_closed: false,
            cache_closed: false,
            is_one_more: false,
            had_no_data: false,
            to_router: Vec::new(alloc),
            to_cache: Vec::new(alloc),
        }
    }

    /// A connection is there.
    pub fn begin(&mut self) {
        self.end();
        self.is_up = true;
        self.router_closed = false;
        self.cache_closed = false;
        self.had_no_data = false;
    }

    /// It is over, and what is on its way is lost.
    pub fn end(&mut self) {
        self.is_up = false;
        self.to_router.clear();
        self.to_cache.clear();
    }

    /// Whether nothing is on its way, and no close either.
    pub fn is_quiet(&self) -> bool {
        !self.is_wanted
            && (!self.is_up
                || (self.to_router.is_empty()
                    && self.to_cache.is_empty()
                    && !self.router_closed
                    && !self.cache_closed))
    }

    pub fn sent_by_router(&mut self, bytes: &[u8]) -> Result<(), Fail> {
        if self.is_up && !self.cache_closed {
            self.to_cache.extend_from_slice(bytes)?;
        }
        Ok(())
    }

    pub fn sent_by_cache(&mut self, bytes: &[u8]) -> Result<(), Fail> {
        if self.is_up && !self.router_closed {
            self.to_router.extend_from_slice(bytes)?;
        }
        Ok(())
    }

    /// The router reads nothing more.
    pub fn close_router(&mut self) {
        self.router_closed = true;
        self.to_router.clear();
        self.end_if_closed();
    }

    /// The cache reads nothing more.
    pub fn close_cache(&mut self) {
        self.cache_closed = true;
        self.to_cache.clear();
        self.end_if_closed();
    }

    fn end_if_closed(&mut self) {
        if self.router_closed && self.cache_closed {
            self.end();
        }
    }
}

/// The text of the report that is sent, if it is one.
pub fn report_of(bytes: &[u8]) -> Option<&str> {
    match SessionView::first(bytes) {
        Ok((SessionView::Error(report), _)) => match report.text() {
            Some(text) => str::from_utf8(text).ok(),
            None => Some("no text"),
        },
        _ => None,
    }
}

/// Whether a report says that a close cut off a unit.
pub fn is_cut(text: &str) -> bool {
    text == "unexpected end of input"
}
