//! All data that a cache had.

use crate::payloads::{COUNT, Named};
use crate::random::Random;
use data_slices::check_data;
use std::alloc::Global;
use std::test::Fail;

/// How many data are remembered at least.
const REMEMBERED: usize = 200;

#[derive(Drop)]
pub struct Past {
    all: Vec<Named>,
    session: u16,
    serial: u32,
    chosen: u32,
}

impl Past {
    /// None yet.
    pub fn new(alloc: Global, random: &mut Random) -> Past {
        Past {
            all: Vec::new(alloc),
            session: u16::try_from(random.below(65536)).unwrap_or(0),
            serial: random.small(u32::MAX),
            chosen: 0,
        }
    }

    /// New data of the session: some of the payloads are others.
    pub fn renew(&mut self, random: &mut Random) -> Result<Named, Fail> {
        for _ in 0..random.below(4) {
            let place = random.small(COUNT);
            self.chosen ^= 1u32.checked_shl(place).unwrap_or(0);
        }
        self.serial = self.serial.wrapping_add(1);
        let named = Named {
            session: self.session,
            serial: self.serial,
            chosen: self.chosen,
        };
        if self.all.len() >= 2 * REMEMBERED {
            self.all.drain(..REMEMBERED);
        }
        self.all.push(named)?;
        Ok(named)
    }

    /// The next data are of another session, whose serial numbers begin anywhere, often shortly
    /// before the greatest.
    pub fn change_session(&mut self, random: &mut Random) -> Result<(), Fail> {
        self.session = self.session.wrapping_add(1);
        self.serial = if random.once_in(2) {
            u32::MAX.saturating_sub(random.small(8))
        } else {
            random.small(u32::MAX)
        };
        Ok(())
    }

    /// The data that the cache had under the session and the serial number of these.
    pub fn of_end(&self, data: &[u8]) -> Option<Named> {
        let Ok(end) = check_data(data) else {
            return None;
        };
        let (session, serial) = (end.session(), end.serial().0);
        let mut all = self.all.iter().rev();
        all.find(|named| named.session == session && named.serial == serial)
            .copied()
    }
}
