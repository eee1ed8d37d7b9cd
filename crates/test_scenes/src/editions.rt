//! The data that a cache has, and those that it had before.

use data_slices::{check_data, delta_into};
use rtr_wire::normalise_for_into;
use session_cache::event::Present;
use std::alloc::Global;
use std::test::Fail;

/// Data of a session at a serial number, in canonical form.
#[derive(Drop)]
struct Edition {
    session: u16,
    serial: u32,
    data: Vec<u8>,
}

/// All editions of one session that a cache has, the newest last.
#[derive(Drop)]
pub struct Editions {
    alloc: Global,
    all: Vec<Edition>,
}

impl Editions {
    /// None.
    pub fn new(alloc: Global) -> Editions {
        Editions {
            alloc,
            all: Vec::new(alloc),
        }
    }

    /// What names the newest data.
    pub fn present(&self) -> Present {
        match self.all.last() {
            Some(edition) => Present {
                has: true,
                session: edition.session,
                serial: edition.serial,
            },
            None => Present {
                has: false,
                session: 0,
                serial: 0,
            },
        }
    }

    /// The serial numbers of all data.
    pub fn kept(&self) -> Result<Vec<u32>, Fail> {
        let mut serials = Vec::new(self.alloc);
        for edition in &self.all {
            serials.push(edition.serial)?;
        }
        Ok(serials)
    }

    fn find(&self, serial: u32) -> Option<&Edition> {
        self.all.iter().find(|edition| edition.serial == serial)
    }

    /// These are the newest data. Those of another session are forgotten.
    pub fn add(&mut self, data: Vec<u8>) -> Result<(), Fail> {
        let (session, serial) = match check_data(&data) {
            Ok(end) => (end.session(), end.serial().0),
            Err(_) => return Err(Fail::new("these are no data in canonical form")),
        };
        if self.present().session != session {
            self.all.clear();
        }
        self.all.push(Edition {
            session,
            serial,
            data,
        })?;
        Ok(())
    }

    /// Forgets the data of this serial number, and those before them.
    pub fn forget(&mut self, serial: u32) -> Result<(), Fail> {
        let place = self.all.iter().position(|edition| edition.serial == serial);
        let Some(place) = place else {
            return Err(Fail::new(format_args!("there are no data of {serial}")));
        };
        let last = place.saturating_add(1).min(self.all.len());
        self.all.drain(..last);
        Ok(())
    }

    /// Forgets all data but the newest.
    pub fn forget_all_but_last(&mut self) -> Result<(), Fail> {
        let last = self.all.len().saturating_sub(1);
        self.all.drain(..last);
        Ok(())
    }

    /// Forgets all data.
    pub fn clear(&mut self) {
        self.all.clear();
    }

    /// The changes that lead from the data of a serial number to the newest.
    pub fn changes(&self, since: u32, version: u8) -> Result<Vec<u8>, Fail> {
        let old = match self.find(since) {
            Some(edition) => self.of_version(edition, version)?,
            None => return Err(Fail::new(format_args!("{since} isn't kept"))),
        };
        let new = self.newest(version)?;
        let size = old.len().saturating_add(new.len());
        let mut delta = Vec::from_elem(self.alloc, 0u8, size)?;
        match delta_into(&old, &new, &mut delta) {
            Ok(size) => delta.truncate(size),
            Err(_) => return Err(Fail::new("there is no delta")),
        }
        Ok(delta)
    }

    /// The newest data as a version has them.
    pub fn newest(&self, version: u8) -> Result<Vec<u8>, Fail> {
        match self.all.last() {
            Some(edition) => self.of_version(edition, version),
            None => Err(Fail::new("there are no data")),
        }
    }

    fn of_version(&self, edition: &Edition, version: u8) -> Result<Vec<u8>, Fail> {
        let size = edition.data.len().saturating_add(12);
        let mut output = Vec::from_elem(self.alloc, 0u8, size)?;
        let (progress, done) = normalise_for_into(&edition.data, &mut output, u64::MAX, version);
        if done.is_err() {
            return Err(Fail::new("these are no data"));
        }
        output.truncate(progress.written);
        Ok(output)
    }
}
