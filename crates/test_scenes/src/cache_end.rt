//! A cache that is played with: the machine, and what a program does for it.

use crate::buffer::take;
use crate::deed::{Deed, What};
use crate::editions::Editions;
use session_bytes::{Refusal, Served, place_opening, place_owed, serve};
use session_cache::cache::Cache;
use session_cache::event::{Answer, CacheEvent};
use session_cache::settings::CacheSettings;
use std::alloc::Global;
use std::mem;
use std::test::Fail;

/// The most steps that a cache takes by itself until a time.
const MOST: u32 = 1_000_000;

/// The most bytes of a unit.
const LONGEST: usize = 65535;

/// What an answer is about.
#[derive(Drop)]
struct About {
    unit: Vec<u8>,
    refusal: Option<Refusal>,
}

#[derive(Drop)]
pub struct CacheEnd {
    alloc: Global,
    settings: CacheSettings,
    /// Its end of a connection, if there is one.
    cache: Option<Cache>,
    pub editions: Editions,
    now: u64,
    /// What was read and not yet taken.
    input: Vec<u8>,
    is_closed: bool,
    is_broken: bool,
    /// What the cache did.
    deeds: Vec<Deed>,
}

impl CacheEnd {
    /// A cache without data, at the beginning of time.
    pub fn new(alloc: Global, settings: CacheSettings) -> CacheEnd {
        CacheEnd {
            alloc,
            settings,
            cache: None,
            editions: Editions::new(alloc),
            now: 0,
            input: Vec::new(alloc),
            is_closed: false,
            is_broken: false,
            deeds: Vec::new(alloc),
        }
    }

    /// A cache that begins anew, with the same data.
    pub fn restart(&mut self, settings: CacheSettings) {
        self.settings = settings;
        self.cache = None;
    }

    /// Whether it refuses serial queries whose changes it can't tell.
    pub fn refuses(&self) -> bool {
        self.settings.refuses
    }

    /// What the cache did since the last call.
    pub fn take_deeds(&mut self) -> Vec<Deed> {
        mem::replace(&mut self.deeds, Vec::new(self.alloc))
    }

    /// When the cache acts by itself.
    pub fn wakes(&self) -> u64 {
        match &self.cache {
            Some(cache) => cache.wakes(self.editions.present()),
            None => u64::MAX,
        }
    }

    /// The clock comes to this time.
    pub fn pass(&mut self, time: u64) -> Result<(), Fail> {
        for _ in 0..MOST {
            let wakes = self.wakes();
            if wakes > time {
                break;
            }
            self.now = self.now.max(wakes);
            if !self.settle()? {
                break;
            }
        }
        self.now = self.now.max(time);
        Ok(())
    }

    /// A router connects, who may be one more than the cache may have.
    pub fn connected(&mut self, is_one_more: bool) -> Result<(), Fail> {
        self.is_closed = false;
        self.is_broken = false;
        self.input.clear();
        let now = self.now.min(u64::MAX / 4);
        self.cache = Some(Cache::new(now, self.settings));
        if is_one_more {
            self.tell(CacheEvent::Full, self.about_none())?;
        }
        self.settle()?;
        Ok(())
    }

    /// These bytes are read.
    pub fn received(&mut self, bytes: &[u8]) -> Result<(), Fail> {
        self.input.extend_from_slice(bytes)?;
        self.settle()?;
        Ok(())
    }

    /// Nothing more is read, nor sent if the connection is broken.
    pub fn closed(&mut self, is_broken: bool) -> Result<(), Fail> {
        self.is_closed = true;
        self.is_broken = is_broken;
        self.settle()?;
        self.tell(CacheEvent::Lost, self.about_none())
    }

    /// These are the newest data.
    pub fn renewed(&mut self, data: Vec<u8>) -> Result<(), Fail> {
        self.editions.add(data)?;
        self.settle()?;
        Ok(())
    }

    fn about_none(&self) -> About {
        About {
            unit: Vec::new(self.alloc),
            refusal: None,
        }
    }

    /// Has the machine go on until it waits. Reports whether it did something.
    fn settle(&mut self) -> Result<bool, Fail> {
        for steps in 0..MOST {
            if !self.tick()? && !self.read()? {
                return Ok(steps > 0);
            }
        }
        Err(Fail::new("the machine doesn't wait"))
    }

    /// Tells the machine that time passed. Reports whether it did something.
    fn tick(&mut self) -> Result<bool, Fail> {
        match self.step(CacheEvent::Tick) {
            Answer::Wait => Ok(false),
            answer => {
                self.act(answer, self.about_none())?;
                Ok(true)
            }
        }
    }

    fn step(&mut self, event: CacheEvent) -> Answer {
        let now = self.now.min(u64::MAX / 4);
        let present = self.editions.present();
        match &mut self.cache {
            Some(cache) => cache.step(now, present, event),
            None => Answer::Wait,
        }
    }

    fn tell(&mut self, event: CacheEvent, about: About) -> Result<(), Fail> {
        let answer = self.step(event);
        self.act(answer, about)
    }

    /// Tells the machine of what was read. Reports whether there was something.
    fn read(&mut self) -> Result<bool, Fail> {
        let now = self.now.min(u64::MAX / 4);
        let present = self.editions.present();
        let kept = self.editions.kept()?;
        let Some(cache) = &mut self.cache else {
            return Ok(false);
        };
        let (answer, size, refusal) = match serve(
            cache,
            now,
            present,
            &kept,
            &self.input,
            self.is_closed,
        ) {
            Served::Awaits => return Ok(false),
            Served::Answered(size, answer) => (answer, size, None),
            Served::Refused(fault, answer) => { (answer, self.input.len(), Refusal::of(&fault)) }
        };
        let unit = take(&mut self.input, size, self.alloc)?;
        self.act(answer, About { unit, refusal })?;
        Ok(true)
    }

    /// Does what the machine says.
    fn act(&mut self, answer: Answer, about: About) -> Result<(), Fail> {
        let Some(Cache { version, .. }) = self.cache else {
            return Ok(());
        };
        let mut bytes = self.opening(version, &answer)?;
        match answer {
            Answer::All => bytes.extend_from_slice(&self.editions.newest(version)?)?,
            Answer::Changes(since) => {
                bytes.extend_from_slice(&self.editions.changes(since, version)?)?;
            }
            Answer::NoData | Answer::End(_) if !self.is_broken => {
                bytes.extend_from_slice(&self.owed(version, &answer, &about)?)?;
            }
            _ => {}
        }
        if !bytes.is_empty() {
            self.note(What::Sends(bytes))?;
        }
        if matches!(answer, Answer::End(_)) {
            self.cache = None;
            self.input.clear();
            self.is_closed = false;
            self.note(What::Closes)?;
        }
        Ok(())
    }

    /// The unit that an answer begins with, if it begins with one that isn't a report.
    fn opening(&self, version: u8, answer: &Answer) -> Result<Vec<u8>, Fail> {
        let mut output = Vec::from_elem(self.alloc, 0u8, 12)?;
        let size = place_opening(version, answer, &self.editions.present(), &mut output);
        output.truncate(size.unwrap_or(0));
        Ok(output)
    }

    /// The report that an answer owes, if it owes one.
    fn owed(&self, version: u8, answer: &Answer, about: &About) -> Result<Vec<u8>, Fail> {
        let mut output = Vec::from_elem(self.alloc, 0u8, LONGEST)?;
        let size = place_owed(version, answer, about.refusal, &about.unit, &mut output);
        output.truncate(size.unwrap_or(0));
        Ok(output)
    }

    /// Notes what the cache does, with its time.
    fn note(&mut self, what: What) -> Result<(), Fail> {
        let time = self.now;
        self.deeds.push(Deed { time, what })?;
        Ok(())
    }
}
