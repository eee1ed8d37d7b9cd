//! A router that is played with: the machine, and what a program does for it.

use crate::buffer::{take, take_all};
use crate::data::{Made, make_data};
use crate::deed::{Deed, What};
use session_bytes::{Refusal, Told, place_ending, place_query, tell};
use session_router::event::{Action, Ending, Event};
use session_router::head::Query;
use session_router::router::Router;
use session_router::settings::Settings;
use std::alloc::Global;
use std::mem;
use std::test::Fail;

/// The most steps that a router takes by itself until a time.
const MOST: u32 = 1_000_000;

/// The most bytes of a unit.
const LONGEST: usize = 65535;

/// What an action is about.
#[derive(Drop)]
struct About {
    unit: Vec<u8>,
    refusal: Option<Refusal>,
}

#[derive(Drop)]
pub struct RouterEnd {
    alloc: Global,
    router: Router,
    now: u64,
    /// What was read and not yet taken.
    input: Vec<u8>,
    is_closed: bool,
    is_broken: bool,
    /// The payload units of the response.
    kept: Vec<u8>,
    /// The data, empty where there are none.
    data: Vec<u8>,
    /// What the response made.
    made: Vec<u8>,
    /// What the router did.
    deeds: Vec<Deed>,
}

impl RouterEnd {
    /// A router without data, at this time.
    pub fn new(alloc: Global, settings: Settings, now: u64) -> RouterEnd {
        RouterEnd {
            alloc,
            router: Router::new(settings),
            now,
            input: Vec::new(alloc),
            is_closed: false,
            is_broken: false,
            kept: Vec::new(alloc),
            data: Vec::new(alloc),
            made: Vec::new(alloc),
            deeds: Vec::new(alloc),
        }
    }

    /// What the router did since the last call.
    pub fn take_deeds(&mut self) -> Vec<Deed> {
        mem::replace(&mut self.deeds, Vec::new(self.alloc))
    }

    /// When the router acts by itself.
    pub fn wakes(&self) -> u64 {
        self.router.wakes()
    }

    /// The clock comes to this time.
    pub fn pass(&mut self, time: u64) -> Result<(), Fail> {
        for _ in 0..MOST {
            let wakes = self.wakes();
            if wakes > time {
                break;
            }
            self.now = self.now.max(wakes);
            if !self.settle()? {
                break;
            }
        }
        self.now = self.now.max(time);
        Ok(())
    }

    /// The connection is there.
    pub fn accepted(&mut self) -> Result<(), Fail> {
        self.is_closed = false;
        self.is_broken = false;
        self.tell_plain(Event::Connected)?;
        self.settle()?;
        Ok(())
    }

    /// None can be made.
    pub fn refused(&mut self) -> Result<(), Fail> {
        self.tell_plain(Event::Lost)?;
        self.settle()?;
        Ok(())
    }

    /// Its caller wants the present data.
    pub fn asked(&mut self) -> Result<(), Fail> {
        self.tell_plain(Event::Asked)?;
        self.settle()?;
        Ok(())
    }

    /// These bytes are read.
    pub fn received(&mut self, bytes: &[u8]) -> Result<(), Fail> {
        self.input.extend_from_slice(bytes)?;
        self.settle()?;
        Ok(())
    }

    /// Nothing more is read, nor sent if the connection is broken.
    pub fn closed(&mut self, is_broken: bool) -> Result<(), Fail> {
        self.is_closed = true;
        self.is_broken = is_broken;
        self.settle()?;
        if self.is_closed {
            self.tell_plain(Event::Lost)?;
            self.settle()?;
        }
        Ok(())
    }

    /// Has the machine go on until it waits. Reports whether it did something.
    fn settle(&mut self) -> Result<bool, Fail> {
        for steps in 0..MOST {
            if !self.tick()? && !self.read()? {
                return Ok(steps > 0);
            }
        }
        Err(Fail::new("the machine doesn't wait"))
    }

    /// Tells the machine that time passed. Reports whether it did something.
    fn tick(&mut self) -> Result<bool, Fail> {
        match self.step(Event::Tick) {
            Action::Wait => Ok(false),
            action => {
                self.act(action, self.about_none())?;
                Ok(true)
            }
        }
    }

    fn step(&mut self, event: Event) -> Action {
        let now = self.now.min(u64::MAX / 2);
        self.router.step(now, event)
    }

    fn about_none(&self) -> About {
        About {
            unit: Vec::new(self.alloc),
            refusal: None,
        }
    }

    /// Tells the machine of something that is about no unit.
    fn tell_plain(&mut self, event: Event) -> Result<(), Fail> {
        let action = self.step(event);
        self.act(action, self.about_none())
    }

    /// Tells the machine of what was read. Reports whether there was something.
    fn read(&mut self) -> Result<bool, Fail> {
        let now = self.now.min(u64::MAX / 2);
        match tell(&mut self.router, now, &self.input, self.is_closed) {
            Told::Awaits => Ok(false),
            Told::Kept(size) => {
                let taken = take(&mut self.input, size, self.alloc)?;
                self.kept.extend_from_slice(&taken)?;
                Ok(true)
            }
            Told::Acted { start, end, action } => {
                take(&mut self.input, start, self.alloc)?;
                let size = end.saturating_sub(start);
                let unit = take(&mut self.input, size, self.alloc)?;
                let about = About {
                    unit,
                    refusal: None,
                };
                self.act(action, about)?;
                Ok(true)
            }
            Told::Refused { fault, action } => {
                let unit = take_all(&mut self.input, self.alloc);
                let about = About {
                    unit,
                    refusal: Refusal::of(&fault),
                };
                self.act(action, about)?;
                Ok(true)
            }
        }
    }

    /// Does what the machine says.
    fn act(&mut self, action: Action, about: About) -> Result<(), Fail> {
        match action {
            Action::Wait | Action::Keep => Ok(()),
            Action::Connect => self.note(What::Connects),
            Action::Ask(query) => self.ask(&query),
            Action::Begin => {
                self.kept.clear();
                Ok(())
            }
            Action::Apply(changes) => self.apply(changes, &about.unit),
            Action::Show => self.show(),
            Action::NoData => self.note(What::NoData),
            Action::Drop => self.drop_data(),
            Action::End(ending) => self.end(&ending, &about),
        }
    }

    /// Notes what the router does, with its time.
    fn note(&mut self, what: What) -> Result<(), Fail> {
        let time = self.now;
        self.deeds.push(Deed { time, what })?;
        Ok(())
    }

    fn ask(&mut self, query: &Query) -> Result<(), Fail> {
        let mut output = [0u8; 12];
        let size = place_query(query, &mut output).unwrap_or(0);
        let unit = output.get(..size).unwrap_or(&[]);
        self.note(What::Sends(Vec::from_slice(self.alloc, unit)?))
    }

    /// Makes the changes that were kept, of the data or of none.
    fn apply(&mut self, changes: bool, end: &[u8]) -> Result<(), Fail> {
        self.kept.extend_from_slice(end)?;
        let made = if changes {
            make_data(self.alloc, &self.data, &self.kept, end)?
        } else {
            make_data(self.alloc, &[], &self.kept, end)?
        };
        match made {
            Made::Data(data) => {
                self.made = data;
                let action = self.step(Event::Applied);
                self.finish(action, &self.about_none())
            }
            Made::Refused(offset, refusal) => {
                let unit = Vec::from_slice(self.alloc, self.kept.get(offset..).unwrap_or(&[]))?;
                let action = self.step(Event::NotApplied(Some(refusal.code())));
                let about = About {
                    unit,
                    refusal: Some(refusal),
                };
                self.finish(action, &about)
            }
        }
    }

    /// Does what the machine says of changes that were made or refused.
    fn finish(&mut self, action: Action, about: &About) -> Result<(), Fail> {
        match action {
            Action::Show => self.show(),
            Action::End(ending) => self.end(&ending, about),
            _ => Err(Fail::new("an answer neither is shown nor ends the connection")),
        }
    }

    fn show(&mut self) -> Result<(), Fail> {
        self.data = take_all(&mut self.made, self.alloc);
        let data = Vec::from_slice(self.alloc, &self.data)?;
        self.note(What::Shows(data))
    }

    fn drop_data(&mut self) -> Result<(), Fail> {
        self.data.clear();
        self.note(What::Drops)
    }

    /// Ends the connection, after the report that is owed.
    fn end(&mut self, ending: &Ending, about: &About) -> Result<(), Fail> {
        if ending.drop {
            self.drop_data()?;
        }
        if !self.is_broken {
            self.report(ending, about)?;
        }
        self.input.clear();
        self.kept.clear();
        self.is_closed = false;
        self.note(What::Closes)
    }

    /// Notes the report that an ending owes, if it owes one.
    fn report(&mut self, ending: &Ending, about: &About) -> Result<(), Fail> {
        let mut output = Vec::from_elem(self.alloc, 0u8, LONGEST)?;
        let version = self.router.version;
        let Some(size) = place_ending(version, ending, about.refusal, &about.unit, &mut output)
        else {
            return Ok(());
        };
        output.truncate(size);
        self.note(What::Sends(output))
    }
}
