//! A row's call, and what it is given.

use crate::answer::Answer;
use std::alloc::{AllocError, Global};
use test_library::support::{ONES, Pieces, Recorder, STEPS, WHOLE};

/// A setting of a row, `KEY=VALUE`.
#[derive(Clone, Copy, Drop)]
pub struct Setting<'a> {
    pub key: &'a str,
    pub value: &'a str,
}

/// The keys of settings that are numbers, and the greatest number of each.
const NUMBERS: &[(&str, u64)] = &[
    ("asn", 4294967295),
    ("breaks", u64::MAX),
    ("code", 65535),
    ("count", 4294967295),
    ("fails", u64::MAX),
    ("flags", 255),
    ("length", 4294967295),
    ("limit", u64::MAX),
    ("places", u64::MAX),
    ("room", u64::MAX),
    ("session", 65535),
    ("set", u64::MAX),
    ("size", u64::MAX),
    ("stops", u64::MAX),
    ("type", 255),
    ("version", 255),
];

impl Setting<'_> {
    /// Whether calls know a setting of this key, and its value is of the right kind.
    pub fn is_known(&self) -> bool {
        match self.key {
            "by" => matches!(self.value, "1" | "123" | "whole"),
            "to" => matches!(self.value, "1" | "7" | "whole"),
            "empty" | "endless" => self.value == "1",
            _ => self.is_number(),
        }
    }

    /// Whether this is one of `NUMBERS`, and not too great.
    fn is_number(&self) -> bool {
        let Ok(number) = self.value.parse::<u64>() else {
            return false;
        };
        for (key, most) in NUMBERS {
            if self.key == *key {
                return number <= *most;
            }
        }
        false
    }
}

/// A row's call, its settings, and the bytes before and after a `|`.
#[derive(Drop)]
pub struct Row<'a> {
    pub alloc: Global,
    pub call: &'a str,
    pub settings: Vec<Setting<'a>>,
    pub left: Vec<u8>,
    pub right: Vec<u8>,
    /// The size of the allocations that mark the call, or 0.
    pub mark: usize,
}

/// How many bytes a reader gives, and how many a writer takes, a call.
#[derive(Clone, Copy, Drop)]
pub struct Way {
    pub sizes: &'static [usize],
    pub size: usize,
}

/// One byte at a time; one, two and three in turn; all that is asked for.
const READERS: &[&[usize]] = &[ONES, STEPS, WHOLE];

/// One byte a call; seven; all that is there.
const WRITERS: &[usize] = &[1, 7, usize::MAX];

/// An allocation of this size, in a function of its own, so that no compiler leaves it out.
#[inline(never)]
fn growth(alloc: Global, size: usize) -> Result<Vec<u8>, AllocError> {
    Vec::with_capacity(alloc, size)
}

impl<'a> Row<'a> {
    /// The value of the setting of this key.
    pub fn setting(&self, key: &str) -> Option<&'a str> {
        for setting in &self.settings {
            if setting.key == key {
                return Some(setting.value);
            }
        }
        None
    }

    /// The number in the setting of this key, or else the one given.
    pub fn number(&self, key: &str, otherwise: u64) -> u64 {
        match self.setting(key) {
            Some(value) => value.parse::<u64>().unwrap_or(otherwise),
            None => otherwise,
        }
    }

    /// The number of a setting as a byte.
    pub fn byte(&self, key: &str, otherwise: u8) -> u8 {
        u8::try_from(self.number(key, u64::from(otherwise))).unwrap_or(otherwise)
    }

    /// The number of a setting in 16 bits, or 0.
    pub fn short(&self, key: &str) -> u16 {
        u16::try_from(self.number(key, 0)).unwrap_or(0)
    }

    /// The number of a setting in 32 bits, or 0.
    pub fn long(&self, key: &str) -> u32 {
        u32::try_from(self.number(key, 0)).unwrap_or(0)
    }

    /// The number of a setting as a place or a count of calls, or 0.
    pub fn place(&self, key: &str) -> usize {
        usize::try_from(self.number(key, 0)).unwrap_or(0)
    }

    /// The sizes of the readers that the row is run with: that of `by`, or all.
    pub fn readers(&self) -> &'static [&'static [usize]] {
        match self.setting("by") {
            Some("1") => &[ONES],
            Some("123") => &[STEPS],
            Some(_) => &[WHOLE],
            None => READERS,
        }
    }

    /// The sizes of the writers that the row is run with: that of `to`, or all.
    pub fn writers(&self) -> &'static [usize] {
        match self.setting("to") {
            Some("1") => &[1],
            Some("7") => &[7],
            Some(_) => &[usize::MAX],
            None => WRITERS,
        }
    }

    /// A reader over the row's bytes. With `endless` it gives them over and over, with `fails` its
    /// call of that number fails.
    pub fn reader<'b>(&'b self, way: Way) -> Pieces<'b> {
        if self.setting("endless").is_some() {
            return Pieces::endless(&self.left);
        }
        Pieces::failing(&self.left, way.sizes, self.place("fails"))
    }

    /// A writer with room for a form of the row's bytes, so that it allocates nothing later; if
    /// there is memory. With `breaks` its call of that number fails, with `stops` it takes nothing.
    pub fn writer(&self, way: Way) -> Recorder {
        let room = self.left.len().saturating_add(64);
        let mut writer = Recorder::with_room(self.alloc, way.size, room);
        writer.set_troubles(self.place("breaks"), self.place("stops"));
        writer
    }

    /// Marks where the call begins.
    pub fn ready(&self) {
        if self.mark > 0 {
            let _ = growth(self.alloc, self.mark);
        }
    }

    /// Marks where the call ends, and begins its answer.
    pub fn answer(&self) -> Answer {
        self.ready();
        Answer::new(self.alloc)
    }

    /// The answer if the row's bytes are no unit.
    pub fn no_unit(&self) -> Answer {
        let mut seen = Answer::new(self.alloc);
        seen.word("no unit");
        seen
    }
}
