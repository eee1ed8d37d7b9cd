//! Returns as text.

use rtr_wire::pdu::{Fault, PrefixRule, ViewFault};
use std::alloc::{AllocError, Global};
use std::fmt::Display;
use std::io;
use std::io::ErrorKind;
use test_library::support::Recorder;

/// Words with spaces between them. Bytes are hex; consecutive bytes are one word.
#[derive(Drop)]
pub struct Answer {
    alloc: Global,
    text: String,
    ends_in_bytes: bool,
    is_incomplete: bool,
}

impl Answer {
    /// No words.
    pub fn new(alloc: Global) -> Answer {
        Answer {
            alloc,
            text: String::new(alloc),
            ends_in_bytes: false,
            is_incomplete: false,
        }
    }

    /// Appends a word.
    pub fn word<D: Display + Drop>(&mut self, word: D) {
        self.ends_in_bytes = false;
        match format!(in self.alloc; "{word}") {
            Ok(word) => self.append(word.as_str()),
            Err(_) => self.is_incomplete = true,
        }
    }

    /// Appends the name of a kind of unit, the unit's version, and what comes next of it.
    pub fn unit<D: Display + Drop>(&mut self, name: &str, version: u8, next: D) {
        self.word(format_args!("{name} {version} {next}"))
    }

    /// Appends bytes.
    pub fn bytes(&mut self, bytes: &[u8]) {
        if bytes.is_empty() {
            return;
        }
        match hex::encode(self.alloc, bytes) {
            Ok(word) => self.append(word.as_str()),
            Err(_) => self.is_incomplete = true,
        }
        self.ends_in_bytes = true;
    }

    /// Appends a text, after a space unless it is the first or goes on with bytes.
    fn append(&mut self, text: &str) {
        if !self.text.is_empty() && !self.ends_in_bytes && self.text.push_str(" ").is_err() {
            self.is_incomplete = true;
        }
        if self.text.push_str(text).is_err() {
            self.is_incomplete = true;
        }
    }

    /// Whether these are the same words.
    pub fn is_same(&self, other: &Answer) -> bool {
        self.text == other.text && !self.is_incomplete && !other.is_incomplete
    }

    /// The words, if there was memory for all of them.
    pub fn into_text(self) -> Result<String, AllocError> {
        if self.is_incomplete {
            return Err(AllocError);
        }
        Ok(self.text)
    }

    /// Appends `Ok`, or the name of the fault.
    pub fn outcome(&mut self, outcome: &Result<(), Fault>) {
        match outcome {
            Ok(()) => self.word("Ok"),
            Err(fault) => self.fault(fault),
        }
    }

    /// Appends what was written, or the name of the fault.
    pub fn written(&mut self, outcome: &Result<(), Fault>, writer: &Recorder) {
        match outcome {
            Ok(()) => self.bytes(writer.held()),
            Err(fault) => self.fault(fault),
        }
    }

    /// Appends the name of a fault. The errors of readers and writers are interruptions, since the
    /// table's readers and writers give these.
    pub fn fault(&mut self, fault: &Fault) {
        match fault {
            Fault::Reader(error) => self.error("Reader", error),
            Fault::Writer(error) => self.error("Writer", error),
            Fault::Short => self.word("Short"),
            Fault::UnitType(pdu) => self.number("UnitType", *pdu),
            Fault::UnitLength => self.word("UnitLength"),
            Fault::TooLong => self.word("TooLong"),
            Fault::EmptyProviders => self.word("EmptyProviders"),
            Fault::UnitVersion(version) => self.number("UnitVersion", *version),
            Fault::Refused(_) => self.word("Refused"),
            Fault::TooMany => self.word("TooMany"),
            Fault::Memory => self.word("Memory"),
        }
    }

    /// Appends the name of a fault of a view.
    pub fn view_fault(&mut self, fault: &ViewFault) {
        match fault {
            ViewFault::Writer(error) => self.error("Writer", error),
            ViewFault::Short => self.word("Short"),
            ViewFault::UnitType(pdu) => self.number("UnitType", *pdu),
            ViewFault::UnitLength => self.word("UnitLength"),
            ViewFault::TooLong => self.word("TooLong"),
            ViewFault::EmptyProviders => self.word("EmptyProviders"),
            ViewFault::UnitVersion(version) => self.number("UnitVersion", *version),
            ViewFault::Prefix(PrefixRule::LenOverflow) => self.word("Prefix(LenOverflow)"),
            ViewFault::Prefix(PrefixRule::MaxOverflow) => self.word("Prefix(MaxOverflow)"),
            ViewFault::Prefix(PrefixRule::MaxUnderflow) => self.word("Prefix(MaxUnderflow)"),
            ViewFault::TooMany => self.word("TooMany"),
        }
    }

    /// Appends a name with a number.
    fn number(&mut self, name: &str, number: u8) {
        self.word(format_args!("{name}({number})"))
    }

    /// Appends the name of a fault that holds an error, and whether the library made that error.
    fn error(&mut self, name: &str, error: &io::Error) {
        match error.kind() {
            ErrorKind::Interrupted => self.word(name),
            _ => self.word(format_args!("{name}(own)")),
        }
    }
}
