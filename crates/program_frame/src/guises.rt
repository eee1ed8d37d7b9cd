//! Guesses what an input is that doesn't hold units.

ghost use Rattle.std.specs.Prelude.{◌≡◌};
ghost use Rattle.program_frame.specs.Guises.{guise_of};

use crate::failures::Escaped;
use std::fmt;
use std::io::Write;

/// The number of bytes of an input that are looked at.
const FRONT_SIZE: u8 = 4;

/// What an input seems to be that doesn't hold units.
#[derive(Clone, Copy)]
pub enum Guise {
    /// JSON, as validators print it: it begins with `{` or `[` (RFC 8259 section 2).
    Json,
    /// A packet capture: a pcap file or a pcapng file, by its magic number.
    Capture,
}

/// What an input seems to be if it doesn't hold units, by the number of its first four bytes.
fn guise_of(front: u32) -> Option<Guise>
    ensures { result ≡ guise_of front }
{
    match front {
        0x7b00_0000..=0x7bff_ffff | 0x5b00_0000..=0x5bff_ffff => Some(Guise::Json),
        0xd4c3_b2a1 | 0xa1b2_c3d4 | 0x4d3c_b2a1 | 0xa1b2_3c4d | 0x0a0d_0d0a => {
            Some(Guise::Capture)
        }
        _ => None,
    }
}

/// The first bytes of an input, as far as they are read.
#[derive(Clone, Copy)]
pub struct Front {
    /// The number that they form.
    number: u32,
    /// The number of bytes.
    count: u8,
}

impl Front {
    /// The state before anything was read.
    pub fn new() -> Front {
        Front {
            number: 0,
            count: 0,
        }
    }

    /// The state after these bytes were read.
    #[must_use]
    pub fn with(self, bytes: &[u8]) -> Front {
        let mut front = self;
        for byte in bytes {
            if front.count >= FRONT_SIZE {
                return front;
            }
            front.number = front
                .number
                .wrapping_mul(256)
                .wrapping_add(u32::from(*byte));
            front.count += 1;
        }
        front
    }

    /// What the input seems to be, if it doesn't hold units.
    pub fn guise(self) -> Option<Guise> {
        let mut front = self;
        for _ in self.count..FRONT_SIZE {
            front = front.with(&[0]);
        }
        guise_of(front.number)
    }
}

/// Writes what it is, and which program reads it.
impl fmt::Display for Guise {
    fn fmt<W: fmt::Write>(&self, f: &mut fmt::Formatter<W>) -> fmt::Result {
        match self {
            Guise::Json => f.write_str(
                "looks like JSON: `rtr_make --json` makes units of what validators print",
            ),
            Guise::Capture => f.write_str(
                "looks like a packet capture: `rtr-pcap FILE` lists the sessions in it",
            ),
        }
    }
}

/// Reports, after the names of the program and of the input, what the input seems to be if it
/// doesn't hold units, and which program reads that.
pub fn hint<F: Write>(name: &str, input: &str, front: Front, faults: &mut F) {
    if let Some(guise) = front.guise() {
        let input = Escaped(input);
        let _ = writeln!(faults, "{name}: {input} {guise}");
    }
}
