//! Serial numbers, and the state of a session.

ghost use Rattle.std.specs.Prelude.{◌≡◌, ℕ, ◌+◌, ◌%◌, ◌^◌, ◌≤◌, ◌<◌};
ghost use Rattle.rtr_base.specs.Bytes.{be, value};
ghost use Rattle.rtr_base.specs.Serial.{serial_cmp};

use std::cmp::Ordering;
use std::fmt;
use std::marker::Model;
use std::num::ParseIntError;
use std::str::FromStr;

/// A serial number: 32 bits, compared as in RFC 1982.
///
/// The comparison isn't transitive, so there are no operators `<` and `>`: call `partial_cmp` by
/// name.
#[derive(Clone, Copy, Debug, PartialEq, Eq, Hash, Default)]
pub struct Serial(pub u32);

impl Serial {
    /// The number of four bytes in network order.
    #[inline(always)]
    pub fn from_be_bytes(bytes: [u8; 4]) -> Self
        ensures number { result.0 ≡ value bytes }
        ensures bytes { be result.0 4 ≡ bytes }
    {
        Serial(u32::from_be_bytes(bytes))
    }

    /// The number as four bytes in network order.
    #[inline(always)]
    pub fn to_be_bytes(self) -> [u8; 4]
        ensures { result ≡ be self.0 4 }
    {
        self.0.to_be_bytes()
    }

    /// The number itself.
    #[inline(always)]
    pub const fn into_u32(self) -> u32
        ensures { result ≡ self.0 }
    {
        self.0
    }

    /// The number `other` after this one; the greatest is followed by 0 (RFC 1982 section 3.1).
    pub fn add(self, other: u32) -> Self
        requires { other ≤ 2147483647 }
        ensures { result.0 ≡ (self.0 + other) % 2 ^ 32 }
    {
        Serial(self.0.wrapping_add(other))
    }

    /// The order of two serial numbers (RFC 1982 section 3.2), or none if they are half the circle
    /// apart.
    pub fn partial_cmp(&self, other: &Serial) -> Option<Ordering>
        ensures { result ≡ serial_cmp self.now.0 other.now.0 }
    {
        match other.0.wrapping_sub(self.0) {
            0 => Some(Ordering::Equal),
            1..=0x7fff_ffff => Some(Ordering::Less),
            0x8000_0000 => None,
            _ => Some(Ordering::Greater),
        }
    }
}

impl From<u32> for Serial {
    ghost from_gives = { λ value serial. serial.0 ≡ value };

    #[inline(always)]
    fn from(value: u32) -> Self {
        Serial(value)
    }
}

impl From<Serial> for u32 {
    ghost from_gives = { λ serial value. value ≡ serial.0 };

    #[inline(always)]
    fn from(serial: Serial) -> Self {
        serial.0
    }
}

/// Reads an optional plus and decimal digits, at most 4294967295. Zeros may lead.
impl FromStr for Serial {
    type Err = ParseIntError;

    ghost use Rattle.std.specs.Prelude.{ℕ, MatchResult};
    ghost use Rattle.rtr_base.specs.Numerals.{IsSerialText};

    ghost from_str_gives = { λ text read. MatchResult read (λ serial. IsSerialText text serial.0)
        (λ _. (n : ℕ) → ¬ (IsSerialText text n)) };

    fn from_str(s: &str) -> Result<Self, ParseIntError> {
        Ok(Serial(s.parse()?))
    }
}

/// Writes the number in decimal; width and padding are ignored.
impl fmt::Display for Serial {
    ghost use Rattle.std.specs.Prelude.{Some};
    ghost use Rattle.std.specs.Fmt.{decimal};

    ghost output = { λ s. Some (decimal s.0) };

    fn fmt<W: fmt::Write>(&self, f: &mut fmt::Formatter<W>) -> fmt::Result {
        write!(f, "{}", self.0)
    }
}

/// The session and the serial number that a client and a cache agree on.
#[derive(Clone, Copy, Debug, PartialEq, Eq, Hash)]
pub struct State {
    session: u16,
    serial: Serial,
}

impl Model for State {
    ghost use Rattle.rtr_base.specs.States.{StateParts};

    ghost Value = { StateParts };

    ghost view = { λ a. record { session = a.session; serial = a.serial.0 } };

    ghost inverse = { λ p. record { session = p.session; serial = record { 0 = p.serial } } };
}

impl State {
    /// The state of this session at this serial number.
    #[inline(always)]
    pub const fn from_parts(session: u16, serial: Serial) -> Self
        ensures { result ≡ record { session = session; serial = serial.0 } }
    {
        State { session, serial }
    }

    /// Moves to the next serial number; the greatest is followed by 0.
    pub fn inc(&mut self)
        ensures { self.new ≡ record self.old { serial = (self.old.serial + 1) % 2 ^ 32 } }
    {
        self.serial = self.serial.add(1);
    }

    /// The session.
    #[inline(always)]
    pub fn session(self) -> u16
        ensures session { result ≡ self.session }
        ensures range { self.session < 2 ^ 16 }
    {
        self.session
    }

    /// The serial number.
    #[inline(always)]
    pub fn serial(self) -> Serial
        ensures serial { result.0 ≡ self.serial }
        ensures range { self.serial < 2 ^ 32 }
    {
        self.serial
    }
}
