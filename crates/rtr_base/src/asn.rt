//! Autonomous system numbers.

ghost use Rattle.std.specs.Prelude.{◌≡◌, ◌<◌, ◌^◌, ℕ};

use std::marker::Model;

/// The number of an autonomous system.
#[derive(Clone, Copy, Debug, PartialEq, Eq, PartialOrd, Ord, Hash)]
pub struct Asn(u32);

impl Model for Asn {
    ghost Value = { ℕ };

    ghost view = { λ a. a.0 };

    ghost inverse = { λ n. record { 0 = n } };
}

impl Asn {
    /// The system of this number.
    #[inline(always)]
    pub const fn from_u32(value: u32) -> Self
        ensures { result ≡ value }
    {
        Asn(value)
    }

    /// The number of the system.
    #[inline(always)]
    pub const fn into_u32(self) -> u32
        ensures number { result ≡ self }
        ensures range { self < 2 ^ 32 }
    {
        self.0
    }
}

impl From<u32> for Asn {
    ghost from_gives = { λ value asn. asn ≡ value };

    #[inline(always)]
    fn from(value: u32) -> Self {
        Asn(value)
    }
}
