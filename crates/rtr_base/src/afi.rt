//! An address family as a byte.

ghost use Rattle.std.specs.Prelude.{◌≡◌, ◌↔◌, ◌%◌, IsTrue};

use std::fmt;
use std::marker::Model;

/// An address family as a byte, of which only the lowest bit counts: 0 for IPv4, 1 for IPv6.
/// Equality, order and hash are those of the whole byte.
#[derive(Clone, Copy, Debug, PartialEq, Eq, PartialOrd, Ord, Hash)]
pub struct Afi(u8);

impl Model for Afi {
    ghost use Rattle.std.specs.Prelude.{ℕ};

    ghost Value = { ℕ };

    ghost view = { λ a. a.0 };

    ghost inverse = { λ n. record { 0 = n } };
}

impl Afi {
    /// IPv4, with the byte 0.
    pub fn ipv4() -> Self
        ensures { result ≡ 0 }
    {
        Afi(0)
    }

    /// IPv6, with the byte 1.
    pub fn ipv6() -> Self
        ensures { result ≡ 1 }
    {
        Afi(1)
    }

    /// Whether the byte means IPv4.
    pub fn is_ipv4(self) -> bool
        ensures { IsTrue result ↔ (self % 2 ≡ 0) }
    {
        self.0 % 2 == 0
    }

    /// Whether the byte means IPv6.
    pub fn is_ipv6(self) -> bool
        ensures { IsTrue result ↔ (self % 2 ≡ 1) }
    {
        self.0 % 2 == 1
    }

    /// The byte.
    pub fn into_u8(self) -> u8
        ensures { result ≡ self }
    {
        self.0
    }

    /// The family of this byte.
    pub fn from_u8(src: u8) -> Self
        ensures { result ≡ src }
    {
        Afi(src)
    }
}

/// Writes `ipv4` or `ipv6`; width and padding are ignored.
impl fmt::Display for Afi {
    ghost use Rattle.std.specs.Prelude.{Some};
    ghost use Rattle.rtr_base.specs.Texts.{afi_text};

    ghost output = { λ a. Some (afi_text a) };

    ghost styled_output = { λ a _. Some (afi_text a) };

    fn fmt<W: fmt::Write>(&self, f: &mut fmt::Formatter<W>) -> fmt::Result {
        f.write_str(if self.is_ipv4() { "ipv4" } else { "ipv6" })
    }
}
