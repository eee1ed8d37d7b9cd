//! Error reports that lie in a slice (RFC 8210 section 5.11, RFC 6810 section 5.10).

ghost use Rattle.std.specs.Prelude.{◌≡◌, ◌≤◌, ℕ, List, length, MatchOption};
ghost use Rattle.rtr_units.specs.Header.{version_field, session_field};
ghost use Rattle.unit_any.specs.Reports.{IsReport, HasParts};
ghost use Rattle.unit_any.specs.PrivateHeaders.{IsCounted, IsCutShort};

use rtr_base::error_code::ErrorCode;
use rtr_units::numbers::{u16_at, u32_at};

/// An error report that lies in a slice: 16 to 65535 bytes, as many as its length field states.
#[derive(Clone, Copy, Debug)]
pub struct ReportView<'a> {
    pub(crate) unit: &'a [u8],
    ghost whole: { IsReport unit.now },
    ghost least: { 16 ≤ length unit.now },
    ghost most: { length unit.now ≤ 65535 },
}

impl<'a> ReportView<'a> {
    /// The version of the protocol.
    #[inline(always)]
    pub fn version(&self) -> u8
        ensures { result ≡ version_field self.now.unit.now }
    {
        self.unit[0]
    }

    /// Why the peer reports an error.
    #[inline(always)]
    pub fn code(&self) -> ErrorCode
        ensures { result.0 ≡ session_field self.now.unit.now }
    {
        ErrorCode(u16_at(self.unit, 2))
    }

    /// The unit that the report is about, as in the input; empty if there is none.
    ///
    /// None if the two lengths inside the report don't fit: a length of four bytes, that unit, a
    /// length of four bytes and the text have to fill the report exactly.
    #[inline(always)]
    pub fn pdu(&self) -> Option<&'a [u8]>
        ensures { MatchOption result ((p t : List ℕ) → HasParts self.now.unit.now p t → ⊥)
            (λ p. (t : List ℕ) × HasParts self.now.unit.now p.now t) }
    {
        let (pdu, _) = self.parts()?;
        Some(pdu)
    }

    /// The text, as in the input, which may be empty and need not be UTF-8. None if `pdu` returns
    /// none.
    pub fn text(&self) -> Option<&'a [u8]>
        ensures { MatchOption result ((p t : List ℕ) → HasParts self.now.unit.now p t → ⊥)
            (λ t. (p : List ℕ) × HasParts self.now.unit.now p t.now) }
    {
        let (_, text) = self.parts()?;
        Some(text)
    }

    /// The number of bytes of the report.
    pub fn size(&self) -> u32
        ensures { result ≡ length self.now.unit.now }
    {
        self.unit.len() as u32
    }

    /// The unit that the report is about and the text, if they fill the report exactly.
    #[inline(always)]
    fn parts(&self) -> Option<(&'a [u8], &'a [u8])>
        ensures { MatchOption result ((p t : List ℕ) → HasParts self.now.unit.now p t → ⊥)
            (λ r. HasParts self.now.unit.now r.0.now r.1.now) }
    {
        let (_, body) = self.unit.split_at(8);
        let (pdu, rest) = counted(body)?;
        let (text, rest) = counted(rest)?;
        if rest.is_empty() {
            Some((pdu, text))
        } else {
            None
        }
    }
}

/// Splits off a length of four bytes and the bytes that it counts: returns these, and what follows
/// them.
#[inline(always)]
fn counted(bytes: &[u8]) -> Option<(&[u8], &[u8])>
    ensures { MatchOption result (IsCutShort bytes.now)
        (λ r. IsCounted bytes.now r.0.now r.1.now) }
{
    let (size, rest) = bytes.split_at_checked(4)?;
    rest.split_at_checked(u32_at(size, 0) as usize)
}
