//! Which output a run writes for the units that it reads.

ghost use Rattle.std.specs.Prelude.{◌≡◌, Some, is_some};
ghost use Rattle.rtr_payload.specs.Payloads.{Meaning, smallest_version};
ghost use Rattle.rtr_units.specs.End.{IsEnd, end_list};
ghost use Rattle.rtr_units.specs.AnyEnd.{end_bytes, end_meaning};
ghost use Rattle.rtr_wire.specs.Sequences.{Output, everything, for_version, in_version};

use rtr_units::end::EndOfData;

/// Which units a run writes, in which version, and which end of data.
pub(crate) trait Writing: Copy {
    /// What is written.
    ghost what: { Self → Output };

    /// Whether units of payloads that are new in this version of the protocol are written: 0 for
    /// origins, 1 for router keys, 2 for ASPAs.
    fn writes(self, smallest: u8) -> bool
        ensures { (m : Meaning) → smallest_version m.payload ≡ smallest →
            result ≡ is_some ((what self).unit m) };

    /// The version in which a unit of this version is written, if it is.
    fn version(self, version: u8) -> u8
        ensures { (m n : Meaning) → m.version ≡ version → (what self).unit m ≡ Some n →
            n ≡ in_version result m };

    /// The end of data that is written for this one.
    fn end(self, end: EndOfData) -> EndOfData
        ensures { IsEnd (end_bytes end) (end_meaning end) →
            end_bytes result ≡ end_list ((what self).end (end_meaning end)) };
}

/// Writes everything as it is.
#[derive(Clone, Copy)]
pub(crate) struct Everything;

impl Writing for Everything {
    ghost what = { λ s. everything };

    #[inline(always)]
    fn writes(self, _smallest: u8) -> bool {
        true
    }

    #[inline(always)]
    fn version(self, version: u8) -> u8 {
        version
    }

    #[inline(always)]
    fn end(self, end: EndOfData) -> EndOfData {
        end
    }
}

/// Writes what this version of the protocol has, in this version.
#[derive(Clone, Copy)]
pub(crate) struct ForVersion {
    pub(crate) version: u8,
}

impl Writing for ForVersion {
    ghost what = { λ s. for_version s.version };

    #[inline(always)]
    fn writes(self, smallest: u8) -> bool {
        smallest <= self.version
    }

    #[inline(always)]
    fn version(self, _version: u8) -> u8 {
        self.version
    }

    fn end(self, end: EndOfData) -> EndOfData {
        EndOfData::new(self.version, end.state(), end.timing().unwrap_or_default())
    }
}
