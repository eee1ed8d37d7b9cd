//! The end of data (RFC 6810 and RFC 8210 section 5.8; version 2 as in the Rust crate `rpki`).

ghost use Rattle.std.specs.Prelude.{◌≡◌, IfOk, IfErr, Some, not, ◌==◌};
ghost use Rattle.std.specs.Borrow.{sem};
ghost use Rattle.rtr_base.specs.Bytes.{IsBytes};
ghost use Rattle.rtr_units.specs.Calls.{WritesTo};
ghost use Rattle.rtr_units.specs.End.{IsEnd, timed_list, timing_fields};
ghost use Rattle.rtr_units.specs.AnyEnd.{end_bytes, end_meaning, end_unit, is_timed};
ghost use Rattle.rtr_units.specs.FixedUnits.{fixed_bytes};
ghost use Rattle.rtr_units.specs.Header.{version_field, type_field};
ghost use Rattle.rtr_units.specs.Queries.{serial_list, serial_field};
ghost use Rattle.rtr_units.specs.Reading.{ReadsAfter, by_bytes};
ghost use Rattle.rtr_units.specs.StopCauses.{HoldsReadError};
ghost use Rattle.rtr_units.specs.HeaderBytes.{header_bytes};

use crate::fault::Fault;
use crate::fixed_unit::FixedUnit;
use crate::header::{Header, LAST_VERSION};
use crate::numbers::u32_at;
use crate::piece::put;
use crate::queries::serial_after_header;
use crate::source::{Sink, Source};
use crate::unit::Unit;
use rtr_base::state::{Serial, State};
use rtr_base::timing::Timing;

/// An end of data of any version.
#[derive(Clone, Copy, Debug, PartialEq, Eq, Hash)]
pub enum EndOfData {
    /// Version 0, without timing parameters. It counts as version 0 whatever its version field is.
    V0(EndOfDataV0),
    /// A later version.
    V1(EndOfDataV1),
}

impl EndOfData {
    ghost use Rattle.rtr_units.specs.LendingEnd.{LendsEnd};

    /// The type of an end of data.
    pub const PDU: u8 = EndOfDataV0::PDU;

    /// The end of data in this state. Version 0 has no field for the timing parameters. The version
    /// is not checked; reading refuses versions above 2.
    #[inline(always)]
    pub fn new(version: u8, state: State, timing: Timing) -> Self
        ensures zero { version ≡ 0 → end_bytes result ≡ serial_list 0 7 state.session state.serial }
        ensures later { ¬ (version ≡ 0) → end_bytes result ≡
            timed_list version state.session state.serial (Some timing) }
        ensures version { (end_meaning result).version ≡ version }
        ensures kind { is_timed result ≡ not (version == 0) }
    {
        if version == 0 {
            EndOfData::V0(EndOfDataV0::new(state))
        } else {
            EndOfData::V1(EndOfDataV1::new(version, state, timing))
        }
    }

    /// Reads what follows the header, which is kept as it is. Its type is not checked.
    ///
    /// Faults, in this order:
    /// - `UnitVersion` above version 2, with nothing read;
    /// - `UnitLength` unless the length field is 12 in version 0, or 24 in versions 1 and 2, with
    ///   nothing read;
    /// - `Short` or `Reader` inside the unit.
    ///
    /// This order, and that versions above 2 are refused, is this library's own; version 2 is as in
    /// the Rust crate `rpki`.
    #[inline(always)]
    pub fn read_payload<R: Source>(header: Header, reader: &mut R) -> Result<Self, Fault>
        ensures bytes { ReadsAfter end_unit (header_bytes header) (by_bytes end_bytes result)
            (R.state reader.old) (R.state reader.new) }
        ensures version { IfOk result (λ e.
            (end_meaning e).version ≡ version_field (header_bytes header)) }
        ensures end { IfOk result (λ e. type_field (header_bytes header) ≡ 7 →
            IsEnd (end_bytes e) (end_meaning e)) }
        ensures kind { IfOk result (λ e. is_timed e ≡
            not (version_field (header_bytes header) == 0)) }
        ensures error { IfErr result (HoldsReadError (R.fails reader.new)) }
    {
        let version = header.version();
        if version > LAST_VERSION {
            return Err(Fault::UnitVersion(version));
        }
        if version == 0 {
            Ok(EndOfData::V0(EndOfDataV0::read_payload(header, reader)?))
        } else {
            Ok(EndOfData::V1(EndOfDataV1::read_payload(header, reader)?))
        }
    }

    /// The version of the protocol: 0 if there are no timing parameters.
    #[inline(always)]
    pub fn version(&self) -> u8
        ensures { result ≡ (end_meaning self.now).version }
    {
        match self {
            EndOfData::V0(_) => 0,
            EndOfData::V1(unit) => unit.version(),
        }
    }

    /// The session.
    #[inline(always)]
    pub fn session(&self) -> u16
        ensures { result ≡ (end_meaning self.now).session }
    {
        match self {
            EndOfData::V0(unit) => unit.session(),
            EndOfData::V1(unit) => unit.session(),
        }
    }

    /// The serial number.
    #[inline(always)]
    pub fn serial(&self) -> Serial
        ensures { result.0 ≡ (end_meaning self.now).serial }
    {
        match self {
            EndOfData::V0(unit) => unit.serial(),
            EndOfData::V1(unit) => unit.serial(),
        }
    }

    /// The session and the serial number.
    #[inline(always)]
    pub fn state(&self) -> State
        ensures session { result.session ≡ (end_meaning self.now).session }
        ensures serial { result.serial ≡ (end_meaning self.now).serial }
    {
        State::from_parts(self.session(), self.serial())
    }

    /// The timing parameters, in seconds.
    #[inline(always)]
    pub fn timing(&self) -> Option<Timing>
        ensures { result ≡ (end_meaning self.now).timing }
    {
        match self {
            EndOfData::V0(_) => None,
            EndOfData::V1(unit) => Some(unit.timing()),
        }
    }

    /// Writes all bytes.
    #[inline(always)]
    pub fn write<W: Sink>(&self, writer: &mut W) -> Result<(), Fault>
        ensures { WritesTo W.Sink result writer.old writer.new (end_bytes self.now) }
    {
        put(writer, self.as_ref())
    }

    /// All bytes of the unit.
    #[inline(always)]
    pub fn as_ref(&self) -> &[u8]
        ensures bytes { result.now ≡ end_bytes self.now }
        ensures range { IsBytes result.now }
    {
        match self {
            EndOfData::V0(unit) => unit.as_ref(),
            EndOfData::V1(unit) => unit.as_ref(),
        }
    }

    /// All bytes of the unit, mutable. The variant stays the same.
    #[inline(always)]
    pub fn as_mut(&mut self) -> &mut [u8]
        ensures* writes_back { sem 𝓛 (LendsEnd self.entry result) }
        ensures bytes { result.now ≡ end_bytes self.old }
    {
        match self {
            EndOfData::V0(unit) => unit.as_mut(),
            EndOfData::V1(unit) => unit.as_mut(),
        }
    }
}

/// An end of data in version 0 (RFC 6810 section 5.8): 12 bytes.
pub type EndOfDataV0 = FixedUnit<7, 12>;

impl EndOfDataV0 {
    /// The type of the unit.
    pub const PDU: u8 = 7;

    /// The end of data in this state, with version 0.
    #[inline(always)]
    pub fn new(state: State) -> Self
        ensures { fixed_bytes result ≡ serial_list 0 7 state.session state.serial }
    {
        Self::of_state(0, state)
    }
}

/// An end of data since version 1 (RFC 8210 section 5.8): 24 bytes.
pub type EndOfDataV1 = FixedUnit<7, 24>;

impl EndOfDataV1 {
    /// The type of the unit.
    pub const PDU: u8 = 7;

    /// The end of data in this state, with these timings. The version is not checked.
    #[inline(always)]
    pub fn new(version: u8, state: State, timing: Timing) -> Self
        ensures { fixed_bytes result ≡
            timed_list version state.session state.serial (Some timing) }
    {
        let [s0, s1] = state.session().to_be_bytes();
        let [q0, q1, q2, q3] = state.serial().0.to_be_bytes();
        let [r0, r1, r2, r3] = timing.refresh.to_be_bytes();
        let [y0, y1, y2, y3] = timing.retry.to_be_bytes();
        let [e0, e1, e2, e3] = timing.expire.to_be_bytes();
        FixedUnit::of([
            version, 7, s0, s1, 0, 0, 0, 24, q0, q1, q2, q3, r0, r1, r2, r3, y0, y1, y2, y3, e0,
            e1, e2, e3,
        ])
    }

    /// The serial number.
    #[inline(always)]
    pub fn serial(&self) -> Serial
        ensures { result.0 ≡ serial_field (fixed_bytes self.now) }
    {
        serial_after_header(self.as_ref())
    }

    /// The timing parameters, in seconds.
    #[inline(always)]
    pub fn timing(&self) -> Timing
        ensures { result ≡ timing_fields (fixed_bytes self.now) }
    {
        let bytes = self.as_ref();
        Timing {
            refresh: u32_at(bytes, 12),
            retry: u32_at(bytes, 16),
            expire: u32_at(bytes, 20),
        }
    }
}
