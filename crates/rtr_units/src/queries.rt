//! Units by which a router and a cache tell each other their states (RFC 6810 and RFC 8210 sections
//! 5.2 to 5.5 and 5.9).

ghost use Rattle.std.specs.Prelude.{◌≡◌, ◌≤◌, length, replicate};
ghost use Rattle.std.specs.Borrow.{sem};
ghost use Rattle.rtr_base.specs.Bytes.{be, value, IsBytes};
ghost use Rattle.rtr_units.specs.Calls.{ReadsFrom, WritesTo};
ghost use Rattle.rtr_units.specs.FixedUnits.{fixed_bytes};
ghost use Rattle.rtr_units.specs.Queries.{bare_list, serial_list, serial_field};
ghost use Rattle.rtr_units.specs.Header.{session_field};
ghost use Rattle.rtr_units.specs.Reading.{FillsPiece};
ghost use Rattle.rtr_units.specs.Queries.{query_payload_bytes};

use crate::cells::Cells;
use crate::fault::Fault;
use crate::fixed_unit::FixedUnit;
use crate::numbers::u32_at;
use crate::piece::{fill, put};
use crate::source::{Sink, Source};
use crate::unit::Unit;
use rtr_base::state::{Serial, State};

impl<const TYPE: u8> FixedUnit<TYPE, 12> {
    /// The serial number, which is the last field of each unit of 12 bytes.
    #[inline(always)]
    pub fn serial(&self) -> Serial
        ensures { result.0 ≡ serial_field (fixed_bytes self.now) }
    {
        serial_after_header(self.as_ref())
    }

    /// The session and the serial number.
    #[inline(always)]
    pub fn state(&self) -> State
        ensures session { result.session ≡ session_field (fixed_bytes self.now) }
        ensures serial { result.serial ≡ serial_field (fixed_bytes self.now) }
    {
        State::from_parts(self.session(), self.serial())
    }

    /// The unit with this version and state.
    #[inline(always)]
    pub(crate) fn of_state(version: u8, state: State) -> Self
        ensures { fixed_bytes result ≡ serial_list version TYPE state.session state.serial }
    {
        let [s0, s1] = state.session().to_be_bytes();
        let [q0, q1, q2, q3] = state.serial().0.to_be_bytes();
        FixedUnit::of([version, TYPE, s0, s1, 0, 0, 0, 12, q0, q1, q2, q3])
    }
}

/// A serial notify: the cache has new data (section 5.2): 12 bytes.
pub type SerialNotify = FixedUnit<0, 12>;

impl SerialNotify {
    /// The type of the unit.
    pub const PDU: u8 = 0;

    /// The serial notify with this version and state.
    #[inline(always)]
    pub fn new(version: u8, state: State) -> Self
        ensures { fixed_bytes result ≡ serial_list version 0 state.session state.serial }
    {
        Self::of_state(version, state)
    }
}

/// A serial query: a router asks for the changes since a state (section 5.3): 12 bytes.
pub type SerialQuery = FixedUnit<1, 12>;

impl SerialQuery {
    /// The type of the unit.
    pub const PDU: u8 = 1;

    /// The serial query with this version and state.
    #[inline(always)]
    pub fn new(version: u8, state: State) -> Self
        ensures { fixed_bytes result ≡ serial_list version 1 state.session state.serial }
    {
        Self::of_state(version, state)
    }
}

/// What follows the header of a serial query: 4 bytes.
#[derive(Clone, Copy, Debug, PartialEq, Eq, Hash)]
pub struct SerialQueryPayload {
    cells: Cells<4>,
}

impl Default for SerialQueryPayload {
    ghost is_default = { λ p. query_payload_bytes p ≡ replicate 4 0 };

    /// Four zero bytes.
    fn default() -> Self {
        SerialQueryPayload {
            cells: Cells::new([0; 4]),
        }
    }
}

impl SerialQueryPayload {
    ghost use Rattle.rtr_units.specs.LendingUnits.{LendsQueryPayload};

    /// The payload with this serial number.
    #[inline(always)]
    pub fn new(serial: Serial) -> Self
        ensures { query_payload_bytes result ≡ be serial.0 4 }
    {
        SerialQueryPayload {
            cells: Cells::new(serial.0.to_be_bytes()),
        }
    }

    /// Reads four bytes. After `Short` and `Reader` the bytes that came before are consumed.
    #[inline(always)]
    pub fn read<R: Source>(reader: &mut R) -> Result<Self, Fault>
        ensures { ReadsFrom R.Source query_payload_bytes result reader.old reader.new
            (FillsPiece 4) }
    {
        let mut payload = SerialQueryPayload::default();
        fill(reader, payload.as_mut())?;
        Ok(payload)
    }

    /// The serial number.
    #[inline(always)]
    pub fn serial(&self) -> Serial
        ensures { result.0 ≡ value (query_payload_bytes self.now) }
    {
        Serial(u32_at(self.as_ref(), 0))
    }

    /// Writes the four bytes.
    #[inline(always)]
    pub fn write<W: Sink>(&self, writer: &mut W) -> Result<(), Fault>
        ensures { WritesTo W.Sink result writer.old writer.new (query_payload_bytes self.now) }
    {
        put(writer, self.as_ref())
    }

    /// The four bytes.
    #[inline(always)]
    pub fn as_ref(&self) -> &[u8]
        ensures bytes { result.now ≡ query_payload_bytes self.now }
        ensures size { length result.now ≡ 4 }
        ensures range { IsBytes result.now }
    {
        self.cells.as_ref()
    }

    /// The four bytes, mutable.
    #[inline(always)]
    pub fn as_mut(&mut self) -> &mut [u8]
        ensures* writes_back { sem 𝓛 (LendsQueryPayload self.entry result) }
        ensures bytes { result.now ≡ query_payload_bytes self.old }
        ensures size { length result.now ≡ 4 }
    {
        self.cells.as_mut()
    }
}

/// A reset query: a router asks for all data (section 5.4): 8 bytes.
pub type ResetQuery = FixedUnit<2, 8>;

impl ResetQuery {
    /// The type of the unit.
    pub const PDU: u8 = 2;

    /// The reset query with this version. Its session field, which has no meaning, is zero.
    #[inline(always)]
    pub fn new(version: u8) -> Self
        ensures { fixed_bytes result ≡ bare_list version 2 0 }
    {
        FixedUnit::of([version, 2, 0, 0, 0, 0, 0, 8])
    }
}

/// A cache response: the cache begins to send data (section 5.5): 8 bytes.
pub type CacheResponse = FixedUnit<3, 8>;

impl CacheResponse {
    /// The type of the unit.
    pub const PDU: u8 = 3;

    /// The cache response with this version and the session of this state.
    #[inline(always)]
    pub fn new(version: u8, state: State) -> Self
        ensures { fixed_bytes result ≡ bare_list version 3 state.session }
    {
        let [s0, s1] = state.session().to_be_bytes();
        FixedUnit::of([version, 3, s0, s1, 0, 0, 0, 8])
    }
}

/// A cache reset: the cache doesn't have the changes since the state in the query (section 5.9): 8
/// bytes.
pub type CacheReset = FixedUnit<8, 8>;

impl CacheReset {
    /// The type of the unit.
    pub const PDU: u8 = 8;

    /// The cache reset with this version. Its session field, which has no meaning, is zero.
    #[inline(always)]
    pub fn new(version: u8) -> Self
        ensures { fixed_bytes result ≡ bare_list version 8 0 }
    {
        FixedUnit::of([version, 8, 0, 0, 0, 0, 0, 8])
    }
}

/// The serial number after the header of a unit.
#[inline(always)]
pub(crate) fn serial_after_header(bytes: &[u8]) -> Serial
    requires { 12 ≤ length bytes.now }
    ensures { result.0 ≡ serial_field bytes.now }
{
    Serial(u32_at(bytes, 8))
}
