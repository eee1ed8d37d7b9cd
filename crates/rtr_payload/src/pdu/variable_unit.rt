//! Variable units: a fixed part and a body (RFC 8210 section 5.10; the ASPA unit as in the Rust
//! crate).

ghost use Rattle.std.specs.Prelude.{◌≡◌, ◌≤◌, ◌<◌, ◌^◌, ◌+◌, ◌++◌, ◌∷◌, ℕ, List, [], length, take};
ghost use Rattle.std.specs.Prelude.{◌⊎◌, drop};
ghost use Rattle.std.specs.Prelude.{slice_index, nat_eq, IfOk, MatchResult, None, IfErr};
ghost use Rattle.std.specs.Cmp.{partial_equiv_from_equiv};
ghost use Rattle.std.specs.Cmp.Lexicographic.{bytes_decides, nat_list_eq_equiv, pointwise};
ghost use Rattle.std.specs.Hash as fed;
ghost use Rattle.rtr_units.specs.Calls.{WritesTo};
ghost use Rattle.rtr_units.specs.StopCauses.{cause_of};
ghost use Rattle.rtr_units.specs.Header.{version_field, type_field};
ghost use Rattle.rtr_base.specs.Actions.{flags_of};
ghost use Rattle.rtr_base.specs.Bytes.{be};
ghost use Rattle.rtr_units.specs.Reading.{IsWhole, Reads, ReadsAfter, by_bytes, of_type};
ghost use Rattle.rtr_units.specs.Stream.{PutsForm};
ghost use Rattle.rtr_units.specs.StopCauses.{HoldsReadError, HoldsWriteError};
ghost use Rattle.rtr_units.specs.HeaderBytes.{header_bytes};
ghost use Rattle.rtr_payload.specs.UnitKinds.{IsRefusedBy, variable_unit};
ghost use Rattle.rtr_payload.specs.Payloads.{smallest_version};
ghost use Rattle.rtr_payload.specs.UnitFields.{Fields, HasFields, LengthsAgree, meaning};
ghost use Rattle.rtr_payload.specs.Units.{form_of};

use super::frame::{fill_unit, read_rest};
use bytes::Bytes;
use rtr_base::action::Action;
use rtr_units::fault::Fault;
use rtr_units::header::{HEADER_SIZE, Header};
use rtr_units::piece::put;
use rtr_units::source::{Sink, Source};
use std::alloc::{AllocError, Global};
use std::fmt;
use std::hash::{Hash, Hasher};
use std::marker::Model;

/// The body of the variable units of one type, which follows the fixed part.
pub trait Body<const FIXED: usize>: fmt::Debug + Drop {
    /// The bytes of a body.
    ghost items: { Self → List ℕ };

    /// What holds of each body.
    ghost valid: { Self → Type 0 };

    /// Whether bytes are those of a body.
    ghost is_body: { List ℕ → Type 0 };

    /// The fields of a unit, by its bytes.
    ghost fields: { List ℕ → Fields };

    /// The type of the unit, by which contracts name it.
    ghost PDU: { ℕ };

    /// The smallest version of the protocol that has such units, by which contracts name it.
    ghost SMALLEST_VERSION: { ℕ };

    /// The type of the unit.
    const PDU: u8;

    /// The smallest version of the protocol that has such units.
    const SMALLEST_VERSION: u8;

    /// The name of the unit in `Debug`.
    const NAME: &'static str;

    /// Checks a header as that of this type, whatever type it has. A whole unit whose header passes
    /// has a fixed part and a valid body.
    fn check_header(header: Header) -> Result<(), Fault>
        ensures answer { MatchResult result
            (λ _. (variable_unit PDU).fault (header_bytes header) ≡ None)
            (λ e. IsRefusedBy ((variable_unit PDU).fault (header_bytes header)) (cause_of e)) }
        ensures whole { IfOk result (λ _. (u : List ℕ) → IsWhole (variable_unit PDU) u →
            (FIXED ≤ length u) × is_body (drop FIXED u) ×
            (type_field u ≡ PDU → HasFields u (fields u))) };

    /// The body of these bytes.
    fn from_bytes(frame: Bytes) -> Self
        requires { is_body frame }
        ensures value { items result ≡ frame }
        ensures valid { valid result };

    /// The bytes.
    fn as_slice(&self) -> &[u8]
        ensures value { result.now ≡ items self.now }
        ensures short { FIXED + length (items self.now) < 2 ^ 32 };

    /// Another handle to the same body.
    fn clone(&self) -> Result<Self, AllocError>
        ensures { IfOk result (λ b. b ≡ self.now) };

    /// The form in this version of the meaning of a unit with these bytes, in two parts: its
    /// header, and what follows it, which is a slice of the unit.
    fn form_parts(version: u8, unit: &[u8]) -> ([u8; 8], &[u8])
        requires whole { IsWhole (of_type PDU (variable_unit PDU)) unit.now }
        requires least { FIXED ≤ length unit.now }
        requires most { length unit.now < 2 ^ 32 }
        ensures { result.0 ++ result.1.now ≡
            form_of (record (meaning (fields unit.now)) { version = version }) };

    /// The type is that of router keys or that of ASPA units.
    ghost kinds: { (PDU ≡ 9) ⊎ (PDU ≡ 11) };

    /// Such a unit breaks no rule on lengths, its version is its first byte, and the smallest
    /// version that has such units is that of each of their meanings.
    ghost meant: { (u : List ℕ) → LengthsAgree (fields u) ×
        ((meaning (fields u)).version ≡ version_field u) ×
        (smallest_version (meaning (fields u)).payload ≡ SMALLEST_VERSION) };

    /// The fixed part has a header and something more.
    ghost sized: { (12 ≤ FIXED) × (FIXED < 2 ^ 32) };
}

/// A variable unit: a fixed part, which begins with the header, and a body. Its value is the list
/// of its bytes.
#[derive(Drop)]
pub struct VariableUnit<const FIXED: usize, B: Body<FIXED>> {
    fixed: [u8; FIXED],
    body: B,
}

impl<const FIXED: usize, B: Body<FIXED>> Model for VariableUnit<FIXED, B> {
    ghost use Rattle.std.specs.Prelude.{◌≡◌, ◌++◌, ℕ, List, length};

    ghost Value = { List ℕ };

    ghost view = { λ a. a.fixed ++ B.items a.body };

    ghost invariant = { λ a. (length a.fixed ≡ FIXED) × B.valid a.body };
}

impl<const FIXED: usize, B: Body<FIXED>> VariableUnit<FIXED, B> {
    /// The unit of a fixed part and a body.
    #[inline(always)]
    pub(crate) fn from_parts(fixed: [u8; FIXED], body: B) -> Self
        requires { B.valid body }
        ensures { result ≡ fixed.entry ++ B.items body }
    {
        VariableUnit { fixed, body }
    }

    /// Reads a unit.
    ///
    /// Faults, in this order: `Short` or `Reader` inside the header; `UnitType`, with the header
    /// consumed, if the type is another; those of `read_payload`, including `Memory`.
    pub fn read<R: Source>(alloc: Global, reader: &mut R) -> Result<Self, Fault>
        ensures bytes { Reads (of_type B.PDU (variable_unit B.PDU)) [] (by_bytes (λ u. u) result)
            (R.state reader.old) (R.state reader.new) }
        ensures fields { IfOk result (λ u. HasFields u (B.fields u)) }
        ensures error { IfErr result (HoldsReadError (R.fails reader.new)) }
    {
        let header = Header::read(reader)?;
        let pdu = header.pdu();
        if pdu != B::PDU {
            return Err(Fault::UnitType(pdu));
        }
        Self::read_payload(alloc, header, reader)
    }

    /// Reads what follows the header, which is kept as it is. Its type is not checked.
    ///
    /// Faults, in this order: those of the header of the unit's type, with nothing read and nothing
    /// allocated; `Memory`, with nothing read, if the frame for the rest of the unit can't be
    /// allocated; `Short` or `Reader` inside the unit; `Memory`, with the whole unit read, if the
    /// frame can't be shared. The body is split off the frame.
    #[inline(always)]
    pub fn read_payload<R: Source>(
        alloc: Global,
        header: Header,
        reader: &mut R,
    ) -> Result<Self, Fault>
        ensures bytes { ReadsAfter (variable_unit B.PDU) (header_bytes header)
            (by_bytes (λ u. u) result) (R.state reader.old) (R.state reader.new) }
        ensures fields { IfOk result
            (λ u. type_field (header_bytes header) ≡ B.PDU → HasFields u (B.fields u)) }
        ensures error { IfErr result (HoldsReadError (R.fails reader.new)) }
    {
        let head = header.as_ref();
        let size = header.length();
        B::check_header(header)?;
        let frame = read_rest(alloc, size as usize - 8, reader)?;
        Ok(Self::from_frame(head, frame))
    }

    /// As `read_payload`, into a buffer that is reused from unit to unit, and without a value of
    /// its own: it returns the bytes of the unit, which lie in the buffer.
    ///
    /// The buffer grows if it is shorter than the unit, and nothing else is allocated. So `Memory`
    /// comes with nothing read.
    #[inline(always)]
    pub fn read_into<'a, R: Source>(
        header: Header,
        reader: &mut R,
        room: &'a mut Vec<u8>,
    ) -> Result<&'a [u8], Fault>
        ensures bytes { ReadsAfter (variable_unit B.PDU) (header_bytes header)
            (by_bytes (λ u. u.now) result) (R.state reader.old) (R.state reader.new) }
        ensures fields { IfOk result (λ u. type_field (header_bytes header) ≡ B.PDU →
            HasFields u.now (B.fields u.now)) }
        ensures memory { IfErr result
            (λ e. e ≡ Fault.Memory → R.state reader.new ≡ R.state reader.old) }
        ensures least { IfOk result (λ u. FIXED ≤ length u.now) }
        ensures most { IfOk result (λ u. length u.now < 2 ^ 32) }
        ensures error { IfErr result (HoldsReadError (R.fails reader.new)) }
    {
        let size = header.length() as usize;
        B::check_header(header)?;
        if room.len() < size && room.resize(size, 0).is_err() {
            return Err(Fault::Memory);
        }
        let unit = &mut room[..size];
        fill_unit(header.as_ref(), unit, reader)?;
        Ok(unit)
    }

    /// The unit with a header and the frame that follows it.
    #[inline(always)]
    fn from_frame(head: &[u8], mut frame: Bytes) -> Self
        requires head { length head.now ≡ 8 }
        requires size { FIXED ≤ 8 + length frame }
        requires is_body { B.is_body (drop FIXED (head.now ++ frame)) }
        ensures { result ≡ head.now ++ frame }
    {
        let mut fixed = [0; FIXED];
        join(&mut fixed[..], head, &frame.as_slice()[..FIXED - 8]);
        frame.advance(FIXED - 8);
        VariableUnit {
            fixed,
            body: B::from_bytes(frame),
        }
    }

    /// The version of the protocol.
    #[inline(always)]
    pub fn version(&self) -> u8
        ensures { result ≡ version_field self.now }
    {
        self.fixed[0]
    }

    /// The number of bytes of the unit.
    #[inline(always)]
    pub fn size(&self) -> u32
        ensures { result ≡ length self.now }
    {
        (FIXED + self.body.as_slice().len()) as u32
    }

    /// The flags. If the lowest bit is set, the payload is announced.
    #[inline(always)]
    pub fn flags(&self) -> u8
        ensures { result ≡ slice_index self.now 2 }
    {
        self.fixed[2]
    }

    /// The body.
    #[inline(always)]
    pub(crate) fn body(&self) -> &B
        ensures value { B.items result.now ≡ drop FIXED self.now }
        ensures valid { B.valid result.now }
    {
        &self.body
    }

    /// The body, by value.
    #[inline(always)]
    pub(crate) fn into_body(self) -> B
        ensures value { B.items result ≡ drop FIXED self }
        ensures valid { B.valid result }
    {
        self.body
    }

    /// Another handle to the same unit. It shares the bytes of its body, so nothing is allocated;
    /// it returns `AllocError` if the count of handles is at its maximum.
    pub fn clone(&self) -> Result<Self, AllocError>
        ensures { IfOk result (λ u. u ≡ self.now) }
    {
        let body = self.body.clone()?;
        Ok(VariableUnit {
            fixed: self.fixed,
            body,
        })
    }

    /// The bytes before the body.
    #[inline(always)]
    pub(crate) fn as_partial_slice(&self) -> &[u8]
        ensures value { result.now ≡ take FIXED self.now }
        ensures size { length result.now ≡ FIXED }
    {
        &self.fixed
    }

    /// Writes the unit.
    #[inline(always)]
    pub fn write<W: Sink>(&self, writer: &mut W) -> Result<(), Fault>
        ensures { WritesTo W.Sink result writer.old writer.new self.now }
    {
        put_parts(writer, &self.fixed, self.body.as_slice())
    }
}

/// Writes two pieces, one after the other.
#[inline(always)]
pub fn put_parts<W: Sink>(writer: &mut W, front: &[u8], back: &[u8]) -> Result<(), Fault>
    ensures { WritesTo W.Sink result writer.old writer.new (front.now ++ back.now) }
{
    put(writer, front)?;
    put(writer, back)
}

/// Copies a header and what follows it to the fixed part.
#[inline(always)]
fn join(fixed: &mut [u8], head: &[u8], front: &[u8])
    requires head { length head.now ≡ 8 }
    requires size { length fixed.old ≡ 8 + length front.now }
    ensures { fixed.new ≡ head.now ++ front.now }
{
    fixed[8..].copy_from_slice(front);
    fixed[..8].copy_from_slice(head);
}

impl<const FIXED: usize, B: Body<FIXED>> fmt::Debug for VariableUnit<FIXED, B> {
    fn fmt<W: fmt::Write>(&self, f: &mut fmt::Formatter<W>) -> fmt::Result {
        f.debug_struct(B::NAME)
            .field("fixed", &self.fixed)
            .field("body", &self.body)
            .finish()
    }
}

impl<const FIXED: usize, B: Body<FIXED>> PartialEq for VariableUnit<FIXED, B> {
    ghost eq = { pointwise nat_eq };

    ghost laws = { partial_equiv_from_equiv nat_list_eq_equiv };

    fn eq(&self, other: &Self) -> bool {
        self.fixed == other.fixed && self.body.as_slice() == other.body.as_slice()
    }
}

impl<const FIXED: usize, B: Body<FIXED>> Eq for VariableUnit<FIXED, B> {
    ghost laws = { nat_list_eq_equiv };
}

impl<const FIXED: usize, B: Body<FIXED>> Hash for VariableUnit<FIXED, B> {
    ghost hash_input = { λ u. fed.slice fed.u8 (take FIXED u) ++ fed.slice fed.u8 (drop FIXED u) };

    ghost respects_eq = { (fed.same_Alike _ bytes_decides).fed };

    fn hash<H: Hasher>(&self, state: &mut H) {
        self.fixed.as_slice().hash(state);
        self.body.as_slice().hash(state);
    }
}

/// The header of a router key or an ASPA unit, which has flags at the offset of the session field.
#[inline(always)]
pub fn flagged_header(version: u8, pdu: u8, flags: u8, size: u32) -> [u8; 8]
    ensures { result ≡ version ∷ pdu ∷ flags ∷ 0 ∷ be size 4 }
{
    let mut header = [0; 8];
    header[..4].copy_from_slice(&[version, pdu, flags, 0]);
    header[4..].copy_from_slice(&size.to_be_bytes());
    header
}

/// A router key or an ASPA unit in two parts: a header made from the fields, and `rest`, which
/// follows it.
#[inline(always)]
pub(crate) fn flagged_parts(version: u8, pdu: u8, action: Action, rest: &[u8]) -> ([u8; 8], &[u8])
    requires size { 8 + length rest.now < 2 ^ 32 }
    ensures header { result.0 ≡
        version ∷ pdu ∷ flags_of action ∷ 0 ∷ be (8 + length rest.now) 4 }
    ensures rest { result.1.now ≡ rest.now }
{
    let size = HEADER_SIZE as u32 + rest.len() as u32;
    (
        flagged_header(version, pdu, action.into_flags(), size),
        rest,
    )
}
