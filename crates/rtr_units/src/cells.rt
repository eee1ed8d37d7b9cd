//! Byte arrays that are borrowed as a whole.

ghost use Rattle.std.specs.Prelude.{◌≡◌, length};
ghost use Rattle.std.specs.Borrow.{sem};
ghost use Rattle.rtr_base.specs.Bytes.{IsBytes};

/// N bytes, which a unit of a fixed size uses as its storage.
#[derive(Clone, Copy, Debug, PartialEq, Eq, Hash)]
pub struct Cells<const N: usize> {
    /// The bytes.
    pub bytes: [u8; N],
}

impl<const N: usize> Cells<N> {
    ghost use Rattle.rtr_units.specs.Lending.{LendsCells};

    /// The cells with these bytes.
    #[inline(always)]
    pub fn new(bytes: [u8; N]) -> Self
        ensures { result.bytes ≡ bytes.entry }
    {
        Cells { bytes }
    }

    /// All bytes.
    #[inline(always)]
    pub fn as_ref(&self) -> &[u8]
        ensures bytes { result.now ≡ self.now.bytes }
        ensures size { length result.now ≡ N }
        ensures range { IsBytes result.now }
    {
        whole(&self.bytes)
    }

    /// All bytes, mutable.
    #[inline(always)]
    pub fn as_mut(&mut self) -> &mut [u8]
        ensures* writes_back { sem 𝓛 (LendsCells N.row self.entry result) }
        ensures bytes { result.now ≡ self.old.bytes }
        ensures size { length result.now ≡ N }
    {
        &mut self.bytes[..]
    }
}

#[inline(always)]
fn whole(bytes: &[u8]) -> &[u8]
    ensures bytes { result.now ≡ bytes.now }
    ensures range { IsBytes result.now }
{
    bytes
}
