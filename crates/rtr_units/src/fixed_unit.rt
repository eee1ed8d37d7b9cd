//! Units of a fixed size: a type and a size make each of the nine (RFC 6810 and RFC 8210 sections
//! 5.2 to 5.9).

ghost use Rattle.std.specs.Prelude.{◌≡◌, ◌≤◌, ◌<◌, ◌^◌, ℕ, List, replicate, refl};
ghost use Rattle.rtr_units.specs.FixedUnits.{fixed_bytes};
ghost use Rattle.std.proofs.Common.{rules};
ghost use Rattle.std.proofs.lemmas.Bool.{ltb-true};

use crate::cells::Cells;
use crate::unit::Unit;

/// The sizes in bytes of the units of a fixed size.
pub struct Sizes;

/// Implemented for each of these sizes.
pub trait Include<const SIZE: usize> {
    /// The size holds a header, and fits a length field.
    ghost sized: { (8 ≤ SIZE) × (SIZE < 2 ^ 32) };
}

impl Include<8> for Sizes {
    ghost sized = { (ltb-true 7 _ refl, ltb-true _ _ refl) };
}

impl Include<12> for Sizes {
    ghost sized = { (ltb-true 7 _ refl, ltb-true _ _ refl) };
}

impl Include<20> for Sizes {
    ghost sized = { (ltb-true 7 _ refl, ltb-true _ _ refl) };
}

impl Include<24> for Sizes {
    ghost sized = { (ltb-true 7 _ refl, ltb-true _ _ refl) };
}

impl Include<32> for Sizes {
    ghost sized = { (ltb-true 7 _ refl, ltb-true _ _ refl) };
}

/// The unit of this type and of this size in bytes, header included.
#[derive(Clone, Copy, Debug, PartialEq, Eq, Hash)]
pub struct FixedUnit<const TYPE: u8, const SIZE: usize> {
    /// All bytes of the unit.
    pub(crate) cells: Cells<SIZE>,
}

impl<const TYPE: u8, const SIZE: usize> Unit for FixedUnit<TYPE, SIZE>
where
    Sizes: Include<SIZE>,
{
    ghost bytes = { fixed_bytes };

    ghost with_bytes = { λ u l. record { cells = record { bytes = l } } };

    ghost PDU = { TYPE };

    ghost LENGTH = { SIZE };

    const PDU: u8 = TYPE;

    const LENGTH: usize = SIZE;

    #[inline(always)]
    fn zero() -> Self {
        FixedUnit::of([0; SIZE])
    }

    #[inline(always)]
    fn as_ref(&self) -> &[u8] {
        self.cells.as_ref()
    }

    #[inline(always)]
    fn as_mut(&mut self) -> &mut [u8] {
        self.cells.as_mut()
    }

    ghost sized = { Prim.search rules };

    ghost kept = { λ u l. refl };
}

impl<const TYPE: u8, const SIZE: usize> Default for FixedUnit<TYPE, SIZE> {
    ghost is_default = { λ u. fixed_bytes u ≡ replicate SIZE 0 };

    #[inline(always)]
    fn default() -> Self {
        FixedUnit::of([0; SIZE])
    }
}

impl<const TYPE: u8, const SIZE: usize> FixedUnit<TYPE, SIZE> {
    /// The unit of these bytes, which aren't checked.
    #[inline(always)]
    pub(crate) fn of(bytes: [u8; SIZE]) -> Self
        ensures { fixed_bytes result ≡ bytes.entry }
    {
        FixedUnit {
            cells: Cells::new(bytes),
        }
    }
}
