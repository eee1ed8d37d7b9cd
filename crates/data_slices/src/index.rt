//! The index of a slice: the offsets at which its units begin.

ghost use Rattle.std.specs.Prelude.{◌≡◌, ◌≤◌, ◌+◌, ◌++◌, ◌∷◌, ◌↔◌, [], ℕ, List, IsTrue, length, take};
ghost use Rattle.data_slices.specs.AtOffsets.{IsOf};

/// Whether a unit of this version may come where `wanted` is required, if any version is.
#[inline(always)]
pub fn is_of(wanted: Option<u8>, version: u8) -> bool
    ensures { IsTrue result ↔ IsOf wanted version }
{
    match wanted {
        None => true,
        Some(wanted) => wanted == version,
    }
}

/// Appends the offset to the `count` others, if the index has room for it.
#[inline(always)]
pub fn put_offset(index: &mut [usize], count: usize, offset: usize)
    ensures same_length { length index.new ≡ length index.old }
    ensures held { (os : List ℕ) → (count ≤ length index.old → take count index.old ≡ os) →
        count + 1 ≤ length index.new → take (count + 1) index.new ≡ os ++ offset ∷ [] }
{
    if count < index.len() {
        index[count] = offset;
    }
}
