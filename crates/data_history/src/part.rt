//! The parts of a history.

ghost use Rattle.std.specs.Prelude.{◌≡◌, ◌+◌, ◌<◌, ◌^◌, ◌≤◌, IfSome, IsSome, List, length, take};
ghost use Rattle.std.specs.Prelude.{drop};
ghost use Rattle.rtr_base.specs.Bytes.{value};
ghost use Rattle.data_slices.specs.Canonical.{HoldsData};
ghost use Rattle.data_history.specs.Snapshots.{HoldsHistory, Snapshot};
ghost use Rattle.data_history.specs.Parts.{HasPart, head_bytes, part_bytes, part_rest, part_size};
ghost use Rattle.data_history.specs.Parts.{part_time};

/// The number of bytes before the bytes of a part.
pub const HEAD: usize = 16;

/// The number of eight bytes at an offset.
fn number_at(bytes: &[u8], offset: usize) -> u64
    requires { offset + 8 ≤ length bytes.now }
    ensures { result ≡ value (take 8 (drop offset bytes.now)) }
{
    let mut number = [0; 8];
    number.copy_from_slice(&bytes[offset..offset + 8]);
    u64::from_be_bytes(number)
}

/// The length of a slice, in 64 bits.
pub fn length_of(bytes: &[u8]) -> u64
    ensures length { result ≡ length bytes.now }
    ensures range { length bytes.now < 2 ^ 64 }
{
    bytes.len() as u64
}

/// The 16 bytes before the bytes of a part.
#[tactic(auto, unfolding(crate::specs::Parts::head_bytes))]
pub fn head(time: u64, size: u64) -> [u8; 16]
    ensures { result ≡ head_bytes time size }
{
    let mut bytes = [0; 16];
    bytes[..8].copy_from_slice(&time.to_be_bytes());
    bytes[8..].copy_from_slice(&size.to_be_bytes());
    bytes
}

/// Returns the time of the first part, its bytes, and the parts after it; none if there is no part.
#[tactic(auto, unfolding(crate::specs::Parts::HasPart, crate::specs::Parts::part_bytes, crate::specs::Parts::part_rest))]
pub fn first_part(input: &[u8]) -> Option<(u64, &[u8], &[u8])>
    ensures time { IfSome result (λ p. p.0 ≡ part_time input.now) }
    ensures bytes { IfSome result (λ p. p.1.now ≡ part_bytes input.now) }
    ensures rest { IfSome result (λ p. p.2.now ≡ part_rest input.now) }
    ensures shorter { IfSome result (λ p. length p.2.now + 16 ≤ length input.now) }
    ensures is_there { IfSome result (λ p. HasPart input.now) }
    ensures finds { HasPart input.now → IsSome result }
{
    if input.len() < 16 {
        return None;
    }
    let (time, size) = (number_at(input, 0), number_at(input, 8));
    let after = &input[16..];
    if size > after.len() as u64 {
        return None;
    }
    let (bytes, rest) = after.split_at(size as usize);
    Some((time, bytes, rest))
}

/// Returns the offset and the length of the present data in a history: of the first part's bytes.
pub fn data_at(history: &[u8]) -> Option<(usize, usize)>
    ensures holds { IfSome result (λ p. (x : Snapshot) (ys : List Snapshot) →
        HoldsHistory history.now x ys →
        HoldsData (take p.1 (drop p.0 history.now)) x.payloads x.end) }
    ensures at { IfSome result (λ p. HasPart history.now × (p.0 ≡ 16)
        × (p.1 ≡ part_size history.now)) }
    ensures finds { HasPart history.now → IsSome result }
{
    match first_part(history) {
        Some(part) => Some((HEAD, part.1.len())),
        None => None,
    }
}
