//! Slices that are too short.

ghost use Rattle.std.specs.Prelude.{◌≡◌, ◌<◌, ◌≤◌, ◌+◌, ◌-◌, ◌^◌, length};

/// One of the slices that a call uses as work space or output.
#[derive(Clone, Copy, Debug, PartialEq, Eq)]
pub enum Room {
    /// The index, in elements.
    Index,
    /// The first buffer.
    Buffer,
    /// The second buffer.
    Spare,
    /// The output.
    Output,
}

/// Returns the length that an output needs for a head and three parts of these lengths, or the
/// greatest number if that is less. An output that is too short is shorter than the result.
pub fn wanted_of(output: &[u8], head: usize, first: usize, second: usize, third: usize) -> usize
    ensures more { length output.now < head + first + second + third → length output.now < result }
    ensures most { result ≤ head + first + second + third }
    ensures greatest { result < head + first + second + third → result ≡ 2 ^ 64 - 1 }
{
    let _have = output.len();
    head.saturating_add(first)
        .saturating_add(second)
        .saturating_add(third)
}
