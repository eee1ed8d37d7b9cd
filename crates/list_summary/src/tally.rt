//! Counters, one for each byte.

ghost use Rattle.std.specs.Prelude.{◌≡◌, ℕ, ◌<◌, length, slice_index};
ghost use Rattle.list_summary.specs.PrivateTallies.{raised};

/// How often each byte came.
#[derive(Drop)]
pub struct Tally {
    counts: [u64; 256],
}

impl Tally {
    /// No counts.
    pub fn new() -> Tally
        ensures long { length result.counts ≡ 256 }
        ensures each { (k : ℕ) → k < 256 → slice_index result.counts k ≡ 0 }
    {
        Tally { counts: [0; 256] }
    }

    /// Counts the byte, if there is one. Saturates at 2^64 - 1; fewer units are read.
    pub fn count(&mut self, byte: Option<u8>)
        ensures { self.new.counts ≡ raised self.old.counts byte }
    {
        if let Some(byte) = byte {
            let place = usize::from(byte);
            self.counts[place] = self.counts[place].saturating_add(1);
        }
    }

    /// How often the byte with this number came.
    pub fn get(&self, number: usize) -> u64
        requires { number < 256 }
        ensures { result ≡ slice_index self.now.counts number }
    {
        self.counts[number]
    }
}
