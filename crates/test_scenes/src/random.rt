//! Numbers that a seed gives.

/// A sequence of numbers that look random.
#[derive(Clone, Copy)]
pub struct Random {
    state: u64,
}

impl Random {
    /// The sequence of this seed.
    pub fn new(seed: u64) -> Random {
        let mut random = Random {
            state: seed.wrapping_mul(0x9e37_79b9_7f4a_7c15) | 1,
        };
        for _ in 0..8 {
            random.next();
        }
        random
    }

    /// The next one, by xorshift.
    fn next(&mut self) -> u64 {
        let mut state = self.state;
        state ^= state >> 12;
        state ^= state << 25;
        state ^= state >> 27;
        self.state = state;
        state.wrapping_mul(0x2545_f491_4f6c_dd1d) >> 16
    }

    /// One below this number, which isn't 0.
    pub fn below(&mut self, most: u64) -> u64 {
        self.next().checked_rem(most).unwrap_or(0)
    }

    /// The same, in 32 bits.
    pub fn small(&mut self, most: u32) -> u32 {
        u32::try_from(self.below(most as u64)).unwrap_or(0)
    }

    /// Reports true once in `times` calls, on average.
    pub fn once_in(&mut self, times: u64) -> bool {
        self.below(times) == 0
    }
}
