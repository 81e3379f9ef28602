//! Numbers that look random.

/// A xorshift generator.
#[derive(Clone, Copy, Debug)]
pub struct Dice {
    state: u64,
}

impl Dice {
    pub fn new(seed: u64) -> Dice {
        Dice {
            state: seed.wrapping_mul(0x9E37_79B9_7F4A_7C15) ^ 0xD1B5_4A32_D192_ED03,
        }
    }

    fn next(&mut self) -> u64 {
        let mut state = self.state;
        state ^= state << 13;
        state ^= state >> 7;
        state ^= state << 17;
        self.state = state;
        state >> 16
    }

    /// A number below the bound, or 0 if the bound is 0.
    pub fn below(&mut self, bound: u64) -> u64 {
        self.next() % bound.max(1)
    }

    /// A number at most `far` from `middle`.
    pub fn around(&mut self, middle: i64, far: i64) -> i64 {
        let width = far.unsigned_abs().wrapping_mul(2).wrapping_add(1);
        let up = i64::try_from(self.below(width)).unwrap_or(0);
        middle.wrapping_sub(far).wrapping_add(up)
    }

    /// True once in `times` times.
    pub fn once_in(&mut self, times: u64) -> bool {
        self.below(times) == 0
    }
}
