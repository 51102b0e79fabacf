//! Numbers that a seed gives, by Marsaglia's xorshift.

/// A source of numbers.
#[derive(Clone, Copy)]
pub struct Random {
    state: u64,
}

impl Random {
    /// The source that a seed gives.
    pub fn new(seed: u32) -> Random {
        Random {
            state: u64::from(seed) ^ 0x9e37_79b9_7f4a_7c15,
        }
    }

    /// The next number.
    pub fn next(&mut self) -> u64 {
        let mut state = self.state;
        state ^= state.wrapping_shl(13);
        state ^= state.wrapping_shr(7);
        state ^= state.wrapping_shl(17);
        self.state = state;
        state
    }
}
