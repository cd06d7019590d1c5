//! Numbers that a seed gives.

/// A sequence of numbers that a seed gives: a linear congruence modulo 2^32, of which the upper bits are used.
#[derive(Clone, Copy)]
pub struct Seed {
    state: u32,
}

impl Seed {
    /// The sequence of this seed.
    pub fn new(seed: u32) -> Seed {
        Seed { state: seed }
    }

    /// The next number, below 65,536.
    pub fn draw(&mut self) -> u32 {
        self.state = self
            .state
            .wrapping_mul(1_664_525)
            .wrapping_add(1_013_904_223);
        self.state >> 16
    }
}
