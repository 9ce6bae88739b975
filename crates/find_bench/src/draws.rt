//! Numbers drawn from a seed.

/// A linear congruential generator modulo 2^64, by Knuth's multiplier: the same seed gives the same numbers.
#[derive(Drop)]
pub struct Draws {
    state: u64,
}

impl Draws {
    pub fn new(seed: u64) -> Draws {
        Draws { state: seed }
    }

    /// A number from -9 to 9.
    pub fn digit(&mut self) -> i128 {
        self.state = self
            .state
            .wrapping_mul(6_364_136_223_846_793_005)
            .wrapping_add(1_442_695_040_888_963_407);
        i128::from(self.state >> 33) % 19 - 9
    }
}
