//! Numbers that a seed fixes.

/// A generator: each number is 48271 times the one before, modulo 2147483647.
#[derive(Drop)]
pub struct Draws {
    last: u64,
}

impl Draws {
    /// The numbers of a seed.
    pub fn new(seed: u64) -> Draws {
        Draws {
            last: seed % 2147483646 + 1,
        }
    }

    /// The next number below a count, and 0 where the count is 0.
    pub fn below(&mut self, count: u64) -> u64 {
        self.last = self.last.wrapping_mul(48271) % 2147483647;
        self.last.checked_rem(count).unwrap_or(0)
    }
}
