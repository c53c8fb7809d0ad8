//! Numbers drawn from a seed.

ghost use Rattle.std.specs.Prelude.{◌<◌};

/// A linear congruential generator modulo 2^64, whose upper 31 bits are drawn.
#[derive(Drop)]
pub struct Draws {
    now: u64,
}

impl Draws {
    /// The numbers of a seed.
    pub fn new(seed: u64) -> Draws {
        Draws { now: seed }
    }

    /// The next number, modulo `count`.
    pub fn below(&mut self, count: u64) -> u64
        requires { 0 < count }
        ensures { result < count }
    {
        self.now = self
            .now
            .wrapping_mul(6_364_136_223_846_793_005)
            .wrapping_add(1_442_695_040_888_963_407);
        (self.now >> 33) % count
    }
}
