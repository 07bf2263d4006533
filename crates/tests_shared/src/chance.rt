//! Choices of a test run, the same for the same seed.
ghost use Rattle.std.specs.Prelude.{◌<◌};

/// Numbers without a pattern.
#[derive(Drop)]
pub struct Chance {
    state: u64,
}

impl Chance {
    /// The run of that seed.
    pub fn new(seed: u64) -> Chance {
        Chance { state: seed }
    }

    /// The next number, below that one.
    pub fn below(&mut self, most: usize) -> usize
        requires { 0 < most }
        ensures { result < most }
    {
        self.state = self
            .state
            .wrapping_mul(6_364_136_223_846_793_005)
            .wrapping_add(1_442_695_040_888_963_407);
        (self.state >> 33) as usize % most
    }
}
