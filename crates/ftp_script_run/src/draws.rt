//! Numbers that are drawn one after the other from a seed.

ghost use Rattle.std.specs.Prelude.{◌≡◌, ℕ, ◌+◌};
ghost use Rattle.ftp_script_run.specs.Draws.{stirred, given};

/// A linear congruential generator of 64 bits, of which a draw gives the upper 31.
#[derive(Drop)]
pub struct Draws {
    state: u64,
}

impl Draws {
    pub fn new(seed: u64) -> Draws
        ensures { result.state ≡ seed }
    {
        Draws { state: seed }
    }

    /// The next number.
    pub fn next(&mut self) -> u64
        ensures stirred { self.new.state ≡ stirred self.old.state }
        ensures given { result ≡ given self.new.state }
    {
        self.state = self
            .state
            .wrapping_mul(6_364_136_223_846_793_005)
            .wrapping_add(1_442_695_040_888_963_407);
        self.state >> 33
    }
}
