//! The draws.
ghost use Rattle.std.specs.Prelude.{◌≡◌, ◌<◌};
ghost use Rattle.generated_script.specs.GeneratedScript.{drawn, next_state};

/// The draws of a seed: a linear congruential generator of 64 bits, of which a draw takes the upper
/// 31.
#[derive(Clone, Copy)]
pub(crate) struct Draws {
    /// The state at the beginning.
    pub(crate) seed: u64,
    pub(crate) state: u64,
}

impl Draws {
    /// Draws a number below the bound.
    pub(crate) fn draw(&mut self, bound: u32) -> u32
        requires { 0 < bound }
        ensures seed { self.new.seed ≡ self.old.seed }
        ensures state { self.new.state ≡ next_state self.old.state }
        ensures value { result ≡ drawn self.new.state bound }
        ensures below { result < bound }
    {
        self.state = self
            .state
            .wrapping_mul(6_364_136_223_846_793_005)
            .wrapping_add(1_442_695_040_888_963_407);
        ((self.state >> 33) % u64::from(bound)) as u32
    }
}
