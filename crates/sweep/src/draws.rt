//! Numbers that are drawn, one after another.

ghost use Rattle.std.specs.Prelude.{◌≡◌, ◌<◌};
ghost use Rattle.sweep.specs.Draws.{below};

/// The numbers of a linear congruential generator: each seed has its own, and always the same.
#[derive(Clone, Copy)]
pub struct Draws {
    state: u64,
}

const MULTIPLIER: u64 = 6_364_136_223_846_793_005;

const INCREMENT: u64 = 1_442_695_040_888_963_407;

impl Draws {
    pub fn of(seed: u64) -> Draws
        ensures { result ≡ record { state = seed } }
    {
        Draws { state: seed }
    }

    /// A number below the bound. It comes from the upper 31 bits of the state, since the lower ones
    /// repeat too soon.
    #[tactic(auto, unfolding(crate::specs::Draws::below, crate::specs::Draws::next_state))]
    pub fn below(&mut self, bound: u64) -> u64
        requires { 0 < bound }
        ensures drawn { below bound self.old ≡ (result, self.new) }
        ensures within { result < bound }
    {
        self.state = self.state.wrapping_mul(MULTIPLIER).wrapping_add(INCREMENT);
        (self.state >> 33) % bound
    }
}
