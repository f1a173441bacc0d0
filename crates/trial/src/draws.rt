//! Numbers drawn from a seed.

ghost use Rattle.std.specs.Prelude.{◌≡◌, ◌/◌, ◌%◌, ◌<◌, ◌^◌};
ghost use Rattle.trial.specs.Draws.{next_state};

use std::marker::Model;

/// A linear congruential generator modulo 2^64, with Knuth's multiplier (MMIX), seen as its state.
#[derive(Drop)]
pub(crate) struct Draws {
    state: u64,
}

impl Model for Draws {
    ghost use Rattle.std.specs.Prelude.{ℕ};

    ghost Value = { ℕ };

    ghost view = { λ d. d.state };
}

impl Draws {
    /// The draws from a seed.
    pub(crate) fn new(seed: u64) -> Draws
        ensures { result ≡ seed }
    {
        Draws { state: seed }
    }

    // The next draw: the upper half of the state after it.
    fn draw(&mut self) -> u32
        ensures state { self.new ≡ next_state self.old }
        ensures value { result ≡ next_state self.old / 2 ^ 32 }
    {
        self.state = self
            .state
            .wrapping_mul(6_364_136_223_846_793_005)
            .wrapping_add(1_442_695_040_888_963_407);
        (self.state >> 32) as u32
    }

    /// The next draw, modulo a number.
    pub(crate) fn below(&mut self, most: u32) -> u32
        requires { 0 < most }
        ensures state { self.new ≡ next_state self.old }
        ensures value { result ≡ next_state self.old / 2 ^ 32 % most }
    {
        self.draw() % most
    }
}
