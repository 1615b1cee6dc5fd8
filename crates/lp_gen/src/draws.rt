//! Draws of numbers.

ghost use Rattle.std.specs.Prelude.{◌≡◌, ◌<◌};
ghost use Rattle.lp_gen.specs.Draws.{state_after, drawn};

use std::marker::Model;

/// What a state is multiplied by at a draw.
const MULTIPLIER: u64 = 6_364_136_223_846_793_005;

/// What is added at a draw.
const INCREMENT: u64 = 1_442_695_040_888_963_407;

/// Draws from a seed. A contract sees their state.
#[derive(Drop)]
pub struct Draws {
    state: u64,
}

impl Model for Draws {
    ghost use Rattle.std.specs.Prelude.{ℕ};

    ghost Value = { ℕ };

    ghost view = { λ draws. draws.state };
}

impl Draws {
    /// Draws that begin at a seed.
    pub fn new(seed: u64) -> Draws
        ensures { result ≡ seed }
    {
        Draws { state: seed }
    }

    /// The next number, below `choices`.
    pub fn draw(&mut self, choices: u32) -> u32
        requires { 0 < choices }
        ensures state { self.new ≡ state_after self.old 1 }
        ensures value { result ≡ drawn self.old 0 choices }
        ensures within { result < choices }
    {
        self.state = self.state.wrapping_mul(MULTIPLIER).wrapping_add(INCREMENT);
        ((self.state >> 33) % u64::from(choices)) as u32
    }
}
