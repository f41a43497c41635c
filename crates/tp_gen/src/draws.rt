//! Numbers that are drawn from a seed.

ghost use Rattle.std.specs.Prelude.{◌≡◌, ◌<◌};
ghost use Rattle.tp_gen.specs.Draws.{next_state, drawn};

use std::marker::Model;

const MULTIPLIER: u32 = 1_664_525;

const INCREMENT: u32 = 1_013_904_223;

/// A linear congruential generator, seen as its state.
#[derive(Debug, Drop)]
pub(crate) struct Draws {
    state: u32,
}

impl Model for Draws {
    ghost use Rattle.std.specs.Prelude.{ℕ};

    ghost Value = { ℕ };

    ghost view = { λ draws. draws.state };
}

impl Draws {
    pub(crate) fn new(seed: u32) -> Draws
        ensures { result ≡ seed }
    {
        Draws { state: seed }
    }

    /// The next number, which lies below the bound.
    pub(crate) fn draw(&mut self, bound: u16) -> u16
        requires { 0 < bound }
        ensures state { self.new ≡ next_state self.old }
        ensures number { result ≡ drawn self.old 1 bound }
        ensures below { result < bound }
    {
        self.state = self.state.wrapping_mul(MULTIPLIER).wrapping_add(INCREMENT);
        (self.state / 65_536) as u16 % bound
    }
}
