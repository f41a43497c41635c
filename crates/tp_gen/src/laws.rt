//! Laws of what is drawn.

ghost use Rattle.std.specs.Prelude.{◌≡◌};
ghost use Rattle.tp_gen.specs.Draws.{state_after};
ghost use Rattle.tp_gen.specs.Units.{unit_in};
ghost use Rattle.tp_gen.specs.Programs.{call_of};
ghost use Rattle.tp_gen.specs.Laws.{AreNumbered, AllCallOthers, CallsUnit};

/// Each unit of a generated program calls other units that are there, at numbers below its own, and so does the program call one;
/// so the program comes to an end. It does nothing.
pub fn generated_program_laws()
    ensures numbered { AreNumbered }
    ensures others { AllCallOthers }
    ensures call { CallsUnit }
{}

/// What the seed 1 leads to, written out: the first five states, and the first of eight units. It does nothing.
pub fn worked_draws()
    ensures first { state_after 1 1 ≡ 1015568748 }
    ensures second { state_after 1 2 ≡ 1586005467 }
    ensures third { state_after 1 3 ≡ 2165703038 }
    ensures fourth { state_after 1 4 ≡ 3027450565 }
    ensures fifth { state_after 1 5 ≡ 217083232 }
    ensures unit { unit_in 1 8 0 ≡ record { number = 1; first = 7; second = 3; base = 46; factor = 95; step = 1 } }
{}
