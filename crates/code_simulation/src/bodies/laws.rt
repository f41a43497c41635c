//! The law of bodies, the contract of a function that does nothing.

ghost use Rattle.std.specs.Prelude.{ℕ, Bool};
ghost use Rattle.flat_code.specs.Legal.{Mention};
ghost use Rattle.statement_simulation.specs.flow.Sites.{World};
ghost use Rattle.code_simulation.specs.bodies.Layouts.{IsIn, Layout, PlacedProgram};
ghost use Rattle.code_simulation.specs.bodies.Bodies.{Bodies};

/// In a placed program, with any number of turns, the code of each routine that is reached follows the routine's flat body: the
/// same output, errors and end, with an event at least for each turn and no more events than the work pays, never astray, and
/// framed where frames are marked and the locals of each routine that is reached take an even number of bytes.
pub fn body_law()
    ensures { (w : World) (reached : Mention → Bool) (x : Layout) (p : PlacedProgram w (IsIn reached) x) (bound : ℕ) → Bodies w (IsIn reached) x p.shallow.chain bound }
{}
