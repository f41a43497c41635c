//! The law of whole programs, the contract of a function that does nothing.

ghost use Rattle.std.specs.Prelude.{ℕ, Bool, List};
ghost use Rattle.flat_code.specs.Legal.{Mention};
ghost use Rattle.resident_machine.specs.State.{ResidentState};
ghost use Rattle.statement_simulation.specs.flow.Sites.{World};
ghost use Rattle.code_simulation.specs.bodies.Layouts.{IsIn, Layout, PlacedProgram};
ghost use Rattle.code_simulation.specs.start.Starting.{HasStart, IsStart};
ghost use Rattle.code_simulation.specs.start.Shown.{ShowsRun};

/// A placed program does what the flat program means: for each input and number of turns the machine comes, by events of which
/// none is astray, to a state that shows the same: output, errors, what was read, and the end; where the flat program goes on,
/// so does the machine, and has had as many events as turns. Up to an undefined act the same is written. Where
/// frames are marked and the locals of each routine that is reached take an even number of bytes, each event is framed.
pub fn start_law()
    ensures { (w : World) (reached : Mention → Bool) (x : Layout) → PlacedProgram w (IsIn reached) x → (h : HasStart w (IsIn reached) x) (input : List ℕ) (r : ResidentState) → IsStart w (IsIn reached) x h input r → (turns : ℕ) → ShowsRun w input turns r }
{}
