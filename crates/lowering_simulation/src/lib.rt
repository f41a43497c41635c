//! How runs of flat code follow what programs mean: the form in which the law of the lowering is stated, and how its
//! parts are put together.
#![tactic(auto)]

ghost use Rattle.std.specs.Prelude.{ℕ, Bool};
ghost use Rattle.tp_meaning.specs.Trees.{Value};
ghost use Rattle.tp_meaning.specs.Calls.{Flow};
ghost use Rattle.flat_code.specs.Program.{FlatProgram, Choice};
ghost use Rattle.flat_code.specs.Meaning.{Frame, State, Outcome};
ghost use Rattle.lowering_simulation.specs.Meets.{SourceMemory, FlatMemory};
ghost use Rattle.lowering_simulation.specs.Waits.{ContextLaws, ZeroTurnLaws};
ghost use Rattle.lowering_simulation.specs.Laws.{FollowingLaws};
ghost use Rattle.lowering_simulation.specs.Nodes.{NodeLaws};
ghost use Rattle.lowering_simulation.specs.Routines.{CallLaws};
ghost use Rattle.lowering_simulation.specs.Loops.{WhileFollows};
ghost use Rattle.lowering_simulation.specs.Programs.{ProgramFollows};
ghost use Rattle.lowering_simulation.specs.Examples.{ExampleFollows};

/// What parts of the source give, and how it is related to the memory of both sides.
pub trait Related {
    ghost related: { Self → SourceMemory → FlatMemory → Type 0 };

    ghost wider: { Self → SourceMemory → FlatMemory → Type 0 };
}

/// How the memory of both sides is related between statements, behind a condition, a body and a loop, and behind a call.
pub trait Represented {
    ghost between: { SourceMemory → FlatMemory → Type 0 };

    ghost decided: { Bool → SourceMemory → FlatMemory → Type 0 };

    ghost ran: { Flow → SourceMemory → FlatMemory → Type 0 };

    ghost ended: { Flow → SourceMemory → FlatMemory → Type 0 };

    ghost returned: { Value → SourceMemory → FlatMemory → Type 0 };
}

/// The laws of simulation, for each representation of stores. Flat code that has no turn left writes nothing and ends no run,
/// whatever it is. Parts that follow parts of the source follow them one after another, with the sum of their weights; a turn
/// that both sides spend pays for what comes behind it; an error of the source is raised by flat code for a turn of its own;
/// of an undefined act nothing is asked but what was written before. So do lists, conditions, the end of a run, calls as far as
/// their activations, and a `while`. And a program whose units are followed as they begin is shown by flat code, which works at
/// a rate. There is a loop that has what is asked. It does nothing.
pub fn lowering_simulation_laws<A: Related, B: Related, R: Represented>()
    ensures zero_turns { (program : FlatProgram) (choice : Choice) → ZeroTurnLaws program choice }
    ensures contexts { (go : State → Outcome) → ContextLaws go }
    ensures following { (few : ℕ) → FollowingLaws few A.related A.wider B.related }
    ensures nodes { (few : ℕ) (program : FlatProgram) (choice : Choice) (f : Frame) → NodeLaws few program choice f A.related B.related }
    ensures calls { (few : ℕ) (program : FlatProgram) (choice : Choice) (f : Frame) → CallLaws few program choice f R.returned }
    ensures loops { WhileFollows R.between R.decided R.ran R.ended }
    ensures programs { ProgramFollows R.between }
    ensures example { ExampleFollows }
{}
