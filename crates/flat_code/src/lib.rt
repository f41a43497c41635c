//! Flat code: structured code over bytes, and what it means.
#![tactic(auto)]

pub mod costs;
pub mod flat_builders;
pub mod leaf_routines;

ghost use Rattle.std.specs.Prelude.{◌≡◌, ℕ, ◌+◌, ◌≤◌, List};
ghost use Rattle.common_values.specs.behaviour.Seen.{IsRun};
ghost use Rattle.flat_code.specs.Tree.{Code, ◌then◌};
ghost use Rattle.flat_code.specs.Program.{FlatProgram, Choice, Name, UnitCode, runtime_key};
ghost use Rattle.flat_code.specs.Meaning.{Frame, State, run, flat_run};
ghost use Rattle.flat_code.specs.Laws.{NodeLaws, StaysShut};
ghost use Rattle.flat_code.specs.Legal.{IsLegal, IsThere, StackFits};
ghost use Rattle.flat_code.specs.Gives.{Computes};
ghost use Rattle.flat_code.specs.Runtime.{HoldsExample, negation_number, negation_of};
ghost use Rattle.flat_code.specs.Weights.{code_weight};
ghost use Rattle.flat_code.specs.Plain.{HasPlaces, program_of, choice_of};

mod memory;
mod tree;
mod unit;
mod weights;

pub use memory::{ADDRESSES, Cell, Place, Trap};
pub use tree::{Address, FlatExpr, FlatExprs, FlatList, FlatOp, FlatResult, FlatStmt};
pub use unit::{
    FlatData, FlatDatum, FlatRoutine, FlatRoutines, FlatUnit, FlatVmt, FlatVmts, RoutineIds,
};
pub use weights::flat_weight_of;

/// The laws of flat code: greater numbers of turns change nothing of a run that is over and only
/// add to what was written; the meaning of each node is that of its parts; and what can't be reached
/// as statements begin can't be reached after them. The choice of the interpreter is a legal one, where
/// all that the program has counts as reached. A program that holds a certain routine by hand, where
/// the stack fits a segment, keeps the runtime's promise on the negative of a LongInt. The weight of
/// two lists is the sum of theirs. It does nothing.
pub fn flat_laws()
    ensures runs { (program : FlatProgram) (choice : Choice) (input : List ℕ) → IsRun (λ turns. (flat_run program choice input turns).seen) }
    ensures nodes { (program : FlatProgram) (choice : Choice) → NodeLaws program choice }
    ensures shut { (program : FlatProgram) (choice : Choice) (code : Code) (f : Frame) (s : State) → StaysShut s (run program choice code f s) }
    ensures plain { (units : List UnitCode) (overlaid : List Name) (stack heap : ℕ) → HasPlaces units → stack ≤ 65520 → heap ≤ 196608 → let program = program_of units overlaid stack heap in IsLegal program (choice_of units) (IsThere program) }
    ensures runtime { (program : FlatProgram) (choice : Choice) → StackFits program choice → HoldsExample program → Computes program choice (runtime_key negation_number) 32 2 negation_of 0 64 }
    ensures weights { (first after : Code) → code_weight (first then after) ≡ code_weight first + code_weight after }
{}
