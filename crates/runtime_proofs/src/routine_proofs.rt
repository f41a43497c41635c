//! How routines of flat code are proved.

ghost use Rattle.std.specs.Prelude.{ℕ};
ghost use Rattle.flat_code.specs.Program.{FlatProgram, Choice, Key, Routine, UnitCode};
ghost use Rattle.flat_code.specs.Meaning.{Frame};
ghost use Rattle.flat_code.specs.Legal.{StackFits};
ghost use Rattle.runtime_proofs.specs.routine_proofs.Activation.{IsPlaced};
ghost use Rattle.runtime_proofs.specs.routine_proofs.Specifications.{IsHeld, StraightLaw, ComputesLaw};

/// The laws by which a routine is proved: code without loops and calls does what its definition
/// says of the words of its activation and of memory around it, and a routine whose body
/// comes from all words to the bytes or the error of a function computes that function. It does nothing.
pub fn routine_rules()
    ensures straight { (program : FlatProgram) (choice : Choice) (own : Frame) (sp above : ℕ) → IsPlaced choice own sp above → StraightLaw program choice own sp above }
    ensures computes { (program : FlatProgram) (choice : Choice) (key : Key) (unit : UnitCode) (r : Routine) → IsHeld program key unit r → StackFits program choice → ComputesLaw program choice key unit r }
{}
