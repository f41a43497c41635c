//! The law of work, the contract of a function that does nothing.

ghost use Rattle.std.specs.Prelude.{◌≡◌, ℕ, List, Option};
ghost use Rattle.flat_code.specs.declared.tree.FlatResult.{FlatResult};
ghost use Rattle.flat_code.specs.Meaning.{Frame, State, called, run};
ghost use Rattle.flat_code.specs.Program.{FlatProgram, Choice, Key};
ghost use Rattle.flat_code.specs.Tree.{Code};
ghost use Rattle.flat_code.specs.costs.Worked.{worked, all_worked};

/// A run that begins with more work ends with so much more, and is otherwise the same; and so is a call.
pub fn work_law()
    ensures code { (program : FlatProgram) (choice : Choice) (more : ℕ) (code : Code) (f : Frame) (s : State) → run program choice code f (worked more s) ≡ all_worked more (run program choice code f s) }
    ensures call { (program : FlatProgram) (choice : Choice) (more : ℕ) (args : List ℕ) (result : Option FlatResult) (f : Frame) (s : State) (key : Key) → called program choice (run program choice) args result f (worked more s) key ≡ all_worked more (called program choice (run program choice) args result f s key) }
{}
