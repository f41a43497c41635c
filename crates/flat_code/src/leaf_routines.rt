//! Routines of the runtime that call no others.

ghost use Rattle.std.specs.Prelude.{◌≡◌, ℕ, true, List};
ghost use Rattle.flat_code.specs.Program.{Name, Key, Routine, FlatProgram};
ghost use Rattle.flat_code.specs.leaf_routines.Leaves.{is_leaf_routine, IsLeaf};

/// A routine that calls no other has what a shallow program asks of it, with a chain of its own bytes. It does
/// nothing.
pub fn leaf_law()
    ensures { (program : FlatProgram) (bytes : ℕ) (key : Key) (names : List Name) (r : Routine) → is_leaf_routine bytes r ≡ true → IsLeaf program bytes key names r }
{}
