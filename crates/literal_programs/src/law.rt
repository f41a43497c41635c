//! What a program of literals means.

ghost use Rattle.std.specs.Prelude.{◌≡◌, ℕ, List};
ghost use Rattle.typed_tree.specs.declared.units.Program.{Program};
ghost use Rattle.literal_programs.specs.literal_code.Statement.{Statement, shown};
ghost use Rattle.tp_meaning.specs.Meaning.{mean};
ghost use Rattle.literal_programs.specs.Literals.{Says};

/// A program of literals means what its statements show, on every input and within any number of turns.
pub fn literal_program_law()
    ensures means { (statements : List Statement) (program : Program) (input : List ℕ) (turns : ℕ) → Says program statements → mean program input turns ≡ shown statements }
{}
