//! The law of short jumps, the contract of a function that does nothing.

ghost use Rattle.std.specs.Prelude.{ℕ};
ghost use Rattle.x86_table.specs.Lines.{ShortJumpsReach};
ghost use Rattle.flat_code.specs.Program.{Routine};
ghost use Rattle.code_templates.specs.code_lines.Addresses.{Context};
ghost use Rattle.code_templates.specs.code_lines.Lines.{routine_lines};

/// Each short jump to a label in the lines of a routine reaches it, before any near jump is made short.
pub fn reach_law()
    ensures { (x : Context) (pointer : ℕ) (r : Routine) → ShortJumpsReach (routine_lines x pointer r) }
{}
