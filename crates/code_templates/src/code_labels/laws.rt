//! The law of labels, the contract of a function that does nothing.

ghost use Rattle.std.specs.Prelude.{◌+◌, ◌<◌, ◌≤◌, ℕ, length};
ghost use Rattle.x86_table.specs.Standing.{HasLabel, LabelsAreOnce};
ghost use Rattle.flat_code.specs.Program.{Routine};
ghost use Rattle.code_templates.specs.code_lines.Addresses.{Context};
ghost use Rattle.code_templates.specs.code_lines.Lines.{labels, routine_lines};

/// No label stands twice in the lines of a routine, and each that stands has a number from that of the unit's routines on, and
/// below the number behind those of its body: the numbers of routines stay free for their own labels.
pub fn label_law()
    ensures once { (x : Context) (pointer : ℕ) (r : Routine) → LabelsAreOnce (routine_lines x pointer r) }
    ensures range { (x : Context) (pointer : ℕ) (r : Routine) (l : ℕ) → HasLabel l (routine_lines x pointer r) → (length x.unit.routines ≤ l) × (l < length x.unit.routines + 1 + labels r.body) }
{}
