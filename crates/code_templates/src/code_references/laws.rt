//! The laws of references, each the contract of a function that does nothing.

ghost use Rattle.std.specs.Prelude.{◌≡◌, ℕ, List, map};
ghost use Rattle.x86_table.specs.Lines.{ShortJumpsReach};
ghost use Rattle.x86_table.specs.Standing.{LabelsAreOnce};
ghost use Rattle.flat_code.specs.Program.{Routine};
ghost use Rattle.code_templates.specs.code_lines.Addresses.{Addresses, Context};
ghost use Rattle.code_templates.specs.code_lines.Lines.{routine_lines, within};
ghost use Rattle.code_templates.specs.declared.code_references.marks.MarkedLine.{MarkedLine};
ghost use Rattle.code_templates.specs.code_references.Marks.{placed_line, lines_of};
ghost use Rattle.code_templates.specs.code_references.Marked.{marked_routine};

/// The lines of a routine are those that are made before any address is known, with the addresses of what they refer to filled
/// in.
pub fn placed_law()
    ensures { (a : Addresses) (x : Context) (pointer : ℕ) (r : Routine) → map (placed_line (within (record x { addresses = a }) r)) (marked_routine x.unit pointer r) ≡ routine_lines (record x { addresses = a }) pointer r }
{}

/// Filling addresses in changes no size: where the short jumps reach afterwards, they do before, and so with labels that stand
/// once.
pub fn filled_law()
    ensures reach { (x : Context) (lines : List MarkedLine) → ShortJumpsReach (map (placed_line x) lines) → ShortJumpsReach (lines_of lines) }
    ensures once { (x : Context) (lines : List MarkedLine) → LabelsAreOnce (map (placed_line x) lines) → LabelsAreOnce (lines_of lines) }
{}
