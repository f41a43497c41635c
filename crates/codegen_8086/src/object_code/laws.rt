//! The laws of code, contracts of functions that do nothing.

ghost use Rattle.std.specs.Prelude.{ℕ, List};
ghost use Rattle.x86_table.specs.declared.line.Line.{Line};
ghost use Rattle.flat_code.specs.declared.unit.FlatRoutine.{FlatRoutine};
ghost use Rattle.flat_code.specs.Plain.{view_routine};
ghost use Rattle.flat_code.specs.Program.{Name, UnitCode};
ghost use Rattle.code_templates.specs.code_references.Marked.{marked_routine};
ghost use Rattle.codegen_8086.specs.object_code.Named.{ReferenceLaw};
ghost use Rattle.codegen_8086.specs.object_code.Objects.{IsLaidOut, code_of};
ghost use Rattle.codegen_8086.specs.object_code.Resolved.{CodeFor, NamesLead};

/// The code that is made of a routine's lines, laid out in any way, is the routine's code: for all addresses, and wherever it
/// stands, with its references filled it is the lines of the routine for these addresses.
pub fn code_law()
    ensures { (own : Name) (unit : UnitCode) (pointer : ℕ) (r : FlatRoutine) (lines : List Line) → NamesLead own unit.names → IsLaidOut (marked_routine unit pointer (view_routine r)) lines → CodeFor own unit pointer (view_routine r) (code_of unit.names r (marked_routine unit pointer (view_routine r)) lines) }
{}

/// What the code of a routine refers to is what the routine names: a set that has the one has the other. Far-pointer data refer to
/// the routines that are stored, and of data whose segment alone is taken, which DS holds, no instruction tells.
pub fn reference_law()
    ensures { ReferenceLaw }
{}
