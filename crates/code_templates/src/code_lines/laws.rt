//! Laws of the code of nodes, each the contract of a function that does nothing.

ghost use Rattle.std.specs.Prelude.{◌≡◌, ◌≤◌, ℕ, length};
ghost use Rattle.x86_table.specs.Lines.{assembled};
ghost use Rattle.flat_code.specs.Program.{Routine};
ghost use Rattle.flat_code.specs.Tree.{Expr};
ghost use Rattle.flat_code.specs.Weights.{expr_weight, routine_weight};
ghost use Rattle.resident_machine.specs.machine_lines.Straight.{ones};
ghost use Rattle.code_templates.specs.code_lines.Addresses.{Context};
ghost use Rattle.code_templates.specs.code_lines.Example.{successor_bytes, repeated_bytes, copy_bytes, outer_bytes, quotient_bytes, successor_code, repeated_code, copy_code, outer_code, quotient_code};
ghost use Rattle.code_templates.specs.code_lines.Expressions.{expr_code};
ghost use Rattle.code_templates.specs.code_lines.Lines.{routine_lines};

/// The bytes of small pieces, written by hand after the processor's manual: a function with its frame, its stack test and
/// its result; a loop with a test, a call and a way out; bytes copied between far places; a variable two links up; a
/// signed quotient.
pub fn example_law()
    ensures function { successor_code ≡ successor_bytes }
    ensures repeat { repeated_code ≡ repeated_bytes }
    ensures copy { copy_code ≡ copy_bytes }
    ensures outer { outer_code ≡ outer_bytes }
    ensures quotient { quotient_code ≡ quotient_bytes }
{}

/// The code of an expression and that of a routine have at most as many bytes as flat code weighs them, and a routine's has at
/// least 6.
pub fn weight_law()
    ensures expression { (x : Context) (e : Expr) → length (assembled (ones (expr_code x e))) ≤ expr_weight e }
    ensures most { (x : Context) (pointer : ℕ) (r : Routine) → length (assembled (routine_lines x pointer r)) ≤ routine_weight r }
    ensures least { (x : Context) (pointer : ℕ) (r : Routine) → 6 ≤ length (assembled (routine_lines x pointer r)) }
{}
