//! Laws of the code of expressions, each the contract of a function that does nothing.

ghost use Rattle.std.specs.Prelude.{◌+◌, ◌*◌, ◌≤◌, ℕ, Bool, List, length};
ghost use Rattle.x86_table.specs.Standing.{IsSpelledAt, Stands};
ghost use Rattle.flat_code.specs.Legal.{expr_depth};
ghost use Rattle.flat_code.specs.Memory.{Cells};
ghost use Rattle.flat_code.specs.Program.{Choice};
ghost use Rattle.flat_code.specs.Tree.{Expr};
ghost use Rattle.flat_code.specs.Values.{Frame, value_of};
ghost use Rattle.resident_machine.specs.Program.{Segment, Program};
ghost use Rattle.resident_machine.specs.State.{ResidentState};
ghost use Rattle.resident_machine.specs.machine_lines.Straight.{ones, Placed, IsAt};
ghost use Rattle.code_templates.specs.code_lines.Addresses.{Context};
ghost use Rattle.code_templates.specs.code_lines.Expressions.{expr_code};
ghost use Rattle.statement_simulation.specs.expressions.Active.{Suits, Active};
ghost use Rattle.statement_simulation.specs.expressions.Evaluates.{HasWords, IsCode, Evaluates};

/// The code of an expression, wherever it stands, takes a machine that stands for a live activation to the end of the code
/// with the expression's value in AX, or to the error routine with 200 in AX where it divides by 0, in no more events than
/// it has instructions. It changes nothing but registers that hold no part of the frame and the stack below SP, is never
/// astray, and reads none of the 64 bytes below SP.
pub fn expression_law()
    ensures { (p : Program) (framed : Bool) (cs : Segment) (code : List ℕ) (at : ℕ → ℕ) (labels : ℕ → ℕ) → Placed p cs code at → (x : Context) → IsCode p x.addresses.error_routine → (choice : Choice) (f : Frame) (m : Cells) → Suits x choice f → (e : Expr) → HasWords e → (k : ℕ) (r : ResidentState) → IsAt cs (at k) r → Active p.installed choice f m r.registers r.cells → 64 + 2 * expr_depth e ≤ r.registers.sp → Stands (IsSpelledAt code) at labels k (ones (expr_code x e)) → Evaluates p framed cs x.addresses.error_routine (length (expr_code x e)) (at (k + length (expr_code x e))) r (value_of choice f m e) }
{}
