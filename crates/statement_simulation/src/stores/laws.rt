//! The law of stores, the contract of a function that does nothing.

ghost use Rattle.std.specs.Prelude.{◌+◌, ◌*◌, ◌≤◌, ◌++◌, ℕ, Bool, List, length};
ghost use Rattle.x86_table.specs.Standing.{IsSpelledAt, Stands};
ghost use Rattle.flat_code.specs.declared.tree.Address.{Address};
ghost use Rattle.flat_code.specs.Legal.{expr_depth};
ghost use Rattle.flat_code.specs.Memory.{Cells};
ghost use Rattle.flat_code.specs.Program.{Choice};
ghost use Rattle.flat_code.specs.Tree.{Expr};
ghost use Rattle.flat_code.specs.Values.{Frame};
ghost use Rattle.resident_machine.specs.Program.{Segment, Program};
ghost use Rattle.resident_machine.specs.State.{ResidentState};
ghost use Rattle.resident_machine.specs.machine_lines.Straight.{ones, Placed, IsAt};
ghost use Rattle.code_templates.specs.code_lines.Addresses.{Context};
ghost use Rattle.code_templates.specs.code_lines.Expressions.{expr_code};
ghost use Rattle.code_templates.specs.code_lines.Lines.{store_byte, store_word};
ghost use Rattle.statement_simulation.specs.expressions.Active.{Suits, Active};
ghost use Rattle.statement_simulation.specs.expressions.Evaluates.{HasWords, IsCode};
ghost use Rattle.statement_simulation.specs.stores.Stores.{word_stored, byte_stored, Follows};

/// The code of a store, wherever it stands, takes a machine that stands for a live activation to the end of the code, where it
/// stands for the activation with the cells that the store leaves; or to the error routine with 200 in AX where the value
/// divides by 0. What flat code can't reach is as it was, but for the stack below SP.
pub fn store_law()
    ensures word { (p : Program) (framed : Bool) (cs : Segment) (code : List ℕ) (at : ℕ → ℕ) (labels : ℕ → ℕ) → Placed p cs code at → (x : Context) → IsCode p x.addresses.error_routine → (choice : Choice) (f : Frame) (m : Cells) → Suits x choice f → (to : Address) (e : Expr) → HasWords e → (k : ℕ) (r : ResidentState) → IsAt cs (at k) r → Active p.installed choice f m r.registers r.cells → 64 + 2 * expr_depth e ≤ r.registers.sp → Stands (IsSpelledAt code) at labels k (ones (expr_code x e ++ store_word x to)) → Follows p framed cs x.addresses.error_routine (length (expr_code x e ++ store_word x to)) (at (k + length (expr_code x e ++ store_word x to))) choice f m r (word_stored choice f m to e) }
    ensures byte { (p : Program) (framed : Bool) (cs : Segment) (code : List ℕ) (at : ℕ → ℕ) (labels : ℕ → ℕ) → Placed p cs code at → (x : Context) → IsCode p x.addresses.error_routine → (choice : Choice) (f : Frame) (m : Cells) → Suits x choice f → (to : Address) (e : Expr) → HasWords e → (k : ℕ) (r : ResidentState) → IsAt cs (at k) r → Active p.installed choice f m r.registers r.cells → 64 + 2 * expr_depth e ≤ r.registers.sp → Stands (IsSpelledAt code) at labels k (ones (expr_code x e ++ store_byte x to)) → Follows p framed cs x.addresses.error_routine (length (expr_code x e ++ store_byte x to)) (at (k + length (expr_code x e ++ store_byte x to))) choice f m r (byte_stored choice f m to e) }
{}
