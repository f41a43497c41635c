//! The laws of arguments, acts and stored routines, each the contract of a function that does nothing.

ghost use Rattle.std.specs.Prelude.{◌*◌, ◌+◌, ◌≤◌, ℕ, Bool, List, None, Option, length};
ghost use Rattle.x86_table.specs.Standing.{IsSpelledAt, Stands};
ghost use Rattle.flat_code.specs.declared.tree.Address.{Address};
ghost use Rattle.flat_code.specs.declared.tree.FlatResult.{FlatResult};
ghost use Rattle.flat_code.specs.Legal.{exprs_depth};
ghost use Rattle.flat_code.specs.Memory.{Cells};
ghost use Rattle.flat_code.specs.Program.{Choice};
ghost use Rattle.flat_code.specs.Tree.{Expr, Runtime, StoreRoutine};
ghost use Rattle.flat_code.specs.Values.{Frame, values_of};
ghost use Rattle.resident_machine.specs.Program.{Segment, Program};
ghost use Rattle.resident_machine.specs.State.{ResidentState};
ghost use Rattle.resident_machine.specs.machine_lines.Straight.{ones, Placed, IsAt};
ghost use Rattle.code_templates.specs.code_lines.Addresses.{Context};
ghost use Rattle.code_templates.specs.code_lines.Expressions.{args_code};
ghost use Rattle.statement_simulation.specs.expressions.Active.{Suits, Active};
ghost use Rattle.statement_simulation.specs.expressions.Evaluates.{IsCode};
ghost use Rattle.statement_simulation.specs.flow.Sites.{World, Site, Live, Fits};
ghost use Rattle.statement_simulation.specs.flow.Outcomes.{EndsErrors};
ghost use Rattle.statement_simulation.specs.flow.Lists.{StepFlows};
ghost use Rattle.effect_simulation.specs.effects.Pushed.{AllHaveWords, PushesAll};
ghost use Rattle.effect_simulation.specs.effects.Pointers.{HoldsPointer};

/// The code of arguments pushes their values in order, the first at the top, or comes to the error routine with 200 in AX where
/// one of them divides by 0, in no more events than it has instructions.
pub fn argument_law()
    ensures { (p : Program) (framed : Bool) (cs : Segment) (code : List ℕ) (at labels : ℕ → ℕ) → Placed p cs code at → (x : Context) → IsCode p x.addresses.error_routine → (choice : Choice) (f : Frame) (m : Cells) → Suits x choice f → (es : List Expr) (k : ℕ) (r : ResidentState) → AllHaveWords es → IsAt cs (at k) r → Active p.installed choice f m r.registers r.cells → 64 + 2 * (length es + exprs_depth es) ≤ r.registers.sp → Stands (IsSpelledAt code) at labels k (ones (args_code x es)) → PushesAll p framed cs x.addresses.error_routine (length (args_code x es)) (at (k + length (args_code x es))) r (values_of choice f m es) }
{}

/// The acts that write bytes, read a byte and end the run are followed by their code, as calls of DOS.
pub fn act_law()
    ensures write { (w : World) (site : Site) (live : Live) (bound pointer : ℕ) → Fits w site live → EndsErrors w live site.context.addresses.error_routine → (args : List Expr) → AllHaveWords args → 72 + 2 * (length args + exprs_depth args) ≤ live.frame.sp → StepFlows w site live bound pointer (Runtime 0 args None) }
    ensures read { (w : World) (site : Site) (live : Live) (bound pointer : ℕ) → Fits w site live → EndsErrors w live site.context.addresses.error_routine → (args : List Expr) (result : Option FlatResult) → AllHaveWords args → 70 + 2 * (length args + exprs_depth args) ≤ live.frame.sp → StepFlows w site live bound pointer (Runtime 1 args result) }
    ensures end { (w : World) (site : Site) (live : Live) (bound pointer : ℕ) → Fits w site live → EndsErrors w live site.context.addresses.error_routine → (args : List Expr) → AllHaveWords args → 66 + 2 * (length args + exprs_depth args) ≤ live.frame.sp → StepFlows w site live bound pointer (Runtime 2 args None) }
{}

/// A statement that stores the far pointer of a routine is followed by its code, where that pointer stands in the datum that
/// the code takes it from.
pub fn routine_law()
    ensures { (w : World) (site : Site) (live : Live) (bound pointer : ℕ) → Fits w site live → (to : Address) (unit number : ℕ) → HoldsPointer w site live pointer unit number → 64 ≤ live.frame.sp → StepFlows w site live bound pointer (StoreRoutine to unit number) }
{}
