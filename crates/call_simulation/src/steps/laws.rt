//! The law of calls, the contract of a function that does nothing.

ghost use Rattle.std.specs.Prelude.{◌≡◌, ◌+◌, ◌<◌, ◌≤◌, ◌&&◌, ◌*◌, not, ℕ, suc, true, false, IsTrue, List, length, Ok, Option, Some, slice_get, ◌%◌};
ghost use Rattle.x86_table.specs.Standing.{IsSpelledAt, Stands};
ghost use Rattle.flat_code.specs.declared.tree.FlatResult.{FlatResult};
ghost use Rattle.flat_code.specs.Calls.{State, raised, called};
ghost use Rattle.flat_code.specs.declared.memory.Place.{Place};
ghost use Rattle.flat_code.specs.Legal.{HasResultSize, exprs_depth};
ghost use Rattle.flat_code.specs.Meaning.{run, key_of};
ghost use Rattle.flat_code.specs.Program.{Key, Routine, UnitCode, runtime_key};
ghost use Rattle.flat_code.specs.Tree.{Expr, Call, Runtime};
ghost use Rattle.resident_machine.specs.Program.{Image};
ghost use Rattle.resident_machine.specs.State.{ResidentState};
ghost use Rattle.resident_machine.specs.machine_lines.Straight.{ones};
ghost use Rattle.code_templates.specs.code_lines.Lines.{Around, call_code, call_far, call_own, framed_lines, taken};
ghost use Rattle.code_templates.specs.code_lines.Expressions.{args_code};
ghost use Rattle.effect_simulation.specs.effects.Pushed.{AllHaveWords};
ghost use Rattle.statement_simulation.specs.flow.Sites.{World, Site, Live, Fits, Represents};
ghost use Rattle.statement_simulation.specs.flow.Outcomes.{Flows, EndsErrors};
ghost use Rattle.statement_simulation.specs.flow.Lists.{StepFlows};
ghost use Rattle.call_simulation.specs.frames.Chain.{IsChained};
ghost use Rattle.call_simulation.specs.calls.Enters.{EntersAt, Reaches};
ghost use Rattle.call_simulation.specs.steps.Callable.{Callable};
ghost use Rattle.call_simulation.specs.steps.Made.{Made, HasStack, BodyFlows};

/// A call that has reached the routine's first line with a turn spent does what flat code's call means: the activation, its end,
/// and the result where it is wanted, in the caller again; or error 202, exactly where flat code has it; if the routine's body
/// does what it means with fewer turns, and if what comes of error 208 is followed. No event is more than the work of the
/// call's own node pays.
pub fn routine_law()
    ensures { (w : World) (caller : Site) (site : Site) (live : Live) → Fits w caller live → (key : Key) (unit : UnitCode) (r : Routine) (pointer : ℕ) → Some unit ≡ w.program.unit key.unit → Some r ≡ slice_get unit.routines key.number → Made w site key.unit unit r pointer → EndsErrors w live site.context.addresses.error_routine → (result : Option FlatResult) → HasResultSize result → (j : ℕ) → (r.far ≡ false → caller.segment ≡ site.segment) → (IsTrue w.framed → IsChained w live) → (IsTrue w.framed → r.locals % 2 ≡ 0) → HasStack w live.frame r → (around : Around) (s : State) (left m : ℕ) → s.turns ≡ suc left → (r0 : ResidentState) → Represents w live s r0 → (n : ℕ) (vs : List ℕ) → Reaches w live r.far (record { segment = caller.segment; offset = caller.at j }) site.segment n (site.at 0) vs r0 → 1 ≤ m → Stands (IsSpelledAt caller.code) caller.at caller.labels j (ones (taken caller.context result)) → n + 6 + length (framed_lines site.context pointer r) + length (taken caller.context result) ≤ w.rate → ((w.program.overlaid key.unit && not s.flag) ≡ true → Flows w caller live around (caller.at (j + length (taken caller.context result))) s r0 (raised 208 (record s { turns = left; work = s.work + m }))) → (bound : ℕ) → left < bound → BodyFlows w site key.unit unit r pointer live (record { segment = caller.segment; offset = caller.at j }) bound → Flows w caller live around (caller.at (j + length (taken caller.context result))) s r0 (called w.program w.choice (run w.program w.choice) vs result live.frame (record s { turns = left; work = s.work + m }) key) }
{}

/// The statements that call a routine of the program or of the runtime do what they mean, in a caller with room for their
/// arguments, if what they name can be called: the arguments in order, a turn, the call, and the result where it is wanted.
pub fn step_law()
    ensures call { (w : World) (site : Site) (live : Live) → Fits w site live → EndsErrors w live site.context.addresses.error_routine → (IsTrue w.framed → IsChained w live) → (bound most pointer unit number : ℕ) (args : List Expr) (result : Option FlatResult) → AllHaveWords args → HasResultSize result → 68 + 2 * (length args + exprs_depth args) ≤ live.frame.sp → 8 + length (args_code site.context args) + most + length (taken site.context result) ≤ w.rate → ((key : Key) → key_of live.frame unit number ≡ Ok key → Callable w site live key (call_code site.context unit number) bound most) → StepFlows w site live (suc bound) pointer (Call unit number args result) }
    ensures runtime { (w : World) (site : Site) (live : Live) → Fits w site live → EndsErrors w live site.context.addresses.error_routine → (IsTrue w.framed → IsChained w live) → (bound most pointer n : ℕ) (args : List Expr) (result : Option FlatResult) → AllHaveWords args → HasResultSize result → 68 + 2 * (length args + exprs_depth args) ≤ live.frame.sp → 8 + length (args_code site.context args) + most + length (taken site.context result) ≤ w.rate → Callable w site live (runtime_key (5 + n)) (call_far (site.context.addresses.far (runtime_key (5 + n)))) bound most → StepFlows w site live (suc bound) pointer (Runtime (suc (suc (suc (suc (suc n))))) args result) }
{}

/// Which routines can be called: those of the caller's own unit, near or far, and far ones of the image, if their code stands
/// where the call leads and their bodies do what they mean with fewer turns.
pub fn callable_law()
    ensures own { (w : World) (site : Site) (live : Live) → Fits w site live → (key : Key) (callee : Site) (unit : UnitCode) (r : Routine) (pointer bound most : ℕ) → Some unit ≡ w.program.unit key.unit → Some r ≡ slice_get unit.routines key.number → Made w callee key.unit unit r pointer → EndsErrors w live callee.context.addresses.error_routine → (IsTrue w.framed → r.locals % 2 ≡ 0) → HasStack w live.frame r → length (framed_lines callee.context pointer r) ≤ most → ((k : ℕ) → BodyFlows w callee key.unit unit r pointer live (record { segment = site.segment; offset = site.at k }) bound) → (number : ℕ) → callee.segment ≡ site.segment → site.at (site.labels number) ≡ callee.at 0 → (w.program.overlaid key.unit ≡ true → w.program.overlaid live.frame.unit ≡ true) → Callable w site live key (call_own r.far number) bound most }
    ensures far { (w : World) (site : Site) (live : Live) → Fits w site live → (key : Key) (callee : Site) (unit : UnitCode) (r : Routine) (pointer bound most : ℕ) → Some unit ≡ w.program.unit key.unit → Some r ≡ slice_get unit.routines key.number → Made w callee key.unit unit r pointer → EndsErrors w live callee.context.addresses.error_routine → (IsTrue w.framed → r.locals % 2 ≡ 0) → HasStack w live.frame r → length (framed_lines callee.context pointer r) ≤ most → ((k : ℕ) → BodyFlows w callee key.unit unit r pointer live (record { segment = site.segment; offset = site.at k }) bound) → (place : Place) (number : ℕ) → r.far ≡ true → callee.segment ≡ Image number → EntersAt w.machine place (Image number) (callee.at 0) → w.program.overlaid key.unit ≡ false → (IsTrue w.framed → IsChained w live) → Callable w site live key (call_far place) bound most }
{}
