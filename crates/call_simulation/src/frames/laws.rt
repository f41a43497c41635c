//! The laws of the lines at the begin and the end of a routine, each the contract of a function that does nothing.

ghost use Rattle.std.specs.Prelude.{◌≡◌, ◌*◌, ◌+◌, ◌%◌, ◌<◌, ◌≤◌, ℕ, Bool, true, false, IsTrue, List, length, Ok};
ghost use Rattle.x86_table.specs.Standing.{IsSpelledAt, Stands};
ghost use Rattle.flat_code.specs.Calls.{State, with_cells, link_bytes, activation_bytes, result_bytes, opened};
ghost use Rattle.flat_code.specs.Legal.{HasResultSize};
ghost use Rattle.flat_code.specs.Program.{Name, Routine, UnitCode};
ghost use Rattle.resident_machine.specs.Cells.{is_free};
ghost use Rattle.resident_machine.specs.State.{ResidentState};
ghost use Rattle.resident_machine.specs.machine_lines.Straight.{ones, MayWrite, Placed, IsAt};
ghost use Rattle.code_templates.specs.code_lines.Lines.{prologue, epilogue};
ghost use Rattle.statement_simulation.specs.expressions.Active.{Suits};
ghost use Rattle.statement_simulation.specs.expressions.Evaluates.{IsCode, Fails};
ghost use Rattle.statement_simulation.specs.flow.Sites.{World, Site, Live, Fits, Represents};
ghost use Rattle.call_simulation.specs.frames.Callee.{Back, saved_at, callee, IsPairedAt, Entered};
ghost use Rattle.call_simulation.specs.frames.Chain.{IsChained};
ghost use Rattle.call_simulation.specs.frames.Moves.{Started, Returned};

/// From a routine's first line, entered with arguments and a return address on the stack, its lines lead to its body, where the
/// machine stands for the activation: arguments at the top, locals unset, the caller's BP and the return address out of reach.
/// Where the frame would leave fewer than 512 bytes of the stack, and the routine is one of the sources, they lead to the error
/// routine with 202 in AX instead. The routine's code fits the activation that begins.
pub fn entry_law()
    ensures begins { (w : World) (caller : Site) (site : Site) → Placed w.machine site.segment site.code site.at → (live : Live) → Fits w caller live → (name : Name) (unit : UnitCode) (r : Routine) (back : Back) (vs : List ℕ) (s : State) (r0 : ResidentState) (t : ResidentState) → Represents w live s r0 → Entered live r.far back site.segment vs r0 t → 2 * length vs ≡ r.arguments → activation_bytes r ≤ live.frame.sp → (k : ℕ) → 66 ≤ t.registers.sp → (0 < r.frame → 512 + activation_bytes r ≤ live.frame.sp) → (w.program.overlaid name ≡ true → s.flag ≡ true) → IsAt site.segment (site.at k) t → Stands (IsSpelledAt site.code) site.at site.labels k (ones (prologue site.context r)) → Started w site (callee w name unit r live back) (length (prologue site.context r)) (site.at (k + length (prologue site.context r))) (with_cells s (opened w.choice r live.frame vs s.cells)) t }
    ensures refuses { (w : World) (caller : Site) (site : Site) → Placed w.machine site.segment site.code site.at → (live : Live) → Fits w caller live → (name : Name) (unit : UnitCode) (r : Routine) (back : Back) (vs : List ℕ) (s : State) (r0 : ResidentState) (t : ResidentState) → Represents w live s r0 → Entered live r.far back site.segment vs r0 t → 2 * length vs ≡ r.arguments → r.arguments + link_bytes r.far ≤ live.frame.sp → (k : ℕ) → IsCode w.machine site.context.addresses.error_routine → 66 ≤ t.registers.sp → 0 < r.frame → live.frame.sp < 512 + activation_bytes r → IsAt site.segment (site.at k) t → Stands (IsSpelledAt site.code) site.at site.labels k (ones (prologue site.context r)) → Fails w.machine w.framed site.context.addresses.error_routine 7 t 202 }
    ensures fits { (w : World) (caller : Site) (site : Site) → Placed w.machine site.segment site.code site.at → (live : Live) → Fits w caller live → (name : Name) (unit : UnitCode) (r : Routine) (back : Back) (vs : List ℕ) (s : State) (r0 : ResidentState) (t : ResidentState) → Represents w live s r0 → Entered live r.far back site.segment vs r0 t → 2 * length vs ≡ r.arguments → activation_bytes r ≤ live.frame.sp → IsCode w.machine site.context.addresses.error_routine → Suits site.context w.choice (callee w name unit r live back).frame → Fits w site (callee w name unit r live back) }
{}

/// From behind a routine's body its last lines lead back to the caller: the machine stands for the caller with the activation's
/// cells shut, the arguments are gone from the stack, and the bytes of the result lie in AL, AX or DX:AX. The return into an
/// overlay is framed, where that is asked for and the frames are chained.
pub fn exit_law()
    ensures { (w : World) (caller : Site) (site : Site) (live : Live) → Fits w caller live → (name : Name) (unit : UnitCode) (r : Routine) (back : Back) (s : State) (r0 : ResidentState) → Represents w live s r0 → activation_bytes r ≤ live.frame.sp → 64 + activation_bytes r ≤ live.frame.sp → Fits w site (callee w name unit r live back) → (IsTrue w.framed → IsChained w live) → (k : ℕ) (u : State) (t : ResidentState) (bytes : List ℕ) → (r.far ≡ false → back.segment ≡ site.segment) → HasResultSize r.result → result_bytes w.choice (callee w name unit r live back).frame u.cells r.result ≡ Ok bytes → Represents w (callee w name unit r live back) u t → (s.flag ≡ true → u.flag ≡ true) → ((place : ℕ) → (IsPairedAt r.far (16 * w.choice.stack_segment + saved_at r live.frame + 2) place → ⊥) → MayWrite r0.cells w.machine.installed place → IsTrue (is_free (t.cells place))) → IsAt site.segment (site.at k) t → Stands (IsSpelledAt site.code) site.at site.labels k (ones (epilogue site.context r)) → Returned w live r back (length (epilogue site.context r)) u t bytes }
{}

/// An activation makes the chain of frames longer: its saved BP is the first link, and above that of a far routine stands the
/// record of its call. The link can be marked, since arguments and locals take an even number of bytes.
pub fn chain_law()
    ensures { (w : World) (caller : Site) (live : Live) → Fits w caller live → (name : Name) (unit : UnitCode) (r : Routine) (back : Back) → 64 + activation_bytes r ≤ live.frame.sp → live.frame.sp < 65536 → 16 * w.choice.stack_segment + live.frame.sp ≤ 1048576 → r.arguments % 2 ≡ 0 → r.locals % 2 ≡ 0 → IsChained w live → IsChained w (callee w name unit r live back) }
{}
