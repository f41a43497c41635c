//! The law of calls through stubs, the contract of a function that does nothing.

ghost use Rattle.std.specs.Prelude.{◌≡◌, ◌≤◌, ℕ, true, IsTrue, length, Option, Some, slice_get, ◌%◌};
ghost use Rattle.flat_code.specs.declared.memory.Place.{Place};
ghost use Rattle.flat_code.specs.Program.{Key, Routine, UnitCode};
ghost use Rattle.resident_machine.specs.Program.{Overlay};
ghost use Rattle.code_templates.specs.code_lines.Lines.{call_far, framed_lines};
ghost use Rattle.statement_simulation.specs.expressions.Evaluates.{IsCode};
ghost use Rattle.statement_simulation.specs.flow.Sites.{World, Site, Live, Fits};
ghost use Rattle.statement_simulation.specs.flow.Outcomes.{EndsErrors};
ghost use Rattle.call_simulation.specs.frames.Chain.{IsChained};
ghost use Rattle.call_simulation.specs.calls.Enters.{EntersAt};
ghost use Rattle.call_simulation.specs.steps.Made.{Made, HasStack, BodyFlows};
ghost use Rattle.call_simulation.specs.steps.Callable.{Callable};

/// A routine of an overlay can be called through its stub: with the overlays installed the call reaches its first line, and
/// without them it comes to the error routine with 208 in AX, as flat code has it. Both are framed, where that is asked for.
pub fn stub_law()
    ensures { (w : World) (site : Site) (live : Live) → Fits w site live → (key : Key) (callee : Site) (unit : UnitCode) (r : Routine) (pointer bound most : ℕ) → Some unit ≡ w.program.unit key.unit → Some r ≡ slice_get unit.routines key.number → Made w callee key.unit unit r pointer → EndsErrors w live callee.context.addresses.error_routine → (IsTrue w.framed → r.locals % 2 ≡ 0) → HasStack w live.frame r → length (framed_lines callee.context pointer r) ≤ most → ((k : ℕ) → BodyFlows w callee key.unit unit r pointer live (record { segment = site.segment; offset = site.at k }) bound) → (place : Place) (number : ℕ) → r.far ≡ true → callee.segment ≡ Overlay number → EntersAt w.machine place (Overlay number) (callee.at 0) → w.program.overlaid key.unit ≡ true → (IsTrue w.framed → IsChained w live) → IsCode w.machine (record { segment = w.machine.error_routine.segment; offset = w.machine.error_routine.offset }) → EndsErrors w live (record { segment = w.machine.error_routine.segment; offset = w.machine.error_routine.offset }) → Callable w site live key (call_far place) bound most }
{}
