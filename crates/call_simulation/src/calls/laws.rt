//! The law of the instructions of calls, the contract of a function that does nothing.

ghost use Rattle.std.specs.Prelude.{◌+◌, ◌≤◌, ℕ, Bool, true, false, IsTrue, List};
ghost use Rattle.x86_table.specs.Standing.{IsSpelledAt, Stands};
ghost use Rattle.flat_code.specs.declared.memory.Place.{Place};
ghost use Rattle.flat_code.specs.Calls.{State};
ghost use Rattle.resident_machine.specs.Program.{Segment};
ghost use Rattle.resident_machine.specs.State.{ResidentState};
ghost use Rattle.effect_simulation.specs.effects.Pushed.{Pushes};
ghost use Rattle.statement_simulation.specs.flow.Sites.{World, Site, Live, Fits, Represents};
ghost use Rattle.call_simulation.specs.frames.Chain.{IsChained};
ghost use Rattle.code_templates.specs.code_lines.Lines.{call_far, call_own};
ghost use Rattle.call_simulation.specs.calls.Enters.{EntersAt, AsksFlag, Reaches};

/// Behind the code of its arguments, a call of a routine of the same unit, near or far, and a far call of another one lead to
/// the routine's first line: arguments and return address stand on the stack, and nothing else is changed but the stack below.
/// A far call into an overlay goes through its stub, is framed where that is asked for, and needs the installed flag.
pub fn call_law()
    ensures near { (w : World) (site : Site) (live : Live) → Fits w site live → (s : State) (r : ResidentState) → Represents w live s r → (n k : ℕ) (vs : List ℕ) (b : Pushes w.machine w.framed site.segment n (site.at k) r vs) → (number : ℕ) → 2 ≤ b.registers.sp → Stands (IsSpelledAt site.code) site.at site.labels k (call_own false number) → Reaches w live false (record { segment = site.segment; offset = site.at (k + 1) }) site.segment (n + 1) (site.at (site.labels number)) vs r }
    ensures own { (w : World) (site : Site) (live : Live) → Fits w site live → (s : State) (r : ResidentState) → Represents w live s r → (n k : ℕ) (vs : List ℕ) (b : Pushes w.machine w.framed site.segment n (site.at k) r vs) → (number : ℕ) → 4 ≤ b.registers.sp → Stands (IsSpelledAt site.code) site.at site.labels k (call_own true number) → Reaches w live true (record { segment = site.segment; offset = site.at (k + 1 + 1) }) site.segment (n + 2) (site.at (site.labels number)) vs r }
    ensures far { (w : World) (site : Site) (live : Live) → Fits w site live → (s : State) (r : ResidentState) → Represents w live s r → (n k : ℕ) (vs : List ℕ) (b : Pushes w.machine w.framed site.segment n (site.at k) r vs) → (place : Place) (to : Segment) (entry : ℕ) → (IsTrue w.framed → IsChained w live) → 68 ≤ b.registers.sp → EntersAt w.machine place to entry → AsksFlag to s.flag → Stands (IsSpelledAt site.code) site.at site.labels k (call_far place) → Reaches w live true (record { segment = site.segment; offset = site.at (k + 1) }) to (n + 1) entry vs r }
{}
