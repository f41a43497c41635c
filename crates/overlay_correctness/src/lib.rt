//! Programs whose overlays move do what the resident machine does.
#![tactic(auto)]

ghost use Rattle.std.specs.Prelude.{ℕ, ◌*◌, Bool, List, Option, Some};
ghost use Rattle.cpu_8086.specs.State.{State};
ghost use Rattle.dos_runner.specs.opened_program.Opening.{IsOpened};
ghost use Rattle.mz_file.specs.Format.{exe_of};
ghost use Rattle.overlay_manager.specs.Manager.{Manager};
ghost use Rattle.overlay_manager.specs.overlay_run.Managed.{Managed};
ghost use Rattle.overlay_ring.specs.Table.{Table};
ghost use Rattle.resident_machine.specs.Program.{Program};
ghost use Rattle.resident_machine.specs.Run.{RunsFramed};
ghost use Rattle.resident_machine.specs.State.{ResidentState};
ghost use Rattle.resident_machine.specs.Whole.{IsWhole};
ghost use Rattle.overlay_simulation.specs.Matching.{Matches};
ghost use Rattle.overlay_services.specs.Seated.{IsSeated, FitAlone, ComesBySome};
ghost use Rattle.overlay_correctness.specs.Beside.{RunsBeside, ShowsSame};
ghost use Rattle.overlay_correctness.specs.Held.{IsHeldBy, start_of, begun};
ghost use Rattle.tabled_runs.specs.Tables.{On};

/// A program whose process matches a state follows each framed run from there, wherever tables put its overlays: within three events
/// for each step, and by no fewer events than steps, its process matches the state to which the run leads, or a table was not legal.
/// Where each overlay fits the buffer by itself there are tables by which it is the former. What matches shows the same: what was read and
/// written, and how it ended.
pub fn follow_law()
    ensures follows { (p : Program) (kept : ℕ → Bool) (bytes : List ℕ) (n : ℕ) (r t : ResidentState) (q : Managed) (tables : List Table) → IsSeated p kept bytes q.manager → IsWhole p kept r → Matches p r q → RunsFramed p n r t → RunsBeside p kept bytes n t (On q tables) }
    ensures some { (p : Program) (kept : ℕ → Bool) (bytes : List ℕ) (n : ℕ) (r t : ResidentState) (q : Managed) → IsSeated p kept bytes q.manager → IsWhole p kept r → Matches p r q → FitAlone p q.manager → RunsFramed p n r t → ComesBySome p kept bytes t q (3 * n) }
    ensures shows { (p : Program) (t : ResidentState) (q : Managed) → Matches p t q → ShowsSame t q.process }
{}

/// The overlay law. Files that hold a program of the resident machine, opened with any buffer for which they fit, begin where the
/// resident machine begins, on each input; and each framed run of so many steps from there is one of the files, wherever a list of
/// tables puts the overlays: within three events for each step, and by no fewer, it matches the run's end, or came to a table that
/// is not legal.
pub fn overlay_law()
    ensures begins { (p : Program) (kept : ℕ → Bool) (exe name ovr : List ℕ) (buffer : Option ℕ) (state : State) (manager : Manager) → (opened : IsOpened exe name (Some ovr) buffer state manager) → IsHeldBy p kept (exe_of exe) opened.overlays ovr → (input : List ℕ) → Matches p (start_of kept (exe_of exe) input) (begun state manager input) }
    ensures runs { (p : Program) (kept : ℕ → Bool) (exe name ovr : List ℕ) (buffer : Option ℕ) (state : State) (manager : Manager) → (opened : IsOpened exe name (Some ovr) buffer state manager) → IsHeldBy p kept (exe_of exe) opened.overlays ovr → (input : List ℕ) (n : ℕ) (r : ResidentState) → RunsFramed p n (start_of kept (exe_of exe) input) r → (tables : List Table) → RunsBeside p kept ovr n r (On (begun state manager input) tables) }
{}
