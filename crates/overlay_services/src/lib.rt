//! Services that bring overlays in and send them out: a program whose overlays move stays beside the resident machine.
#![tactic(auto)]

ghost use Rattle.std.specs.Prelude.{ℕ, Bool, true, false, List};
ghost use Rattle.overlay_manager.specs.overlay_run.Managed.{Managed};
ghost use Rattle.overlay_ring.specs.Table.{Table};
ghost use Rattle.resident_machine.specs.Framed.{IsFramed, FramedAfter};
ghost use Rattle.resident_machine.specs.Program.{Program};
ghost use Rattle.resident_machine.specs.Run.{Goes};
ghost use Rattle.resident_machine.specs.State.{ResidentState, Service, NoService, AtCall, AtReturn, AtClear};
ghost use Rattle.resident_machine.specs.Whole.{IsWhole};
ghost use Rattle.overlay_simulation.specs.Matching.{Matches};
ghost use Rattle.overlay_services.specs.Seated.{IsSeated, ComesTo, FitAlone, ComesBySome};
ghost use Rattle.tabled_runs.specs.Tables.{On};

/// Where a process matches a state, and the state takes a framed step, the program comes to a table that is not legal, or where its
/// process matches the state afterwards: within three events at a call through a stub, within two at a far return into an
/// overlay, and by one at a clear of the buffer and at any other step. Whatever the next tables are, each legal one serves.
pub fn step_law()
    ensures plain { (p : Program) (kept : ℕ → Bool) (bytes : List ℕ) (r t : ResidentState) (q : Managed) → IsSeated p kept bytes q.manager → IsWhole p kept r → Matches p r q → (tables : List Table) → Goes p r t NoService → ComesTo p kept bytes t (On q tables) 1 }
    ensures call { (p : Program) (kept : ℕ → Bool) (bytes : List ℕ) (r t : ResidentState) (q : Managed) → IsSeated p kept bytes q.manager → IsWhole p kept r → Matches p r q → (tables : List Table) → Goes p r t AtCall → IsFramed p true t → ComesTo p kept bytes t (On q tables) 3 }
    ensures back { (p : Program) (kept : ℕ → Bool) (bytes : List ℕ) (r t : ResidentState) (q : Managed) → IsSeated p kept bytes q.manager → IsWhole p kept r → Matches p r q → (tables : List Table) → Goes p r t AtReturn → IsFramed p false t → ComesTo p kept bytes t (On q tables) 2 }
    ensures clear { (p : Program) (kept : ℕ → Bool) (bytes : List ℕ) (r t : ResidentState) (q : Managed) → IsSeated p kept bytes q.manager → IsWhole p kept r → Matches p r q → (tables : List Table) → Goes p r t AtClear → IsFramed p true t → ComesTo p kept bytes t (On q tables) 1 }
    ensures each { (p : Program) (kept : ℕ → Bool) (bytes : List ℕ) (r t : ResidentState) (q : Managed) → IsSeated p kept bytes q.manager → IsWhole p kept r → Matches p r q → (tables : List Table) → (service : Service) → Goes p r t service → FramedAfter p service t → ComesTo p kept bytes t (On q tables) 3 }
{}

/// For each such step there are tables by which the program comes to where it matches, whatever tables follow them: where a service is asked for, the
/// overlay that is wanted may stand alone in the buffer. So what the law above says is not said of illegal tables alone.
pub fn turn_law()
    ensures { (p : Program) (kept : ℕ → Bool) (bytes : List ℕ) (r t : ResidentState) (q : Managed) → IsSeated p kept bytes q.manager → IsWhole p kept r → Matches p r q → FitAlone p q.manager → (service : Service) → Goes p r t service → FramedAfter p service t → ComesBySome p kept bytes t q 3 }
{}
