//! Runs of programs whose overlays move, beside those of the resident machine: the laws that tie the one to the other.
#![tactic(auto)]

ghost use Rattle.std.specs.Prelude.{◌≡◌, ℕ, Bool, true, false, List, [], Ok};
ghost use Rattle.std.specs.List.{AllByRecursion};
ghost use Rattle.cpu_8086.specs.Process.{Process};
ghost use Rattle.cpu_8086.specs.State.{State};
ghost use Rattle.overlay_manager.specs.Kept.{IsFound, AreReturns};
ghost use Rattle.overlay_manager.specs.Manager.{Manager, table_by};
ghost use Rattle.overlay_manager.specs.Orderly as orderly;
ghost use Rattle.overlay_manager.specs.Orderly.{IsOrderlyFor};
ghost use Rattle.overlay_manager.specs.Serves.{table_before};
ghost use Rattle.overlay_manager.specs.overlay_run.Managed.{Managed, ManagedGoes};
ghost use Rattle.overlay_ring.specs.declared.seat.Seat.{Seat};
ghost use Rattle.overlay_ring.specs.Seats.{table_of};
ghost use Rattle.overlay_ring.specs.Table.{IsTable};
ghost use Rattle.resident_machine.specs.Program.{Image, Overlay, Program};
ghost use Rattle.resident_machine.specs.Framed.{IsFramed, places_of};
ghost use Rattle.resident_machine.specs.Run.{Goes};
ghost use Rattle.resident_machine.specs.Standing.{number_of, StandsFor};
ghost use Rattle.resident_machine.specs.State.{Record, ResidentState, NoService, AtCall, AtReturn};
ghost use Rattle.resident_machine.specs.Whole.{IsNamed, IsOutside, IsReturn, IsWhole};
ghost use Rattle.return_repair.specs.declared.table.Loaded.{Loaded};
ghost use Rattle.return_repair.specs.Chain.{chain_of};
ghost use Rattle.return_repair.specs.Follows.{none_met, overlay_at};
ghost use Rattle.return_repair.specs.Pairs.{is_out};
ghost use Rattle.overlay_simulation.specs.Laid.{StandsBy, named_pairs};
ghost use Rattle.overlay_simulation.specs.Layout.{IsReady, LieApart};
ghost use Rattle.overlay_simulation.specs.Managing.{Manages};
ghost use Rattle.overlay_simulation.specs.Matching.{Matches, TellsApart};
ghost use Rattle.overlay_simulation.specs.Plain.{GoesAlone};
ghost use Rattle.overlay_simulation.specs.Segments.{HasSegments};
ghost use Rattle.overlay_simulation.specs.Shown.{IsIn, items_of};
ghost use Rattle.overlay_simulation.specs.Trapping.{AtBegin, AtEntry};

/// Where code and return pairs stand as they are named, a process stands for the same states as without overlays. Where there
/// are no overlays, it matches the states that it stands for, and no others.
pub fn standing_law()
    ensures named { (p : Program) (r : ResidentState) (q : Process) → StandsFor p r q → StandsBy number_of named_pairs p r q }
    ensures same { (p : Program) (r : ResidentState) (q : Process) → StandsBy number_of named_pairs p r q → StandsFor p r q }
    ensures stands { (p : Program) (r : ResidentState) (q : Managed) → p.overlays ≡ [] → q.manager.stubs ≡ [] → IsOutside r → Matches p r q → StandsFor p r q.process }
    ensures matches { (p : Program) (r : ResidentState) (q : Managed) → p.overlays ≡ [] → q.manager.stubs ≡ [] → IsOutside r → q.manager.ring.seats ≡ [] → StandsFor p r q.process → Matches p r q }
{}

/// A step of the resident machine that no service may follow is one event of a process that matches, which matches afterwards,
/// with the same overlays at the same places. It may fetch from an overlay, and push return pairs that lead into one.
pub fn plain_event_law()
    ensures event { (p : Program) (r : ResidentState) (t : ResidentState) (q : Managed) → TellsApart p (table_before q.manager) → Matches p r q → Goes p r t NoService → (u : Process) × GoesAlone q.process u × Matches p t (record q { process = u }) }
    ensures managed { (bytes : List ℕ) (q : Managed) (u : Process) → GoesAlone q.process u → ManagedGoes bytes q (record q { process = u }) }
{}

/// So is a far return into an overlay that is loaded, where the state afterwards is framed.
pub fn loaded_return_law()
    ensures { (p : Program) (r : ResidentState) (t : ResidentState) (q : Managed) → TellsApart p (table_before q.manager) → Matches p r q → Goes p r t AtReturn → IsFramed p false t → IsIn (table_before q.manager) t.cs → (u : Process) × GoesAlone q.process u × Matches p t (record q { process = u }) }
{}

/// A call through the stub of an overlay that is loaded is two such events: the call, and the jump of the stub's entry.
pub fn loaded_call_law()
    ensures { (p : Program) (r : ResidentState) (t : ResidentState) (q : Managed) (v : ℕ) → TellsApart p (table_before q.manager) → Matches p r q → Goes p r t AtCall → IsFramed p true t → t.cs ≡ Overlay v → is_out (overlay_at (table_before q.manager) v) ≡ false → (u : Process) × (w : Process) × GoesAlone q.process u × GoesAlone u w × Matches p t (record q { process = w }) }
{}

/// A call through a stub while the installed flag is 0 is two events: the call, and the trap of the stub's entry, which comes to the error
/// routine with AX = 208. It is not refused but there.
pub fn refused_call_law()
    ensures { (bytes : List ℕ) (p : Program) (r : ResidentState) (t : ResidentState) (q : Managed) (number : ℕ) → Manages p q.manager → TellsApart p (table_before q.manager) → Matches p r q → Goes p r t AtCall → IsFramed p true t → t.cs ≡ Image number → (u : Process) × (w : Managed) × GoesAlone q.process u × ManagedGoes bytes (record q { process = u }) w × Matches p t w }
{}

/// A process that matches a whole state is ready for a service. Where the state is framed, a service finds its links, and at their
/// places its return pairs; and live pairs, links, stubs and the buffer share no byte, as the service asks.
pub fn framed_law()
    ensures ready { (p : Program) (kept : ℕ → Bool) (t : ResidentState) (q : Managed) → Manages p q.manager → TellsApart p (table_before q.manager) → LieApart p q.manager kept → IsWhole p kept t → Matches p t q → IsReady p q.manager none_met kept t q.process.machine }
    ensures chain { (p : Program) (m : Manager) (met : ℕ → Bool) (kept : ℕ → Bool) (t : ResidentState) (s : State) (pending : Bool) → IsReady p m met kept t s → (f : IsFramed p pending t) → chain_of m.marked s ≡ Ok f.links }
    ensures places { (p : Program) (m : Manager) (met : ℕ → Bool) (kept : ℕ → Bool) (t : ResidentState) (s : State) (pending : Bool) → IsReady p m met kept t s → IsFramed p pending t → orderly.places_of m.marked s pending ≡ places_of t.records }
    ensures order { (p : Program) (m : Manager) (met : ℕ → Bool) (kept : ℕ → Bool) (t : ResidentState) (s : State) (pending : Bool) → IsReady p m met kept t s → IsFramed p pending t → IsOrderlyFor m s pending }
{}

/// By a table that tells apart what stands in memory each overlay is found again from the segment of its returns; and what records
/// denote is what a service asks of live returns.
pub fn found_law()
    ensures found { (p : Program) (table : List Loaded) → TellsApart p table → IsFound table }
    ensures denoted { (p : Program) (table : List Loaded) (records : List Record) → TellsApart p table → AllByRecursion (IsReturn p) records → AreReturns table (items_of records) }
{}

/// Seats that lie inside the buffer without overlap make a table that tells apart what stands in memory.
pub fn legal_law()
    ensures { (p : Program) (m : Manager) (seats : List Seat) → Manages p m → HasSegments p m → IsTable m.ring.sizes m.ring.room (table_of seats) → TellsApart p (table_by m seats) }
{}

/// A call through a stub is one event up to the stub's entry, whether the overlay is loaded or not, and a far return into an overlay that is out is
/// one up to the begin of its stub, which saves the offset where the return goes on.
pub fn stub_law()
    ensures call { (p : Program) (r : ResidentState) (t : ResidentState) (q : Managed) → TellsApart p (table_before q.manager) → Matches p r q → Goes p r t AtCall → IsFramed p true t → (u : Process) × GoesAlone q.process u × AtEntry p t q u }
    ensures back { (p : Program) (r : ResidentState) (t : ResidentState) (q : Managed) (v : ℕ) → TellsApart p (table_before q.manager) → Matches p r q → Goes p r t AtReturn → IsFramed p false t → t.cs ≡ Overlay v → is_out (overlay_at (table_before q.manager) v) ≡ true → IsNamed p (Overlay v) → (u : Process) × GoesAlone q.process u × AtBegin p t q u }
{}
