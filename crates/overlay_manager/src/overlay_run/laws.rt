//! What holds of the run of a program whose overlays are managed.

ghost use Rattle.std.specs.Prelude.{◌≡◌, ℕ, List, length};
ghost use Rattle.cpu_8086.specs.Process.{Process};
ghost use Rattle.cpu_8086.specs.Run.{Runs};
ghost use Rattle.overlay_manager.specs.overlay_run.Managed.{Managed, ManagedRuns};

/// A program without stubs runs as its process does alone, event by event, whatever its overlay file holds.
pub fn plain_law()
    ensures only { (bytes : List ℕ) (n : ℕ) (p q : Managed) → length p.manager.stubs ≡ 0
        → ManagedRuns bytes n p q → Runs n p.process q.process }
    ensures all { (bytes : List ℕ) (n : ℕ) (p : Managed) (q : Process) → length p.manager.stubs ≡ 0
        → Runs n p.process q → (managed : Managed) × ManagedRuns bytes n p managed × (managed.process ≡ q) }
{}
