//! Runs of programs whose overlays are put where a list of tables says.
#![tactic(auto)]

ghost use Rattle.std.specs.Prelude.{◌+◌, ℕ, List};
ghost use Rattle.overlay_manager.specs.declared.tally.Tally.{Tally};
ghost use Rattle.overlay_manager.specs.overlay_run.Managed.{Managed, ManagedRuns};
ghost use Rattle.tabled_runs.specs.Ringed.{HasRing, IsTabled, counting};
ghost use Rattle.tabled_runs.specs.Tables.{Tabled, TabledRuns};

/// Runs compose: so many events from one program to another, and then so many more, are as many together.
pub fn compose_law()
    ensures { (bytes : List ℕ) (m n : ℕ) (p q r : Tabled) → TabledRuns bytes m p q → TabledRuns bytes n q r → TabledRuns bytes (m + n) p r }
{}

/// Each run in which the ring chooses the tables, with reprieve or without, and in which all overlays may be sent out, is a run by
/// tables: these take a program through as many events, but for what is counted.
pub fn ring_law()
    ensures { (bytes : List ℕ) (n : ℕ) (p q : Managed) (retry : ℕ) (tally : Tally) (traps : ℕ) → HasRing p.manager → ManagedRuns bytes n p q → IsTabled bytes n (counting p retry tally traps) q }
{}
