//! What live returns denote, whatever services come.

ghost use Rattle.std.specs.Prelude.{◌≡◌, ℕ, List};
ghost use Rattle.return_repair.specs.declared.table.Loaded.{Loaded};
ghost use Rattle.return_repair.specs.Follows.{Follow, denotations};
ghost use Rattle.return_repair.specs.Pairs.{HaveSameStubs};
ghost use Rattle.overlay_manager.specs.Kept.{IsFound, AreReturns, DenoteSame, TwoServices};

/// Where live pairs follow from one table to another, each denotes the overlay and the offset that it denoted. So where an
/// overlay goes out by one service and comes back by another, wherever it is put, each live return into it goes on where
/// it would have, as long as nothing in between wrote to the pairs or to the saved offsets.
pub fn return_law()
    ensures once { (memory after : List ℕ) (ss : ℕ) (places : List ℕ) (old new : List Loaded) (changed : ℕ) →
        HaveSameStubs old new → IsFound new → AreReturns new (denotations memory ss old places) →
        Follow memory after ss places old new changed → DenoteSame memory after ss places old new }
    ensures twice { (memory between later after : List ℕ) (ss : ℕ) (places : List ℕ) (first second third : List Loaded) →
        HaveSameStubs first second → HaveSameStubs second third → IsFound second → IsFound third →
        AreReturns second (denotations memory ss first places) → AreReturns third (denotations memory ss first places) →
        TwoServices memory between later after ss places first second third → DenoteSame memory after ss places first third }
{}
