//! What a bounded run shows, and what it is for one bounded run to follow another: the words in
//! which each theorem on a meaning, a translation or a machine is stated.

ghost use Rattle.std.specs.Prelude.{ℕ};
ghost use Rattle.common_values.specs.behaviour.Seen.{Seen, Follows, IsRun};
ghost use Rattle.common_values.specs.behaviour.Laws.{ShowsLaws, FollowsLaws, BackwardLaws};

/// The laws of showing and following; it does nothing.
pub fn behaviour_laws()
    ensures shows { ShowsLaws }
    ensures follows { FollowsLaws }
    ensures backward { (source target : ℕ → Seen) → Follows source target → IsRun target → BackwardLaws source target }
{}
