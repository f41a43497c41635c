//! The laws, the contract of a function that does nothing.

ghost use Rattle.address_independence.specs.spelling.Laws.{AreTypedAlike, AreShownAlike};

/// What the grammar makes of a source decides what unit it is, what it shows and which faults are in it; it does nothing.
pub fn spelled_trees_laws()
    ensures typed { AreTypedAlike }
    ensures shown { AreShownAlike }
{}
