//! The law, the contract of a function that does nothing.

ghost use Rattle.rules_well_formed.specs.sets.Laws.{SetLaw};

/// Where the table of types is sound and what is listed is typed, or nil, the node of a set constructor is typed: its elements are of
/// the family of its base.
pub fn set_node_law()
    ensures { SetLaw }
{}
