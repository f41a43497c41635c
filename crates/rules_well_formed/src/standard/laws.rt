//! The laws, the contract of a function that does nothing.

ghost use Rattle.rules_well_formed.specs.standard.Laws.{StandardLaws};

/// Where the table of types is sound and the arguments are typed, or nil, the node of a standard function's call is typed, and so are
/// those of SizeOf.
pub fn standard_node_laws()
    ensures { StandardLaws }
{}
