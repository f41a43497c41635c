//! The laws, the contract of a function that does nothing.

ghost use Rattle.rules_well_formed.specs.allocations.Laws.{FindLaws, GiveLaws};

/// Where the table of types is sound and its methods are routines of the scope: a routine as a value is typed; New and Dispose find
/// constructors and destructors of the class or of an ancestor; and their nodes are well formed.
pub fn allocation_node_laws()
    ensures find { FindLaws }
    ensures give { GiveLaws }
{}
