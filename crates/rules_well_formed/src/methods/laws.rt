//! The laws, the contract of a function that does nothing.

ghost use Rattle.rules_well_formed.specs.methods.Laws.{BoundLaws, MethodLaws};

/// Where the table of types is sound and its methods are routines of the scope: a method that is found on an object is declared by a
/// class of its line, and the node of its call is typed, as is that of a call through a variable.
pub fn method_node_laws()
    ensures bound { BoundLaws }
    ensures calls { MethodLaws }
{}
