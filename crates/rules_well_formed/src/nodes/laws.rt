//! The laws, the contract of a function that does nothing.

ghost use Rattle.rules_well_formed.specs.nodes.Laws.{NodeLaws};

/// Where the table of types is sound and the operands are typed, or nil: the node that an operator, a sign, `not`, a field, an
/// index or a `^` gives is typed; what is assigned is typed and joins its target; and a literal number is typed, as is a
/// constant number by itself.
pub fn node_laws()
    ensures { NodeLaws }
{}
