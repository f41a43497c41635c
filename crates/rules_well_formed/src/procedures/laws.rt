//! The laws, the contract of a function that does nothing.

ghost use Rattle.rules_well_formed.specs.procedures.Laws.{ProcedureLaws};

/// Where the table of types is sound and the arguments are typed, or nil, the node of a standard procedure's call is typed: it has
/// the number and the arguments that trees have of it.
pub fn procedure_node_laws()
    ensures { ProcedureLaws }
{}
