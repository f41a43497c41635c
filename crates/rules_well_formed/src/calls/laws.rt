//! The laws, the contract of a function that does nothing.

ghost use Rattle.rules_well_formed.specs.calls.Laws.{CallLaws};

/// Where the table of types is sound, the operands are typed, or nil, and the routine is declared with the header, the node of a
/// conversion and of a call is typed, and each argument is as its parameter takes it.
pub fn call_laws()
    ensures { CallLaws }
{}
