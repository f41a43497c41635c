//! The law on calls of standard functions.

ghost use Rattle.call_rules.specs.standard_rules.Laws.{AreLawful};

/// The judgements of a standard function's call, and of SizeOf, answer the one node that holds, and then no rule fails; or a
/// fault that is there, and then no node holds.
pub fn standard_laws()
    ensures { AreLawful }
{}
