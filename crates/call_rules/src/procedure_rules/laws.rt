//! The law on calls of standard procedures.

ghost use Rattle.call_rules.specs.procedure_rules.Laws.{AreLawful};

/// The judgements of standard procedures' calls answer the one node that holds, and then no rule fails; or a fault that is there,
/// and then no node holds.
pub fn procedure_laws()
    ensures { AreLawful }
{}
