//! The law on conversions and calls.

ghost use Rattle.call_rules.specs.Laws.{AreLawful};

/// The judgement of a conversion or a call answers the one node that holds, and then no rule fails; or a fault that is there, and
/// then no node holds.
pub fn call_laws()
    ensures { AreLawful }
{}
