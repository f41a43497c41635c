//! The law on operators and selectors.

ghost use Rattle.typing_rules.specs.Laws.{AreLawful};

/// The judgement of an operator or a selector answers the one node that holds, and then no rule fails; or a fault that is there, and then no
/// node holds.
pub fn rule_laws()
    ensures { AreLawful }
{}
