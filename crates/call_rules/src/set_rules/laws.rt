//! The law on set constructors.

ghost use Rattle.call_rules.specs.set_rules.Laws.{IsLawful};

/// The judgement of a set constructor answers the one node that holds, and then no rule fails; or a fault that is there, and then
/// no node holds.
pub fn set_laws()
    ensures { IsLawful }
{}
