//! The law on methods.

ghost use Rattle.call_rules.specs.method_rules.Laws.{AreLawful};

/// The judgements of methods and of their calls answer the one thing that holds, and then no rule fails; or a fault that is there,
/// and then nothing holds.
pub fn method_laws()
    ensures { AreLawful }
{}
