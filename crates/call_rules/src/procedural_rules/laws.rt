//! The law on procedural values.

ghost use Rattle.call_rules.specs.procedural_rules.Laws.{AreLawful};

/// The judgements of procedural values and of calls through them answer the one thing that holds, and then no rule fails; or a
/// fault that is there, and then nothing holds.
pub fn procedural_laws()
    ensures { AreLawful }
{}
