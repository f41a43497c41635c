//! The law on New and Dispose.

ghost use Rattle.call_rules.specs.allocation_rules.Laws.{AreLawful};

/// The judgements of New with a constructor and of Dispose with a destructor answer the one node that holds, and then no rule
/// fails; or a fault that is there, and then no node holds.
pub fn allocation_laws()
    ensures { AreLawful }
{}
