//! The law on headers.

ghost use Rattle.declaration_checker.specs.headers.Laws.{AreLawful};

/// The judgement of a type's name or of a header answers the one type or header that holds, and then no rule fails; or a fault
/// that is there, and then none holds.
pub fn header_laws()
    ensures { AreLawful }
{}
