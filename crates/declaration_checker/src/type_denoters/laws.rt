//! The law on types.

ghost use Rattle.declaration_checker.specs.type_denoters.Laws.{AreExact};

/// A type has an id in the table exactly where no rule fails in it, and then one alone, with one scope behind it.
pub fn denoter_laws()
    ensures { AreExact }
{}
