//! The law on parts of declarations.

ghost use Rattle.declaration_checker.specs.declarations.Laws.{AreExact};

/// A part of declarations is typed exactly where no rule fails in it, and then it leaves one scope alone, and the same variables.
pub fn declaration_laws()
    ensures { AreExact }
{}
