//! The law on parts of type declarations.

ghost use Rattle.declaration_checker.specs.type_parts.Laws.{AreExact};

/// A part of type declarations is typed exactly where no rule fails in it, and then it leaves one scope alone.
pub fn type_part_laws()
    ensures { AreExact }
{}
