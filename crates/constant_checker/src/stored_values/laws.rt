//! The law of sizes.

ghost use Rattle.constant_checker.specs.stored_values.Laws.{AreWhole};

/// The bytes of ordinals, strings and sets are as many as their types take; it does nothing.
pub fn stored_laws()
    ensures { AreWhole }
{}
