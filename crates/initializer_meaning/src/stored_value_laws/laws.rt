//! The law.

ghost use Rattle.initializer_meaning.specs.stored_value_laws.Laws.{AreReadBack};

/// Each ordinal, string and set that is written as bytes is read back from them by the meaning; it does nothing.
pub fn stored_value_laws()
    ensures { AreReadBack }
{}
