//! Programs of one unit.

ghost use Rattle.store_typing.specs.units.Laws.{SingleUnitsAgree};

/// A program of one unit agrees with itself, where its table is lawful and no two of its types were declared at one place: so what
/// holds of programs whose units agree holds of it. It does nothing.
pub fn single_unit_laws()
    ensures { SingleUnitsAgree }
{}
