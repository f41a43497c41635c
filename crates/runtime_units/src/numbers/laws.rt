//! What numbers and names say of one another.

ghost use Rattle.runtime_units.specs.declared.numbers.numbers.RuntimeRoutine.{RuntimeRoutine};
ghost use Rattle.runtime_units.specs.declared.numbers.numbers.RuntimeGlobal.{RuntimeGlobal};
ghost use Rattle.runtime_units.specs.numbers.Named.{IsInUnit, IsInOverlay};

/// A routine's number leads to the unit that holds it, and the data that others name are in the unit of overlays and the heap. It does nothing.
pub fn number_laws()
    ensures routines { (r : RuntimeRoutine) → IsInUnit r }
    ensures globals { (g : RuntimeGlobal) → IsInOverlay g }
{}
