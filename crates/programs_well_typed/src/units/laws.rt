//! The laws on first values and routines of checked units.

ghost use Rattle.programs_well_typed.specs.units.Laws.{UnitLaw, ProgramLaw};

/// What the typed unit of a source begins its globals with has no object in it, its methods are declared in no other routine, and
/// instances that its constructors and destructors are called for have a class; so it is of all units of a program, of which none is named
/// OVERLAY. It does nothing.
pub fn sound_unit_laws()
    ensures unit { UnitLaw }
    ensures program { ProgramLaw }
{}
