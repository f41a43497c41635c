//! The laws, the contract of a function that does nothing.

ghost use Rattle.units_well_formed.specs.units.Laws.{SourceLaw, BareLaw, UsedLaw};

/// A typed source is a well-formed unit, over each scope whose names are there; and where no unit is used but OVERLAY, they are there. What a used unit brings keeps what is known.
pub fn checked_unit_laws()
    ensures sources { SourceLaw }
    ensures bare { BareLaw }
    ensures used { UsedLaw }
{
    declarations_well_formed::well_formed::weakening::weakening_laws();
    declarations_well_formed::constants::constant_value_law();
    crate::parts::part_keeping_law();
}
