//! The law, the contract of a function that does nothing.

ghost use Rattle.units_well_formed.specs.parts.Laws.{PartLaw};

/// Constants, types and variables leave a unit well formed, as far as it was read.
pub fn part_keeping_law()
    ensures { PartLaw }
{
    declarations_well_formed::values::declared_value_law();
}
