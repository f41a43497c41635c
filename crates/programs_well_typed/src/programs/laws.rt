//! The law on programs that sources give.

ghost use Rattle.programs_well_typed.specs.programs.Laws.{WellTypedLaw};

use crate::suppositions::{
    consistent_program_laws, lawful_method_laws, satisfied_supposition_laws,
};
use crate::units::sound_unit_laws;
use shared_types_agree::method_numbers::numbered_method_laws;
use shared_types_agree::unit_references::unit_reference_laws;

/// Every program that sources give is well-typed, if 32 bits hold its numbers. It does nothing.
pub fn well_typed_program_laws()
    ensures { WellTypedLaw }
{
    consistent_program_laws();
    lawful_method_laws();
    numbered_method_laws();
    sound_unit_laws();
    satisfied_supposition_laws();
    unit_reference_laws();
}
