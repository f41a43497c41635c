//! The law on what units suppose of one another.

ghost use Rattle.programs_well_typed.specs.suppositions.Laws.{SupportedLaw};

use programs_well_formed::programs::formed_program_laws;
use shared_types_agree::methods::{consistent_program_laws, lawful_method_laws, program_laws};

/// Each unit of a program that sources give is well formed by what the units that it uses have in the program. It does nothing.
pub fn satisfied_supposition_laws()
    ensures { SupportedLaw }
{
    program_laws();
    consistent_program_laws();
    lawful_method_laws();
    formed_program_laws();
}
