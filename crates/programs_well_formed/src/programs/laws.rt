//! The laws on well-formed units of programs.

ghost use Rattle.programs_well_formed.specs.programs.Laws.{UnitLaw, UsingLaw, ProgramLaw, WholeLaw};

use crate::imported_interfaces::{
    checked_unit_laws, further_use_law, interface_law, own_use_law, part_keeping_law,
    shown_constant_law,
};
use interfaces_consistent::interface_soundness::tables::table_laws;
use units_well_formed::declarations_well_formed::constants::constant_value_law;

/// All units of a program are well formed. Where sources use no unit but OVERLAY, the typed unit of each is, whatever else is there; and
/// so is that of a source whose interface part uses others, where what these tell is known alike.
pub fn formed_program_laws()
    ensures unit { UnitLaw }
    ensures program { ProgramLaw }
    ensures using { UsingLaw }
    ensures whole { WholeLaw }
{
    checked_unit_laws();
    part_keeping_law();
    interface_law();
    further_use_law();
    own_use_law();
    table_laws();
    shown_constant_law();
    constant_value_law();
}
