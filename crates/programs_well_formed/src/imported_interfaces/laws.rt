//! The laws on what used units bring into a scope.

ghost use Rattle.programs_well_formed.specs.imported_interfaces.Laws.{InterfaceLaw, FurtherLaw, OwnLaw};

use units_well_formed::declarations_well_formed::constants::constant_value_law;
use units_well_formed::imported_types_agree::well_scoped::scope_laws;

/// A used unit whose types fit those of a scope, and which tells of them what the scope knows, brings into the scope what is there.
pub fn interface_law()
    ensures { InterfaceLaw }
{
    scope_laws();
}

/// So it keeps what is known where it comes into the scope behind an interface part.
pub fn further_use_law()
    ensures { FurtherLaw }
{
    scope_laws();
    constant_value_law();
}

/// So does the unit's own interface, where the unit uses itself there: it brings nothing new.
pub fn own_use_law()
    ensures { OwnLaw }
{
    constant_value_law();
}
