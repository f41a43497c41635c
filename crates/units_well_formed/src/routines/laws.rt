//! The law, the contract of a function that does nothing.

ghost use Rattle.units_well_formed.specs.routines.Laws.{RoutineLaw};

/// Where what parts of declarations add is well formed, so is each routine that a block declares, with what is declared inside it.
pub fn checked_routine_law()
    ensures { RoutineLaw }
{}
