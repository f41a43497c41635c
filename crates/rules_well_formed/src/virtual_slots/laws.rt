//! The law, the contract of a function that does nothing.

ghost use Rattle.rules_well_formed.specs.virtual_slots.Laws.{SlotLaw};

/// A virtual method that a class has by its name has a slot there, by which it is called.
pub fn virtual_slot_law()
    ensures { SlotLaw }
{}
