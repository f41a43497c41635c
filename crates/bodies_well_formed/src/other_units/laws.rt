//! The law, the contract of a function that does nothing.

ghost use Rattle.bodies_well_formed.specs.other_units.Laws.{NameLaw};

/// Where all that is known is there among trees, it is so with a name, a routine's block or declarations more and with a block less, and
/// statements of the innermost block may rely on it.
pub fn known_name_laws()
    ensures { NameLaw }
{}
