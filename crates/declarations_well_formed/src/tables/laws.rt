//! The laws, the contracts of functions that do nothing.

ghost use Rattle.declarations_well_formed.specs.tables.Laws.{FrontLaw, SoundLaw};

/// Where each type that a scope names is one of its table, the table is one that the rules of expressions and statements may rely on.
pub fn sound_table_law()
    ensures { SoundLaw }
{}

/// What a table keeps within bounds, the types that it had before keep.
pub fn fit_front_law()
    ensures { FrontLaw }
{}
