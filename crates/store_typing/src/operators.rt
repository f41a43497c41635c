//! Operators of typed programs.

ghost use Rattle.store_typing.specs.stores.Worlds.{World};
ghost use Rattle.store_typing.specs.operators.Laws.{OperatorLaws};

/// On values of the types that an operator takes it gives a value of its type, a runtime error or an undefined act, and so do
/// conversions, range tests and elements of sets: none of these steps is ill-typed. It does nothing.
pub fn sound_operator_laws()
    ensures { (w : World) → OperatorLaws w }
{}
