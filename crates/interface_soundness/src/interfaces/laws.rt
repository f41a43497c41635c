//! The laws on what units show.

ghost use Rattle.interface_soundness.specs.interfaces.Agreement.{Agree, KeepNames};
ghost use Rattle.interface_soundness.specs.interfaces.Declared.{Declare};

/// Where a source has a typed unit, what it shows is what its interface part alone shows, as long as the types behind that name
/// types of their table alone. The names of the unit are those of the scope, with those that its further used units bring along.
/// An interface part does nothing to the table of types but adding types of its own unit, which are numbered in their order.
pub fn agreement_laws()
    ensures agree { Agree }
    ensures names { KeepNames }
    ensures declare { Declare }
{}
