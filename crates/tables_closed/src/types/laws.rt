//! The laws on types that declarations name.

ghost use Rattle.tables_closed.specs.types.WellScoped.{StayWellScoped, StayOrdered};
ghost use Rattle.tables_closed.specs.types.Promises.{AreKept};

/// Over a scope whose table has every type that the scope names, types and parts of type declarations leave such a scope. And
/// what a part promises of its types is kept.
pub fn closing_laws()
    ensures closed { StayWellScoped }
    ensures ordered { StayOrdered }
    ensures promises { AreKept }
{}
