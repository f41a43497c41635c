//! Places of typed programs.

ghost use Rattle.store_typing.specs.types.Agreement.{AreConsistent};
ghost use Rattle.store_typing.specs.tp_meaning.Store.{Store};
ghost use Rattle.store_typing.specs.stores.Worlds.{World};
ghost use Rattle.store_typing.specs.stores.Stores.{IsTypedStore};
ghost use Rattle.program_typing.specs.lvalues.Laws.{PlaceLaws, PartLaws};

/// In an activation whose variables were made with their types, each variable that its routine may name is a place of the type that
/// the unit says, a global, a variable on any level, a variable parameter or what a `with` holds; or the variable parameter can't be
/// read. Fields of places, elements of arrays and characters of strings are places of their types; or the run ends there by error 201 or an
/// undefined act. None of these is an ill-typed step. It does nothing.
pub fn sound_place_laws()
    ensures variables { (w : World) (store : Store) → AreConsistent w.program → IsTypedStore w store → PlaceLaws w store }
    ensures parts { (w : World) → AreConsistent w.program → PartLaws w }
{}
