//! Standard routines of typed programs.

ghost use Rattle.store_typing.specs.types.Agreement.{AreConsistent};
ghost use Rattle.tp_meaning.specs.Store.{Store};
ghost use Rattle.store_typing.specs.stores.Worlds.{World};
ghost use Rattle.store_typing.specs.stores.Stores.{IsTypedStore};
ghost use Rattle.store_typing.specs.standard.Laws.{HasClasses, StandardLaws};

/// In a program whose units agree and declare the classes that they name: a standard routine on arguments as it takes them gives a
/// value of its type, leaves the store typed, or ends the run by a runtime error or an undefined act; none of its steps is
/// ill-typed. It does nothing.
pub fn sound_standard_laws()
    ensures { (w : World) (store : Store) → AreConsistent w.program → HasClasses w.program → IsTypedStore w store → StandardLaws w store }
{}
