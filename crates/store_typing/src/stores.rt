//! Stores in which each object has the cells of its type, for programs of several units.

ghost use Rattle.store_typing.specs.types.Agreement.{AreConsistent};
ghost use Rattle.tp_meaning.specs.Store.{Store};
ghost use Rattle.store_typing.specs.stores.Worlds.{World};
ghost use Rattle.store_typing.specs.stores.Stores.{IsTypedStore};
ghost use Rattle.store_typing.specs.stores.Laws.{ValueLaws, StoreLaws};

/// In a program whose units agree: a value of a type is one of it in each unit that names it, and of the types that it joins;
/// and what is found at a place of a typed store is of the place's type, while what assigns, copies, makes and frees leaves the
/// store typed, so that none of these steps is ill-typed. It does nothing.
pub fn sound_store_laws()
    ensures values { (w : World) → AreConsistent w.program → ValueLaws w }
    ensures stores { (w : World) (store : Store) → AreConsistent w.program → IsTypedStore w store → StoreLaws w store }
{}
