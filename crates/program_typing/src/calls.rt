//! Calls of typed programs.

ghost use Rattle.store_typing.specs.types.Agreement.{AreConsistent};
ghost use Rattle.store_typing.specs.tp_meaning.Store.{Store};
ghost use Rattle.store_typing.specs.stores.Worlds.{World};
ghost use Rattle.store_typing.specs.stores.Stores.{IsTypedStore};
ghost use Rattle.program_typing.specs.calls.Laws.{CallLaws, LevelLaws};

/// A routine that is called with arguments as it takes them has its variables made with their types, in a store that stays typed, or the
/// call ends by an undefined act; each of them is found by its number; and a routine that is declared inside another finds the
/// activation of that one. None of these steps is ill-typed. It does nothing.
pub fn sound_call_laws()
    ensures calls { (w : World) (store : Store) → AreConsistent w.program → IsTypedStore w store → CallLaws w store }
    ensures levels { (w : World) → LevelLaws w }
{}
