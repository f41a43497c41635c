//! Classes and the units that declare them.

ghost use Rattle.tp_meaning.specs.typed_tree.declared.units.Program.{Program};
ghost use Rattle.store_typing.specs.types.Agreement.{AreConsistent};
ghost use Rattle.store_typing.specs.standard.Laws.{HasClasses};
ghost use Rattle.store_typing.specs.classes.Laws.{HasDeclarers};

/// Where the unit that declares an object type is one of the program, and has the type in its own table, the class of the type is found
/// by its key. It does nothing.
pub fn declared_class_laws()
    ensures { (program : Program) → AreConsistent program → HasDeclarers program → HasClasses program }
{}
