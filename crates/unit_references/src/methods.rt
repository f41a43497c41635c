//! Methods by class, in programs of several units.

ghost use Rattle.type_soundness.specs.typed_tree.declared.units.Program.{Program};
ghost use Rattle.type_soundness.specs.store_typing.types.Agreement.{AreConsistent};
ghost use Rattle.type_soundness.specs.program_typing.programs.WellTyped.{HasMethods};
ghost use Rattle.unit_references.specs.methods.Laws.{HasLawfulMethods};

/// Where units agree on their types, each table overrides methods by the rule, and each unit has the routines of the methods that it
/// declares, a class answers each slot of its line by a method with the header that every type of the line gives it. It does nothing.
pub fn declared_method_laws()
    ensures { (program : Program) → AreConsistent program → HasLawfulMethods program → HasMethods program }
{}
