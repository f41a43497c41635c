//! Types that the units of a program share.

ghost use Rattle.tp_meaning.specs.typed_tree.declared.units.Program.{Program};
ghost use Rattle.store_typing.specs.types.Agreement.{AreConsistent};
ghost use Rattle.store_typing.specs.types.Laws.{AgreementLaws};

/// Where the units of a program agree on what was declared at each place, it has the same cells and the same fields in all of
/// them, and an instance begins with the parts of each of its ancestors. It does nothing.
pub fn declared_type_laws()
    ensures { (program : Program) → AreConsistent program → AgreementLaws program }
{}
