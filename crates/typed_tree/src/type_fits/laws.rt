//! A law on types.

ghost use Rattle.typed_tree.specs.type_fits.Laws.{FieldsHaveOffsets};

/// Each field of a record or object that has a type has an offset.
pub fn fit_laws()
    ensures fields { FieldsHaveOffsets }
{}
