//! The laws of activation records and of the sorts of variables.

ghost use Rattle.std.specs.Prelude.{List};
ghost use Rattle.type_layout.specs.declared.definitions.TypeDef.{TypeDef};
ghost use Rattle.typed_tree.specs.declared.units.Routine.{Routine};
ghost use Rattle.lower_places.specs.Laws.{FrameLaws, HomeLaws, IsFromTop, VariablesHaveSorts};

/// The laws of layouts. The parts of an activation record keep apart, fill it and have their sizes; different variables lie
/// in different parts, with room there; what lies so far from BP lies where it should below the caller's SP; and a variable
/// that is found has the sort that its unit tells. It does nothing.
pub fn layout_laws()
    ensures frames { (types : List TypeDef) (routine : Routine) → FrameLaws types routine }
    ensures homes { (types : List TypeDef) (routine : Routine) → HomeLaws types routine }
    ensures places { IsFromTop }
    ensures sorts { VariablesHaveSorts }
{}
