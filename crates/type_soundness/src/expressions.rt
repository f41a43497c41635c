//! Expressions of typed programs.

ghost use Rattle.program_typing.specs.typed_tree.declared.units.Program.{Program};
ghost use Rattle.program_typing.specs.tp_meaning.Calls.{Runs};
ghost use Rattle.program_typing.specs.programs.WellTyped.{IsWellTyped};
ghost use Rattle.program_typing.specs.programs.Calls.{HasSoundCalls};
ghost use Rattle.type_soundness.specs.expressions.Laws.{HasExpressionLaws};

/// In a well-typed program, where calls do no ill-typed step, an expression gives a value of its type, a place is one of its type and
/// arguments are as the parameters take them, in a store that stays typed; or the run ends there by an error or an undefined act, or goes on
/// beyond its turns. Never does it stop at an ill-typed step. It does nothing.
pub fn sound_expression_laws()
    ensures { (program : Program) (again : Runs) → IsWellTyped program → HasSoundCalls program again → HasExpressionLaws program again }
{}
