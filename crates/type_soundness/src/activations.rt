//! Calls of typed programs.

ghost use Rattle.program_typing.specs.tp_meaning.Calls.{Runs};
ghost use Rattle.program_typing.specs.typed_tree.declared.units.Program.{Program};
ghost use Rattle.program_typing.specs.programs.Tasks.{AreSound};
ghost use Rattle.program_typing.specs.programs.Calls.{HasSoundCalls};
ghost use Rattle.program_typing.specs.programs.WellTyped.{IsWellTyped};

/// The calls that the bodies of a well-typed program make do no ill-typed step, where bodies that are run with fewer turns do none. It
/// does nothing.
pub fn sound_activation_laws()
    ensures { (program : Program) (again : Runs) → IsWellTyped program → AreSound program again → HasSoundCalls program again }
{}
