//! The start of typed programs.

ghost use Rattle.program_typing.specs.tp_meaning.Meaning.{run, IsNeverStopped};
ghost use Rattle.program_typing.specs.typed_tree.declared.units.Program.{Program};
ghost use Rattle.program_typing.specs.programs.Tasks.{AreSound};
ghost use Rattle.program_typing.specs.programs.WellTyped.{IsWellTyped};
ghost use Rattle.type_soundness.specs.starts.Laws.{HasSoundStart};

/// The store of a well-typed program is typed at first. And such a program comes to no ill-typed step, where its bodies come to none.
/// It does nothing.
pub fn sound_start_laws()
    ensures store { (program : Program) → IsWellTyped program → HasSoundStart program }
    ensures whole { (program : Program) → IsWellTyped program → AreSound program (run program) → IsNeverStopped program }
{}
