//! What a typed program never does.

ghost use Rattle.type_soundness.specs.programs.Laws.{TypedProgramsNeverStop, CountingNeverStops};

/// A well-typed program never stops at an ill-typed step: whatever bytes its input has and however many turns it is given, it ends with a
/// code, goes on, or comes to an act that the language leaves undefined. A program that adds 1 to its variable is one. It does nothing.
pub fn sound_program_laws()
    ensures all { TypedProgramsNeverStop }
    ensures one { CountingNeverStops }
{}
