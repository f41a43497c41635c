//! Statements of typed programs.

ghost use Rattle.type_soundness.specs.statements.Laws.{TasksAreSound};

/// In a well-typed program a statement, and the turns that a `for` loop has left, do no ill-typed step, where calls and tasks with fewer
/// turns do none: the store stays typed and the input one of bytes, or the run ends by an error, an undefined act or Halt, or goes on beyond its
/// turns. It does nothing.
pub fn sound_statement_laws()
    ensures { TasksAreSound }
{}
