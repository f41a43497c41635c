//! Programs of several units that are typed.

ghost use Rattle.program_typing.specs.programs.Laws.{CanBeMet};

/// What is asked of a well-typed program can be met: a program with a variable to which it adds 1 is well-typed. It does nothing.
pub fn typed_program_laws()
    ensures { CanBeMet }
{}
