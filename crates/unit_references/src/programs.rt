//! What a typed program of one unit never does.

ghost use Rattle.unit_references.specs.programs.Laws.{AloneNeverStops, CanBeAlone};

/// A program of one well-formed unit that supposes of others what is so, and declares the methods of its types, never stops at an ill-typed step,
/// whatever bytes its input has and however many turns it is given. A program that adds 1 to its variable is one. It does nothing.
pub fn single_program_laws()
    ensures all { AloneNeverStops }
    ensures example { CanBeAlone }
{}
