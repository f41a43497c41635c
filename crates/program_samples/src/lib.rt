//! A program of two units that is well typed.
#![tactic(auto)]

ghost use Rattle.program_samples.specs.Laws.{CanBeMet};

pub use unit_references;

/// What is asked of a well-typed program can be met by one of two units, with an object, a constructor, a virtual call, a set, a string and a
/// `var` parameter. It does nothing.
pub fn well_typed_sample()
    ensures { CanBeMet }
{}
