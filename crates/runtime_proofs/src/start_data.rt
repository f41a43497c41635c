//! What the data of a program of flat code hold as it starts.

ghost use Rattle.flat_code.specs.Program.{FlatProgram, Choice};
ghost use Rattle.runtime_proofs.specs.start_data.Start.{StartLaw};

/// The law of the start: by a legal choice each datum of a unit that stands in the program's order
/// holds its first bytes and zeros behind them, but for the three that the runtime is given. It does
/// nothing.
pub fn start_laws()
    ensures start { (program : FlatProgram) (choice : Choice) → StartLaw program choice }
{}
