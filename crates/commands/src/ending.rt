//! From the end of a run to the outcome of a command.

ghost use Rattle.std.specs.Prelude.{◌≡◌};
ghost use Rattle.commands.specs.Ending.{outcome_of};

use dos_runner::RunEnd;
use front_end::outcomes::Outcome;

/// The outcome of a run that ended so.
pub fn outcome_of(end: RunEnd) -> Outcome
    ensures { result ≡ outcome_of end }
{
    match end {
        RunEnd::Ended { code } => Outcome::Program { code },
        RunEnd::Limit { taken } => Outcome::InstructionLimit { taken },
        RunEnd::Stopped { cs, ip, why } => Outcome::Stopped { cs, ip, why },
        RunEnd::InputFault => Outcome::InputFault,
        RunEnd::OutputFault => Outcome::OutputFault,
        RunEnd::ErrorsFault => Outcome::ErrorsFault,
        RunEnd::FilesFault => Outcome::FilesFault,
    }
}
