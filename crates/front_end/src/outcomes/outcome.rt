//! How a command ends.

ghost use Rattle.std.specs.Prelude.{◌≡◌};
ghost use Rattle.front_end.specs.outcomes.Line.{status_of};

use crate::outcomes::refusal::Refusal;
use cpu_8086::Why;
use std::alloc::{AllocError, AllocFailed};

/// How a command ended.
#[derive(Debug, Drop)]
pub enum Outcome {
    /// The text that was asked for is written.
    Done,
    /// The program ran to its end, with this exit code.
    Program { code: u8 },
    /// The program's meaning goes on after as many turns as were allowed.
    TurnLimit,
    /// The program's meaning came to this act, which the language leaves open.
    Undefined { act: u8 },
    /// So many instructions ran, as many as were allowed, and the program still runs.
    InstructionLimit { taken: u64 },
    /// The machine stopped at this instruction.
    Stopped { cs: u16, ip: u16, why: Why },
    /// The command was refused.
    Refused(Refusal),
    /// Standard input could not be read.
    InputFault,
    /// Standard output could not be written.
    OutputFault,
    /// Standard error could not be written.
    ErrorsFault,
    /// A file could not be read or written.
    FilesFault,
    /// There was not enough memory.
    NoMemory,
}

impl Outcome {
    /// The exit status: the program's own code, 0 where a text was asked for, or what tells the kind of outcome.
    pub fn status(&self) -> u8
        ensures { result ≡ status_of self.now }
    {
        match self {
            Outcome::Done => 0,
            Outcome::Program { code } => *code,
            Outcome::Undefined { act: _ } => 249,
            Outcome::TurnLimit => 250,
            Outcome::InstructionLimit { taken: _ } => 251,
            Outcome::Refused(_) => 252,
            Outcome::Stopped {
                cs: _,
                ip: _,
                why: _,
            } => 253,
            Outcome::InputFault => 254,
            Outcome::OutputFault => 254,
            Outcome::ErrorsFault => 254,
            Outcome::FilesFault => 254,
            Outcome::NoMemory => 255,
        }
    }
}

impl From<AllocError> for Outcome {
    ghost use Rattle.front_end.specs.declared.outcomes.outcome.Outcome.{Outcome};

    ghost from_gives = { λ _ outcome. outcome ≡ Outcome.NoMemory };

    fn from(_error: AllocError) -> Outcome {
        Outcome::NoMemory
    }
}

impl<T: Drop> From<AllocFailed<T>> for Outcome {
    ghost use Rattle.front_end.specs.declared.outcomes.outcome.Outcome.{Outcome};

    ghost from_gives = { λ _ outcome. outcome ≡ Outcome.NoMemory };

    fn from(_error: AllocFailed<T>) -> Outcome {
        Outcome::NoMemory
    }
}
