//! Why the sources of a program are refused.

ghost use Rattle.std.specs.Prelude.{◌≡◌};

use std::alloc::{AllocError, AllocFailed};
use thiserror::Error;
use tp_lexer::Feature;
use tp_outside::{Failed, ReadError};
use type_layout::FileName;

/// A place in a source: its file, and the line and the column there, which count from 1.
#[derive(Debug, Drop)]
pub struct At {
    pub file: FileName,
    pub line: u32,
    pub column: u32,
}

/// What is wrong with a token, a comment or a directive.
#[derive(Clone, Copy, Debug, PartialEq, Eq)]
pub enum LexCause {
    /// A byte that begins no token.
    BadCharacter,
    /// A comment with no closer.
    OpenComment,
    /// A string constant whose line ends inside quotes.
    OpenString,
    /// A number or a character code that is out of range or has no digits.
    BadNumber,
    /// A directive of another form, with a size out of bounds, inside eight open includes, or with no condition to belong to.
    BadDirective,
    /// The directive that opened the innermost condition that is open where its text ends.
    OpenCondition,
}

/// Why the sources of a program are refused: the first source that is not read, and its first fault.
#[derive(Debug, Drop, Error)]
pub enum GatherError {
    /// There is no file of a source, or none that a source includes.
    #[error("a source is missing")]
    MissingFile { name: FileName },
    /// A text has so many bytes, or all texts up to it have so many together, and that is more than they may have.
    #[error("a source has {bytes} bytes")]
    TooLarge { bytes: u64 },
    /// A token, a comment or a directive breaks a rule.
    #[error("a token is wrong")]
    BadToken { at: At, cause: LexCause },
    /// No source begins with the tokens up to this one, or none ends here.
    #[error("a source is wrong")]
    Syntax { at: At },
    /// A directive that the profile leaves out; or a token with which the full language goes on and the profile doesn't; or the
    /// name of a unit that the profile leaves out and that has no file.
    #[error("a source uses what is left out")]
    NotInProfile { at: At, feature: Feature },
    /// The token opens one construct more than may be open at once.
    #[error("a source is nested too deep")]
    TooDeep { at: At },
    /// A file was not read, and the files' count of faults rose.
    #[error("a source was not read")]
    FilesFault,
    /// There was not enough memory, or there are 2^32 - 1 texts or sources.
    #[error("not enough memory for the sources")]
    NoMemory,
}

impl From<ReadError> for GatherError {
    ghost use Rattle.source_graph.specs.Texts.{read_refusal};

    ghost from_gives = { λ error refusal. refusal ≡ read_refusal error };

    fn from(error: ReadError) -> GatherError {
        match error {
            ReadError::Failed => GatherError::FilesFault,
            ReadError::NoMemory => GatherError::NoMemory,
        }
    }
}

impl From<Failed> for GatherError {
    ghost use Rattle.source_graph.specs.declared.error.GatherError.{GatherError};

    ghost from_gives = { λ _ refusal. refusal ≡ GatherError.FilesFault };

    fn from(_failed: Failed) -> GatherError {
        GatherError::FilesFault
    }
}

impl From<AllocError> for GatherError {
    ghost use Rattle.source_graph.specs.declared.error.GatherError.{GatherError};

    ghost from_gives = { λ _ refusal. refusal ≡ GatherError.NoMemory };

    fn from(_error: AllocError) -> GatherError {
        GatherError::NoMemory
    }
}

impl<T: Drop> From<AllocFailed<T>> for GatherError {
    ghost use Rattle.source_graph.specs.declared.error.GatherError.{GatherError};

    ghost from_gives = { λ _ refusal. refusal ≡ GatherError.NoMemory };

    fn from(_error: AllocFailed<T>) -> GatherError {
        GatherError::NoMemory
    }
}
