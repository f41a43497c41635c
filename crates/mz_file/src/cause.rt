//! Why bytes are no executable file.

ghost use Rattle.std.specs.Prelude.{◌≡◌};

use std::alloc::AllocError;
use thiserror::Error;

/// Why bytes are no executable file.
#[derive(Clone, Copy, Debug, PartialEq, Eq, Error)]
pub enum ExeCause {
    /// The bytes are too few for a header of 28 bytes, or for the pages that the header counts.
    #[error("the file is too short")]
    Short,
    /// The letters MZ don't stand in front.
    #[error("the file doesn't begin with MZ")]
    NotMz,
    /// The pages can't be, or don't hold the header and the relocations.
    #[error("the pages that the header says can't be")]
    BadPages,
    /// The relocation with this number, counted from 0, names no word of the image.
    #[error("relocation {number} is outside the image")]
    BadRelocation { number: u32 },
    /// The block for the runner isn't there.
    #[error("the block for the runner is missing")]
    NoBlock,
}

/// Why an executable file was not read.
#[derive(Clone, Copy, Debug, PartialEq, Eq, Error)]
pub enum ExeError {
    /// The bytes are too few for a header of 28 bytes, or for the pages that the header counts.
    #[error("the file is too short")]
    Short,
    /// The letters MZ don't stand in front.
    #[error("the file doesn't begin with MZ")]
    NotMz,
    /// The pages can't be, or don't hold the header and the relocations.
    #[error("the pages that the header says can't be")]
    BadPages,
    /// The relocation with this number, counted from 0, names no word of the image.
    #[error("relocation {number} is outside the image")]
    BadRelocation { number: u32 },
    /// The block for the runner isn't there.
    #[error("the block for the runner is missing")]
    NoBlock,
    /// There was not enough memory for the value.
    #[error("not enough memory for the program")]
    NoMemory,
}

impl From<ExeCause> for ExeError {
    ghost use Rattle.mz_file.specs.Cause.{error_of};

    ghost from_gives = { λ cause error. error ≡ error_of cause };

    fn from(cause: ExeCause) -> ExeError {
        match cause {
            ExeCause::Short => ExeError::Short,
            ExeCause::NotMz => ExeError::NotMz,
            ExeCause::BadPages => ExeError::BadPages,
            ExeCause::BadRelocation { number } => ExeError::BadRelocation { number },
            ExeCause::NoBlock => ExeError::NoBlock,
        }
    }
}

impl From<AllocError> for ExeError {
    ghost use Rattle.mz_file.specs.declared.cause.ExeError.{ExeError};

    ghost from_gives = { λ _ error. error ≡ ExeError.NoMemory };

    fn from(_error: AllocError) -> ExeError {
        ExeError::NoMemory
    }
}
