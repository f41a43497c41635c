ghost use Rattle.std.specs.Prelude.{◌≡◌};

use std::alloc::AllocError;
use thiserror::Error;

/// A call of the outside failed. The object's count of faults rose by it.
#[derive(Clone, Copy, Debug, PartialEq, Eq, Error)]
#[error("a call of the outside failed")]
pub struct Failed;

/// Why a file was not written.
#[derive(Clone, Copy, Debug, PartialEq, Eq, Error)]
pub enum WriteError {
    /// The write failed, and the object's count of faults rose.
    #[error("a file was not written")]
    Failed,
    /// There was not enough memory to keep the file.
    #[error("not enough memory for a file")]
    NoMemory,
}

/// Why bytes were not read as a whole.
#[derive(Clone, Copy, Debug, PartialEq, Eq, Error)]
pub enum ReadError {
    /// A read failed, and the object's count of faults rose.
    #[error("bytes were not read")]
    Failed,
    /// There was not enough memory for the bytes.
    #[error("not enough memory for the bytes")]
    NoMemory,
}

impl From<Failed> for ReadError {
    ghost use Rattle.tp_outside.specs.declared.faults.ReadError.{ReadError};

    ghost from_gives = { λ _ error. error ≡ ReadError.Failed };

    fn from(_failed: Failed) -> ReadError {
        ReadError::Failed
    }
}

impl From<AllocError> for ReadError {
    ghost use Rattle.tp_outside.specs.declared.faults.ReadError.{ReadError};

    ghost from_gives = { λ _ error. error ≡ ReadError.NoMemory };

    fn from(_error: AllocError) -> ReadError {
        ReadError::NoMemory
    }
}
