//! Why a part of a file was not read.

ghost use Rattle.std.specs.Prelude.{◌≡◌};

use std::alloc::AllocError;

/// Why a part of a file was not read.
#[derive(Clone, Copy, Debug, PartialEq, Eq)]
pub enum PartError {
    /// A part breaks a rule of the format, and so many bytes are left from its first byte on; none where the bytes
    /// end before.
    Damaged { left: usize },
    /// There was not enough memory.
    NoMemory,
}

impl From<AllocError> for PartError {
    ghost use Rattle.object_file.specs.declared.file_parts.error.PartError.{PartError};

    ghost from_gives = { λ _ error. error ≡ PartError.NoMemory };

    fn from(_error: AllocError) -> PartError {
        PartError::NoMemory
    }
}
