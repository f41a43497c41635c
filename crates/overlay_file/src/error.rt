//! Why an overlay file was not read.

ghost use Rattle.std.specs.Prelude.{◌≡◌};

use std::alloc::AllocError;
use thiserror::Error;

/// Why an overlay file was not read.
#[derive(Clone, Copy, Debug, PartialEq, Eq, Error)]
pub enum OvrError {
    /// The byte, from 0 on, at which the format is left: that at which the first wrong part begins, the number of the bytes
    /// where they are too few, or the first one behind the last part where they are too many.
    #[error("the overlay file is damaged at byte {at}")]
    Damaged { at: u64 },
    /// There was not enough memory for the index.
    #[error("not enough memory for the overlay file")]
    NoMemory,
}

impl From<AllocError> for OvrError {
    ghost use Rattle.overlay_file.specs.declared.error.OvrError.{OvrError};

    ghost from_gives = { λ _ error. error ≡ OvrError.NoMemory };

    fn from(_error: AllocError) -> OvrError {
        OvrError::NoMemory
    }
}
