//! Why an input is not read as a whole.

use thiserror::Error;

/// Why an input is not read as a whole.
#[derive(Clone, Copy, Debug, PartialEq, Eq, Error)]
pub enum InputError {
    /// There are more bytes than an input may have; so many were read.
    #[error("the input has more than the most bytes")]
    TooLarge { bytes: u64 },
    /// A read failed, and the source's count of faults rose.
    #[error("the input was not read")]
    Failed,
    /// There was not enough memory for the bytes.
    #[error("not enough memory for the input")]
    NoMemory,
}
