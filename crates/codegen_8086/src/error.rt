//! Why a unit has no object unit.

ghost use Rattle.std.specs.Prelude.{◌≡◌};
ghost use Rattle.codegen_8086.specs.declared.error.GenError.TheVariants.{NoMemory};

use std::alloc::AllocError;
use std::error::Error;
use std::fmt;

/// Why a unit has no object unit.
#[derive(Clone, Copy, Debug, PartialEq, Eq)]
pub enum GenError {
    /// The code of its routines has so many bytes, more than 65,520.
    CodeTooLarge { bytes: u64 },
    /// Memory ran out, or a count passes 32 bits.
    NoMemory,
}

impl fmt::Display for GenError {
    fn fmt<W: fmt::Write>(&self, f: &mut fmt::Formatter<W>) -> fmt::Result {
        match self {
            GenError::CodeTooLarge { bytes } => {
                write!(f, "the code of the unit has {bytes} bytes")
            }
            GenError::NoMemory => write!(f, "out of memory"),
        }
    }
}

impl Error for GenError {}

impl From<AllocError> for GenError {
    ghost from_gives = { λ _ e. e ≡ NoMemory };

    fn from(_error: AllocError) -> GenError {
        GenError::NoMemory
    }
}
