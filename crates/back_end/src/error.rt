//! Why a program isn't built.

ghost use Rattle.std.specs.Prelude.{◌≡◌};
ghost use Rattle.back_end.specs.declared.error.BuildError.TheVariants.{NoMemory};

use codegen_8086::GenError;
use std::alloc::AllocError;
use std::error::Error;
use std::fmt;
use type_layout::Name;

/// Why a program isn't built. Where several causes are there, the first in this order is told.
#[derive(Debug, Drop)]
pub enum BuildError {
    /// The code of a unit has so many bytes, more than 65,520.
    CodeTooLarge { bytes: u64 },
    /// The program overlays this unit, which wasn't compiled for that.
    NotOverlayable { unit: Name },
    /// The data segment would have so many bytes, more than 65,520.
    DataTooLarge { bytes: u64 },
    /// The image would have so many paragraphs, more than 40,848.
    ImageTooLarge { paragraphs: u64 },
    /// The image would have so many words that are segments, more than 65,535.
    TooManyRelocations { count: u64 },
    /// Memory ran out, or a number has no room where it has to stand.
    NoMemory,
}

impl fmt::Display for BuildError {
    fn fmt<W: fmt::Write>(&self, f: &mut fmt::Formatter<W>) -> fmt::Result {
        match self {
            BuildError::CodeTooLarge { bytes } => {
                write!(f, "the code of a unit has {bytes} bytes")
            }
            BuildError::NotOverlayable { .. } => write!(f, "an overlaid unit isn't overlayable"),
            BuildError::DataTooLarge { bytes } => {
                write!(f, "the data segment would have {bytes} bytes")
            }
            BuildError::ImageTooLarge { paragraphs } => {
                write!(f, "the image would have {paragraphs} paragraphs")
            }
            BuildError::TooManyRelocations { count } => {
                write!(f, "the image would have {count} relocations")
            }
            BuildError::NoMemory => write!(f, "out of memory"),
        }
    }
}

impl Error for BuildError {}

impl From<AllocError> for BuildError {
    ghost from_gives = { λ _ e. e ≡ NoMemory };

    fn from(_error: AllocError) -> BuildError {
        BuildError::NoMemory
    }
}

impl From<GenError> for BuildError {
    ghost use Rattle.back_end.specs.Refused.{generator_refusal};

    ghost from_gives = { λ error refusal. refusal ≡ generator_refusal error };

    fn from(error: GenError) -> BuildError {
        match error {
            GenError::CodeTooLarge { bytes } => BuildError::CodeTooLarge { bytes },
            GenError::NoMemory => BuildError::NoMemory,
        }
    }
}
