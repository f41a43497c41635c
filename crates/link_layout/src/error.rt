//! Why parts have no places.

ghost use Rattle.std.specs.Prelude.{◌≡◌};
ghost use Rattle.link_layout.specs.declared.error.LayoutError.TheVariants.{NoMemory};

use std::alloc::AllocError;
use std::error::Error;
use std::fmt;

/// Why parts have no places.
#[derive(Clone, Copy, Debug, PartialEq, Eq)]
pub enum LayoutError {
    /// The data segment would have so many bytes, more than 65,520.
    DataTooLarge { bytes: u64 },
    /// The image would have so many paragraphs, more than 40,848.
    ImageTooLarge { paragraphs: u64 },
    /// The image would have so many words that are segments, more than 65,535.
    TooManyRelocations { count: u64 },
    /// Memory ran out, or a count passes 64 bits.
    NoMemory,
}

impl fmt::Display for LayoutError {
    fn fmt<W: fmt::Write>(&self, f: &mut fmt::Formatter<W>) -> fmt::Result {
        match self {
            LayoutError::DataTooLarge { bytes } => {
                write!(f, "the data segment would have {bytes} bytes")
            }
            LayoutError::ImageTooLarge { paragraphs } => {
                write!(f, "the image would have {paragraphs} paragraphs")
            }
            LayoutError::TooManyRelocations { count } => {
                write!(f, "the image would have {count} relocations")
            }
            LayoutError::NoMemory => write!(f, "out of memory"),
        }
    }
}

impl Error for LayoutError {}

impl From<AllocError> for LayoutError {
    ghost from_gives = { λ _ e. e ≡ NoMemory };

    fn from(_error: AllocError) -> LayoutError {
        LayoutError::NoMemory
    }
}
