//! Why units aren't linked.

ghost use Rattle.std.specs.Prelude.{◌≡◌};
ghost use Rattle.smart_linker.specs.declared.error.LinkError.TheVariants.{NoMemory};

use std::alloc::AllocError;
use std::error::Error;
use std::fmt;
use type_layout::Name;

/// Why units aren't linked.
#[derive(Debug, Drop)]
pub enum LinkError {
    /// This unit is overlaid and wasn't compiled for that.
    NotOverlayable {
        unit: Name,
    },
    /// A unit is overlaid, and frames of this one aren't marked.
    OldFrames {
        unit: Name,
    },
    /// A reference of this unit, to a part of this number of a unit of this name, names none that there is, or one that
    /// can't be named so; or it has no room before the next one or at the end of what holds it.
    Misfit {
        unit: Name,
        named: Name,
        number: u32,
    },
    /// The code of this unit that is reached has so many bytes, more than 65,520.
    CodeTooLarge {
        unit: Name,
        bytes: u64,
    },
    /// So many routines of this overlaid unit want an entry in its stub, which has room for 13,100.
    TooManyEntries {
        unit: Name,
        count: u64,
    },
    /// The data segment would have so many bytes, more than 65,520.
    DataTooLarge {
        bytes: u64,
    },
    /// The image would have so many paragraphs, more than 40,848.
    ImageTooLarge {
        paragraphs: u64,
    },
    /// The image would have so many words that are segments, more than 65,535.
    TooManyRelocations {
        count: u64,
    },
    /// Memory ran out, or a count passes 64 bits.
    NoMemory,
}

impl fmt::Display for LinkError {
    fn fmt<W: fmt::Write>(&self, f: &mut fmt::Formatter<W>) -> fmt::Result {
        match self {
            LinkError::NotOverlayable { .. } => write!(f, "an overlaid unit isn't overlayable"),
            LinkError::OldFrames { .. } => write!(f, "a unit's frames aren't marked"),
            LinkError::Misfit { number, .. } => {
                write!(f, "a reference to part {number} doesn't fit")
            }
            LinkError::CodeTooLarge { bytes, .. } => {
                write!(f, "the code of a unit has {bytes} bytes")
            }
            LinkError::TooManyEntries { count, .. } => {
                write!(f, "a stub would have {count} entries")
            }
            LinkError::DataTooLarge { bytes } => {
                write!(f, "the data segment would have {bytes} bytes")
            }
            LinkError::ImageTooLarge { paragraphs } => {
                write!(f, "the image would have {paragraphs} paragraphs")
            }
            LinkError::TooManyRelocations { count } => {
                write!(f, "the image would have {count} relocations")
            }
            LinkError::NoMemory => write!(f, "out of memory"),
        }
    }
}

impl Error for LinkError {}

impl From<AllocError> for LinkError {
    ghost from_gives = { λ _ e. e ≡ NoMemory };

    fn from(_error: AllocError) -> LinkError {
        LinkError::NoMemory
    }
}
