//! Why a program was not opened.

ghost use Rattle.std.specs.Prelude.{◌≡◌};

use mz_file::{ExeCause, ExeError};
use overlay_file::OvrError;
use std::alloc::AllocError;
use thiserror::Error;
use tp_outside::ReadError;
use type_layout::FileName;

/// Why a program was not opened. The causes are looked for in this order, and the first is told.
#[derive(Debug, Drop, Error)]
pub enum OpenError {
    /// The bytes are no executable file.
    #[error("the program is no executable file")]
    NotExecutable { cause: ExeCause },
    /// The program has overlays, and there is no overlay file of this name.
    #[error("the overlay file is missing")]
    MissingFile { name: FileName },
    /// The first part of the overlay file that breaks a rule of the format begins at this byte.
    #[error("the overlay file is damaged at byte {at}")]
    OverlayFileDamaged { at: u64 },
    /// The first overlay that has no stub in the image, or of which the file has nothing, or whose stub is not that of this
    /// overlay while it is out.
    #[error("overlay {overlay} of the file is not that of the program")]
    OverlayMismatch { overlay: u16 },
    /// The largest overlay needs so many paragraphs, and the buffer has fewer.
    #[error("the buffer has {have} paragraphs, and an overlay needs {need}")]
    BufferTooSmall { need: u16, have: u16 },
    /// The program with its buffer takes so many paragraphs from segment 0 on, which pass segment A000h.
    #[error("the program takes {need} paragraphs of memory")]
    MemoryTooSmall { need: u32 },
    /// A read of the overlay file failed, and the files' count of faults rose.
    #[error("the overlay file was not read")]
    FilesFault,
    /// There was not enough memory.
    #[error("not enough memory for the program")]
    NoMemory,
}

impl From<ExeError> for OpenError {
    ghost use Rattle.dos_runner.specs.opened_program.Opening.{exe_refusal};

    ghost from_gives = { λ error refusal. refusal ≡ exe_refusal error };

    fn from(error: ExeError) -> OpenError {
        match error {
            ExeError::Short => OpenError::NotExecutable {
                cause: ExeCause::Short,
            },
            ExeError::NotMz => OpenError::NotExecutable {
                cause: ExeCause::NotMz,
            },
            ExeError::BadPages => OpenError::NotExecutable {
                cause: ExeCause::BadPages,
            },
            ExeError::BadRelocation { number } => OpenError::NotExecutable {
                cause: ExeCause::BadRelocation { number },
            },
            ExeError::NoBlock => OpenError::NotExecutable {
                cause: ExeCause::NoBlock,
            },
            ExeError::NoMemory => OpenError::NoMemory,
        }
    }
}

impl From<OvrError> for OpenError {
    ghost use Rattle.dos_runner.specs.opened_program.Opening.{ovr_refusal};

    ghost from_gives = { λ error refusal. refusal ≡ ovr_refusal error };

    fn from(error: OvrError) -> OpenError {
        match error {
            OvrError::Damaged { at } => OpenError::OverlayFileDamaged { at },
            OvrError::NoMemory => OpenError::NoMemory,
        }
    }
}

impl From<ReadError> for OpenError {
    ghost use Rattle.dos_runner.specs.opened_program.Opening.{read_refusal};

    ghost from_gives = { λ error refusal. refusal ≡ read_refusal error };

    fn from(error: ReadError) -> OpenError {
        match error {
            ReadError::Failed => OpenError::FilesFault,
            ReadError::NoMemory => OpenError::NoMemory,
        }
    }
}

impl From<AllocError> for OpenError {
    ghost use Rattle.dos_runner.specs.declared.opened_program.error.OpenError.{OpenError};

    ghost from_gives = { λ _ refusal. refusal ≡ OpenError.NoMemory };

    fn from(_error: AllocError) -> OpenError {
        OpenError::NoMemory
    }
}
