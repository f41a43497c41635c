//! Why a unit file was not read.

ghost use Rattle.std.specs.Prelude.{◌≡◌};

use thiserror::Error;

/// Why a unit file was not read.
#[derive(Clone, Copy, Debug, PartialEq, Eq, Error)]
pub enum UnitFileError {
    /// The byte, from 0 on, at which the format is left: that at which the first wrong part begins, the number of the bytes
    /// where they are too few, or the first one behind the last part where they are too many.
    #[error("the unit file is damaged at byte {at}")]
    Damaged { at: u64 },
    /// There was not enough memory for the unit.
    #[error("not enough memory for the unit file")]
    NoMemory,
}
