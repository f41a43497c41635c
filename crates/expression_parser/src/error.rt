//! Why lexemes spell no tree.

ghost use Rattle.std.specs.Prelude.{◌≡◌};
ghost use Rattle.expression_parser.specs.declared.error.ReadError.TheVariants.{NoMemory};

use pascal_grammar::Omission;
use std::alloc::{AllocError, AllocFailed};

/// Out of memory, or the first fault, with the number of lexemes from there on.
#[derive(Debug, Drop)]
pub enum ReadError {
    NoMemory,
    /// No source begins with the lexemes up to this one, or ends here.
    Syntax(usize),
    /// The same, but the language has a source that does; the profile leaves it out.
    LeftOut(Omission, usize),
    /// The lexeme opens one construct more than may be open.
    TooDeep(usize),
}

impl From<AllocError> for ReadError {
    ghost from_gives = { λ _ e. e ≡ NoMemory };

    fn from(_e: AllocError) -> ReadError {
        ReadError::NoMemory
    }
}

impl<T: Drop> From<AllocFailed<T>> for ReadError {
    ghost from_gives = { λ _ e. e ≡ NoMemory };

    fn from(_e: AllocFailed<T>) -> ReadError {
        ReadError::NoMemory
    }
}
