//! Tokens, and what may be wrong with a text.

ghost use Rattle.tp_lexer.specs.declared.token.LexError.TheVariants.{NoMemory};
ghost use Rattle.std.specs.Prelude.{◌≡◌};

use crate::symbol::Symbol;
use std::alloc::{AllocError, AllocFailed};
use type_layout::{Bytes, FileName, Name, Place, Sequence};

/// A source text and the name of its file.
#[derive(Debug, Drop)]
pub struct Text {
    pub name: FileName,
    pub bytes: Bytes,
}

/// The switches that code depends on: range checks, full evaluation of Boolean operators, far calls, overlays allowed.
#[derive(Clone, Copy, Debug, PartialEq, Eq)]
pub struct Switches {
    pub r: bool,
    pub b: bool,
    pub f: bool,
    pub o: bool,
}

/// What a token is.
#[derive(Debug, Drop)]
pub enum TokenKind {
    /// A name, in upper case.
    Word(Name),
    /// A reserved word, in upper case.
    Reserved(Name),
    /// A whole number; a hexadecimal one above 7FFFFFFF stands for its value less 2 to the 32nd.
    Number(i32),
    /// A number with a fraction or an exponent.
    Real,
    /// A string constant: at most the first 255 of its bytes.
    Chars(Bytes),
    Symbol(Symbol),
    /// The switches that hold from here on.
    Switch(Switches),
    /// The sizes of the stack and of the heap, in bytes.
    Memory { stack: u32, max: u32 },
    /// A unit that is to be overlaid.
    Overlaid(Name),
}

/// A token, and the place of its first byte.
#[derive(Debug, Drop)]
pub struct Token {
    pub kind: TokenKind,
    pub place: Place,
}

/// Tokens, in order.
pub type TokenList = Sequence<Token>;

/// A feature of Turbo Pascal that this profile leaves out.
#[derive(Clone, Copy, Debug, PartialEq, Eq)]
pub enum Feature {
    Reals,
    Files,
    Gotos,
    Inline,
    Variants,
    Addresses,
    UntypedParameters,
    Absolute,
    Externals,
    Interrupts,
    Casts,
    HeapCalls,
    Blocks,
    Randoms,
    Ends,
    Params,
    Seeks,
    Objects,
    Overlays,
    Units,
    Directives,
    TypedConstants,
    NotYet,
}

/// Why a text has no tokens. A place is where the token, comment or directive begins that can't be one.
#[derive(Debug, Drop)]
pub enum LexError {
    NoMemory,
    /// A byte that begins no token.
    BadCharacter { place: Place },
    /// A comment with no closer.
    OpenComment { place: Place },
    /// A string constant whose line ends inside quotes.
    OpenString { place: Place },
    /// A number or a character code that is out of range or has no digits.
    BadNumber { place: Place },
    /// A directive of another form, with a size out of bounds, inside eight open includes, or with no condition to belong to.
    BadDirective { place: Place },
    /// The directive that opened the innermost condition that is open where its text ends.
    OpenCondition { place: Place },
    /// No text has the name.
    MissingInclude { place: Place, name: FileName },
    /// A directive that the profile leaves out.
    NotInProfile { place: Place, feature: Feature },
}

impl From<AllocError> for LexError {
    ghost from_gives = { λ _ e. e ≡ NoMemory };

    fn from(_e: AllocError) -> LexError {
        LexError::NoMemory
    }
}

impl<T: Drop> From<AllocFailed<T>> for LexError {
    ghost from_gives = { λ _ e. e ≡ NoMemory };

    fn from(_e: AllocFailed<T>) -> LexError {
        LexError::NoMemory
    }
}
