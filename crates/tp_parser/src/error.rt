//! Why tokens are no source.

ghost use Rattle.std.specs.Prelude.{◌≡◌};
ghost use Rattle.tp_parser.specs.declared.error.ParseError.TheVariants.{NoMemory};
ghost use Rattle.tp_parser.specs.Parsing.{last_place, place_at, placed};

use expression_parser::ReadError;
use pascal_grammar::Lexeme;
use std::alloc::AllocError;
use tp_lexer::{Feature, Token};
use type_layout::Place;

/// Why tokens are no source. A place is that of the token at fault; where the tokens end too early it is that of the last
/// token, and where there is none it is line 1, column 1 of the first text.
#[derive(Debug, Drop)]
pub enum ParseError {
    NoMemory,
    /// No source begins with the tokens up to this one, or none ends here.
    Syntax { place: Place },
    /// The same, but the full language has a source that begins so; the profile leaves the feature out.
    NotInProfile { place: Place, feature: Feature },
    /// The token opens one construct more than may be open at once.
    TooDeep { place: Place },
}

impl From<AllocError> for ParseError {
    ghost from_gives = { λ _ e. e ≡ NoMemory };

    fn from(_e: AllocError) -> ParseError {
        ParseError::NoMemory
    }
}

// The place of the last token.
fn last_place(tokens: &[Token]) -> Place
    ensures { result ≡ last_place tokens.now }
{
    match tokens.last() {
        Some(token) => token.place,
        None => Place {
            text: 0,
            line: 1,
            column: 1,
        },
    }
}

// The place of the lexeme from which so many are left, and at the end that of the last token.
fn place_at(tokens: &[Token], lexemes: &[Lexeme], left: usize) -> Place
    ensures { result ≡ place_at tokens.now lexemes.now left }
{
    match lexemes.get(lexemes.len().saturating_sub(left)) {
        Some(lexeme) => lexeme.position.place,
        None => last_place(tokens),
    }
}

impl ParseError {
    /// The fault with its place, in tokens whose lexemes these are.
    pub fn placed(tokens: &[Token], lexemes: &[Lexeme], error: ReadError) -> ParseError
        ensures { result ≡ placed tokens.now lexemes.now error }
    {
        match error {
            ReadError::NoMemory => ParseError::NoMemory,
            ReadError::Syntax(left) => ParseError::Syntax {
                place: place_at(tokens, lexemes, left),
            },
            ReadError::LeftOut(omission, left) => ParseError::NotInProfile {
                place: place_at(tokens, lexemes, left),
                feature: omission.feature(),
            },
            ReadError::TooDeep(left) => ParseError::TooDeep {
                place: place_at(tokens, lexemes, left),
            },
        }
    }
}
