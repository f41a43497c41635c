//! What a spelling stands for.

use crate::directive::Directive;
use crate::token::TokenKind;

/// A rule that a spelling breaks.
#[derive(Clone, Copy, Debug, PartialEq, Eq)]
pub enum Fault {
    BadCharacter,
    OpenComment,
    OpenString,
    BadNumber,
    BadDirective,
    LeftOut,
}

/// What a spelling stands for.
#[derive(Debug, Drop)]
pub enum Piece {
    /// A blank or a comment.
    Gap,
    Token(TokenKind),
    Directive(Directive),
    Fault(Fault),
}

/// What a spelling means in text that a condition skips.
#[derive(Clone, Copy, Debug, PartialEq, Eq)]
pub enum Passed {
    Nothing,
    /// A condition, whatever it asks.
    Opens,
    Else,
    EndIf,
    OpenComment,
}
