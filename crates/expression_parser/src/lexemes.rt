//! Single lexemes.

ghost use Rattle.std.specs.Prelude.{◌≡◌, ◌≤◌, IfOk, length, suc};
ghost use Rattle.syntax_tree.specs.Expressions.{word, name_of, mark_at};
ghost use Rattle.expression_parser.specs.Gives.{Gives, ask, word_at, mark_of, name_at, letter_at, number_at, text_at, number_of, text_of};

use crate::error::ReadError;
use pascal_grammar::{Kind, Lexeme, NameClass, Position, Terminal};
use std::alloc::Global;
use syntax_tree::Identifier;
use type_layout::Bytes;

/// What stands behind this word or symbol.
pub fn skip(lexemes: &[Lexeme], want: Kind) -> Result<&[Lexeme], ReadError>
    ensures gives { Gives (λ rest. (word, rest.now)) result (ask (word_at want) lexemes.now) }
    ensures shorter { IfOk result (λ rest. suc (length rest.now) ≤ length lexemes.now) }
{
    match lexemes {
        [lexeme, rest @ ..] if lexeme.kind() == want => Ok(rest),
        _ => Err(ReadError::Syntax(lexemes.len())),
    }
}

/// The position of this word or symbol, and what stands behind it.
pub fn mark(lexemes: &[Lexeme], want: Kind) -> Result<(Position, &[Lexeme]), ReadError>
    ensures gives { Gives (λ x. (mark_at x.0, x.1.now)) result (ask (mark_of want) lexemes.now) }
    ensures shorter { IfOk result (λ x. suc (length x.1.now) ≤ length lexemes.now) }
{
    match lexemes {
        [lexeme, rest @ ..] if lexeme.kind() == want => Ok((lexeme.position, rest)),
        _ => Err(ReadError::Syntax(lexemes.len())),
    }
}

/// The name that stands there, and what stands behind it.
pub fn identifier(lexemes: &[Lexeme]) -> Result<(Identifier, &[Lexeme]), ReadError>
    ensures gives { Gives (λ x. (name_of x.0, x.1.now)) result (name_at lexemes.now) }
    ensures shorter { IfOk result (λ x. suc (length x.1.now) ≤ length lexemes.now) }
{
    match lexemes {
        [
            Lexeme {
                terminal: Terminal::Name(_, name),
                position,
            },
            rest @ ..,
        ] => {
            let found = Identifier {
                name: name.copied(),
                position: *position,
            };
            Ok((found, rest))
        }
        _ => Err(ReadError::Syntax(lexemes.len())),
    }
}

/// The name of one letter that stands there, and what stands behind it.
pub fn letter(lexemes: &[Lexeme]) -> Result<(Identifier, &[Lexeme]), ReadError>
    ensures gives { Gives (λ x. (name_of x.0, x.1.now)) result (letter_at lexemes.now) }
    ensures shorter { IfOk result (λ x. suc (length x.1.now) ≤ length lexemes.now) }
{
    match lexemes {
        [
            Lexeme {
                terminal: Terminal::Name(NameClass::Letter, name),
                position,
            },
            rest @ ..,
        ] => {
            let found = Identifier {
                name: name.copied(),
                position: *position,
            };
            Ok((found, rest))
        }
        _ => Err(ReadError::Syntax(lexemes.len())),
    }
}

/// The number that stands there, its position, and what stands behind it.
pub fn number(lexemes: &[Lexeme]) -> Result<(i32, Position, &[Lexeme]), ReadError>
    ensures gives { Gives (λ x. (number_of x.0 x.1, x.2.now)) result (number_at lexemes.now) }
    ensures shorter { IfOk result (λ x. suc (length x.2.now) ≤ length lexemes.now) }
{
    match lexemes {
        [
            Lexeme {
                terminal: Terminal::Number(value),
                position,
            },
            rest @ ..,
        ] => Ok((*value, *position, rest)),
        _ => Err(ReadError::Syntax(lexemes.len())),
    }
}

/// The string constant that stands there, its position, and what stands behind it.
pub fn text(alloc: Global, lexemes: &[Lexeme]) -> Result<(Bytes, Position, &[Lexeme]), ReadError>
    ensures gives { Gives (λ x. (text_of x.0 x.1, x.2.now)) result (text_at lexemes.now) }
    ensures shorter { IfOk result (λ x. suc (length x.2.now) ≤ length lexemes.now) }
{
    match lexemes {
        [
            Lexeme {
                terminal: Terminal::Text(bytes),
                position,
            },
            rest @ ..,
        ] => Ok((bytes.copied(alloc)?, *position, rest)),
        _ => Err(ReadError::Syntax(lexemes.len())),
    }
}
