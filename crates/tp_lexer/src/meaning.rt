//! What bytes of a shape stand for.

ghost use Rattle.std.specs.Prelude.{◌≡◌, ◌≤◌, IfOk};
ghost use Rattle.tp_lexer.specs.Pieces.{symbol_piece, number_piece, word_piece, constant_piece, bracket_len, body_of, comment_piece, piece_of, passed_keyword, passed_comment, passed_of};

use crate::characters::byte_at;
use crate::constant::content_of;
use crate::directive::{Keyword, directive_piece, keyword_of, word_at};
use crate::piece::{Fault, Passed, Piece};
use crate::shape::Shape;
use crate::symbol::{Symbol, symbol_of};
use crate::token::TokenKind;
use crate::value::number_of;
use crate::word::{name_of, word_of};
use std::alloc::{AllocError, Global};
use type_layout::{Bytes, Name};

fn symbol_piece(symbol: Option<Symbol>) -> Piece
    ensures { result ≡ symbol_piece symbol }
{
    match symbol {
        None => Piece::Fault(Fault::BadCharacter),
        Some(symbol) => Piece::Token(TokenKind::Symbol(symbol)),
    }
}

fn number_piece(number: Option<u32>) -> Piece
    ensures { result ≡ number_piece number }
{
    match number {
        None => Piece::Fault(Fault::BadNumber),
        Some(number) => Piece::Token(TokenKind::Number(number.cast_signed())),
    }
}

fn word_piece(name: Option<Name>) -> Piece
    ensures { result ≡ word_piece name }
{
    match name {
        None => Piece::Fault(Fault::BadCharacter),
        Some(name) => Piece::Token(word_of(name)),
    }
}

fn constant_piece(content: Option<Bytes>) -> Piece
    ensures { result ≡ constant_piece content }
{
    match content {
        None => Piece::Fault(Fault::BadNumber),
        Some(text) => Piece::Token(TokenKind::Chars(text)),
    }
}

fn bracket_len(comment: &[u8]) -> usize
    ensures exact { result ≡ bracket_len comment.now }
    ensures short { result ≤ 2 }
{
    if byte_at(comment, 0) == b'{' { 1 } else { 2 }
}

// What stands between the brackets.
fn body_of(comment: &[u8]) -> &[u8]
    ensures { result.now ≡ body_of comment.now }
{
    let bracket = bracket_len(comment);
    if comment.len() < bracket {
        return &[];
    }
    let rest = comment.split_at(bracket).1;
    rest.split_at(rest.len().saturating_sub(bracket)).0
}

fn comment_piece(alloc: Global, body: &[u8]) -> Result<Piece, AllocError>
    ensures { IfOk result (λ piece. piece ≡ comment_piece body.now) }
{
    if byte_at(body, 0) == b'$' {
        directive_piece(alloc, &body[1..])
    } else {
        Ok(Piece::Gap)
    }
}

/// What bytes of a shape stand for where text is read.
pub fn piece_of(alloc: Global, shape: Shape, bytes: &[u8]) -> Result<Piece, AllocError>
    ensures { IfOk result (λ piece. piece ≡ piece_of shape bytes.now) }
{
    match shape {
        Shape::Blank => Ok(Piece::Gap),
        Shape::Word => Ok(word_piece(name_of(bytes))),
        Shape::Decimal | Shape::Hexadecimal => Ok(number_piece(number_of(bytes))),
        Shape::Real => Ok(Piece::Token(TokenKind::Real)),
        Shape::Constant => Ok(constant_piece(content_of(alloc, bytes)?)),
        Shape::OpenConstant => Ok(Piece::Fault(Fault::OpenString)),
        Shape::Comment => comment_piece(alloc, body_of(bytes)),
        Shape::OpenComment => Ok(Piece::Fault(Fault::OpenComment)),
        Shape::Symbol => Ok(symbol_piece(symbol_of(bytes))),
        Shape::Other => Ok(Piece::Fault(Fault::BadCharacter)),
    }
}

fn passed_keyword(keyword: Option<Keyword>) -> Passed
    ensures { result ≡ passed_keyword keyword }
{
    match keyword {
        Some(Keyword::IfDefined | Keyword::IfUndefined | Keyword::IfOption) => Passed::Opens,
        Some(Keyword::Else) => Passed::Else,
        Some(Keyword::EndIf) => Passed::EndIf,
        _ => Passed::Nothing,
    }
}

fn passed_comment(body: &[u8]) -> Passed
    ensures { result ≡ passed_comment body.now }
{
    if byte_at(body, 0) == b'$' {
        passed_keyword(keyword_of(word_at(&body[1..])))
    } else {
        Passed::Nothing
    }
}

/// What bytes of a shape mean where text is skipped.
pub fn passed_of(shape: Shape, bytes: &[u8]) -> Passed
    ensures { result ≡ passed_of shape bytes.now }
{
    match shape {
        Shape::Comment => passed_comment(body_of(bytes)),
        Shape::OpenComment => Passed::OpenComment,
        _ => Passed::Nothing,
    }
}
