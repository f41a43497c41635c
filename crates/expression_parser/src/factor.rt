//! Factors of a lexeme or two, and what may stand behind a call.

ghost use Rattle.std.specs.Prelude.{◌≡◌, List, [], ◌∷◌};
ghost use Rattle.pascal_grammar.specs.Lexemes.{front_kind};
ghost use Rattle.pascal_grammar.specs.Productions.{bare_factor, argument_end};
ghost use Rattle.ll1_grammar.specs.Readers.{made};
ghost use Rattle.syntax_tree.specs.Expressions.{of, of_factor};
ghost use Rattle.expression_parser.specs.Gives.{Gives};
ghost use Rattle.expression_parser.specs.Reading.{wrapped, plain_at, control_at, argument_end_at};

use crate::error::ReadError;
use crate::lexemes::{letter, mark, number, text};
use crate::lookahead::{PlainStart, SelectorStart, plain_start, selector_start};
use pascal_grammar::{Kind, Lexeme, Omission};
use std::alloc::Global;
use syntax_tree::Factor;

/// A factor of one lexeme that is no name, and what stands behind it.
#[tactic(auto, unfolding(crate::specs::Reading::plain_by))]
pub fn plain_factor(alloc: Global, lexemes: &[Lexeme]) -> Result<(Factor, &[Lexeme]), ReadError>
    ensures { Gives (λ x. (of_factor x.0, x.1.now)) result (wrapped plain_at lexemes.now) }
{
    match plain_start(lexemes) {
        PlainStart::Number => {
            let (value, position, rest) = number(lexemes)?;
            Ok((Factor::Number { value, position }, rest))
        }
        PlainStart::Text => {
            let (bytes, position, rest) = text(alloc, lexemes)?;
            Ok((Factor::Text { bytes, position }, rest))
        }
        PlainStart::Nil => {
            let (position, rest) = mark(lexemes, Kind::Nil)?;
            Ok((Factor::Nil { position }, rest))
        }
        PlainStart::Real => Err(ReadError::LeftOut(Omission::Real, lexemes.len())),
        PlainStart::Address => Err(ReadError::LeftOut(Omission::Address, lexemes.len())),
        PlainStart::Nothing => Err(ReadError::Syntax(lexemes.len())),
    }
}

/// A control character, and what stands behind it.
#[tactic(auto, unfolding(crate::specs::Reading::control_at))]
pub fn control_factor(lexemes: &[Lexeme]) -> Result<(Factor, &[Lexeme]), ReadError>
    ensures { Gives (λ x. (of_factor x.0, x.1.now)) result (made bare_factor (control_at ∷ []) lexemes.now) }
{
    let (position, rest) = mark(lexemes, Kind::Caret)?;
    let (letter, rest) = letter(rest)?;
    Ok((Factor::Control { position, letter }, rest))
}

/// Sees that no selector stands behind a call: with one the call would be a cast, which is left out.
#[tactic(auto, unfolding(crate::specs::Reading::argument_end_by))]
pub fn call_end(lexemes: &[Lexeme]) -> Result<(), ReadError>
    ensures { Gives (λ x. (of argument_end [], lexemes.now)) result (argument_end_at lexemes.now) }
{
    match selector_start(lexemes) {
        Some(SelectorStart::Dereference) => Err(ReadError::LeftOut(
            Omission::CaretCast,
            lexemes.len(),
        )),
        Some(SelectorStart::Field) => Err(ReadError::LeftOut(Omission::DotCast, lexemes.len())),
        Some(SelectorStart::Index) => Err(ReadError::LeftOut(Omission::BracketCast, lexemes.len())),
        None => Ok(()),
    }
}
