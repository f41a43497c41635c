//! What stands in front of the lexemes.

ghost use Rattle.std.specs.Prelude.{◌≡◌, IfOk, Ok, suc};
ghost use Rattle.pascal_grammar.specs.Asked.{direction};
ghost use Rattle.ll1_grammar.specs.Readers.{enter};
ghost use Rattle.syntax_tree.specs.Statements.{arms_end, direction_of};
ghost use Rattle.expression_parser.specs.Gives.{Gives, ask};
ghost use Rattle.pascal_grammar.specs.Lexemes.{front_kind};
ghost use Rattle.expression_parser.specs.statement_parser.Starting.{statement_start, behind_designator, behind_arguments, behind_with, ends_arms};
ghost use Rattle.expression_parser.specs.statement_parser.Reading.{statement_parts, within, arm_follows, arms_end_at};

use crate::{ReadError, begins, tail};
use pascal_grammar::{Direction, Kind, Lexeme, front_kind};
use syntax_tree::PlacedDirection;

/// What the first lexeme begins where a statement is due.
#[derive(Clone, Copy, Debug, PartialEq, Eq)]
pub enum StatementStart {
    Compound,
    If,
    Case,
    While,
    Repeat,
    For,
    With,
    Goto,
    Inline,
    Named,
    Nothing,
}

/// What stands behind the designator that a statement begins with.
#[derive(Clone, Copy, Debug, PartialEq, Eq)]
pub enum BehindDesignator {
    Becomes,
    Arguments,
    Nothing,
}

/// What stands behind the arguments of a statement. All but nothing would make them a cast.
#[derive(Clone, Copy, Debug, PartialEq, Eq)]
pub enum BehindArguments {
    Becomes,
    Caret,
    Dot,
    Bracket,
    Nothing,
}

/// What stands behind a designator of a `with`.
#[derive(Clone, Copy, Debug, PartialEq, Eq)]
pub enum BehindWith {
    Comma,
    Cast,
    /// The word `do` is due.
    Do,
}

/// What the first lexeme begins where a statement is due.
pub fn statement_start(lexemes: &[Lexeme]) -> StatementStart
    ensures { result ≡ statement_start (front_kind lexemes.now) }
{
    match front_kind(lexemes) {
        Some(Kind::Begin) => StatementStart::Compound,
        Some(Kind::If) => StatementStart::If,
        Some(Kind::Case) => StatementStart::Case,
        Some(Kind::While) => StatementStart::While,
        Some(Kind::Repeat) => StatementStart::Repeat,
        Some(Kind::For) => StatementStart::For,
        Some(Kind::With) => StatementStart::With,
        Some(Kind::Goto) => StatementStart::Goto,
        Some(Kind::Inline) => StatementStart::Inline,
        Some(kind) if kind.is_name() => StatementStart::Named,
        _ => StatementStart::Nothing,
    }
}

/// What stands behind the designator that a statement begins with.
pub fn behind_designator(lexemes: &[Lexeme]) -> BehindDesignator
    ensures { result ≡ behind_designator (front_kind lexemes.now) }
{
    match front_kind(lexemes) {
        Some(Kind::Becomes) => BehindDesignator::Becomes,
        Some(Kind::Open) => BehindDesignator::Arguments,
        _ => BehindDesignator::Nothing,
    }
}

/// What stands behind the arguments of a statement.
pub fn behind_arguments(lexemes: &[Lexeme]) -> BehindArguments
    ensures { result ≡ behind_arguments (front_kind lexemes.now) }
{
    match front_kind(lexemes) {
        Some(Kind::Becomes) => BehindArguments::Becomes,
        Some(Kind::Caret) => BehindArguments::Caret,
        Some(Kind::Dot) => BehindArguments::Dot,
        Some(Kind::OpenBracket) => BehindArguments::Bracket,
        _ => BehindArguments::Nothing,
    }
}

/// What stands behind a designator of a `with`.
pub fn behind_with(lexemes: &[Lexeme]) -> BehindWith
    ensures { result ≡ behind_with (front_kind lexemes.now) }
{
    match front_kind(lexemes) {
        Some(Kind::Comma) => BehindWith::Comma,
        Some(Kind::Open) => BehindWith::Cast,
        _ => BehindWith::Do,
    }
}

fn ends_arms(lexemes: &[Lexeme]) -> bool
    ensures { result ≡ ends_arms (front_kind lexemes.now) }
{
    matches!(front_kind(lexemes), Some(Kind::Else | Kind::End))
}

/// The `to` or `downto` that stands there, and what stands behind it.
pub fn read_direction(lexemes: &[Lexeme]) -> Result<(PlacedDirection, &[Lexeme]), ReadError>
    ensures gives { Gives (λ x. (direction_of x.0, x.1.now)) result (ask direction lexemes.now) }
{
    match lexemes {
        [lexeme, rest @ ..] => match Direction::of(lexeme.kind()) {
            Some(direction) => {
                let placed = PlacedDirection {
                    direction,
                    position: lexeme.position,
                };
                Ok((placed, rest))
            }
            None => Err(ReadError::Syntax(lexemes.len())),
        },
        [] => Err(ReadError::Syntax(0)),
    }
}

/// Whether one more arm of a `case` stands behind a semicolon.
pub fn arm_follows(lexemes: &[Lexeme]) -> bool
    ensures { result ≡ arm_follows lexemes.now }
{
    begins(lexemes, Kind::Semicolon) && !ends_arms(tail(lexemes))
}

/// Whether a semicolon stands there, behind the last arm of a `case`, and what stands behind it.
#[tactic(auto, unfolding(crate::specs::statement_parser::Reading::arms_end_by))]
pub fn last_semicolon(lexemes: &[Lexeme]) -> (bool, &[Lexeme])
    ensures { arms_end_at lexemes.now ≡ Ok (arms_end result.0, result.1.now) }
{
    if begins(lexemes, Kind::Semicolon) {
        return (true, tail(lexemes));
    }
    (false, lexemes)
}

/// The number of constructs that may be open inside one more, which the first lexeme opens.
#[tactic(auto, unfolding(crate::specs::statement_parser::Reading::within))]
pub fn deeper(depth: u32, lexemes: &[Lexeme]) -> Result<u32, ReadError>
    ensures gives { Gives (λ d. (d, statement_parts d (within d))) result (enter (within depth) lexemes.now) }
    ensures less { IfOk result (λ d. depth ≡ suc d) }
{
    if depth == 0 {
        return Err(ReadError::TooDeep(lexemes.len()));
    }
    Ok(depth - 1)
}
