//! Selectors that hold no expression.

ghost use Rattle.std.specs.Prelude.{◌≡◌, ◌<◌, IfErr, IfOk};
ghost use Rattle.expression_parser.specs.Gives.{Fails};
ghost use Rattle.expression_parser.specs.Reading.{inside, field_at, dereference_at, selectors_at};
ghost use Rattle.expression_parser.specs.Views.{with_front, named_with};

use crate::error::ReadError;
use crate::lexemes::{identifier, mark};
use crate::lookahead::deeper;
use crate::node::{field_of, target_of};
use pascal_grammar::{Kind, Lexeme};
use std::alloc::Global;
use syntax_tree::Designator;

/// What was read with the field behind it, how many constructs may be open behind that, and what stands there.
#[tactic(auto, unfolding(crate::specs::Reading::field_at))]
pub fn field_behind(
    alloc: Global,
    depth: u32,
    owner: Designator,
    lexemes: &[Lexeme],
) -> Result<(Designator, u32, &[Lexeme]), ReadError>
    ensures goes { IfOk result (λ x. with_front (named_with x.0) (selectors_at (inside x.1) x.2.now) ≡ with_front (named_with owner) (field_at (inside depth) lexemes.now)) }
    ensures less { IfOk result (λ x. x.1 < depth) }
    ensures err { IfErr result (λ e. Fails e (with_front (named_with owner) (field_at (inside depth) lexemes.now))) }
{
    let left = deeper(depth, lexemes)?;
    let (position, rest) = mark(lexemes, Kind::Dot)?;
    let (name, rest) = identifier(rest)?;
    let all = field_of(alloc, owner, position, name)?;
    Ok((all, left, rest))
}

/// The same with a `^` behind it.
#[tactic(auto, unfolding(crate::specs::Reading::dereference_at))]
pub fn target_behind(
    alloc: Global,
    depth: u32,
    owner: Designator,
    lexemes: &[Lexeme],
) -> Result<(Designator, u32, &[Lexeme]), ReadError>
    ensures goes { IfOk result (λ x. with_front (named_with x.0) (selectors_at (inside x.1) x.2.now) ≡ with_front (named_with owner) (dereference_at (inside depth) lexemes.now)) }
    ensures less { IfOk result (λ x. x.1 < depth) }
    ensures err { IfErr result (λ e. Fails e (with_front (named_with owner) (dereference_at (inside depth) lexemes.now))) }
{
    let left = deeper(depth, lexemes)?;
    let (position, rest) = mark(lexemes, Kind::Caret)?;
    let all = target_of(alloc, owner, position)?;
    Ok((all, left, rest))
}
