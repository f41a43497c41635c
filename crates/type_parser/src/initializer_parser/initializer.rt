//! Reading first values.

ghost use Rattle.std.specs.Prelude.{◌≡◌, ◌≤◌, IfOk, List, [], length, suc};
ghost use Rattle.pascal_grammar.specs.Productions.{no_initializers, no_field_values};
ghost use Rattle.syntax_tree.specs.Expressions.{of};
ghost use Rattle.expression_parser.specs.Gives.{Gives};
ghost use Rattle.type_parser.specs.initializer_parser.Reading.{valued_inside, initializer_at, list_at, values_at, value_list_at, field_values_at, field_list_at, field_value_at};
ghost use Rattle.type_parser.specs.initializer_parser.Views.{field_of};
ghost use Rattle.syntax_tree.specs.type_tree.Initializers.{of_initializer, initializer_list, value_list, field_list, field_value_list};

use crate::initializer_parser::list::{FieldValues, Values};
use crate::initializer_parser::lookahead::{begins_field, deeper};
use expression_parser::{ReadError, begins, identifier, mark, read_simple, skip, tail};
use pascal_grammar::{Kind, Lexeme};
use std::alloc::Global;
use syntax_tree::type_tree::{FieldValue, Initializer};

#[cycle(initializers)]
#[tactic(auto, unfolding(crate::specs::initializer_parser::Reading::initializer_by, crate::specs::initializer_parser::Reading::value_at))]
pub fn next_initializer(
    alloc: Global,
    depth: u32,
    lexemes: &[Lexeme],
) -> Result<(Initializer, &[Lexeme]), ReadError>
    ensures gives { Gives (λ x. (of_initializer x.0, x.1.now)) result (initializer_at depth (valued_inside depth) lexemes.now) }
    ensures shorter { IfOk result (λ x. length x.1.now ≤ length lexemes.now) }
{
    if begins(lexemes, Kind::Open) {
        return next_list(alloc, depth, lexemes);
    }
    let (value, rest) = read_simple(alloc, depth, lexemes)?;
    Ok((Initializer::Value(value), rest))
}

#[cycle(initializers)]
#[tactic(auto, unfolding(crate::specs::initializer_parser::Reading::list_at, crate::specs::initializer_parser::Reading::items_by))]
fn next_list(
    alloc: Global,
    depth: u32,
    lexemes: &[Lexeme],
) -> Result<(Initializer, &[Lexeme]), ReadError>
    ensures gives { Gives (λ x. (of_initializer x.0, x.1.now)) result (list_at (valued_inside depth) lexemes.now) }
    ensures shorter { IfOk result (λ x. length x.1.now ≤ length lexemes.now) }
{
    let depth = deeper(depth, lexemes)?;
    let (position, rest) = mark(lexemes, Kind::Open)?;
    if begins_field(rest) {
        let (fields, rest) = next_field_values(alloc, depth, rest)?;
        return Ok((fields.into_record(position), rest));
    }
    let (values, rest) = next_values(alloc, depth, rest)?;
    Ok((values.into_list(position), rest))
}

/// Values behind commas, at least one, with the parenthesis behind them, and what stands behind that.
#[cycle(initializers)]
#[tactic(auto, unfolding(crate::specs::initializer_parser::Reading::values_at))]
fn next_values(
    alloc: Global,
    depth: u32,
    lexemes: &[Lexeme],
) -> Result<(Values, &[Lexeme]), ReadError>
    ensures gives { Gives (λ x. (value_list x.0.items.items (of no_initializers []), x.1.now)) result (values_at (initializer_at depth (valued_inside depth)) lexemes.now) }
    ensures shorter { IfOk result (λ x. length x.1.now ≤ length lexemes.now) }
{
    let (all, rest) = next_value_list(alloc, depth, lexemes)?;
    let rest = skip(rest, Kind::Close)?;
    Ok((all, rest))
}

#[cycle(initializers)]
#[tactic(auto, unfolding(crate::specs::initializer_parser::Reading::value_list_at))]
fn next_value_list(
    alloc: Global,
    depth: u32,
    lexemes: &[Lexeme],
) -> Result<(Values, &[Lexeme]), ReadError>
    ensures gives { Gives (λ x. (initializer_list x.0.items.items (of no_initializers []), x.1.now)) result (value_list_at (initializer_at depth (valued_inside depth)) lexemes.now) }
    ensures shorter { IfOk result (λ x. length x.1.now ≤ length lexemes.now) }
{
    let mut all = Values::new(alloc);
    let (first, mut rest) = next_initializer(alloc, depth, lexemes)?;
    all.push(first)?;
    'commas: while begins(rest, Kind::Comma) {
        let (next, after) = next_initializer(alloc, depth, tail(rest))?;
        all.push(next)?;
        rest = after;
    }
    Ok((all, rest))
}

/// Values of fields behind semicolons, at least one, with the parenthesis behind them, and what stands behind that.
#[cycle(initializers)]
#[tactic(auto, unfolding(crate::specs::initializer_parser::Reading::field_values_at))]
fn next_field_values(
    alloc: Global,
    depth: u32,
    lexemes: &[Lexeme],
) -> Result<(FieldValues, &[Lexeme]), ReadError>
    ensures gives { Gives (λ x. (field_value_list x.0.items.items (of no_field_values []), x.1.now)) result (field_values_at (initializer_at depth (valued_inside depth)) lexemes.now) }
    ensures shorter { IfOk result (λ x. length x.1.now ≤ length lexemes.now) }
{
    let (all, rest) = next_field_list(alloc, depth, lexemes)?;
    let rest = skip(rest, Kind::Close)?;
    Ok((all, rest))
}

#[cycle(initializers)]
#[tactic(auto, unfolding(crate::specs::initializer_parser::Reading::field_list_at))]
fn next_field_list(
    alloc: Global,
    depth: u32,
    lexemes: &[Lexeme],
) -> Result<(FieldValues, &[Lexeme]), ReadError>
    ensures gives { Gives (λ x. (field_list x.0.items.items (of no_field_values []), x.1.now)) result (field_list_at (initializer_at depth (valued_inside depth)) lexemes.now) }
    ensures shorter { IfOk result (λ x. length x.1.now ≤ length lexemes.now) }
{
    let mut all = FieldValues::new(alloc);
    let (first, mut rest) = next_field(alloc, depth, lexemes)?;
    all.push(first)?;
    'semicolons: while begins(rest, Kind::Semicolon) {
        let (next, after) = next_field(alloc, depth, tail(rest))?;
        all.push(next)?;
        rest = after;
    }
    Ok((all, rest))
}

/// The name of a field with its value, and what stands behind it.
#[cycle(initializers)]
#[tactic(auto, unfolding(crate::specs::initializer_parser::Reading::field_value_at))]
fn next_field(
    alloc: Global,
    depth: u32,
    lexemes: &[Lexeme],
) -> Result<(FieldValue, &[Lexeme]), ReadError>
    ensures gives { Gives (λ x. (field_of x.0, x.1.now)) result (field_value_at (initializer_at depth (valued_inside depth)) lexemes.now) }
    ensures shorter { IfOk result (λ x. suc (length x.1.now) ≤ length lexemes.now) }
{
    let (name, rest) = identifier(lexemes)?;
    let rest = skip(rest, Kind::Colon)?;
    let (value, rest) = next_initializer(alloc, depth, rest)?;
    Ok((FieldValue::Field { name, value }, rest))
}
