//! Parameters and results.

ghost use Rattle.std.specs.Prelude.{◌≡◌, ◌≤◌, IfOk, List, [], ◌∷◌, length};
ghost use Rattle.expression_parser.specs.Gives.{Gives};
ghost use Rattle.pascal_grammar.specs.Productions.{typed_group, no_groups};
ghost use Rattle.syntax_tree.specs.Expressions.{of, word};
ghost use Rattle.expression_parser.specs.Reading.{inside};
ghost use Rattle.type_parser.specs.parameter_parser.Reading.{parameter_type_at, result_type_at, result_at, group_type_at, group_at, group_list_at, parameters_at};
ghost use Rattle.syntax_tree.specs.type_tree.Parameters.{parameter_type_of, result_type_of, result_of, of_group, group_list, parameters_of};

use crate::parameter_parser::list::push;
use crate::parameter_parser::lookahead::deeper;
use crate::parameter_parser::names::next_identifiers;
use expression_parser::{ReadError, begins, identifier, mark, skip, tail};
use pascal_grammar::{Kind, Lexeme, Omission};
use std::alloc::Global;
use syntax_tree::type_tree::{NamedType, ParameterGroup};

/// The type of a parameter, and what stands behind it.
#[tactic(auto, unfolding(crate::specs::parameter_parser::Reading::parameter_type_by))]
fn parameter_type(lexemes: &[Lexeme]) -> Result<(NamedType, &[Lexeme]), ReadError>
    ensures gives { Gives (λ x. (parameter_type_of x.0, x.1.now)) result (parameter_type_at lexemes.now) }
    ensures shorter { IfOk result (λ x. length x.1.now ≤ length lexemes.now) }
{
    if begins(lexemes, Kind::String) {
        let (position, rest) = mark(lexemes, Kind::String)?;
        return Ok((NamedType::String(position), rest));
    }
    if begins(lexemes, Kind::File) {
        return Err(ReadError::LeftOut(Omission::ParameterFile, lexemes.len()));
    }
    let (name, rest) = identifier(lexemes)?;
    Ok((NamedType::Name(name), rest))
}

/// The type of a result, and what stands behind it.
#[tactic(auto, unfolding(crate::specs::parameter_parser::Reading::result_type_by))]
pub fn next_result_type(lexemes: &[Lexeme]) -> Result<(NamedType, &[Lexeme]), ReadError>
    ensures gives { Gives (λ x. (result_type_of x.0, x.1.now)) result (result_type_at lexemes.now) }
    ensures shorter { IfOk result (λ x. length x.1.now ≤ length lexemes.now) }
{
    if begins(lexemes, Kind::String) {
        let (position, rest) = mark(lexemes, Kind::String)?;
        return Ok((NamedType::String(position), rest));
    }
    let (name, rest) = identifier(lexemes)?;
    Ok((NamedType::Name(name), rest))
}

/// The colon and the type of a result, if they stand there, and what stands behind them.
#[tactic(auto, unfolding(crate::specs::parameter_parser::Reading::result_by))]
pub fn next_result(lexemes: &[Lexeme]) -> Result<(Option<NamedType>, &[Lexeme]), ReadError>
    ensures gives { Gives (λ x. (result_of x.0, x.1.now)) result (result_at lexemes.now) }
    ensures shorter { IfOk result (λ x. length x.1.now ≤ length lexemes.now) }
{
    if !begins(lexemes, Kind::Colon) {
        return Ok((None, lexemes));
    }
    let rest = skip(lexemes, Kind::Colon)?;
    let (of, rest) = next_result_type(rest)?;
    Ok((Some(of), rest))
}

/// The type of variable parameters with its colon, and what stands behind it. Without a type they are left out.
#[tactic(auto, unfolding(crate::specs::parameter_parser::Reading::group_type_by))]
fn group_type(lexemes: &[Lexeme]) -> Result<(NamedType, &[Lexeme]), ReadError>
    ensures gives { Gives (λ x. (of typed_group (word ∷ parameter_type_of x.0 ∷ []), x.1.now)) result (group_type_at lexemes.now) }
    ensures shorter { IfOk result (λ x. length x.1.now ≤ length lexemes.now) }
{
    if begins(lexemes, Kind::Semicolon) {
        return Err(ReadError::LeftOut(Omission::UntypedBeforeGroup, lexemes.len()));
    }
    if begins(lexemes, Kind::Close) {
        return Err(ReadError::LeftOut(Omission::UntypedLast, lexemes.len()));
    }
    let rest = skip(lexemes, Kind::Colon)?;
    let (of, rest) = parameter_type(rest)?;
    Ok((of, rest))
}

/// Parameters of one type, and what stands behind them.
#[tactic(auto, unfolding(crate::specs::parameter_parser::Reading::group_by))]
fn group(alloc: Global, lexemes: &[Lexeme]) -> Result<(ParameterGroup, &[Lexeme]), ReadError>
    ensures gives { Gives (λ x. (of_group x.0, x.1.now)) result (group_at lexemes.now) }
    ensures shorter { IfOk result (λ x. length x.1.now ≤ length lexemes.now) }
{
    if begins(lexemes, Kind::Var) {
        let (position, rest) = mark(lexemes, Kind::Var)?;
        let (names, rest) = next_identifiers(alloc, rest)?;
        let (of, rest) = group_type(rest)?;
        let whole = ParameterGroup::Variable {
            position,
            names,
            of,
        };
        return Ok((whole, rest));
    }
    let (names, rest) = next_identifiers(alloc, lexemes)?;
    let rest = skip(rest, Kind::Colon)?;
    let (of, rest) = parameter_type(rest)?;
    Ok((ParameterGroup::Value { names, of }, rest))
}

/// The groups between parentheses, at least one, and what stands behind them.
#[tactic(auto, unfolding(crate::specs::parameter_parser::Reading::group_list_at))]
fn groups(alloc: Global, lexemes: &[Lexeme]) -> Result<(Vec<ParameterGroup>, &[Lexeme]), ReadError>
    ensures gives { Gives (λ x. (group_list x.0.items (of no_groups []), x.1.now)) result (group_list_at lexemes.now) }
    ensures shorter { IfOk result (λ x. length x.1.now ≤ length lexemes.now) }
{
    let mut all = Vec::new(alloc);
    let (first, mut rest) = group(alloc, lexemes)?;
    push(&mut all, first)?;
    'semicolons: while begins(rest, Kind::Semicolon) {
        let (next, after) = group(alloc, tail(rest))?;
        push(&mut all, next)?;
        rest = after;
    }
    Ok((all, rest))
}

/// The parameters in parentheses, if they stand there, and what stands behind them, where at most `depth` constructs may be
/// open at once.
#[tactic(auto, unfolding(crate::specs::parameter_parser::Reading::parameters_by))]
pub fn next_parameters(
    alloc: Global,
    depth: u32,
    lexemes: &[Lexeme],
) -> Result<(Vec<ParameterGroup>, &[Lexeme]), ReadError>
    ensures gives { Gives (λ x. (parameters_of x.0.items, x.1.now)) result (parameters_at (inside depth) lexemes.now) }
    ensures shorter { IfOk result (λ x. length x.1.now ≤ length lexemes.now) }
{
    if !begins(lexemes, Kind::Open) {
        return Ok((Vec::new(alloc), lexemes));
    }
    deeper(depth, lexemes)?;
    let rest = skip(lexemes, Kind::Open)?;
    let (all, rest) = groups(alloc, rest)?;
    let rest = skip(rest, Kind::Close)?;
    Ok((all, rest))
}
