//! Reading expressions.

ghost use Rattle.std.specs.Prelude.{◌≡◌, ◌<◌, IfErr, IfOk, List, [], ◌∷◌};
ghost use Rattle.pascal_grammar.specs.Productions.{bare_factor, no_terms, no_factors, no_selectors, no_more_elements, no_more_arguments};
ghost use Rattle.ll1_grammar.specs.Readers.{made};
ghost use Rattle.syntax_tree.specs.Expressions.{of, of_expression, of_simple, of_term, of_factor, of_element, of_argument, head_of, selectors};
ghost use Rattle.expression_parser.specs.Gives.{Gives, Fails};
ghost use Rattle.expression_parser.specs.Reading.{inside, expression_at, simple_at, term_at, factor_at, wrapped, closed_factor_at, set_at, named_factor_at, named_at, index_at, selector_by, selectors_at, arguments_at, argument_list_at, argument_at, elements_at, element_at};
ghost use Rattle.expression_parser.specs.Views.{elements_of, arguments_of, argument_list, with_front, named_with};

use crate::error::ReadError;
use crate::factor::{call_end, control_factor, plain_factor};
use crate::lexemes::{identifier, mark, skip};
use crate::list::{Arguments, Elements};
use crate::lookahead::{
    ClosedStart, FactorStart, SelectorStart, adder, begins, closed_start, deeper, factor_start,
    multiplier, optional_sign, relator, selector_start, tail,
};
use crate::node::{compared, element_of, group, leading, lone, negation, product, single, sum};
use crate::selector::{field_behind, target_behind};
use pascal_grammar::{Kind, Lexeme, Omission};
use std::alloc::Global;
use syntax_tree::{
    Argument, Designator, Element, Expression, Factor, IndexMark, SimpleExpression, Term,
};

#[cycle(expressions)]
#[tactic(auto, unfolding(crate::specs::Reading::expression_at, crate::specs::Reading::relation_by))]
pub fn next_expression(
    alloc: Global,
    depth: u32,
    lexemes: &[Lexeme],
) -> Result<(Expression, &[Lexeme]), ReadError>
    ensures gives { Gives (λ x. (of_expression x.0, x.1.now)) result (expression_at (inside depth) lexemes.now) }
{
    let (left, rest) = next_simple(alloc, depth, lexemes)?;
    match relator(rest) {
        None => {
            let whole = single(alloc, left)?;
            Ok((whole, rest))
        }
        Some(operator) => {
            let (right, rest) = next_simple(alloc, depth, tail(rest))?;
            let whole = compared(alloc, left, operator, right)?;
            Ok((whole, rest))
        }
    }
}

#[cycle(expressions)]
#[tactic(auto, unfolding(crate::specs::Reading::simple_by, crate::specs::Reading::terms_by))]
pub fn next_simple(
    alloc: Global,
    depth: u32,
    lexemes: &[Lexeme],
) -> Result<(SimpleExpression, &[Lexeme]), ReadError>
    ensures gives { Gives (λ x. (of_simple x.0 (of no_terms []), x.1.now)) result (simple_at (inside depth) lexemes.now) }
{
    let (sign, after) = optional_sign(lexemes);
    let (first, mut rest) = next_term(alloc, depth, after)?;
    let mut all = leading(sign, first);
    let mut left = depth;
    'terms: while let Some(operator) = adder(rest) {
        left = deeper(left, rest)?;
        let (sign, after) = optional_sign(tail(rest));
        let (right, after) = next_term(alloc, left, after)?;
        all = sum(alloc, all, operator, sign, right)?;
        rest = after;
    }
    Ok((all, rest))
}

#[cycle(expressions)]
#[tactic(auto, unfolding(crate::specs::Reading::term_at, crate::specs::Reading::factors_by))]
fn next_term(alloc: Global, depth: u32, lexemes: &[Lexeme]) -> Result<(Term, &[Lexeme]), ReadError>
    ensures gives { Gives (λ x. (of_term x.0 (of no_factors []), x.1.now)) result (term_at (inside depth) lexemes.now) }
{
    let (first, mut rest) = next_factor(alloc, depth, lexemes)?;
    let mut all = lone(alloc, first)?;
    let mut left = depth;
    'factors: while let Some(operator) = multiplier(rest) {
        left = deeper(left, rest)?;
        let (sign, after) = optional_sign(tail(rest));
        let (right, after) = next_factor(alloc, left, after)?;
        all = product(alloc, all, operator, sign, right)?;
        rest = after;
    }
    if begins(rest, Kind::Slash) {
        return Err(ReadError::LeftOut(Omission::Divided, rest.len()));
    }
    Ok((all, rest))
}

#[cycle(expressions)]
#[tactic(auto, unfolding(crate::specs::Reading::factor_by, crate::specs::Reading::group_at))]
fn next_factor(
    alloc: Global,
    depth: u32,
    lexemes: &[Lexeme],
) -> Result<(Factor, &[Lexeme]), ReadError>
    ensures gives { Gives (λ x. (of_factor x.0, x.1.now)) result (factor_at (inside depth) lexemes.now) }
{
    match factor_start(lexemes) {
        FactorStart::Group => {
            let depth = deeper(depth, lexemes)?;
            let (position, rest) = mark(lexemes, Kind::Open)?;
            let (inner, rest) = next_expression(alloc, depth, rest)?;
            let rest = skip(rest, Kind::Close)?;
            let whole = group(alloc, position, inner)?;
            Ok((whole, rest))
        }
        FactorStart::Control => control_factor(lexemes),
        FactorStart::Named => next_named(alloc, depth, lexemes),
        FactorStart::Closed => next_closed(alloc, depth, lexemes),
    }
}

#[cycle(expressions)]
#[tactic(auto, unfolding(crate::specs::Reading::closed_by, crate::specs::Reading::negation_at))]
fn next_closed(
    alloc: Global,
    depth: u32,
    lexemes: &[Lexeme],
) -> Result<(Factor, &[Lexeme]), ReadError>
    ensures gives { Gives (λ x. (of_factor x.0, x.1.now)) result (wrapped (closed_factor_at (inside depth)) lexemes.now) }
{
    match closed_start(lexemes) {
        ClosedStart::Negation => {
            let depth = deeper(depth, lexemes)?;
            let (position, rest) = mark(lexemes, Kind::Not)?;
            let (operand, rest) = next_factor(alloc, depth, rest)?;
            let whole = negation(alloc, position, operand)?;
            Ok((whole, rest))
        }
        ClosedStart::Set => next_set(alloc, depth, lexemes),
        ClosedStart::Plain => plain_factor(alloc, lexemes),
    }
}

#[cycle(expressions)]
#[tactic(auto, unfolding(crate::specs::Reading::set_at))]
fn next_set(alloc: Global, depth: u32, lexemes: &[Lexeme]) -> Result<(Factor, &[Lexeme]), ReadError>
    ensures gives { Gives (λ x. (of_factor x.0, x.1.now)) result (wrapped (set_at (inside depth)) lexemes.now) }
{
    let depth = deeper(depth, lexemes)?;
    let (position, rest) = mark(lexemes, Kind::OpenBracket)?;
    let (elements, rest) = next_elements(alloc, depth, rest)?;
    let rest = skip(rest, Kind::CloseBracket)?;
    Ok((elements.into_set(position), rest))
}

#[cycle(expressions)]
#[tactic(auto, unfolding(crate::specs::Reading::elements_by))]
fn next_elements(
    alloc: Global,
    depth: u32,
    lexemes: &[Lexeme],
) -> Result<(Elements, &[Lexeme]), ReadError>
    ensures gives { Gives (λ x. (elements_of x.0.items.items (of no_more_elements []), x.1.now)) result (elements_at (inside depth) lexemes.now) }
{
    let mut all = Elements::new(alloc);
    if begins(lexemes, Kind::CloseBracket) {
        return Ok((all, lexemes));
    }
    let (first, mut rest) = next_element(alloc, depth, lexemes)?;
    all.push(first)?;
    'commas: while begins(rest, Kind::Comma) {
        let (next, after) = next_element(alloc, depth, tail(rest))?;
        all.push(next)?;
        rest = after;
    }
    Ok((all, rest))
}

#[cycle(expressions)]
#[tactic(auto, unfolding(crate::specs::Reading::element_at, crate::specs::Reading::element_end_by))]
fn next_element(
    alloc: Global,
    depth: u32,
    lexemes: &[Lexeme],
) -> Result<(Element, &[Lexeme]), ReadError>
    ensures gives { Gives (λ x. (of_element x.0, x.1.now)) result (element_at (inside depth) lexemes.now) }
{
    let (low, rest) = next_expression(alloc, depth, lexemes)?;
    if !begins(rest, Kind::Dots) {
        return Ok((Element::Single(low), rest));
    }
    let rest = skip(rest, Kind::Dots)?;
    let (high, rest) = next_expression(alloc, depth, rest)?;
    Ok((Element::Range(low, high), rest))
}

#[cycle(expressions)]
#[tactic(auto, unfolding(crate::specs::Reading::named_factor_at, crate::specs::Reading::call_by))]
fn next_named(
    alloc: Global,
    depth: u32,
    lexemes: &[Lexeme],
) -> Result<(Factor, &[Lexeme]), ReadError>
    ensures gives { Gives (λ x. (of_factor x.0, x.1.now)) result (made bare_factor (named_factor_at (inside depth) ∷ []) lexemes.now) }
{
    let (callee, rest) = next_designator(alloc, depth, lexemes)?;
    if !begins(rest, Kind::Open) {
        return Ok((Factor::Designator(callee), rest));
    }
    let (arguments, rest) = next_arguments(alloc, depth, rest)?;
    call_end(rest)?;
    Ok((arguments.into_call(callee), rest))
}

#[cycle(expressions)]
#[tactic(auto, unfolding(crate::specs::Reading::named_at, crate::specs::Reading::selectors_by))]
pub fn next_designator(
    alloc: Global,
    depth: u32,
    lexemes: &[Lexeme],
) -> Result<(Designator, &[Lexeme]), ReadError>
    ensures gives { Gives (λ x. ((head_of x.0, selectors x.0 (of no_selectors [])), x.1.now)) result (named_at (inside depth) lexemes.now) }
{
    let (name, mut rest) = identifier(lexemes)?;
    let mut all = Designator::Name(name);
    let mut left = depth;
    'selectors: while let Some(start) = selector_start(rest) {
        let (longer, inner, after) = next_selector(alloc, left, start, all, rest)?;
        all = longer;
        left = inner;
        rest = after;
    }
    Ok((all, rest))
}

/// What was read with the selector behind it, how many constructs may be open behind that, and what stands there.
#[cycle(expressions)]
fn next_selector(
    alloc: Global,
    depth: u32,
    start: SelectorStart,
    owner: Designator,
    lexemes: &[Lexeme],
) -> Result<(Designator, u32, &[Lexeme]), ReadError>
    ensures goes { IfOk result (λ x. with_front (named_with x.0) (selectors_at (inside x.1) x.2.now) ≡ with_front (named_with owner) (selector_by start (inside depth) lexemes.now)) }
    ensures less { IfOk result (λ x. x.1 < depth) }
    ensures err { IfErr result (λ e. Fails e (with_front (named_with owner) (selector_by start (inside depth) lexemes.now))) }
{
    match start {
        SelectorStart::Field => field_behind(alloc, depth, owner, lexemes),
        SelectorStart::Index => next_indexes(alloc, depth, owner, lexemes),
        SelectorStart::Dereference => target_behind(alloc, depth, owner, lexemes),
    }
}

/// What was read with the indexes in brackets behind it, how many constructs may be open behind these, and what stands there.
#[cycle(expressions)]
#[tactic(auto, unfolding(crate::specs::Reading::index_at, crate::specs::Reading::more_indexes_by))]
fn next_indexes(
    alloc: Global,
    depth: u32,
    owner: Designator,
    lexemes: &[Lexeme],
) -> Result<(Designator, u32, &[Lexeme]), ReadError>
    ensures goes { IfOk result (λ x. with_front (named_with x.0) (selectors_at (inside x.1) x.2.now) ≡ with_front (named_with owner) (index_at (inside depth) lexemes.now)) }
    ensures less { IfOk result (λ x. x.1 < depth) }
    ensures err { IfErr result (λ e. Fails e (with_front (named_with owner) (index_at (inside depth) lexemes.now))) }
{
    let mut left = deeper(depth, lexemes)?;
    let (position, rest) = mark(lexemes, Kind::OpenBracket)?;
    let (first, mut rest) = next_expression(alloc, left, rest)?;
    let mut all = element_of(alloc, owner, IndexMark::Bracket, position, first)?;
    'commas: while begins(rest, Kind::Comma) {
        left = deeper(left, rest)?;
        let (position, after) = mark(rest, Kind::Comma)?;
        let (next, after) = next_expression(alloc, left, after)?;
        all = element_of(alloc, all, IndexMark::Comma, position, next)?;
        rest = after;
    }
    let rest = skip(rest, Kind::CloseBracket)?;
    Ok((all, left, rest))
}

#[cycle(expressions)]
#[tactic(auto, unfolding(crate::specs::Reading::arguments_at))]
pub fn next_arguments(
    alloc: Global,
    depth: u32,
    lexemes: &[Lexeme],
) -> Result<(Arguments, &[Lexeme]), ReadError>
    ensures gives { Gives (λ x. (arguments_of x.0.items.items (of no_more_arguments []), x.1.now)) result (arguments_at (inside depth) lexemes.now) }
{
    let depth = deeper(depth, lexemes)?;
    let rest = skip(lexemes, Kind::Open)?;
    let (all, rest) = next_argument_list(alloc, depth, rest)?;
    let rest = skip(rest, Kind::Close)?;
    Ok((all, rest))
}

#[cycle(expressions)]
#[tactic(auto, unfolding(crate::specs::Reading::argument_list_at))]
fn next_argument_list(
    alloc: Global,
    depth: u32,
    lexemes: &[Lexeme],
) -> Result<(Arguments, &[Lexeme]), ReadError>
    ensures gives { Gives (λ x. (argument_list x.0.items.items (of no_more_arguments []), x.1.now)) result (argument_list_at (inside depth) lexemes.now) }
{
    let mut all = Arguments::new(alloc);
    let (first, mut rest) = next_argument(alloc, depth, lexemes)?;
    all.push(first)?;
    'commas: while begins(rest, Kind::Comma) {
        let (next, after) = next_argument(alloc, depth, tail(rest))?;
        all.push(next)?;
        rest = after;
    }
    Ok((all, rest))
}

#[cycle(expressions)]
#[tactic(auto, unfolding(crate::specs::Reading::argument_at, crate::specs::Reading::argument_width_by))]
fn next_argument(
    alloc: Global,
    depth: u32,
    lexemes: &[Lexeme],
) -> Result<(Argument, &[Lexeme]), ReadError>
    ensures gives { Gives (λ x. (of_argument x.0, x.1.now)) result (argument_at (inside depth) lexemes.now) }
{
    let (value, rest) = next_expression(alloc, depth, lexemes)?;
    if !begins(rest, Kind::Colon) {
        return Ok((Argument::Plain(value), rest));
    }
    let rest = skip(rest, Kind::Colon)?;
    let (width, rest) = next_expression(alloc, depth, rest)?;
    Ok((Argument::Wide(value, width), rest))
}
