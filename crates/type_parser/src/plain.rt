//! Types that open a construct and hold no type.

ghost use Rattle.std.specs.Prelude.{◌≡◌, IfErr, IfOk, List, [], ◌∷◌};
ghost use Rattle.pascal_grammar.specs.Productions.{sized};
ghost use Rattle.syntax_tree.specs.Expressions.{of, word};
ghost use Rattle.expression_parser.specs.declared.error.ReadError.TheVariants.{NoMemory};
ghost use Rattle.expression_parser.specs.Gives.{Gives};
ghost use Rattle.type_parser.specs.Reading.{length_at, ancestor_at, string_at, enumeration_at, procedural_at, functional_at};
ghost use Rattle.syntax_tree.specs.type_tree.Types.{of_type, simple_of, length_of, ancestor_of};

use crate::parameter_parser::{deeper, read_identifiers, read_parameters, read_result_type};
use expression_parser::{ReadError, begins, identifier, mark, read_simple, skip};
use pascal_grammar::{Kind, Lexeme};
use std::alloc::Global;
use syntax_tree::type_tree::TypeDenoter;
use syntax_tree::{Identifier, SimpleExpression};

// A length in brackets.
fn length_node(
    alloc: Global,
    length: SimpleExpression,
) -> Result<Option<Box<SimpleExpression>>, ReadError>
    ensures ok { IfOk result (λ x. length_of x ≡ of sized (word ∷ simple_of length ∷ word ∷ [])) }
    ensures err { IfErr result (λ e. e ≡ NoMemory) }
{
    let length = Box::new(alloc, length)?;
    Ok(Some(length))
}

/// The length of a string in brackets, if it stands there, and what stands behind it.
#[tactic(auto, unfolding(crate::specs::Reading::length_by))]
fn string_length(
    alloc: Global,
    depth: u32,
    lexemes: &[Lexeme],
) -> Result<(Option<Box<SimpleExpression>>, &[Lexeme]), ReadError>
    ensures gives { Gives (λ x. (length_of x.0, x.1.now)) result (length_at depth lexemes.now) }
{
    if !begins(lexemes, Kind::OpenBracket) {
        return Ok((None, lexemes));
    }
    let inner = deeper(depth, lexemes)?;
    let rest = skip(lexemes, Kind::OpenBracket)?;
    let (length, rest) = read_simple(alloc, inner, rest)?;
    let rest = skip(rest, Kind::CloseBracket)?;
    Ok((length_node(alloc, length)?, rest))
}

/// The ancestor of an object type in parentheses, if it stands there, and what stands behind it.
#[tactic(auto, unfolding(crate::specs::Reading::ancestor_by))]
pub fn ancestor(
    depth: u32,
    lexemes: &[Lexeme],
) -> Result<(Option<Identifier>, &[Lexeme]), ReadError>
    ensures gives { Gives (λ x. (ancestor_of x.0, x.1.now)) result (ancestor_at depth lexemes.now) }
{
    if !begins(lexemes, Kind::Open) {
        return Ok((None, lexemes));
    }
    deeper(depth, lexemes)?;
    let rest = skip(lexemes, Kind::Open)?;
    let (name, rest) = identifier(rest)?;
    let rest = skip(rest, Kind::Close)?;
    Ok((Some(name), rest))
}

/// A type of strings, and what stands behind it.
#[tactic(auto, unfolding(crate::specs::Reading::string_at))]
pub fn string_type(
    alloc: Global,
    depth: u32,
    lexemes: &[Lexeme],
) -> Result<(TypeDenoter, &[Lexeme]), ReadError>
    ensures gives { Gives (λ x. (of_type x.0, x.1.now)) result (string_at depth lexemes.now) }
{
    let (position, rest) = mark(lexemes, Kind::String)?;
    let (length, rest) = string_length(alloc, depth, rest)?;
    Ok((TypeDenoter::String { position, length }, rest))
}

/// An enumeration, and what stands behind it.
#[tactic(auto, unfolding(crate::specs::Reading::enumeration_at))]
pub fn enumeration_type(
    alloc: Global,
    depth: u32,
    lexemes: &[Lexeme],
) -> Result<(TypeDenoter, &[Lexeme]), ReadError>
    ensures gives { Gives (λ x. (of_type x.0, x.1.now)) result (enumeration_at depth lexemes.now) }
{
    deeper(depth, lexemes)?;
    let (position, rest) = mark(lexemes, Kind::Open)?;
    let (names, rest) = read_identifiers(alloc, rest)?;
    let rest = skip(rest, Kind::Close)?;
    Ok((TypeDenoter::Enumeration { position, names }, rest))
}

/// A type of procedures, and what stands behind it.
#[tactic(auto, unfolding(crate::specs::Reading::procedural_at))]
pub fn procedural_type(
    alloc: Global,
    depth: u32,
    lexemes: &[Lexeme],
) -> Result<(TypeDenoter, &[Lexeme]), ReadError>
    ensures gives { Gives (λ x. (of_type x.0, x.1.now)) result (procedural_at depth lexemes.now) }
{
    let inner = deeper(depth, lexemes)?;
    let (position, rest) = mark(lexemes, Kind::Procedure)?;
    let (parameters, rest) = read_parameters(alloc, inner, rest)?;
    let whole = TypeDenoter::Procedure {
        position,
        parameters,
    };
    Ok((whole, rest))
}

/// A type of functions, and what stands behind it.
#[tactic(auto, unfolding(crate::specs::Reading::functional_at))]
pub fn functional_type(
    alloc: Global,
    depth: u32,
    lexemes: &[Lexeme],
) -> Result<(TypeDenoter, &[Lexeme]), ReadError>
    ensures gives { Gives (λ x. (of_type x.0, x.1.now)) result (functional_at depth lexemes.now) }
{
    let inner = deeper(depth, lexemes)?;
    let (position, rest) = mark(lexemes, Kind::Function)?;
    let (parameters, rest) = read_parameters(alloc, inner, rest)?;
    let rest = skip(rest, Kind::Colon)?;
    let (result, rest) = read_result_type(rest)?;
    let whole = TypeDenoter::Function {
        position,
        parameters,
        result,
    };
    Ok((whole, rest))
}
