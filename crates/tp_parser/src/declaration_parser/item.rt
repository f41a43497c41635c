//! One constant, one type, variables of one type.

ghost use Rattle.std.specs.Prelude.{◌≡◌, ◌≤◌, IfOk, length, suc};
ghost use Rattle.syntax_tree.specs.source_tree.Declarations.{of_constant, of_type_declaration, of_variable};
ghost use Rattle.expression_parser.specs.Gives.{Gives};
ghost use Rattle.tp_parser.specs.declaration_parser.Reading.{constant_at, type_declaration_at, variable_at};

use expression_parser::{ReadError, begins, identifier, read_simple, skip};
use pascal_grammar::{Kind, Lexeme, Omission};
use std::alloc::Global;
use syntax_tree::source_tree::{ConstantDeclaration, TypeDeclaration, VariableDeclaration};
use type_parser::initializer_parser::read_initializer;
use type_parser::parameter_parser::read_identifiers;
use type_parser::read_type;

/// A constant with the semicolon behind it, and what stands behind that.
#[tactic(auto, unfolding(crate::specs::declaration_parser::Reading::constant_at, crate::specs::declaration_parser::Reading::constant_value_by))]
pub fn next_constant(
    alloc: Global,
    depth: u32,
    lexemes: &[Lexeme],
) -> Result<(ConstantDeclaration, &[Lexeme]), ReadError>
    ensures gives { Gives (λ x. (of_constant x.0, x.1.now)) result (constant_at depth lexemes.now) }
    ensures shorter { IfOk result (λ x. suc (length x.1.now) ≤ length lexemes.now) }
{
    let (name, rest) = identifier(lexemes)?;
    if !begins(rest, Kind::Colon) {
        let rest = skip(rest, Kind::Equal)?;
        let (value, rest) = read_simple(alloc, depth, rest)?;
        let rest = skip(rest, Kind::Semicolon)?;
        return Ok((ConstantDeclaration::Plain { name, value }, rest));
    }
    let rest = skip(rest, Kind::Colon)?;
    let (denoter, rest) = read_type(alloc, depth, rest)?;
    let rest = skip(rest, Kind::Equal)?;
    let (value, rest) = read_initializer(alloc, depth, rest)?;
    let rest = skip(rest, Kind::Semicolon)?;
    let constant = ConstantDeclaration::Typed {
        name,
        denoter,
        value,
    };
    Ok((constant, rest))
}

/// A type with the semicolon behind it, and what stands behind that.
#[tactic(auto, unfolding(crate::specs::declaration_parser::Reading::type_declaration_at))]
pub fn next_type(
    alloc: Global,
    depth: u32,
    lexemes: &[Lexeme],
) -> Result<(TypeDeclaration, &[Lexeme]), ReadError>
    ensures gives { Gives (λ x. (of_type_declaration x.0, x.1.now)) result (type_declaration_at depth lexemes.now) }
    ensures shorter { IfOk result (λ x. suc (length x.1.now) ≤ length lexemes.now) }
{
    let (name, rest) = identifier(lexemes)?;
    let rest = skip(rest, Kind::Equal)?;
    let (denoter, rest) = read_type(alloc, depth, rest)?;
    let rest = skip(rest, Kind::Semicolon)?;
    Ok((TypeDeclaration { name, denoter }, rest))
}

/// Variables of one type with the semicolon behind them, and what stands behind that.
#[tactic(auto, unfolding(crate::specs::declaration_parser::Reading::variable_at, crate::specs::declaration_parser::Reading::variable_end_by))]
pub fn next_variable(
    alloc: Global,
    depth: u32,
    lexemes: &[Lexeme],
) -> Result<(VariableDeclaration, &[Lexeme]), ReadError>
    ensures gives { Gives (λ x. (of_variable x.0, x.1.now)) result (variable_at depth lexemes.now) }
    ensures shorter { IfOk result (λ x. suc (length x.1.now) ≤ length lexemes.now) }
{
    let (names, rest) = read_identifiers(alloc, lexemes)?;
    let rest = skip(rest, Kind::Colon)?;
    let (denoter, rest) = read_type(alloc, depth, rest)?;
    if begins(rest, Kind::Absolute) {
        return Err(ReadError::LeftOut(Omission::Absolute, rest.len()));
    }
    let rest = skip(rest, Kind::Semicolon)?;
    Ok((VariableDeclaration { names, denoter }, rest))
}
