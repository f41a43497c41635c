//! What ends the fields of a record and of an object.

ghost use Rattle.expression_parser.specs.Gives.{Gives};
ghost use Rattle.type_parser.specs.Reading.{fields_end_at, methods_end_at, object_end_at};
ghost use Rattle.syntax_tree.specs.type_tree.Types.{last_record_part, methods_end, last_object_part};

use crate::parameter_parser::read_methods;
use expression_parser::{ReadError, begins, skip, tail};
use pascal_grammar::{Kind, Lexeme, Omission};
use std::alloc::Global;
use syntax_tree::type_tree::Method;

/// Whether a semicolon stands behind the last fields of a record, and what stands behind it. Variants are left out.
#[tactic(auto, unfolding(crate::specs::Reading::fields_end_by))]
pub fn fields_end(lexemes: &[Lexeme]) -> Result<(bool, &[Lexeme]), ReadError>
    ensures gives { Gives (λ x. (last_record_part x.0, x.1.now)) result (fields_end_at lexemes.now) }
{
    if !begins(lexemes, Kind::Semicolon) {
        return Ok((false, lexemes));
    }
    let behind = tail(lexemes);
    if begins(behind, Kind::Case) {
        return Err(ReadError::LeftOut(Omission::Variants, behind.len()));
    }
    let rest = skip(lexemes, Kind::Semicolon)?;
    Ok((true, rest))
}

/// The methods of an object with the word behind them, and what stands behind that.
#[tactic(auto, unfolding(crate::specs::Reading::methods_end_at))]
pub fn methods_end(
    alloc: Global,
    depth: u32,
    lexemes: &[Lexeme],
) -> Result<(Vec<Method>, &[Lexeme]), ReadError>
    ensures gives { Gives (λ x. (methods_end x.0.items, x.1.now)) result (methods_end_at depth lexemes.now) }
{
    let (methods, rest) = read_methods(alloc, depth, lexemes)?;
    let rest = skip(rest, Kind::End)?;
    Ok((methods, rest))
}

/// Whether a semicolon stands behind the last fields of an object, the methods behind it, and what stands behind the word that
/// ends the object.
#[tactic(auto, unfolding(crate::specs::Reading::object_end_by))]
pub fn object_end(
    alloc: Global,
    depth: u32,
    lexemes: &[Lexeme],
) -> Result<(bool, Vec<Method>, &[Lexeme]), ReadError>
    ensures gives { Gives (λ x. (last_object_part x.0 x.1.items, x.2.now)) result (object_end_at depth lexemes.now) }
{
    if !begins(lexemes, Kind::Semicolon) {
        let rest = skip(lexemes, Kind::End)?;
        return Ok((false, Vec::new(alloc), rest));
    }
    let rest = skip(lexemes, Kind::Semicolon)?;
    let (methods, rest) = methods_end(alloc, depth, rest)?;
    Ok((true, methods, rest))
}
