//! Methods in the type of an object.

ghost use Rattle.std.specs.Prelude.{◌≡◌, ◌≤◌, IfOk, length, suc};
ghost use Rattle.expression_parser.specs.Gives.{Gives};
ghost use Rattle.expression_parser.specs.Reading.{inside};
ghost use Rattle.type_parser.specs.parameter_parser.Reading.{method_header_at, virtual_at, method_at, methods_at};
ghost use Rattle.syntax_tree.specs.Expressions.{word};
ghost use Rattle.syntax_tree.specs.type_tree.Parameters.{method_header_of, virtual_of, methods_of};

use crate::parameter_parser::list::push;
use crate::parameter_parser::lookahead::{MethodStart, begins_method, deeper, method_start};
use crate::parameter_parser::parameter::{next_parameters, next_result};
use expression_parser::{ReadError, begins, identifier, mark, skip};
use pascal_grammar::{Kind, Lexeme};
use std::alloc::Global;
use syntax_tree::type_tree::{Method, MethodHeader};

/// The header of a method, and what stands behind it.
#[tactic(auto, unfolding(crate::specs::parameter_parser::Reading::method_header_by))]
fn next_header(
    alloc: Global,
    depth: u32,
    lexemes: &[Lexeme],
) -> Result<(MethodHeader, &[Lexeme]), ReadError>
    ensures gives { Gives (λ x. (method_header_of x.0, x.1.now)) result (method_header_at (inside depth) lexemes.now) }
    ensures shorter { IfOk result (λ x. suc (length x.1.now) ≤ length lexemes.now) }
{
    match method_start(lexemes) {
        MethodStart::Procedure => {
            let inner = deeper(depth, lexemes)?;
            let (position, rest) = mark(lexemes, Kind::Procedure)?;
            let (name, rest) = identifier(rest)?;
            let (parameters, rest) = next_parameters(alloc, inner, rest)?;
            let header = MethodHeader::Procedure {
                position,
                name,
                parameters,
            };
            Ok((header, rest))
        }
        MethodStart::Function => {
            let inner = deeper(depth, lexemes)?;
            let (position, rest) = mark(lexemes, Kind::Function)?;
            let (name, rest) = identifier(rest)?;
            let (parameters, rest) = next_parameters(alloc, inner, rest)?;
            let (result, rest) = next_result(rest)?;
            let header = MethodHeader::Function {
                position,
                name,
                parameters,
                result,
            };
            Ok((header, rest))
        }
        MethodStart::Constructor => {
            let inner = deeper(depth, lexemes)?;
            let (position, rest) = mark(lexemes, Kind::Constructor)?;
            let (name, rest) = identifier(rest)?;
            let (parameters, rest) = next_parameters(alloc, inner, rest)?;
            let header = MethodHeader::Constructor {
                position,
                name,
                parameters,
            };
            Ok((header, rest))
        }
        MethodStart::Destructor => {
            let inner = deeper(depth, lexemes)?;
            let (position, rest) = mark(lexemes, Kind::Destructor)?;
            let (name, rest) = identifier(rest)?;
            let (parameters, rest) = next_parameters(alloc, inner, rest)?;
            let header = MethodHeader::Destructor {
                position,
                name,
                parameters,
            };
            Ok((header, rest))
        }
        MethodStart::Nothing => Err(ReadError::Syntax(lexemes.len())),
    }
}

/// Whether `virtual` stands there, and what stands behind it and its semicolon.
#[tactic(auto, unfolding(crate::specs::parameter_parser::Reading::virtual_by))]
fn next_virtual(lexemes: &[Lexeme]) -> Result<(bool, &[Lexeme]), ReadError>
    ensures gives { Gives (λ x. (virtual_of x.0, x.1.now)) result (virtual_at lexemes.now) }
    ensures shorter { IfOk result (λ x. length x.1.now ≤ length lexemes.now) }
{
    if !begins(lexemes, Kind::Virtual) {
        return Ok((false, lexemes));
    }
    let rest = skip(lexemes, Kind::Virtual)?;
    let rest = skip(rest, Kind::Semicolon)?;
    Ok((true, rest))
}

/// A method with the semicolon behind it, and what stands behind that.
#[tactic(auto, unfolding(crate::specs::parameter_parser::Reading::method_at))]
fn next_method(
    alloc: Global,
    depth: u32,
    lexemes: &[Lexeme],
) -> Result<(Method, &[Lexeme]), ReadError>
    ensures gives { Gives (λ x. ((method_header_of x.0.header, word, virtual_of x.0.is_virtual), x.1.now)) result (method_at (inside depth) lexemes.now) }
    ensures shorter { IfOk result (λ x. suc (length x.1.now) ≤ length lexemes.now) }
{
    let (header, rest) = next_header(alloc, depth, lexemes)?;
    let rest = skip(rest, Kind::Semicolon)?;
    let (is_virtual, rest) = next_virtual(rest)?;
    Ok((Method { header, is_virtual }, rest))
}

/// The methods that stand there, each with its semicolon, and what stands behind them.
pub fn next_methods(
    alloc: Global,
    depth: u32,
    lexemes: &[Lexeme],
) -> Result<(Vec<Method>, &[Lexeme]), ReadError>
    ensures gives { Gives (λ x. (methods_of x.0.items, x.1.now)) result (methods_at (inside depth) lexemes.now) }
    ensures shorter { IfOk result (λ x. length x.1.now ≤ length lexemes.now) }
{
    let mut all = Vec::new(alloc);
    let mut rest = lexemes;
    'methods: while begins_method(rest) {
        let (next, after) = next_method(alloc, depth, rest)?;
        push(&mut all, next)?;
        rest = after;
    }
    Ok((all, rest))
}
