//! Routines, and the declarations inside them.

ghost use Rattle.std.specs.Prelude.{◌≡◌, ◌≤◌, IfOk, length, suc};
ghost use Rattle.syntax_tree.specs.source_tree.Declarations.{of_declaration, declarations_of, of_routine, block_of};
ghost use Rattle.expression_parser.specs.Gives.{Gives};
ghost use Rattle.tp_parser.specs.declaration_parser.Reading.{nested, block_at, body_at, declaration_at, declarations_at, procedure_at, function_at, constructor_at, destructor_at};
ghost use Rattle.tp_parser.specs.declaration_parser.Views.{body_of};

use crate::declaration_parser::lookahead::{
    BehindRoutineName, BodyStart, DeclarationStart, begins_declaration, behind_function,
    behind_procedure, body_start, declaration_start, deeper,
};
use crate::declaration_parser::node::{RoutineBody, method_node, routine_node};
use crate::declaration_parser::part::read_part;
use expression_parser::statement_parser::read_compound;
use expression_parser::{ReadError, identifier, mark, skip};
use pascal_grammar::{Kind, Lexeme, Omission};
use std::alloc::Global;
use syntax_tree::source_tree::{Block, Declaration, Routine, RoutineHeader};
use syntax_tree::type_tree::MethodHeader;
use type_parser::parameter_parser::{push, read_parameters, read_result};

/// Declarations as long as one is begun, and what stands behind them.
#[cycle(routines)]
pub fn next_declarations(
    alloc: Global,
    depth: u32,
    lexemes: &[Lexeme],
) -> Result<(Vec<Declaration>, &[Lexeme]), ReadError>
    ensures gives { Gives (λ x. (declarations_of x.0.items, x.1.now)) result (declarations_at depth (nested depth) lexemes.now) }
    ensures shorter { IfOk result (λ x. length x.1.now ≤ length lexemes.now) }
{
    let mut all = Vec::new(alloc);
    let mut rest = lexemes;
    'declarations: while begins_declaration(rest) {
        let (next, after) = next_declaration(alloc, depth, rest)?;
        push(&mut all, next)?;
        rest = after;
    }
    Ok((all, rest))
}

#[cycle(routines)]
#[tactic(auto, unfolding(crate::specs::declaration_parser::Reading::declaration_by))]
fn next_declaration(
    alloc: Global,
    depth: u32,
    lexemes: &[Lexeme],
) -> Result<(Declaration, &[Lexeme]), ReadError>
    ensures gives { Gives (λ x. ((λ more. of_declaration x.0 more), x.1.now)) result (declaration_at depth (nested depth) lexemes.now) }
    ensures shorter { IfOk result (λ x. suc (length x.1.now) ≤ length lexemes.now) }
{
    match declaration_start(lexemes) {
        DeclarationStart::Part(start) => {
            let (part, rest) = read_part(alloc, depth, start, lexemes)?;
            Ok((Declaration::Part(part), rest))
        }
        DeclarationStart::Procedure => {
            let (routine, rest) = next_procedure(alloc, depth, lexemes)?;
            Ok((Declaration::Routine(routine), rest))
        }
        DeclarationStart::Function => {
            let (routine, rest) = next_function(alloc, depth, lexemes)?;
            Ok((Declaration::Routine(routine), rest))
        }
        DeclarationStart::Constructor => {
            let (routine, rest) = next_constructor(alloc, depth, lexemes)?;
            Ok((Declaration::Routine(routine), rest))
        }
        DeclarationStart::Destructor => {
            let (routine, rest) = next_destructor(alloc, depth, lexemes)?;
            Ok((Declaration::Routine(routine), rest))
        }
        DeclarationStart::Label => Err(ReadError::LeftOut(Omission::Labels, lexemes.len())),
        DeclarationStart::Nothing => Err(ReadError::Syntax(lexemes.len())),
    }
}

/// Declarations and the statements behind them, and what stands behind those.
#[cycle(routines)]
#[tactic(auto, unfolding(crate::specs::declaration_parser::Reading::block_at))]
pub fn next_block(
    alloc: Global,
    depth: u32,
    lexemes: &[Lexeme],
) -> Result<(Block, &[Lexeme]), ReadError>
    ensures gives { Gives (λ x. (block_of x.0, x.1.now)) result (block_at depth (declarations_at depth (nested depth)) lexemes.now) }
    ensures shorter { IfOk result (λ x. length x.1.now ≤ length lexemes.now) }
{
    let (declarations, rest) = next_declarations(alloc, depth, lexemes)?;
    let (body, rest) = read_compound(alloc, depth, rest)?;
    Ok((Block { declarations, body }, rest))
}

#[cycle(routines)]
#[tactic(auto, unfolding(crate::specs::declaration_parser::Reading::procedure_at, crate::specs::declaration_parser::Reading::procedure_rest_by))]
fn next_procedure(
    alloc: Global,
    depth: u32,
    lexemes: &[Lexeme],
) -> Result<(Routine, &[Lexeme]), ReadError>
    ensures gives { Gives (λ x. (of_routine x.0, x.1.now)) result (procedure_at (nested depth) lexemes.now) }
    ensures shorter { IfOk result (λ x. suc (length x.1.now) ≤ length lexemes.now) }
{
    let depth = deeper(depth, lexemes)?;
    let (position, rest) = mark(lexemes, Kind::Procedure)?;
    let (first, rest) = identifier(rest)?;
    match behind_procedure(rest) {
        BehindRoutineName::Dot => {
            let rest = skip(rest, Kind::Dot)?;
            let (name, rest) = identifier(rest)?;
            let (parameters, rest) = read_parameters(alloc, depth, rest)?;
            let rest = skip(rest, Kind::Semicolon)?;
            let (block, rest) = next_block(alloc, depth, rest)?;
            let rest = skip(rest, Kind::Semicolon)?;
            let header = MethodHeader::Procedure {
                position,
                name,
                parameters,
            };
            Ok((method_node(header, first, block), rest))
        }
        BehindRoutineName::Header => {
            let (parameters, rest) = read_parameters(alloc, depth, rest)?;
            let rest = skip(rest, Kind::Semicolon)?;
            let header = RoutineHeader::Procedure {
                position,
                name: first,
                parameters,
            };
            let (body, rest) = next_body(alloc, depth, rest)?;
            Ok((routine_node(header, body), rest))
        }
        BehindRoutineName::Nothing => Err(ReadError::Syntax(rest.len())),
    }
}

#[cycle(routines)]
#[tactic(auto, unfolding(crate::specs::declaration_parser::Reading::function_at, crate::specs::declaration_parser::Reading::function_rest_by))]
fn next_function(
    alloc: Global,
    depth: u32,
    lexemes: &[Lexeme],
) -> Result<(Routine, &[Lexeme]), ReadError>
    ensures gives { Gives (λ x. (of_routine x.0, x.1.now)) result (function_at (nested depth) lexemes.now) }
    ensures shorter { IfOk result (λ x. suc (length x.1.now) ≤ length lexemes.now) }
{
    let depth = deeper(depth, lexemes)?;
    let (position, rest) = mark(lexemes, Kind::Function)?;
    let (first, rest) = identifier(rest)?;
    match behind_function(rest) {
        BehindRoutineName::Dot => {
            let rest = skip(rest, Kind::Dot)?;
            let (name, rest) = identifier(rest)?;
            let (parameters, rest) = read_parameters(alloc, depth, rest)?;
            let (result, rest) = read_result(rest)?;
            let rest = skip(rest, Kind::Semicolon)?;
            let (block, rest) = next_block(alloc, depth, rest)?;
            let rest = skip(rest, Kind::Semicolon)?;
            let header = MethodHeader::Function {
                position,
                name,
                parameters,
                result,
            };
            Ok((method_node(header, first, block), rest))
        }
        BehindRoutineName::Header => {
            let (parameters, rest) = read_parameters(alloc, depth, rest)?;
            let (result, rest) = read_result(rest)?;
            let rest = skip(rest, Kind::Semicolon)?;
            let header = RoutineHeader::Function {
                position,
                name: first,
                parameters,
                result,
            };
            let (body, rest) = next_body(alloc, depth, rest)?;
            Ok((routine_node(header, body), rest))
        }
        BehindRoutineName::Nothing => Err(ReadError::Syntax(rest.len())),
    }
}

#[cycle(routines)]
#[tactic(auto, unfolding(crate::specs::declaration_parser::Reading::constructor_at))]
fn next_constructor(
    alloc: Global,
    depth: u32,
    lexemes: &[Lexeme],
) -> Result<(Routine, &[Lexeme]), ReadError>
    ensures gives { Gives (λ x. (of_routine x.0, x.1.now)) result (constructor_at (nested depth) lexemes.now) }
    ensures shorter { IfOk result (λ x. suc (length x.1.now) ≤ length lexemes.now) }
{
    let depth = deeper(depth, lexemes)?;
    let (position, rest) = mark(lexemes, Kind::Constructor)?;
    let (owner, rest) = identifier(rest)?;
    let rest = skip(rest, Kind::Dot)?;
    let (name, rest) = identifier(rest)?;
    let (parameters, rest) = read_parameters(alloc, depth, rest)?;
    let rest = skip(rest, Kind::Semicolon)?;
    let (block, rest) = next_block(alloc, depth, rest)?;
    let rest = skip(rest, Kind::Semicolon)?;
    let header = MethodHeader::Constructor {
        position,
        name,
        parameters,
    };
    Ok((method_node(header, owner, block), rest))
}

#[cycle(routines)]
#[tactic(auto, unfolding(crate::specs::declaration_parser::Reading::destructor_at))]
fn next_destructor(
    alloc: Global,
    depth: u32,
    lexemes: &[Lexeme],
) -> Result<(Routine, &[Lexeme]), ReadError>
    ensures gives { Gives (λ x. (of_routine x.0, x.1.now)) result (destructor_at (nested depth) lexemes.now) }
    ensures shorter { IfOk result (λ x. suc (length x.1.now) ≤ length lexemes.now) }
{
    let depth = deeper(depth, lexemes)?;
    let (position, rest) = mark(lexemes, Kind::Destructor)?;
    let (owner, rest) = identifier(rest)?;
    let rest = skip(rest, Kind::Dot)?;
    let (name, rest) = identifier(rest)?;
    let (parameters, rest) = read_parameters(alloc, depth, rest)?;
    let rest = skip(rest, Kind::Semicolon)?;
    let (block, rest) = next_block(alloc, depth, rest)?;
    let rest = skip(rest, Kind::Semicolon)?;
    let header = MethodHeader::Destructor {
        position,
        name,
        parameters,
    };
    Ok((method_node(header, owner, block), rest))
}

// What stands behind the semicolon of a header: `forward`, or a block, with the semicolon behind it.
#[cycle(routines)]
#[tactic(auto, unfolding(crate::specs::declaration_parser::Reading::body_by))]
fn next_body(
    alloc: Global,
    depth: u32,
    lexemes: &[Lexeme],
) -> Result<(RoutineBody, &[Lexeme]), ReadError>
    ensures gives { Gives (λ x. (body_of x.0, x.1.now)) result (body_at depth (declarations_at depth (nested depth)) lexemes.now) }
    ensures shorter { IfOk result (λ x. length x.1.now ≤ length lexemes.now) }
{
    match body_start(lexemes) {
        BodyStart::Forward => {
            let rest = skip(lexemes, Kind::Forward)?;
            let rest = skip(rest, Kind::Semicolon)?;
            Ok((RoutineBody::Forward, rest))
        }
        BodyStart::External => Err(ReadError::LeftOut(Omission::External, lexemes.len())),
        BodyStart::Interrupt => Err(ReadError::LeftOut(Omission::Interrupt, lexemes.len())),
        BodyStart::Inline => Err(ReadError::LeftOut(Omission::InlineBody, lexemes.len())),
        BodyStart::Block => {
            let (block, rest) = next_block(alloc, depth, lexemes)?;
            let rest = skip(rest, Kind::Semicolon)?;
            Ok((RoutineBody::Block(block), rest))
        }
    }
}
