//! Declarations and blocks.

use crate::outcome::put_outcome;
use expression_parser::ReadError;
use pascal_grammar::Lexeme;
use std::alloc::Global;
use syntax_tree::source_tree::{
    Block, ConstantDeclaration, Declaration, DeclarationPart, Routine, RoutineHeader,
};
use syntax_tree::type_tree::MethodHeader;
use test_rows::{Line, put};
use tp_parser::declaration_parser::{read_block, read_declarations};

fn part(part: &DeclarationPart) -> &'static str {
    match part {
        DeclarationPart::Constants { constants, .. } => match constants.as_slice() {
            [
                ConstantDeclaration::Plain { .. },
                ConstantDeclaration::Typed { .. },
            ] => "plain and typed constants",
            _ => "constants",
        },
        DeclarationPart::Types { types, .. } if types.len() == 2 => "two types",
        DeclarationPart::Types { .. } => "types",
        DeclarationPart::Variables { variables, .. } => match variables.as_slice() {
            [first, _] if first.names.len() == 2 => "variables, two of them of one type",
            _ => "variables",
        },
    }
}

fn block(block: &Block) -> &'static str {
    match block.declarations.as_slice() {
        [] => "routine",
        [
            Declaration::Routine(Routine::Plain { .. }),
            Declaration::Routine(Routine::Forward(_)),
        ] => "routine with two inside",
        [Declaration::Part(_)] => "routine with a part",
        _ => "routine with declarations",
    }
}

fn routine(routine: &Routine) -> &'static str {
    match routine {
        Routine::Forward(RoutineHeader::Procedure { .. }) => "forward procedure",
        Routine::Forward(
            RoutineHeader::Function {
                result: Some(_),
                ..
            },
        ) => "forward function with its result",
        Routine::Forward(_) => "forward function",
        Routine::Plain { block: inner, .. } => block(inner),
        Routine::Method {
            header: MethodHeader::Procedure { .. },
            ..
        } => "procedure of an object",
        Routine::Method {
            header: MethodHeader::Function { .. },
            ..
        } => "function of an object",
        Routine::Method {
            header: MethodHeader::Constructor { .. },
            ..
        } => "constructor",
        Routine::Method { .. } => "destructor",
    }
}

fn shape(declarations: &[Declaration]) -> &'static str {
    match declarations {
        [] => "none",
        [Declaration::Part(only)] => part(only),
        [Declaration::Routine(only)] => routine(only),
        [
            Declaration::Part(_),
            Declaration::Routine(_),
            Declaration::Part(_),
        ] => "a part, a routine, a part",
        _ => "others",
    }
}

fn shape_read(read: &Result<(Vec<Declaration>, &[Lexeme]), ReadError>) -> &'static str {
    match read {
        Ok((declarations, rest)) if rest.is_empty() => shape(declarations.as_slice()),
        _ => "none or more",
    }
}

/// Writes what the trees of declarations hold, or the outcome.
pub(crate) fn put_declarations(alloc: Global, out: &mut Line, as_tree: bool, lexemes: &[Lexeme]) {
    let read = read_declarations(alloc, 200, lexemes);
    if as_tree {
        put(out, shape_read(&read));
    } else {
        put_outcome(out, lexemes, &read);
    }
}

fn block_read(read: &Result<(Block, &[Lexeme]), ReadError>) -> &'static str {
    match read {
        Ok((inner, rest)) if rest.is_empty() => block(inner),
        _ => "none",
    }
}

/// Writes what the tree of a block holds.
pub(crate) fn put_block(alloc: Global, out: &mut Line, lexemes: &[Lexeme]) {
    let read = read_block(alloc, 200, lexemes);
    put(out, block_read(&read));
}
