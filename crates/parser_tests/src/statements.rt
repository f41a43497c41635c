//! Main parts and statements.

use crate::expressions::{selectors, shape};
use crate::outcome::put_error;
use expression_parser::ReadError;
use expression_parser::statement_parser::{read_compound, read_statement};
use pascal_grammar::{Kind, Lexeme};
use std::alloc::Global;
use syntax_tree::{CaseElse, CompoundStatement, ElsePart, Statement};
use test_rows::{Line, put, put_numbered};

// That all was taken where a dot ends what was read, else the fault and its place.
fn put_taken(
    out: &mut Line,
    lexemes: &[Lexeme],
    read: &Result<(CompoundStatement, &[Lexeme]), ReadError>,
) {
    match read {
        Err(error) => put_error(out, lexemes, error),
        Ok((_, [dot])) if dot.kind() == Kind::Dot => put(out, "taken"),
        Ok((_, [dot, rest @ ..])) if dot.kind() == Kind::Dot => {
            put_error(out, lexemes, &ReadError::Syntax(rest.len()));
        }
        Ok((_, rest)) => put_error(out, lexemes, &ReadError::Syntax(rest.len())),
    }
}

/// Writes what a main part and a dot are read as.
pub(crate) fn put_main_part(alloc: Global, out: &mut Line, lexemes: &[Lexeme]) {
    let read = read_compound(alloc, 200, lexemes);
    put_taken(out, lexemes, &read);
}

// Whether a statement is an `if` with an else.
fn has_else(statement: &Statement) -> bool {
    matches!(
        statement,
        Statement::If {
            otherwise: ElsePart::Present(_),
            ..
        }
    )
}

// A `case` with arms, whether a semicolon stands behind the last one, and statements behind `else`.
fn put_case(out: &mut Line, arms: usize, semicolon: bool, others: usize) {
    put_numbered(out, "case of arms ", arms as u64);
    if semicolon {
        put(out, " and semicolon");
    }
    put_numbered(out, ", else of ", others as u64);
}

/// Writes what a statement holds.
pub(crate) fn put_shape(out: &mut Line, statement: &Statement) {
    match statement {
        Statement::Assignment { value, .. } => put(out, shape(value)),
        Statement::ProcedureCall { callee, .. } => put(out, selectors(callee)),
        Statement::If {
            body,
            otherwise: ElsePart::Absent,
            ..
        } if has_else(body) => put(out, "if around if with else"),
        Statement::Case {
            arms,
            semicolon,
            otherwise: CaseElse::Present(all),
            ..
        } => put_case(out, arms.len(), *semicolon, all.len()),
        _ => put(out, "other"),
    }
}

fn put_shape_read(out: &mut Line, read: &Result<(Statement, &[Lexeme]), ReadError>) {
    match read {
        Ok((statement, [])) => put_shape(out, statement),
        _ => put(out, "none"),
    }
}

/// Writes what a statement holds that is read.
pub(crate) fn put_statement(alloc: Global, out: &mut Line, lexemes: &[Lexeme]) {
    let read = read_statement(alloc, 200, lexemes);
    put_shape_read(out, &read);
}
