//! Texts through the lexer, the readers and the checker. Each step has a function of its own, since the proof of a function grows
//! with what it holds at each of its exits.

use crate::samples::{hiding_scope, method_scope, scope};
use crate::shown::show;
use expression_parser::statement_parser::read_compound;
use pascal_grammar::Lexeme;
use scopes::Scope;
use std::alloc::{AllocError, Global};
use syntax_tree::Statement;
use tp_check_stmt::check_stmt;
use typed_tree::Stmt;
use typing_rules::CheckError;
use typing_samples::{Line, empty_line, lexemes, put_error};

fn read(alloc: Global, lexemes: &[Lexeme]) -> Result<Statement, AllocError> {
    match read_compound(alloc, 200, lexemes) {
        Ok((main, _)) => Ok(Statement::Compound(main)),
        Err(_) => Err(AllocError),
    }
}

fn parsed(alloc: Global, source: &str) -> Result<Statement, AllocError> {
    let list = lexemes(alloc, source)?;
    read(alloc, list.as_slice())
}

/// Where a main part stands: in the function F inside the procedure G, in the method Total, or in a procedure of that with a parameter Self.
#[derive(Clone, Copy)]
pub(crate) enum Body {
    Function,
    Method,
    Hiding,
}

fn scope_of(alloc: Global, body: Body) -> Result<Scope, AllocError> {
    match body {
        Body::Function => scope(alloc),
        Body::Method => method_scope(alloc),
        Body::Hiding => hiding_scope(alloc),
    }
}

fn checked(
    alloc: Global,
    body: Body,
    main: &Statement,
) -> Result<Result<Stmt, CheckError>, AllocError> {
    let mut scope = scope_of(alloc, body)?;
    Ok(check_stmt(alloc, main, &mut scope))
}

fn shown(alloc: Global, answer: &Result<Stmt, CheckError>) -> Line {
    let mut out = empty_line(alloc);
    match answer {
        Ok(statement) => show(&mut out, statement),
        Err(error) => put_error(&mut out, error),
    }
    out
}

/// What a main part in a body is answered: its node in short, or the mistake with its rule and its place.
pub(crate) fn answered(alloc: Global, body: Body, source: &str) -> Result<Line, AllocError> {
    let main = parsed(alloc, source)?;
    let answer = checked(alloc, body, &main)?;
    Ok(shown(alloc, &answer))
}
