//! What texts are answered. Each step has a function of its own, since the proof of a function grows with what it holds at each of
//! its exits.

use crate::declared::{named, scope};
use constant_checker::constant_expressions::{Constant, check_constant};
use constant_checker::typed_constants::check_initializer;
use scopes::{BlockKind, Entry, Found, Scope};
use std::alloc::{AllocError, Global};
use syntax_tree::type_tree::Initializer;
use syntax_tree::{Expression, SimpleExpression};
use tp_check_expr::check_expr;
use type_layout::{Bytes, Place, TypeId};
use type_parser::initializer_parser::read_initializer;
use typed_tree::Expr;
use typing_rules::CheckError;
use typing_samples::{
    Line, constant, empty_line, expression, lexemes, put, put_error, put_numbered, sample,
    show_expr, show_value,
};

/// What a text is.
#[derive(Clone, Copy)]
pub(crate) enum Part {
    Expression,
    Constant,
    /// A constant inside a `with` over the record of the sample.
    Member,
    /// A first value behind the name of its type.
    FirstValue,
}

// ---- expressions

fn show_node(out: &mut Line, answer: &Result<Expr, CheckError>) {
    match answer {
        Ok(node) => show_expr(out, node),
        Err(error) => put_error(out, error),
    }
}

fn node_of(alloc: Global, tree: &Expression, scope: &mut Scope) -> Line {
    let mut out = empty_line(alloc);
    show_node(&mut out, &check_expr(alloc, tree, scope));
    out
}

fn node(alloc: Global, source: &str) -> Result<Line, AllocError> {
    let tree = expression(alloc, source)?;
    let mut scope = sample(alloc)?;
    Ok(node_of(alloc, &tree, &mut scope))
}

// ---- constants

fn show_constant(out: &mut Line, answer: &Result<Constant, CheckError>) {
    match answer {
        Ok(constant) => show_value(out, constant.ty, &constant.value),
        Err(error) => put_error(out, error),
    }
}

fn value_of(alloc: Global, tree: &SimpleExpression, scope: &Scope) -> Line {
    let mut out = empty_line(alloc);
    show_constant(&mut out, &check_constant(alloc, tree, scope));
    out
}

fn value(alloc: Global, source: &str) -> Result<Line, AllocError> {
    let tree = constant(alloc, source)?;
    let scope = sample(alloc)?;
    Ok(value_of(alloc, &tree, &scope))
}

fn opened(alloc: Global) -> Result<Scope, AllocError> {
    let mut scope = sample(alloc)?;
    scope.begin(BlockKind::With { ty: TypeId(12) })?;
    Ok(scope)
}

fn member(alloc: Global, source: &str) -> Result<Line, AllocError> {
    let tree = constant(alloc, source)?;
    let scope = opened(alloc)?;
    Ok(value_of(alloc, &tree, &scope))
}

// ---- first values

// A typed constant stands in column 99.
const CONSTANT: Place = Place {
    text: 0,
    line: 1,
    column: 99,
};

fn show_bytes(out: &mut Line, answer: &Result<Bytes, CheckError>) {
    match answer {
        Ok(bytes) => {
            put(out, "bytes");
            for byte in bytes.as_slice() {
                put_numbered(out, " ", i64::from(*byte));
            }
        }
        Err(error) => put_error(out, error),
    }
}

fn bytes_of(alloc: Global, tree: &Initializer, scope: &Scope, ty: TypeId) -> Line {
    let mut out = empty_line(alloc);
    let answer = check_initializer(alloc, tree, scope, CONSTANT, ty);
    show_bytes(&mut out, &answer);
    out
}

// A source that is no initializer is a mistake of the row.
fn initializer(alloc: Global, source: &str) -> Result<Initializer, AllocError> {
    let list = lexemes(alloc, source)?;
    match read_initializer(alloc, 200, list.as_slice()) {
        Ok((tree, _)) => Ok(tree),
        Err(_) => Err(AllocError),
    }
}

fn type_of(scope: &Scope, name: &str) -> Result<TypeId, AllocError> {
    match scope.find(&named(name)?) {
        Some(
            Found::Named {
                entry: Entry::Ty { ty },
                ..
            },
        ) => Ok(*ty),
        _ => Err(AllocError),
    }
}

fn first_value_of(alloc: Global, name: &str, source: &str) -> Result<Line, AllocError> {
    let tree = initializer(alloc, source)?;
    let scope = scope(alloc)?;
    let ty = type_of(&scope, name)?;
    Ok(bytes_of(alloc, &tree, &scope, ty))
}

fn first_value(alloc: Global, source: &str) -> Result<Line, AllocError> {
    match source.split_once(": ") {
        Some((name, source)) => first_value_of(alloc, name, source),
        None => Err(AllocError),
    }
}

/// What a text is answered.
pub(crate) fn answered(alloc: Global, part: Part, source: &str) -> Result<Line, AllocError> {
    match part {
        Part::Expression => node(alloc, source),
        Part::Constant => value(alloc, source),
        Part::Member => member(alloc, source),
        Part::FirstValue => first_value(alloc, source),
    }
}
