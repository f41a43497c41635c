//! What is asked of tokens: what their directives say, and what is made of whole sources.

use crate::outcome::put_place;
use crate::statements::put_shape;
use std::alloc::Global;
use syntax_tree::source_tree::{Tree, interface_uses, uses_of};
use syntax_tree::{CompoundStatement, Statement};
use test_rows::{Line, put, put_number, put_numbered, put_shown, put_text, put_truth};
use tp_lexer::Token;
use tp_lexer::source_directives::{Directives, directives_of};
use tp_parser::{ParseError, parse};

// The sizes of the stack and of the heap, the overlaid units with their columns, and whether the unit is overlayable.
fn put_directives(out: &mut Line, found: &Directives) {
    put_numbered(out, "", u64::from(found.stack));
    put_numbered(out, " ", u64::from(found.heap));
    for one in found.overlaid.as_slice() {
        put(out, " ");
        put_text(out, one.name.as_bytes());
        put_numbered(out, ":", u64::from(one.place.column));
    }
    if found.overlayable {
        put(out, " +O");
    }
}

// The column of the first token that is no directive, 0 where there is none.
fn put_begin(out: &mut Line, found: &Directives) {
    match found.first {
        Some(place) => put_number(out, i64::from(place.column)),
        None => put(out, "0"),
    }
}

fn put_found(alloc: Global, out: &mut Line, asked: &str, tokens: &[Token]) {
    match directives_of(alloc, tokens) {
        Ok(found) if asked == "begin" => put_begin(out, &found),
        Ok(found) => put_directives(out, &found),
        Err(_) => put(out, "no memory"),
    }
}

// The fault and its place.
fn put_fault(out: &mut Line, fault: &ParseError) {
    match fault {
        ParseError::NoMemory => put(out, "no memory"),
        ParseError::Syntax { place } => {
            put(out, "Syntax ");
            put_place(out, *place);
        }
        ParseError::NotInProfile { place, feature } => {
            put_shown(out, feature);
            put(out, " ");
            put_place(out, *place);
        }
        ParseError::TooDeep { place } => {
            put(out, "TooDeep ");
            put_place(out, *place);
        }
    }
}

// The used units, each with a blank behind it, and how many of them the interface part names.
fn put_uses(out: &mut Line, tree: &Tree) {
    for unit in uses_of(tree) {
        put_text(out, unit.name.as_bytes());
        put(out, " ");
    }
    put_numbered(out, "", interface_uses(tree) as u64);
}

// The only statement of a program.
fn only_statement(tree: &Tree) -> Option<&Statement> {
    match tree {
        Tree::Program {
            body: CompoundStatement { statements, .. },
            ..
        } => match statements.as_slice() {
            [only] => Some(only),
            _ => None,
        },
        Tree::Unit { .. } => None,
    }
}

fn put_only(out: &mut Line, tree: &Tree) {
    match only_statement(tree) {
        Some(only) => put_shape(out, only),
        None => put(out, "none"),
    }
}

// Whether range checks are on at an `if`, and at the `while` inside.
fn checks(statement: &Statement) -> Option<(bool, bool)> {
    match statement {
        Statement::If { position, body, .. } => match &**body {
            Statement::While {
                position: inner,
                ..
            } => Some((position.switches.r, inner.switches.r)),
            _ => None,
        },
        _ => None,
    }
}

fn put_checks(out: &mut Line, tree: &Tree) {
    match only_statement(tree) {
        Some(only) => match checks(only) {
            Some((outer, inner)) => {
                put_truth(out, outer);
                put(out, " ");
                put_truth(out, inner);
            }
            None => put(out, "other"),
        },
        None => put(out, "none"),
    }
}

fn put_tree(out: &mut Line, asked: &str, tree: &Tree) {
    match asked {
        "source tree" => put_only(out, tree),
        "uses" => put_uses(out, tree),
        "switches" => put_checks(out, tree),
        _ => put(out, "taken"),
    }
}

fn put_source(alloc: Global, out: &mut Line, asked: &str, tokens: &[Token]) {
    let read = parse(alloc, tokens);
    match &read {
        Ok(tree) => put_tree(out, asked, tree),
        Err(fault) => put_fault(out, fault),
    }
}

/// Writes what tokens are answered, if this is asked of them.
pub(crate) fn put_answer(alloc: Global, out: &mut Line, asked: &str, tokens: &[Token]) -> bool {
    match asked {
        "directives" | "begin" => put_found(alloc, out, asked, tokens),
        "source" | "source tree" | "uses" | "switches" => put_source(alloc, out, asked, tokens),
        _ => return false,
    }
    true
}
