//! What is asked of lexemes: their kinds, and what the readers of parts of a source make of them.

use crate::declarations::{put_block, put_declarations};
use crate::expressions::put_expression;
use crate::statements::{put_main_part, put_statement};
use crate::types::put_type;
use crate::values::put_first_value;
use pascal_grammar::Lexeme;
use std::alloc::Global;
use test_rows::{Line, part, put, put_shown};

// The kinds of the lexemes, and which of the switches R and O hold there.
fn put_kinds(out: &mut Line, lexemes: &[Lexeme]) {
    for lexeme in lexemes {
        part(out, " ");
        put_shown(out, &lexeme.kind());
        if lexeme.position.switches.r {
            put(out, "+R");
        }
        if lexeme.position.switches.o {
            put(out, "+O");
        }
    }
}

/// Writes what lexemes are answered where this is asked: behind the word `tree` what the tree holds, else the fault or what
/// stands behind what was read.
pub(crate) fn put_answer(alloc: Global, out: &mut Line, asked: &str, lexemes: &[Lexeme]) {
    let (of, as_tree) = match asked.strip_suffix(" tree") {
        Some(of) => (of, true),
        None => (asked, false),
    };
    match of {
        "kinds" => put_kinds(out, lexemes),
        "expression" => put_expression(alloc, out, as_tree, lexemes),
        "main part" => put_main_part(alloc, out, lexemes),
        "statement" => put_statement(alloc, out, lexemes),
        "first value" => put_first_value(alloc, out, as_tree, lexemes),
        "type" => put_type(alloc, out, as_tree, lexemes),
        "declarations" => put_declarations(alloc, out, as_tree, lexemes),
        "block" => put_block(alloc, out, lexemes),
        _ => put(out, "nothing is asked"),
    }
}
