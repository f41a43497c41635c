//! First values.

use crate::outcome::put_outcome;
use expression_parser::ReadError;
use pascal_grammar::Lexeme;
use std::alloc::Global;
use syntax_tree::type_tree::{FieldValue, Initializer};
use test_rows::{Line, put};
use type_parser::initializer_parser::read_initializer;

fn shape(value: &Initializer) -> &'static str {
    match value {
        Initializer::Value(_) => "value",
        Initializer::List { items, .. } => match items.as_slice() {
            [Initializer::Value(_), Initializer::List { .. }] => "value and list",
            _ => "list",
        },
        Initializer::Record { fields, .. } => match fields.as_slice() {
            [
                FieldValue::Field { .. },
                FieldValue::Field {
                    value: Initializer::Record { .. },
                    ..
                },
            ] => "field and record",
            _ => "record",
        },
    }
}

fn shape_read(read: &Result<(Initializer, &[Lexeme]), ReadError>) -> &'static str {
    match read {
        Ok((value, rest)) if rest.is_empty() => shape(value),
        _ => "none",
    }
}

/// Writes what the tree of a first value holds, or the outcome.
pub(crate) fn put_first_value(alloc: Global, out: &mut Line, as_tree: bool, lexemes: &[Lexeme]) {
    let read = read_initializer(alloc, 200, lexemes);
    if as_tree {
        put(out, shape_read(&read));
    } else {
        put_outcome(out, lexemes, &read);
    }
}
