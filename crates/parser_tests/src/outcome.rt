//! What a reader answers.

use expression_parser::ReadError;
use pascal_grammar::Lexeme;
use test_rows::{Line, put, put_numbered, put_shown};
use type_layout::Place;

/// Writes a line and a column.
pub(crate) fn put_place(out: &mut Line, place: Place) {
    put_numbered(out, "", u64::from(place.line));
    put_numbered(out, ":", u64::from(place.column));
}

// The place of the lexeme from which so many are left.
fn put_left(out: &mut Line, lexemes: &[Lexeme], left: usize) {
    match lexemes.get(lexemes.len().wrapping_sub(left)) {
        Some(lexeme) => put_place(out, lexeme.position.place),
        None => put(out, "end"),
    }
}

/// Writes the fault and its place.
pub(crate) fn put_error(out: &mut Line, lexemes: &[Lexeme], error: &ReadError) {
    match error {
        ReadError::NoMemory => put(out, "no memory"),
        ReadError::Syntax(left) => {
            put(out, "Syntax ");
            put_left(out, lexemes, *left);
        }
        ReadError::LeftOut(omission, left) => {
            put_shown(out, &omission.feature());
            put(out, " ");
            put_left(out, lexemes, *left);
        }
        ReadError::TooDeep(left) => {
            put(out, "TooDeep ");
            put_left(out, lexemes, *left);
        }
    }
}

/// Writes the fault and its place, or the place of what stands behind what was read.
pub(crate) fn put_outcome<T>(
    out: &mut Line,
    lexemes: &[Lexeme],
    read: &Result<(T, &[Lexeme]), ReadError>,
) {
    match read {
        Err(error) => put_error(out, lexemes, error),
        Ok((_, rest)) => {
            put(out, "to ");
            put_left(out, lexemes, rest.len());
        }
    }
}
