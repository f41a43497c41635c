//! Numerals, and what is written.

use crate::bits::put_next;
use crate::strings::{put_made, put_quoted};
use common_values::numerals::{numeral_of, val_of};
use common_values::written::{boolean_text, error_text, integer_text, padded, str_text};
use std::alloc::Global;
use test_rows::{Args, Line, part, put, put_number, put_numbered};

// The number that a text is, or the place of the fault.
fn put_numeral(out: &mut Line, text: &[u8]) {
    part(out, " ");
    match numeral_of(text) {
        Ok(value) => put_number(out, i64::from(value)),
        Err(place) => {
            put(out, "fault at ");
            put_numbered(out, "", place as u64);
        }
    }
}

fn put_val(out: &mut Line, text: &[u8]) {
    let (value, code) = val_of(text);
    put_next(out, value);
    put(out, " ");
    put_numbered(out, "", code as u64);
}

// The text of an integer, and the number that this text is.
fn put_integer(alloc: Global, out: &mut Line, value: i32) {
    let text = integer_text(alloc, value);
    put_made(out, &text);
    if let Ok(text) = &text {
        put_numeral(out, text.as_slice());
    }
}

/// Writes what is answered, if this is asked.
pub(crate) fn put_answer(alloc: Global, out: &mut Line, asked: &str, args: &mut Args) -> bool {
    match asked {
        "numeral" => put_numeral(out, args.bytes(alloc).as_slice()),
        "Val" => put_val(out, args.bytes(alloc).as_slice()),
        "in a field" => {
            let width = args.number();
            put_made(out, &padded(alloc, width, args.bytes(alloc).as_slice()));
        }
        "integer" => put_integer(alloc, out, args.number()),
        "Boolean" => put_quoted(out, boolean_text(args.truth())),
        "line of an error" => put_made(out, &error_text(alloc, args.byte())),
        "Str" => {
            let (size, width) = (args.byte(), args.number());
            let text = args.bytes(alloc);
            put_made(out, &str_text(alloc, size, width, text.as_slice()));
        }
        _ => return false,
    }
    true
}
