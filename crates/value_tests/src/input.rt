//! Input, and what is left of it.

use crate::bits::put_next;
use crate::strings::put_quoted;
use common_values::input::{after_line, is_eof, is_eoln, read_char, read_number, read_string};
use std::alloc::Global;
use test_rows::{Args, Line, put, put_truth};

fn put_char(out: &mut Line, input: &[u8]) {
    let (byte, rest) = read_char(input);
    put_next(out, i32::from(byte));
    put_quoted(out, rest);
}

fn put_string(out: &mut Line, input: &[u8], size: u8) {
    let (text, rest) = read_string(input, size);
    put_quoted(out, text);
    put_quoted(out, rest);
}

fn put_numeral(out: &mut Line, input: &[u8]) {
    let (number, rest) = read_number(input);
    match number {
        Some(number) => put_next(out, number),
        None => put(out, "none"),
    }
    put_quoted(out, rest);
}

/// Writes what is answered, if this is asked.
pub(crate) fn put_answer(alloc: Global, out: &mut Line, asked: &str, args: &mut Args) -> bool {
    match asked {
        "Eof, Eoln" => {
            let input = args.bytes(alloc);
            put_truth(out, is_eof(input.as_slice()));
            put(out, " ");
            put_truth(out, is_eoln(input.as_slice()));
        }
        "Char" => put_char(out, args.bytes(alloc).as_slice()),
        "string" => {
            let input = args.bytes(alloc);
            put_string(out, input.as_slice(), args.byte());
        }
        "number" => put_numeral(out, args.bytes(alloc).as_slice()),
        "after the line" => put_quoted(out, after_line(args.bytes(alloc).as_slice())),
        _ => return false,
    }
    true
}
