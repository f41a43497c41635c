//! Strings.

use crate::bits::put_next;
use common_values::strings::{
    compared, copied, cut, deleted, inserted, joined, position_of, upper,
};
use std::alloc::{AllocError, Global};
use std::cmp::Ordering;
use test_rows::{Args, Line, part, put, put_numbered, put_runs};

/// Writes a text between quotes.
pub(crate) fn put_text(out: &mut Line, text: &[u8]) {
    put(out, "'");
    put_runs(out, text);
    put(out, "'");
}

/// Writes a text between quotes behind what stands before it.
pub(crate) fn put_quoted(out: &mut Line, text: &[u8]) {
    part(out, " ");
    put_text(out, text);
}

/// Writes a text that was made so.
pub(crate) fn put_made(out: &mut Line, text: &Result<Vec<u8>, AllocError>) {
    match text {
        Ok(text) => put_quoted(out, text.as_slice()),
        Err(_) => put(out, "no memory"),
    }
}

fn put_pieces(alloc: Global, out: &mut Line, args: &mut Args) {
    let text = args.bytes(alloc);
    let (place, count) = (args.number(), args.number());
    put_quoted(out, copied(text.as_slice(), place, count));
    put_made(out, &deleted(alloc, text.as_slice(), place, count));
}

fn put_inserted(alloc: Global, out: &mut Line, args: &mut Args) {
    let part = args.bytes(alloc);
    let text = args.bytes(alloc);
    let (place, size) = (args.number(), args.byte());
    let whole = inserted(alloc, part.as_slice(), text.as_slice(), place, size);
    put_made(out, &whole);
}

fn put_order(out: &mut Line, left: &[u8], right: &[u8]) {
    match compared(left, right) {
        Ordering::Less => put(out, "<"),
        Ordering::Equal => put(out, "="),
        Ordering::Greater => put(out, ">"),
    }
}

/// Writes what is answered, if this is asked.
pub(crate) fn put_answer(alloc: Global, out: &mut Line, asked: &str, args: &mut Args) -> bool {
    match asked {
        "Copy, Delete" => put_pieces(alloc, out, args),
        "Insert" => put_inserted(alloc, out, args),
        "joined" => {
            let (left, right) = (args.bytes(alloc), args.bytes(alloc));
            put_made(out, &joined(alloc, left.as_slice(), right.as_slice()));
        }
        "cut" => {
            let size = args.byte();
            put_quoted(out, cut(size, args.bytes(alloc).as_slice()));
        }
        "Pos" => {
            let (part, text) = (args.bytes(alloc), args.bytes(alloc));
            put_numbered(
                out,
                "",
                position_of(part.as_slice(), text.as_slice()) as u64,
            );
        }
        "compared" => {
            let (left, right) = (args.bytes(alloc), args.bytes(alloc));
            put_order(out, left.as_slice(), right.as_slice());
        }
        "UpCase" => put_next(out, i32::from(upper(args.byte()))),
        _ => return false,
    }
    true
}
