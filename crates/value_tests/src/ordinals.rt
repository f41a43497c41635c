//! Integers in their types.

use crate::bits::put_next;
use crate::names::integer_type;
use common_values::ordinals::{is_within, kept, left_shift, quotient, remainder, right_shift};
use test_rows::{Args, Line, put, put_truth};

fn put_division(out: &mut Line, args: &mut Args) {
    let kind = integer_type(args);
    let (a, b) = (args.number(), args.number());
    if b == 0 {
        put(out, "by zero");
    } else {
        put_next(out, quotient(kind, a, b));
        put_next(out, remainder(kind, a, b));
    }
}

/// Writes what is answered, if this is asked.
pub(crate) fn put_answer(out: &mut Line, asked: &str, args: &mut Args) -> bool {
    match asked {
        "kept in a type" => {
            let kind = integer_type(args);
            put_next(out, kept(kind, args.large()));
        }
        "within bounds" => {
            let (low, high, value) = (args.number(), args.number(), args.number());
            put_truth(out, is_within(low, high, value));
        }
        "div, mod" => put_division(out, args),
        "shl" => {
            let kind = integer_type(args);
            let (value, count) = (args.number(), args.number());
            put_next(out, left_shift(kind, value, count));
        }
        "shr" => {
            let kind = integer_type(args);
            let (value, count) = (args.number(), args.number());
            put_next(out, right_shift(kind, value, count));
        }
        _ => return false,
    }
    true
}
