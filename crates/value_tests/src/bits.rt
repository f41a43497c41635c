//! Operators on the bits of integers.

use crate::names::integer_type;
use common_values::bits::{
    absolute, bitwise_and, bitwise_not, bitwise_or, bitwise_xor, first_byte, second_byte, squared,
    swapped,
};
use test_rows::{Args, Line, part, put_number};

/// Writes a number behind those before it.
pub(crate) fn put_next(out: &mut Line, number: i32) {
    part(out, " ");
    put_number(out, i64::from(number));
}

/// Writes what is answered, if this is asked.
pub(crate) fn put_answer(out: &mut Line, asked: &str, args: &mut Args) -> bool {
    match asked {
        "and, or, xor" => {
            let kind = integer_type(args);
            let (a, b) = (args.number(), args.number());
            put_next(out, bitwise_and(kind, a, b));
            put_next(out, bitwise_or(kind, a, b));
            put_next(out, bitwise_xor(kind, a, b));
        }
        "not" => {
            let kind = integer_type(args);
            put_next(out, bitwise_not(kind, args.number()));
        }
        "Hi, Lo, Swap" => {
            let kind = integer_type(args);
            let value = args.number();
            put_next(out, i32::from(second_byte(value)));
            put_next(out, i32::from(first_byte(value)));
            put_next(out, swapped(kind, value));
        }
        "Abs, Sqr" => {
            let kind = integer_type(args);
            let value = args.number();
            put_next(out, absolute(kind, value));
            put_next(out, squared(kind, value));
        }
        _ => return false,
    }
    true
}
