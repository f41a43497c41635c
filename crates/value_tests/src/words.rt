//! Words of 16 bits.

use crate::bits::put_next;
use common_values::integers::{
    high_byte, high_product, is_signed_less, low_byte, shifted_left, shifted_right,
    signed_quotient, signed_remainder, word_from_bytes,
};
use test_rows::{Args, Line, put, put_truth};

fn put_division(out: &mut Line, args: &mut Args) {
    let (x, y) = (args.word(), args.word());
    if y == 0 {
        put(out, "by zero");
    } else {
        put_next(out, i32::from(signed_quotient(x, y).cast_signed()));
        put_next(out, i32::from(signed_remainder(x, y).cast_signed()));
    }
}

/// Writes what is answered, if this is asked.
pub(crate) fn put_answer(out: &mut Line, asked: &str, args: &mut Args) -> bool {
    match asked {
        "signed division of words" => put_division(out, args),
        "low and high byte" => {
            let word = args.word();
            put_next(out, i32::from(low_byte(word)));
            put_next(out, i32::from(high_byte(word)));
        }
        "word of a low and a high byte" => {
            let (low, high) = (args.byte(), args.byte());
            put_next(out, i32::from(word_from_bytes(low, high)));
        }
        "upper word of a product" => {
            let (x, y) = (args.word(), args.word());
            put_next(out, i32::from(high_product(x, y)));
        }
        "signed words, less" => {
            let (x, y) = (args.word(), args.word());
            put_truth(out, is_signed_less(x, y));
        }
        "word shifted left" => {
            let (word, places) = (args.word(), args.count());
            put_next(out, i32::from(shifted_left(word, places)));
        }
        "word shifted right" => {
            let (word, places) = (args.word(), args.count());
            put_next(out, i32::from(shifted_right(word, places)));
        }
        _ => return false,
    }
    true
}
