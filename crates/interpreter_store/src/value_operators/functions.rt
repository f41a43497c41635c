//! The standard functions of values.

ghost use Rattle.std.specs.Prelude.{◌≡◌, ◌%◌, ◌==◌, pos, ◌+ℤ◌, ◌-ℤ◌, ◌*ℤ◌, unsigned_abs};
ghost use Rattle.common_values.specs.integers.Words.{w8, word_of, low_byte, high_byte};
ghost use Rattle.common_values.specs.Strings.{upper as upper_of};
ghost use Rattle.tp_meaning.specs.Shapes.{kept_as};
ghost use Rattle.tp_meaning.specs.Operators.{truth_number};
ghost use Rattle.tp_meaning.specs.Standard.{low_word, swapped};

use crate::value_operators::numbers::{kept_as, stored_among, truth_number};
use common_values::bits::{self, first_byte, second_byte};
use common_values::ordinals::shift_count;
use common_values::strings::upper;
use type_layout::Host;

/// Abs, of a result that is stored so.
pub fn absolute(host: Host, z: i32) -> i32
    ensures { result ≡ kept_as host (pos (unsigned_abs z)) }
{
    bits::absolute(stored_among(host), z)
}

/// Sqr, of a result that is stored so.
pub fn squared(host: Host, z: i32) -> i32
    ensures { result ≡ kept_as host (z *ℤ z) }
{
    bits::squared(stored_among(host), z)
}

/// Odd, as the number of a Boolean.
pub fn is_odd(z: i32) -> i32
    ensures { result ≡ truth_number (word_of w8 z % 2 == 1) }
{
    truth_number(shift_count(z) % 2 == 1)
}

/// Chr: the low byte.
pub fn character(z: i32) -> u8
    ensures { result ≡ word_of w8 z }
{
    shift_count(z)
}

/// Succ, of a result that is stored so.
pub fn successor(host: Host, z: i32) -> i32
    ensures { result ≡ kept_as host (z +ℤ pos 1) }
{
    kept_as(host, i64::from(z) + 1)
}

/// Pred, of a result that is stored so.
pub fn predecessor(host: Host, z: i32) -> i32
    ensures { result ≡ kept_as host (z -ℤ pos 1) }
{
    kept_as(host, i64::from(z) - 1)
}

/// Hi: bits 8 to 15.
pub fn high_byte_of(z: i32) -> u8
    ensures { result ≡ high_byte (low_word z) }
{
    second_byte(z)
}

/// Lo: bits 0 to 7.
pub fn low_byte_of(z: i32) -> u8
    ensures { result ≡ low_byte (low_word z) }
{
    first_byte(z)
}

/// Swap: these two bytes change their places, in a result that is stored so.
pub fn swapped(host: Host, z: i32) -> i32
    ensures { result ≡ kept_as host (pos (swapped (low_word z))) }
{
    bits::swapped(stored_among(host), z)
}

/// UpCase of a Char.
pub fn upper_case(z: i32) -> u8
    ensures { result ≡ upper_of (word_of w8 z) }
{
    upper(character(z))
}
