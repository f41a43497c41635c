//! The bits of integers: `and`, `or`, `xor` and `not`, Hi, Lo and Swap, and besides Abs and Sqr.

ghost use Rattle.std.specs.Prelude.{◌≡◌};
ghost use Rattle.common_values.specs.Bits.{
  conjunction,
  disjunction,
  exclusive_disjunction,
  complement,
  hi,
  lo,
  swapped as bytes_swapped,
  absolute as absolute_of,
  squared as squared_of,
};
ghost use Rattle.common_values.specs.BitLaws.{BitLaws, ByteLaws};
ghost use Rattle.common_values.specs.declared.ordinals.IntegerType.{IntegerType};

use crate::integers::{high_byte, low_byte, word_from_bytes};
use crate::ordinals::{IntegerType, kept, product, word_16, word_of};

/// `and` in a type.
pub fn bitwise_and(kind: IntegerType, a: i32, b: i32) -> i32
    ensures { result ≡ conjunction kind a b }
{
    kept(kind, i64::from(word_of(kind, a) & word_of(kind, b)))
}

/// `or` in a type.
pub fn bitwise_or(kind: IntegerType, a: i32, b: i32) -> i32
    ensures { result ≡ disjunction kind a b }
{
    kept(kind, i64::from(word_of(kind, a) | word_of(kind, b)))
}

/// `xor` in a type.
pub fn bitwise_xor(kind: IntegerType, a: i32, b: i32) -> i32
    ensures { result ≡ exclusive_disjunction kind a b }
{
    kept(kind, i64::from(word_of(kind, a) ^ word_of(kind, b)))
}

/// `not` in a type.
pub fn bitwise_not(kind: IntegerType, value: i32) -> i32
    ensures { result ≡ complement kind value }
{
    kept(kind, -1 - i64::from(value))
}

/// Hi: bits 8 to 15.
pub fn second_byte(value: i32) -> u8
    ensures { result ≡ hi value }
{
    high_byte(word_16(i64::from(value)))
}

/// Lo: bits 0 to 7.
pub fn first_byte(value: i32) -> u8
    ensures { result ≡ lo value }
{
    low_byte(word_16(i64::from(value)))
}

/// Swap: the two bytes of a word change their places.
pub fn swapped(kind: IntegerType, value: i32) -> i32
    ensures { result ≡ bytes_swapped kind value }
{
    kept(
        kind,
        i64::from(word_from_bytes(second_byte(value), first_byte(value))),
    )
}

/// Abs in a type; the least number of Integer or LongInt wraps to itself.
pub fn absolute(kind: IntegerType, value: i32) -> i32
    ensures { result ≡ absolute_of kind value }
{
    kept(kind, i64::from(value.unsigned_abs()))
}

/// Sqr in a type, where it wraps.
pub fn squared(kind: IntegerType, value: i32) -> i32
    ensures { result ≡ squared_of kind value }
{
    kept(kind, product(value, value))
}

/// The laws of bits; it does nothing.
pub fn bit_laws()
    ensures bits { (kind : IntegerType) → BitLaws kind }
    ensures bytes { ByteLaws }
{}
