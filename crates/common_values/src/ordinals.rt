//! What the integer types store of a number, and `div`, `mod`, `shl` and `shr` in them.

ghost use Rattle.std.specs.Prelude.{◌≡◌, ◌≢◌, ◌<◌, ◌≤◌, ◌^◌, ◌*ℤ◌, ℤ, pos, IsTrue, ◌↔◌};
ghost use Rattle.std.specs.Int.Signed.{mag};
ghost use Rattle.common_values.specs.integers.Words.{Width, w8, w16, w32, bits, word_of as word_in};
ghost use Rattle.common_values.specs.Ordinals.{
  IsWithin,
  width_of,
  kept as kept_of,
  quotient as quotient_of,
  remainder as remainder_of,
  shift_count as count_of,
  left_shift as shifted_left,
  right_shift as shifted_right,
};
ghost use Rattle.common_values.specs.OrdinalLaws.{StorageLaws, OperatorLaws};

/// The predefined integer types.
#[derive(Clone, Copy, Debug, PartialEq, Eq)]
pub enum IntegerType {
    ShortInt,
    Byte,
    Integer,
    Word,
    LongInt,
}

/// Whether a value lies between two bounds, both included.
pub fn is_within(low: i32, high: i32, value: i32) -> bool
    ensures { IsTrue result ↔ IsWithin low high value }
{
    low <= value && value <= high
}

fn word_8(value: i64) -> u8
    ensures { result ≡ word_in w8 value }
{
    value.rem_euclid(0x100) as u8
}

pub(crate) fn word_16(value: i64) -> u16
    ensures { result ≡ word_in w16 value }
{
    value.rem_euclid(0x1_0000) as u16
}

fn word_32(value: i64) -> u32
    ensures { result ≡ word_in w32 value }
{
    value.rem_euclid(0x1_0000_0000) as u32
}

/// What is left of a number when the type's low bytes of it are stored.
pub fn kept(kind: IntegerType, value: i64) -> i32
    ensures { result ≡ kept_of kind value }
{
    match kind {
        IntegerType::ShortInt => i32::from(word_8(value).cast_signed()),
        IntegerType::Byte => i32::from(word_8(value)),
        IntegerType::Integer => i32::from(word_16(value).cast_signed()),
        IntegerType::Word => i32::from(word_16(value)),
        IntegerType::LongInt => word_32(value).cast_signed(),
    }
}

/// `div`, rounded toward zero and wrapped in the type. A divisor of 0 is error 200 of the program.
pub fn quotient(kind: IntegerType, a: i32, b: i32) -> i32
    requires { b ≢ pos 0 }
    ensures { result ≡ quotient_of kind a b }
{
    kept(kind, i64::from(a) / i64::from(b))
}

/// A product that wraps nowhere.
pub(crate) fn product(a: i32, b: i32) -> i64
    ensures value { result ≡ a *ℤ b }
    ensures small { mag result ≤ 2 ^ 62 }
{
    i64::from(a) * i64::from(b)
}

/// `mod`: what `div` leaves of `a`. A divisor of 0 is error 200 of the program.
pub fn remainder(kind: IntegerType, a: i32, b: i32) -> i32
    requires { b ≢ pos 0 }
    ensures { result ≡ remainder_of kind a b }
{
    kept(kind, i64::from(a) - product(quotient(kind, a, b), b))
}

/// The count of a shift, modulo 256.
pub fn shift_count(count: i32) -> u8
    ensures { result ≡ count_of count }
{
    word_8(i64::from(count))
}

/// The number of bits of the type.
fn bits(kind: IntegerType) -> u8
    ensures { result ≡ bits (width_of kind) }
{
    match kind {
        IntegerType::ShortInt | IntegerType::Byte => 8,
        IntegerType::Integer | IntegerType::Word => 16,
        IntegerType::LongInt => 32,
    }
}

/// A value, and so many zeros behind its lowest bit.
fn with_zeros(value: i32, places: u8) -> i64
    requires { places < 32 }
    ensures { result ≡ value *ℤ pos (2 ^ places) }
{
    i64::from(value) * (1 << places)
}

/// `shl` in the type of the left operand; a count of its width or more gives 0.
pub fn left_shift(kind: IntegerType, value: i32, count: i32) -> i32
    ensures { result ≡ shifted_left kind value count }
{
    let places = shift_count(count);
    if places < bits(kind) {
        kept(kind, with_zeros(value, places))
    } else {
        0
    }
}

/// The word that stores a value.
pub(crate) fn word_of(kind: IntegerType, value: i32) -> u32
    ensures { result ≡ word_in (width_of kind) value }
{
    let value = i64::from(value);
    match kind {
        IntegerType::ShortInt | IntegerType::Byte => u32::from(word_8(value)),
        IntegerType::Integer | IntegerType::Word => u32::from(word_16(value)),
        IntegerType::LongInt => word_32(value),
    }
}

/// `shr` in the type of the left operand, with zeros from the left; a count of its width or more gives 0.
pub fn right_shift(kind: IntegerType, value: i32, count: i32) -> i32
    ensures { result ≡ shifted_right kind value count }
{
    let places = shift_count(count);
    if places < bits(kind) {
        kept(kind, i64::from(word_of(kind, value) >> places))
    } else {
        0
    }
}

/// The laws of the integer types; it does nothing.
pub fn ordinal_laws()
    ensures storage { (kind : IntegerType) → StorageLaws kind }
    ensures operators { (kind : IntegerType) → OperatorLaws kind }
{}
