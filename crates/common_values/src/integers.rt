//! Words in two's complement, as the 8086 and Pascal's integers have them: definitions for the
//! clauses of other crates, with their laws, and the operations on 16-bit words that std lacks.

ghost use Rattle.std.specs.Prelude.{◌≡◌, ◌<◌, IsTrue};
ghost use Rattle.common_values.specs.integers.Words.{
  Width,
  w16,
  low_byte,
  high_byte,
  word_from_bytes,
  high_product,
  signed_quotient,
  signed_remainder,
  is_signed_less,
  shifted_left,
  shifted_right,
};
ghost use Rattle.common_values.specs.integers.Laws.{
  WrapLaws,
  SignedLaws,
  ArithmeticLaws,
  DivisionLaws,
  ByteLaws,
  ShiftLaws,
};

/// The lower byte of a word.
pub fn low_byte(word: u16) -> u8
    ensures { result ≡ low_byte word }
{
    (word % 0x100) as u8
}

/// The upper byte of a word.
pub fn high_byte(word: u16) -> u8
    ensures { result ≡ high_byte word }
{
    (word / 0x100) as u8
}

/// The word of two bytes.
pub fn word_from_bytes(low: u8, high: u8) -> u16
    ensures { result ≡ word_from_bytes low high }
{
    u16::from(low) + 0x100 * u16::from(high)
}

/// The upper word of the unsigned product.
pub fn high_product(x: u16, y: u16) -> u16
    ensures { result ≡ high_product w16 x y }
{
    (u32::from(x) * u32::from(y) / 0x1_0000) as u16
}

/// The quotient of the signed numbers, rounded toward zero; -32768 by -1 wraps to itself.
pub fn signed_quotient(x: u16, y: u16) -> u16
    requires { 0 < y }
    ensures { result ≡ signed_quotient w16 x y }
{
    x.cast_signed()
        .wrapping_div(y.cast_signed())
        .cast_unsigned()
}

/// What that division leaves; it has the sign of `x`.
pub fn signed_remainder(x: u16, y: u16) -> u16
    requires { 0 < y }
    ensures { result ≡ signed_remainder w16 x y }
{
    x.cast_signed()
        .wrapping_rem(y.cast_signed())
        .cast_unsigned()
}

/// Whether `x` is below `y`, both read as signed numbers.
pub fn is_signed_less(x: u16, y: u16) -> bool
    ensures { result ≡ is_signed_less w16 x y }
{
    x.cast_signed() < y.cast_signed()
}

/// A word shifted to the left by any number of places.
pub fn shifted_left(word: u16, places: u32) -> u16
    ensures { result ≡ shifted_left w16 word places }
{
    if places < 16 { word << places } else { 0 }
}

/// A word shifted to the right by any number of places, with zeros from the left.
pub fn shifted_right(word: u16, places: u32) -> u16
    ensures { result ≡ shifted_right word places }
{
    if places < 16 { word >> places } else { 0 }
}

/// The laws of words at each width; it does nothing.
pub fn word_laws()
    ensures wrap { (w : Width) → WrapLaws w }
    ensures signed { (w : Width) → SignedLaws w }
    ensures arithmetic { (w : Width) → ArithmeticLaws w }
    ensures division { (w : Width) → DivisionLaws w }
    ensures bytes { ByteLaws }
    ensures shifts { (w : Width) → ShiftLaws w }
{}
