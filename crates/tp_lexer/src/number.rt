//! Numbers in decimal digits.

ghost use Rattle.std.specs.Prelude.{◌≡◌, ◌≤◌, length};
ghost use Rattle.tp_lexer.specs.Shapes.{fraction_len, sign_len, exponent_len, number_extent};

use crate::characters::{byte_at, digits_len};
use crate::shape::{Extent, Shape};

fn fraction_len(bytes: &[u8]) -> usize
    ensures exact { result ≡ fraction_len bytes.now }
    ensures within { result ≤ length bytes.now }
{
    if byte_at(bytes, 0) == b'.' && byte_at(bytes, 1).is_ascii_digit() {
        1 + digits_len(&bytes[1..])
    } else {
        0
    }
}

fn sign_len(bytes: &[u8]) -> usize
    ensures exact { result ≡ sign_len bytes.now }
    ensures within { result ≤ length bytes.now }
{
    let first = byte_at(bytes, 0);
    if first == b'+' || first == b'-' { 1 } else { 0 }
}

fn exponent_len(bytes: &[u8]) -> usize
    ensures exact { result ≡ exponent_len bytes.now }
    ensures within { result ≤ length bytes.now }
{
    let first = byte_at(bytes, 0);
    if first != b'E' && first != b'e' {
        return 0;
    }
    let sign = sign_len(&bytes[1..]);
    let digits = digits_len(&bytes[1 + sign..]);
    if digits == 0 { 0 } else { 1 + sign + digits }
}

/// The number at the front, which begins with a digit.
pub fn number_extent(bytes: &[u8]) -> Extent
    ensures exact { result ≡ number_extent bytes.now }
    ensures within { result.length ≤ length bytes.now }
{
    let digits = digits_len(bytes);
    let rest = &bytes[digits..];
    let fraction = fraction_len(rest);
    let exponent = exponent_len(&rest[fraction..]);
    if fraction + exponent == 0 {
        Extent {
            shape: Shape::Decimal,
            length: digits,
        }
    } else {
        Extent {
            shape: Shape::Real,
            length: digits + fraction + exponent,
        }
    }
}
