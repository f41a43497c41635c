//! The values of numbers.

ghost use Rattle.std.specs.Prelude.{◌≡◌, ◌≤◌};
ghost use Rattle.tp_lexer.specs.Numbers.{digit_value, extended, value_from, decimal_of, hexadecimal_of, number_of};

use crate::characters::byte_at;

/// What a decimal or hexadecimal digit stands for.
pub fn digit_value(digit: u8) -> u8
    ensures { result ≡ digit_value digit }
{
    if digit.is_ascii_digit() {
        digit - b'0'
    } else {
        digit.to_ascii_uppercase().saturating_sub(55)
    }
}

// The value of digits, if each is a digit of the base and the value is within the limit.
fn value_of(base: u32, limit: u32, digits: &[u8]) -> Option<u32>
    requires { base ≤ 16 }
    ensures { result ≡ value_from base limit 0 digits.now }
{
    let mut value = 0;
    for digit in digits {
        match extended(base, limit, value, *digit) {
            Some(more) => value = more,
            None => return None,
        }
    }
    Some(value)
}

// A value with one more digit.
fn extended(base: u32, limit: u32, value: u32, digit: u8) -> Option<u32>
    requires { base ≤ 16 }
    ensures { result ≡ extended base limit value digit }
{
    if !digit.is_ascii_hexdigit() {
        return None;
    }
    let digit = u64::from(digit_value(digit));
    let more = u64::from(value) * u64::from(base) + digit;
    if digit < u64::from(base) && more <= u64::from(limit) {
        Some(more as u32)
    } else {
        None
    }
}

/// The whole number that bytes spell.
pub fn number_of(bytes: &[u8]) -> Option<u32>
    ensures { result ≡ number_of bytes.now }
{
    if byte_at(bytes, 0) == b'$' {
        hexadecimal_of(&bytes[1..])
    } else {
        decimal_of(bytes)
    }
}

fn decimal_of(digits: &[u8]) -> Option<u32>
    ensures { result ≡ decimal_of digits.now }
{
    if digits.is_empty() {
        None
    } else {
        value_of(10, 2_147_483_647, digits)
    }
}

fn hexadecimal_of(digits: &[u8]) -> Option<u32>
    ensures { result ≡ hexadecimal_of digits.now }
{
    if digits.is_empty() || digits.len() > 8 {
        None
    } else {
        value_of(16, u32::MAX, digits)
    }
}
