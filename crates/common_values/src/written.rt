//! The text that Write and Str make of their items.

ghost use Rattle.std.specs.Prelude.{◌≡◌, IfOk, string_bytes};
ghost use Rattle.common_values.specs.Written.{
  blanks_due as blanks_before,
  padded as field_of,
  integer_text as decimal_of,
  boolean_text as word_of,
  str_text as str_of,
  error_text as error_of,
};
ghost use Rattle.common_values.specs.WrittenLaws.{FieldLaws};

use crate::strings::byte_count;
use std::alloc::{AllocError, Global};

/// How many blanks stand before a text of `len` bytes in a field of a width.
pub fn blanks_due(width: i32, len: usize) -> usize
    ensures { result ≡ blanks_before width len }
{
    byte_count(width).saturating_sub(len)
}

/// A text at the right end of a field; a text that is wider than its field is written whole. Fails only
/// without memory.
pub fn padded(alloc: Global, width: i32, text: &[u8]) -> Result<Vec<u8>, AllocError>
    ensures { IfOk result (λ v. v.items ≡ field_of width text.now) }
{
    let mut field = vec![in alloc; b' '; blanks_due(width, text.len())]?;
    field.extend_from_slice(text)?;
    Ok(field)
}

/// An integer in decimal digits, with a minus where it is below 0. Fails only without memory.
pub fn integer_text(alloc: Global, value: i32) -> Result<Vec<u8>, AllocError>
    ensures { IfOk result (λ v. v.items ≡ decimal_of value) }
{
    let text = format!(in alloc; "{value}")?;
    Vec::from_slice(alloc, text.as_bytes())
}

/// TRUE or FALSE.
pub fn boolean_text(value: bool) -> &'static [u8]
    ensures { result.now ≡ word_of value }
{
    if value { b"TRUE" } else { b"FALSE" }
}

/// What Str gives a variable of a size: the field, cut to the variable. Fails only without memory.
pub fn str_text(alloc: Global, size: u8, width: i32, text: &[u8]) -> Result<Vec<u8>, AllocError>
    ensures { IfOk result (λ v. v.items ≡ str_of size width text.now) }
{
    let mut field = padded(alloc, width, text)?;
    field.truncate(usize::from(size));
    Ok(field)
}

/// What a program that ends with a runtime error writes. Fails only without memory.
pub fn error_text(alloc: Global, number: u8) -> Result<Vec<u8>, AllocError>
    ensures { IfOk result (λ v. v.items ≡ error_of number) }
{
    let text = format!(in alloc; "Runtime error {number}\r\n")?;
    Vec::from_slice(alloc, text.as_bytes())
}

/// The laws of fields; it does nothing.
pub fn field_laws()
    ensures { FieldLaws }
{}
