//! String constants.

ghost use Rattle.std.specs.Prelude.{◌≡◌, ◌≤◌, length, vec_len, IfOk, if◌then◌else◌, Some, None};
ghost use Rattle.tp_lexer.specs.Shapes.{opens, next_part, constant_of, constant_from};
ghost use Rattle.tp_lexer.specs.declared.constant.Part.TheVariants.{Start};
ghost use Rattle.tp_lexer.specs.Contents.{byte_of, finished, gives, code_after, joined, content_of};

use crate::shape::{Extent, Shape};
use crate::value::digit_value;
use std::alloc::{AllocError, Global};
use type_layout::Bytes;

/// How many bytes of a string constant count.
const CONSTANT_LEN: usize = 255;

/// Where in a string constant a byte stands.
#[derive(Clone, Copy, Debug, PartialEq, Eq)]
pub enum Part {
    /// Before the first part.
    Start,
    /// Between quotes.
    Inside,
    /// Behind a closing quote, which one more quote opens again.
    Closed,
    /// Behind a `#`.
    Code,
    /// In a decimal code.
    Decimal,
    /// Behind the `$` of a hexadecimal code.
    Dollar,
    /// In a hexadecimal code.
    Hexadecimal,
}

/// What a byte of a string constant, or its end, adds to what it holds.
#[derive(Clone, Copy, Debug, PartialEq, Eq)]
pub enum Added {
    Nothing,
    Byte(u8),
    /// A character code with no digits or above 255 has ended.
    BadCode,
}

fn opens(byte: u8) -> Option<Part>
    ensures { result ≡ opens byte }
{
    match byte {
        b'\'' => Some(Part::Inside),
        b'#' => Some(Part::Code),
        _ => None,
    }
}

/// Where one more byte leads, if it belongs to the constant.
pub fn next_part(part: Part, byte: u8) -> Option<Part>
    ensures { result ≡ next_part part byte }
{
    match part {
        Part::Inside if byte == b'\'' => Some(Part::Closed),
        Part::Inside if byte == b'\n' || byte == b'\r' => None,
        Part::Inside => Some(Part::Inside),
        Part::Code if byte == b'$' => Some(Part::Dollar),
        Part::Code | Part::Decimal if byte.is_ascii_digit() => Some(Part::Decimal),
        Part::Dollar | Part::Hexadecimal if byte.is_ascii_hexdigit() => Some(Part::Hexadecimal),
        _ => opens(byte),
    }
}

fn constant_of(part: Part, length: usize) -> Extent
    ensures { result ≡ constant_of part length }
{
    let shape = match part {
        Part::Inside => Shape::OpenConstant,
        _ => Shape::Constant,
    };
    Extent { shape, length }
}

/// The string constant at the front.
pub fn constant_extent(bytes: &[u8]) -> Extent
    ensures exact { result ≡ constant_from 0 Start bytes.now }
    ensures within { result.length ≤ length bytes.now }
{
    let mut part = Part::Start;
    let mut length = 0;
    while length < bytes.len() {
        match next_part(part, bytes[length]) {
            Some(next) => part = next,
            None => return constant_of(part, length),
        }
        length += 1;
    }
    constant_of(part, length)
}

fn byte_of(code: u32) -> Added
    ensures { result ≡ byte_of code }
{
    match u8::try_from(code) {
        Ok(byte) => Added::Byte(byte),
        Err(_) => Added::BadCode,
    }
}

// What a constant holds besides, as it ends in this part.
fn finished(part: Part, code: u32) -> Added
    ensures { result ≡ finished part code }
{
    match part {
        Part::Code | Part::Dollar => Added::BadCode,
        Part::Decimal | Part::Hexadecimal => byte_of(code),
        _ => Added::Nothing,
    }
}

// What one more byte adds.
fn gives(part: Part, code: u32, byte: u8) -> Added
    ensures { result ≡ gives part code byte }
{
    match part {
        Part::Inside if byte != b'\'' => Added::Byte(byte),
        Part::Closed if byte == b'\'' => Added::Byte(byte),
        Part::Code if byte != b'$' && !byte.is_ascii_digit() => Added::BadCode,
        Part::Dollar if !byte.is_ascii_hexdigit() => Added::BadCode,
        Part::Decimal if !byte.is_ascii_digit() => byte_of(code),
        Part::Hexadecimal if !byte.is_ascii_hexdigit() => byte_of(code),
        _ => Added::Nothing,
    }
}

// The character code so far, after one more byte that led to this part. All codes above 255 are one.
fn code_after(part: Part, code: u32, byte: u8) -> u32
    requires { code ≤ 256 }
    ensures exact { result ≡ code_after part code byte }
    ensures within { result ≤ 256 }
{
    let digit = u32::from(digit_value(byte));
    match part {
        Part::Decimal => (code * 10 + digit).min(256),
        Part::Hexadecimal => (code * 16 + digit).min(256),
        _ => 0,
    }
}

// Adds to the text, if there is room and no character code is bad.
#[tactic(auto, using(crate::proofs::Variants::keeping))]
fn joined(text: &mut Vec<u8>, gives: Added) -> Result<bool, AllocError>
    requires { vec_len text.old ≤ 255 }
    ensures ok { IfOk result (λ good. joined text.old.items gives ≡ (if good then Some text.new.items else None)) }
    ensures within { vec_len text.new ≤ 255 }
{
    match gives {
        Added::Nothing => Ok(true),
        Added::BadCode => Ok(false),
        Added::Byte(byte) => {
            if text.len() < CONSTANT_LEN {
                text.push(byte)?;
            }
            Ok(true)
        }
    }
}

/// What a string constant holds, if its character codes are numbers up to 255.
pub fn content_of(alloc: Global, bytes: &[u8]) -> Result<Option<Bytes>, AllocError>
    ensures { IfOk result (λ content. content ≡ content_of bytes.now) }
{
    let mut text = Vec::new(alloc);
    let mut part = Part::Start;
    let mut code = 0;
    for byte in bytes {
        if !joined(&mut text, gives(part, code, *byte))? {
            return Ok(None);
        }
        let next = next_part(part, *byte).unwrap_or(Part::Start);
        code = code_after(next, code, *byte);
        part = next;
    }
    if joined(&mut text, finished(part, code))? {
        Ok(Some(Bytes::from_vec(text)))
    } else {
        Ok(None)
    }
}
