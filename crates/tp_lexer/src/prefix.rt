//! What stands at the front of a text.

ghost use Rattle.std.specs.Prelude.{◌≡◌, ◌≤◌, ◌<◌, length};
ghost use Rattle.tp_lexer.specs.Pieces.{symbol_extent, opens_star, shape_at, passed_at};

use crate::characters::{byte_at, hex_digits_len, is_blank, is_letter, word_len};
use crate::comment::{brace_extent, star_extent};
use crate::constant::constant_extent;
use crate::number::number_extent;
use crate::shape::{Extent, Shape};
use crate::symbol::symbol_of;

fn symbol_extent(bytes: &[u8]) -> Extent
    requires { 0 < length bytes.now }
    ensures exact { result ≡ symbol_extent bytes.now }
    ensures within { result.length ≤ length bytes.now }
{
    if bytes.len() > 1 && symbol_of(bytes.split_at(2).0).is_some() {
        Extent {
            shape: Shape::Symbol,
            length: 2,
        }
    } else if symbol_of(bytes.split_at(1).0).is_some() {
        Extent {
            shape: Shape::Symbol,
            length: 1,
        }
    } else {
        Extent {
            shape: Shape::Other,
            length: 1,
        }
    }
}

fn opens_star(bytes: &[u8]) -> bool
    ensures { result ≡ opens_star bytes.now }
{
    byte_at(bytes, 0) == b'(' && byte_at(bytes, 1) == b'*'
}

/// The shape and the length of what stands at the front of text that is read.
pub fn shape_at(bytes: &[u8]) -> Extent
    requires { 0 < length bytes.now }
    ensures exact { result ≡ shape_at bytes.now }
    ensures within { result.length ≤ length bytes.now }
{
    let first = bytes[0];
    if is_blank(first) {
        Extent {
            shape: Shape::Blank,
            length: 1,
        }
    } else if is_letter(first) {
        Extent {
            shape: Shape::Word,
            length: word_len(bytes),
        }
    } else if first.is_ascii_digit() {
        number_extent(bytes)
    } else if first == b'$' {
        Extent {
            shape: Shape::Hexadecimal,
            length: 1 + hex_digits_len(&bytes[1..]),
        }
    } else if first == b'\'' || first == b'#' {
        constant_extent(bytes)
    } else if first == b'{' {
        brace_extent(bytes)
    } else if opens_star(bytes) {
        star_extent(bytes)
    } else {
        symbol_extent(bytes)
    }
}

/// The same in text that a condition skips, where only comments are known.
pub fn passed_at(bytes: &[u8]) -> Extent
    requires { 0 < length bytes.now }
    ensures exact { result ≡ passed_at bytes.now }
    ensures within { result.length ≤ length bytes.now }
{
    if bytes[0] == b'{' {
        brace_extent(bytes)
    } else if opens_star(bytes) {
        star_extent(bytes)
    } else {
        Extent {
            shape: Shape::Other,
            length: 1,
        }
    }
}
