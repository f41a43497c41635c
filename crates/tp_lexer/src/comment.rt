//! Comments.

ghost use Rattle.std.specs.Prelude.{◌≡◌, ◌≤◌, ◌<◌, ◌+◌, ◌==◌, not, length};
ghost use Rattle.std.specs.List.{prefix_len};
ghost use Rattle.tp_lexer.specs.Shapes.{star_len, brace_extent, star_extent};

use crate::characters::byte_at;
use crate::shape::{Extent, Shape};

// The bytes before the first closing brace.
fn brace_len(bytes: &[u8]) -> usize
    ensures exact { result ≡ prefix_len (λ c. not (c == 125)) bytes.now }
    ensures within { result ≤ length bytes.now }
{
    bytes.iter().take_while(|byte| **byte != b'}').count()
}

// The bytes before the first star and parenthesis.
fn star_len(bytes: &[u8]) -> usize
    ensures exact { result ≡ star_len bytes.now }
    ensures within { result ≤ length bytes.now }
    ensures closed { result < length bytes.now → result + 2 ≤ length bytes.now }
{
    let mut length = 0;
    while length < bytes.len() {
        if bytes[length] == b'*' && byte_at(bytes, length + 1) == b')' {
            return length;
        }
        length += 1;
    }
    length
}

/// The comment at the front, which begins with a brace.
pub fn brace_extent(bytes: &[u8]) -> Extent
    requires { 1 ≤ length bytes.now }
    ensures exact { result ≡ brace_extent bytes.now }
    ensures within { result.length ≤ length bytes.now }
{
    let body = brace_len(&bytes[1..]);
    if 1 + body < bytes.len() {
        Extent {
            shape: Shape::Comment,
            length: 1 + body + 1,
        }
    } else {
        Extent {
            shape: Shape::OpenComment,
            length: bytes.len(),
        }
    }
}

/// The comment at the front, which begins with a parenthesis and a star.
pub fn star_extent(bytes: &[u8]) -> Extent
    requires { 2 ≤ length bytes.now }
    ensures exact { result ≡ star_extent bytes.now }
    ensures within { result.length ≤ length bytes.now }
{
    let body = star_len(&bytes[2..]);
    if 2 + body < bytes.len() {
        Extent {
            shape: Shape::Comment,
            length: 2 + body + 2,
        }
    } else {
        Extent {
            shape: Shape::OpenComment,
            length: bytes.len(),
        }
    }
}
