//! Reading the parts of a file.

ghost use Rattle.std.specs.Prelude.{◌≡◌, ◌≤◌, ◌==◌, nat_le, IfOk};
ghost use Rattle.type_layout.specs.Words.{IsName};
ghost use Rattle.object_file.specs.declared.file_parts.error.PartError.{PartError};
ghost use Rattle.object_file.specs.file_parts.Parts.{Gives, any, option_of, ruled, byte_at, word_at, long_at, signed_at, truth_at, option_at, some_bytes, bytes_where, is_name_length, stands_in_name, name_bytes, name_at};

use crate::file_parts::error::PartError;
use arrayvec::ArrayVec;
use std::alloc::Global;
use type_layout::{Bytes, NAME_LEN, Name};

/// The part that begins where so many bytes are left breaks a rule.
pub fn damaged<T>(left: usize) -> Result<T, PartError>
    ensures { result ≡ Err (PartError.Damaged left) }
{
    Err(PartError::Damaged { left })
}

/// A byte, and the bytes behind it.
#[tactic(auto, unfolding(crate::specs::file_parts::Parts::byte_at))]
pub fn byte_of(bytes: &[u8]) -> Result<(u8, &[u8]), PartError>
    ensures { Gives (λ x. (x.0, x.1.now)) result (byte_at bytes.now) }
{
    match bytes {
        [] => damaged(0),
        [byte, rest @ ..] => Ok((*byte, rest)),
    }
}

/// A word, and the bytes behind it.
#[tactic(auto, unfolding(crate::specs::file_parts::Parts::word_at))]
pub fn word_of(bytes: &[u8]) -> Result<(u16, &[u8]), PartError>
    ensures { Gives (λ x. (x.0, x.1.now)) result (word_at bytes.now) }
{
    if bytes.len() < 2 {
        return damaged(0);
    }
    let (front, rest) = bytes.split_at(2);
    Ok((u16::from_le_bytes([front[0], front[1]]), rest))
}

/// A number of four bytes, and the bytes behind it.
#[tactic(auto, unfolding(crate::specs::file_parts::Parts::long_at))]
pub fn long_of(bytes: &[u8]) -> Result<(u32, &[u8]), PartError>
    ensures { Gives (λ x. (x.0, x.1.now)) result (long_at bytes.now) }
{
    if bytes.len() < 4 {
        return damaged(0);
    }
    let (front, rest) = bytes.split_at(4);
    let number = u32::from_le_bytes([front[0], front[1], front[2], front[3]]);
    Ok((number, rest))
}

/// A signed number of four bytes, and the bytes behind it.
#[tactic(auto, unfolding(crate::specs::file_parts::Parts::signed_at))]
pub fn signed_of(bytes: &[u8]) -> Result<(i32, &[u8]), PartError>
    ensures { Gives (λ x. (x.0, x.1.now)) result (signed_at bytes.now) }
{
    let (number, rest) = long_of(bytes)?;
    Ok((number.cast_signed(), rest))
}

fn truth_byte(bytes: &[u8]) -> Result<(u8, &[u8]), PartError>
    ensures { Gives (λ x. (x.0, x.1.now)) result (ruled (λ byte. nat_le byte 1) byte_at bytes.now) }
{
    let (byte, rest) = byte_of(bytes)?;
    if byte > 1 {
        return damaged(bytes.len());
    }
    Ok((byte, rest))
}

/// A truth value, 0 or 1, and the bytes behind it.
#[tactic(auto, unfolding(crate::specs::file_parts::Parts::truth_at))]
pub fn truth_of(bytes: &[u8]) -> Result<(bool, &[u8]), PartError>
    ensures { Gives (λ x. (x.0, x.1.now)) result (truth_at bytes.now) }
{
    let (byte, rest) = truth_byte(bytes)?;
    Ok((byte == 1, rest))
}

/// The number that is one less, where this one isn't 0.
fn one_less(number: u32) -> Option<u32>
    ensures { result ≡ option_of number }
{
    number.checked_sub(1)
}

/// A number that may be absent, and the bytes behind it.
#[tactic(auto, unfolding(crate::specs::file_parts::Parts::option_at))]
pub fn option_of(bytes: &[u8]) -> Result<(Option<u32>, &[u8]), PartError>
    ensures { Gives (λ x. (x.0, x.1.now)) result (option_at bytes.now) }
{
    let (number, rest) = long_of(bytes)?;
    Ok((one_less(number), rest))
}

/// So many bytes, and the bytes behind them.
#[tactic(auto, unfolding(crate::specs::file_parts::Parts::some_bytes))]
pub fn some_bytes(alloc: Global, count: u32, bytes: &[u8]) -> Result<(Bytes, &[u8]), PartError>
    ensures { Gives (λ x. (x.0, x.1.now)) result (some_bytes count bytes.now) }
{
    let count = count as usize;
    if bytes.len() < count {
        return damaged(0);
    }
    let (front, rest) = bytes.split_at(count);
    Ok((Bytes::from_slice(alloc, front)?, rest))
}

/// Bytes behind their count, and the bytes behind them.
#[tactic(auto, unfolding(crate::specs::file_parts::Parts::bytes_where))]
pub fn bytes_of(alloc: Global, bytes: &[u8]) -> Result<(Bytes, &[u8]), PartError>
    ensures { Gives (λ x. (x.0, x.1.now)) result (bytes_where any bytes.now) }
{
    let (count, rest) = long_of(bytes)?;
    some_bytes(alloc, count, rest)
}

fn name_length(bytes: &[u8]) -> Result<(u8, &[u8]), PartError>
    ensures few { IfOk result (λ x. x.0 ≤ NAME_LEN) }
    ensures read { Gives (λ x. (x.0, x.1.now)) result (ruled is_name_length byte_at bytes.now) }
{
    let (size, rest) = byte_of(bytes)?;
    if size == 0 || usize::from(size) > NAME_LEN {
        return damaged(bytes.len());
    }
    Ok((size, rest))
}

/// Whether a byte may be byte `k` of a name.
fn stands_in_name(k: u8, byte: u8) -> bool
    ensures { result ≡ stands_in_name k byte }
{
    (byte.is_ascii_uppercase() || byte == b'_' || byte.is_ascii_digit())
        && !(k == 0 && byte.is_ascii_digit())
}

/// Byte `k` of a name.
fn name_byte(k: u8, bytes: &[u8]) -> Result<(u8, &[u8]), PartError>
    ensures { Gives (λ x. (x.0, x.1.now)) result (ruled (stands_in_name k) byte_at bytes.now) }
{
    let (byte, rest) = byte_of(bytes)?;
    if !stands_in_name(k, byte) {
        return damaged(bytes.len());
    }
    Ok((byte, rest))
}

/// So many bytes of a name, and the bytes behind them.
#[tactic(auto, unfolding(crate::specs::file_parts::Parts::name_bytes))]
fn name_bytes(count: u8, bytes: &[u8]) -> Result<(ArrayVec<u8, NAME_LEN>, &[u8]), PartError>
    requires { count ≤ NAME_LEN }
    ensures { Gives (λ x. (x.0.items, x.1.now)) result (name_bytes count bytes.now) }
{
    let mut text = ArrayVec::new();
    let mut rest = bytes;
    for k in 0..count {
        let (byte, after) = name_byte(k, rest)?;
        text.push(byte);
        rest = after;
    }
    Ok((text, rest))
}

fn named(text: &[u8]) -> Name
    requires { IsName text.now }
    ensures { result ≡ text.now }
{
    match Name::new(text) {
        Some(name) => name,
        None => unreachable!(),
    }
}

/// A name behind its length, and the bytes behind it.
#[tactic(auto, unfolding(crate::specs::file_parts::Parts::name_at))]
pub fn name_of(bytes: &[u8]) -> Result<(Name, &[u8]), PartError>
    ensures { Gives (λ x. (x.0, x.1.now)) result (name_at bytes.now) }
{
    let (size, rest) = name_length(bytes)?;
    let (text, rest) = name_bytes(size, rest)?;
    Ok((named(text.as_slice()), rest))
}
