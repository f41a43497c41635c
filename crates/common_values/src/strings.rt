//! Strings as lists of bytes. Places count from 1.

ghost use Rattle.std.specs.Prelude.{◌≡◌, ◌<◌, ◌≤◌, length, IfOk, IsTrue, take, drop};
ghost use Rattle.common_values.specs.Strings.{
  byte_count as count_of,
  bytes_before as before_of,
  copied as piece_of,
  cut as cut_to,
  deleted as rest_of,
  inserted as insertion_of,
  joined as joined_of,
  compared as order_of,
  position_of as first_place_of,
  upper as upper_of,
};
ghost use Rattle.common_values.specs.StringLaws.{
  PieceLaws,
  PositionLaws,
  JoinLaws,
  OrderLaws,
  UpperLaws,
  AssignmentLaws,
};

use std::alloc::{AllocError, Global};
use std::cmp::Ordering;

/// The most bytes that a string holds.
pub const LONGEST: usize = 255;

/// At most the first `count` bytes.
pub(crate) fn front(text: &[u8], count: usize) -> &[u8]
    ensures value { result.now ≡ take count text.now }
    ensures len { length result.now ≤ count }
{
    if count < text.len() {
        &text[..count]
    } else {
        text
    }
}

/// What is left without the first `count` bytes.
pub(crate) fn behind(text: &[u8], count: usize) -> &[u8]
    ensures { result.now ≡ drop count text.now }
{
    if count < text.len() {
        &text[count..]
    } else {
        &[]
    }
}

/// A number of bytes; a negative one counts as none.
pub fn byte_count(count: i32) -> usize
    ensures value { result ≡ count_of count }
    ensures small { result < 2147483648 }
{
    if count > 0 { count as usize } else { 0 }
}

/// How many bytes stand before a place; a place below 1 counts as 1.
pub fn bytes_before(place: i32) -> usize
    ensures { result ≡ before_of place }
{
    if place > 0 { place as usize - 1 } else { 0 }
}

/// What a variable of a size keeps of a text.
pub fn cut(size: u8, text: &[u8]) -> &[u8]
    ensures { result.now ≡ cut_to size text.now }
{
    front(text, usize::from(size))
}

/// Copy: at most `count` bytes from a place on.
pub fn copied(text: &[u8], place: i32, count: i32) -> &[u8]
    ensures { result.now ≡ piece_of text.now place count }
{
    front(behind(text, bytes_before(place)), byte_count(count))
}

/// Delete: the text without the bytes that Copy gives. Fails only without memory.
pub fn deleted(alloc: Global, text: &[u8], place: i32, count: i32) -> Result<Vec<u8>, AllocError>
    ensures { IfOk result (λ v. v.items ≡ rest_of text.now place count) }
{
    let before = bytes_before(place);
    let mut left = Vec::from_slice(alloc, front(text, before))?;
    left.extend_from_slice(behind(behind(text, before), byte_count(count)))?;
    Ok(left)
}

/// Insert: the text with a part put before a place, cut to the room of its variable. Fails only without
/// memory.
pub fn inserted(
    alloc: Global,
    part: &[u8],
    text: &[u8],
    place: i32,
    room: u8,
) -> Result<Vec<u8>, AllocError>
    ensures { IfOk result (λ v. v.items ≡ insertion_of part.now text.now place room) }
{
    let before = bytes_before(place);
    let mut whole = Vec::from_slice(alloc, front(text, before))?;
    whole.extend_from_slice(part)?;
    whole.extend_from_slice(behind(text, before))?;
    whole.truncate(LONGEST);
    whole.truncate(usize::from(room));
    Ok(whole)
}

/// One string behind another, cut to 255 bytes. Fails only without memory.
pub fn joined(alloc: Global, first: &[u8], second: &[u8]) -> Result<Vec<u8>, AllocError>
    ensures { IfOk result (λ v. v.items ≡ joined_of first.now second.now) }
{
    let mut whole = Vec::from_slice(alloc, first)?;
    whole.extend_from_slice(second)?;
    whole.truncate(LONGEST);
    Ok(whole)
}

/// Pos: the first place at which a part stands in a text; 0 where it doesn't, or is empty.
pub fn position_of(part: &[u8], text: &[u8]) -> usize
    ensures { result ≡ first_place_of part.now text.now }
{
    if part.is_empty() {
        return 0;
    }
    for i in 0..text.len() {
        if behind(text, i).starts_with(part) {
            return i + 1;
        }
    }
    0
}

/// How two strings compare: by the first bytes that differ, and a proper prefix is less.
pub fn compared(left: &[u8], right: &[u8]) -> Ordering
    ensures { result ≡ order_of left.now right.now }
{
    left.cmp(&right)
}

/// UpCase: the upper-case letter of a byte from `a` to `z`; any other byte stays.
pub fn upper(byte: u8) -> u8
    ensures { result ≡ upper_of byte }
{
    byte.to_ascii_uppercase()
}

/// The laws of strings; it does nothing.
pub fn string_laws()
    ensures pieces { PieceLaws }
    ensures positions { PositionLaws }
    ensures joins { JoinLaws }
    ensures order { OrderLaws }
    ensures letters { UpperLaws }
    ensures assignment { AssignmentLaws }
{}
