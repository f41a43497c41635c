//! Cells from the bytes that they begin with.

ghost use Rattle.std.specs.Prelude.{◌≡◌, ◌≤◌, ◌<◌, ◌++◌, ◌^◌, ◌+◌, ◌*◌, ◌/◌, take, drop, length, unsigned_abs, if◌then◌else◌, [], ◌∷◌, IfOk, OnOk};
ghost use Rattle.type_layout.specs.Storage.{width_of, set_bytes};
ghost use Rattle.common_values.specs.Sets.{byte_of};
ghost use Rattle.tp_meaning.specs.Shapes.{word_of_bytes, read_ordinal, elements_in, elements_from, read_set, read_nothing};
ghost use Rattle.interpreter_effects.specs.initializers.Reading.{view_read};

use interpreter_store::cell_store::{Tree, Value};
use interpreter_store::value_operators::kept_as;
use std::alloc::{AllocError, Global};
use type_layout::{Bytes, Host};

/// What is made of the front of some bytes, and the bytes behind it.
#[derive(Drop)]
pub struct Read<'b> {
    pub tree: Tree,
    pub rest: &'b [u8],
}

// The number that some bytes are, the lowest one first.
#[tactic(auto, using(crate::proofs::initializers::Numbers::byte_more))]
fn word_of_bytes(bytes: &[u8]) -> u32
    requires { length bytes.now ≤ 4 }
    ensures value { result ≡ word_of_bytes bytes.now }
    ensures limit { result < 256 ^ length bytes.now }
{
    match bytes {
        [] => 0,
        [byte, rest @ ..] => u32::from(*byte) + 256 * word_of_bytes(rest),
    }
}

// The front of some bytes.
fn front(bytes: &[u8], count: usize) -> &[u8]
    ensures value { result.now ≡ take count bytes.now }
    ensures limit { length result.now ≤ count }
{
    if count < bytes.len() {
        &bytes[..count]
    } else {
        bytes
    }
}

// What is behind the front.
fn behind(bytes: &[u8], count: usize) -> &[u8]
    ensures { result.now ≡ drop count bytes.now }
{
    if count < bytes.len() {
        &bytes[count..]
    } else {
        &bytes[bytes.len()..]
    }
}

fn width_of(host: Host) -> usize
    ensures value { result ≡ width_of host }
    ensures limit { result ≤ 4 }
{
    match host {
        Host::ShortInt | Host::Byte | Host::Char | Host::Boolean | Host::Enumeration => 1,
        Host::Integer | Host::Word => 2,
        Host::LongInt => 4,
    }
}

/// An ordinal that is stored as a host.
#[tactic(auto, using(crate::proofs::initializers::Numbers::kept_front))]
pub(crate) fn read_ordinal(host: Host, bytes: &[u8]) -> Read<'_>
    ensures { view_read result ≡ read_ordinal host bytes.now }
{
    let width = width_of(host);
    let word = word_of_bytes(front(bytes, width));
    Read {
        tree: Tree::number(kept_as(host, i64::from(word))),
        rest: behind(bytes, width),
    }
}

// An element above 255, which no set type has, is answered as out of memory.
fn append_element(element: u64, to: &mut Vec<u8>) -> Result<(), AllocError>
    ensures { OnOk result (to.new.items ≡ to.old.items ++ element ∷ []) }
{
    match u8::try_from(element) {
        Ok(element) => {
            to.push(element)?;
            Ok(())
        }
        Err(_) => Err(AllocError),
    }
}

fn append_if(there: bool, element: u64, to: &mut Vec<u8>) -> Result<(), AllocError>
    ensures { OnOk result (to.new.items ≡ to.old.items ++ (if there then element ∷ [] else [])) }
{
    if there {
        append_element(element, to)
    } else {
        Ok(())
    }
}

// The element so many behind another. One that passes 64 bits is answered as out of memory.
fn element_behind(element: u64, count: u64) -> Result<u64, AllocError>
    ensures { IfOk result (λ next. next ≡ element + count) }
{
    element.checked_add(count).ok_or(AllocError)
}

// The elements that so many bits of a byte hold, from one on.
fn append_elements(count: u8, element: u64, byte: u8, to: &mut Vec<u8>) -> Result<(), AllocError>
    ensures { OnOk result (to.new.items ≡ to.old.items ++ elements_in count element byte) }
{
    if count == 0 {
        return Ok(());
    }
    append_if(byte % 2 == 1, element, to)?;
    let next = element_behind(element, 1)?;
    append_elements(count - 1, next, byte / 2, to)
}

// The elements that some bytes hold, from one on.
fn append_set(element: u64, bytes: &[u8], to: &mut Vec<u8>) -> Result<(), AllocError>
    ensures { OnOk result (to.new.items ≡ to.old.items ++ elements_from element bytes.now) }
{
    match bytes {
        [] => Ok(()),
        [byte, rest @ ..] => {
            append_elements(8, element, *byte, to)?;
            let next = element_behind(element, 8)?;
            append_set(next, rest, to)
        }
    }
}

fn elements_from(alloc: Global, element: u64, bytes: &[u8]) -> Result<Vec<u8>, AllocError>
    ensures { IfOk result (λ elements. elements.items ≡ elements_from element bytes.now) }
{
    let mut elements = Vec::new(alloc);
    append_set(element, bytes, &mut elements)?;
    Ok(elements)
}

// The first element that has its bit in the first byte of a set whose least element is `low`.
fn first_element(low: i32) -> u64
    ensures { result ≡ 8 * byte_of (unsigned_abs low) }
{
    8 * u64::from(low.unsigned_abs() / 8)
}

fn set_bytes(low: i32, high: i32) -> usize
    ensures { result ≡ set_bytes low high }
{
    (high.unsigned_abs() / 8).saturating_sub(low.unsigned_abs() / 8) as usize + 1
}

/// A set of elements between two bounds.
pub(crate) fn read_set(
    alloc: Global,
    low: i32,
    high: i32,
    bytes: &[u8],
) -> Result<Read<'_>, AllocError>
    ensures { IfOk result (λ read. view_read read ≡ read_set low high bytes.now) }
{
    let size = set_bytes(low, high);
    let elements = elements_from(alloc, first_element(low), front(bytes, size))?;
    Ok(Read {
        tree: Tree::Leaf(Some(Value::Elements(Bytes::from_vec(elements)))),
        rest: behind(bytes, size),
    })
}

/// What no typed constant has in it.
pub(crate) fn read_nothing(bytes: &[u8]) -> Read<'_>
    ensures { view_read result ≡ read_nothing bytes.now }
{
    Read {
        tree: Tree::Leaf(None),
        rest: bytes,
    }
}
