//! Reading the items of an interface, and the interface.

ghost use Rattle.std.specs.Prelude.{◌≡◌, ◌<◌, ◌+◌, ◌++◌, nat_lt, nat_le, ℕ, List, Ok, IfOk};
ghost use Rattle.unit_interface.specs.declared.interfaces.Interface.{Interface};
ghost use Rattle.object_file.specs.file_parts.Parts.{Gives, ruled, each, in_turn, byte_at};
ghost use Rattle.unit_file.specs.interface_file.Text.{interface_text, IsInterface};
ghost use Rattle.unit_file.specs.interface_file.Reading.{elements_at, value_parts_at, value_at, item_parts_at, item_at, interface_at};

use crate::type_file::{header_of, id_below, types_of};
use object_file::file_parts::{PartError, byte_of, bytes_of, damaged, long_of, name_of, signed_of};
use std::alloc::Global;
use type_layout::Bytes;
use typed_tree::{Item, Items, Value};
use unit_interface::Interface;

/// An element that is at least this.
fn element_of(least: u16, bytes: &[u8]) -> Result<(u8, &[u8]), PartError>
    ensures { Gives (λ x. (x.0, x.1.now)) result (ruled (nat_le least) byte_at bytes.now) }
{
    let (element, rest) = byte_of(bytes)?;
    if u16::from(element) < least {
        return damaged(bytes.len());
    }
    Ok((element, rest))
}

fn elements_in_turn(alloc: Global, left: u32, bytes: &[u8]) -> Result<(Bytes, &[u8]), PartError>
    ensures { Gives (λ x. (x.0, x.1.now)) result (in_turn (λ least. ruled (nat_le least) byte_at) (λ _ element. element + 1) left 0 bytes.now) }
{
    let mut elements = Bytes::new(alloc);
    let mut least = 0;
    let mut rest = bytes;
    for _ in 0..left {
        let (element, after) = element_of(least, rest)?;
        least = u16::from(element) + 1;
        elements.push(element)?;
        rest = after;
    }
    Ok((elements, rest))
}

#[tactic(auto, unfolding(crate::specs::interface_file::Reading::elements_at))]
fn elements_of(alloc: Global, bytes: &[u8]) -> Result<(Bytes, &[u8]), PartError>
    ensures { Gives (λ x. (x.0, x.1.now)) result (elements_at bytes.now) }
{
    let (left, rest) = long_of(bytes)?;
    elements_in_turn(alloc, left, rest)
}

/// The number below 4 that says what follows.
fn tag_of(bytes: &[u8]) -> Result<(u8, &[u8]), PartError>
    ensures few { IfOk result (λ x. x.0 < 4) }
    ensures read { Gives (λ x. (x.0, x.1.now)) result (ruled (λ tag. nat_lt tag 4) byte_at bytes.now) }
{
    let (tag, rest) = byte_of(bytes)?;
    if tag >= 4 {
        return damaged(bytes.len());
    }
    Ok((tag, rest))
}

fn value_parts(alloc: Global, tag: u8, bytes: &[u8]) -> Result<(Value, &[u8]), PartError>
    requires { tag < 4 }
    ensures { Gives (λ x. (x.0, x.1.now)) result (value_parts_at tag bytes.now) }
{
    match tag {
        0 => {
            let (number, rest) = signed_of(bytes)?;
            Ok((Value::Number(number), rest))
        }
        1 => {
            let (text, rest) = bytes_of(alloc, bytes)?;
            Ok((Value::Chars(text), rest))
        }
        2 => Ok((Value::Nil, bytes)),
        _ => {
            let (elements, rest) = elements_of(alloc, bytes)?;
            Ok((Value::Elements(elements), rest))
        }
    }
}

#[tactic(auto, unfolding(crate::specs::interface_file::Reading::value_at))]
fn value_of(alloc: Global, bytes: &[u8]) -> Result<(Value, &[u8]), PartError>
    ensures { Gives (λ x. (x.0, x.1.now)) result (value_at bytes.now) }
{
    let (tag, rest) = tag_of(bytes)?;
    value_parts(alloc, tag, rest)
}

fn const_of(alloc: Global, count: u32, bytes: &[u8]) -> Result<(Item, &[u8]), PartError>
    ensures { Gives (λ x. (x.0, x.1.now)) result (item_parts_at count 0 bytes.now) }
{
    let (name, rest) = name_of(bytes)?;
    let (ty, rest) = id_below(count, rest)?;
    let (value, rest) = value_of(alloc, rest)?;
    Ok((Item::Const { name, ty, value }, rest))
}

fn ty_of(count: u32, bytes: &[u8]) -> Result<(Item, &[u8]), PartError>
    ensures { Gives (λ x. (x.0, x.1.now)) result (item_parts_at count 1 bytes.now) }
{
    let (name, rest) = name_of(bytes)?;
    let (ty, rest) = id_below(count, rest)?;
    Ok((Item::Ty { name, ty }, rest))
}

fn var_of(count: u32, bytes: &[u8]) -> Result<(Item, &[u8]), PartError>
    ensures { Gives (λ x. (x.0, x.1.now)) result (item_parts_at count 2 bytes.now) }
{
    let (name, rest) = name_of(bytes)?;
    let (ty, rest) = id_below(count, rest)?;
    let (number, rest) = long_of(rest)?;
    Ok((Item::Var { name, ty, number }, rest))
}

fn code_of(alloc: Global, count: u32, bytes: &[u8]) -> Result<(Item, &[u8]), PartError>
    ensures { Gives (λ x. (x.0, x.1.now)) result (item_parts_at count 3 bytes.now) }
{
    let (name, rest) = name_of(bytes)?;
    let (header, rest) = header_of(alloc, count, rest)?;
    let (number, rest) = long_of(rest)?;
    let item = Item::Code {
        name,
        header,
        number,
    };
    Ok((item, rest))
}

fn item_parts(alloc: Global, count: u32, tag: u8, bytes: &[u8]) -> Result<(Item, &[u8]), PartError>
    requires { tag < 4 }
    ensures { Gives (λ x. (x.0, x.1.now)) result (item_parts_at count tag bytes.now) }
{
    match tag {
        0 => const_of(alloc, count, bytes),
        1 => ty_of(count, bytes),
        2 => var_of(count, bytes),
        _ => code_of(alloc, count, bytes),
    }
}

#[tactic(auto, unfolding(crate::specs::interface_file::Reading::item_at))]
fn item_of(alloc: Global, count: u32, bytes: &[u8]) -> Result<(Item, &[u8]), PartError>
    ensures { Gives (λ x. (x.0, x.1.now)) result (item_at count bytes.now) }
{
    let (tag, rest) = tag_of(bytes)?;
    item_parts(alloc, count, tag, rest)
}

fn items_in_turn(
    alloc: Global,
    left: u32,
    count: u32,
    bytes: &[u8],
) -> Result<(Items, &[u8]), PartError>
    ensures { Gives (λ x. (x.0, x.1.now)) result (each (item_at count) left bytes.now) }
{
    let mut items = Items::new(alloc);
    let mut rest = bytes;
    for _ in 0..left {
        let (item, after) = item_of(alloc, count, rest)?;
        items.push(item)?;
        rest = after;
    }
    Ok((items, rest))
}

#[tactic(auto, unfolding(crate::specs::interface_file::Reading::interface_at))]
fn interface(alloc: Global, bytes: &[u8]) -> Result<(Interface, &[u8]), PartError>
    ensures { Gives (λ x. (x.0, x.1.now)) result (interface_at bytes.now) }
{
    let (name, rest) = name_of(bytes)?;
    let (types, rest) = types_of(alloc, rest)?;
    let (left, rest) = long_of(rest)?;
    let (items, rest) = items_in_turn(alloc, left, types.count(), rest)?;
    Ok((Interface { name, types, items }, rest))
}

/// The interface that the bytes begin with, and the bytes behind it. `Damaged` comes exactly where they begin with none, at
/// the first part that breaks a rule given the parts before it.
pub fn interface_of(alloc: Global, bytes: &[u8]) -> Result<(Interface, &[u8]), PartError>
    // What is read is spelled so.
    ensures found { IfOk result (λ x. IsInterface x.0 × (bytes.now ≡ interface_text x.0 ++ x.1.now)) }
    // What is spelled so is read, unless memory runs out.
    ensures only { (shown : Interface) (rest : List ℕ) → IsInterface shown → bytes.now ≡ interface_text shown ++ rest
        → Gives {B = Interface × List ℕ} (λ x. (x.0, x.1.now)) result (Ok (shown, rest)) }
    // What the parts in their order give: the interface, or the place of damage.
    ensures exact { Gives (λ x. (x.0, x.1.now)) result (interface_at bytes.now) }
{
    interface(alloc, bytes)
}
