//! Writing an interface.

ghost use Rattle.std.specs.Prelude.{◌≡◌, ◌++◌, All, OnOk};
ghost use Rattle.std.specs.List.{flat_map};
ghost use Rattle.object_file.specs.file_parts.Spelling.{list_text};
ghost use Rattle.unit_file.specs.interface_file.Text.{value_tag, value_parts, value_text, item_tag, item_parts, item_text, interface_text, IsInterface, HasOptions};

use crate::type_file::{push_header, push_id, push_types};
use object_file::file_parts::{push_bytes, push_count, push_long, push_name, push_signed};
use std::alloc::AllocError;
use type_layout::Bytes;
use typed_tree::{Item, Value};
use unit_interface::Interface;

fn value_tag(one: &Value) -> u8
    ensures { result ≡ value_tag one.now }
{
    match one {
        Value::Number(_) => 0,
        Value::Chars(_) => 1,
        Value::Nil => 2,
        Value::Elements(_) => 3,
    }
}

fn push_value_parts(bytes: &mut Bytes, one: &Value) -> Result<(), AllocError>
    ensures { OnOk result (bytes.new ≡ bytes.old ++ value_parts one.now) }
{
    match one {
        Value::Number(number) => push_signed(bytes, *number),
        Value::Chars(text) => push_bytes(bytes, text.as_slice()),
        Value::Nil => Ok(()),
        Value::Elements(elements) => push_bytes(bytes, elements.as_slice()),
    }
}

#[tactic(auto, unfolding(crate::specs::interface_file::Text::value_text))]
fn push_value(bytes: &mut Bytes, one: &Value) -> Result<(), AllocError>
    ensures { OnOk result (bytes.new ≡ bytes.old ++ value_text one.now) }
{
    bytes.push(value_tag(one))?;
    push_value_parts(bytes, one)
}

fn item_tag(one: &Item) -> u8
    ensures { result ≡ item_tag one.now }
{
    match one {
        Item::Const { .. } => 0,
        Item::Ty { .. } => 1,
        Item::Var { .. } => 2,
        Item::Code { .. } => 3,
    }
}

fn push_item_parts(bytes: &mut Bytes, one: &Item) -> Result<(), AllocError>
    requires { HasOptions one.now }
    ensures { OnOk result (bytes.new ≡ bytes.old ++ item_parts one.now) }
{
    match one {
        Item::Const { name, ty, value } => {
            push_name(bytes, name)?;
            push_id(bytes, *ty)?;
            push_value(bytes, value)
        }
        Item::Ty { name, ty } => {
            push_name(bytes, name)?;
            push_id(bytes, *ty)
        }
        Item::Var { name, ty, number } => {
            push_name(bytes, name)?;
            push_id(bytes, *ty)?;
            push_long(bytes, *number)
        }
        Item::Code {
            name,
            header,
            number,
        } => {
            push_name(bytes, name)?;
            push_header(bytes, header)?;
            push_long(bytes, *number)
        }
    }
}

#[tactic(auto, unfolding(crate::specs::interface_file::Text::item_text))]
fn push_item(bytes: &mut Bytes, one: &Item) -> Result<(), AllocError>
    requires { HasOptions one.now }
    ensures { OnOk result (bytes.new ≡ bytes.old ++ item_text one.now) }
{
    bytes.push(item_tag(one))?;
    push_item_parts(bytes, one)
}

fn push_each_item(bytes: &mut Bytes, items: &[Item]) -> Result<(), AllocError>
    requires { All HasOptions items.now }
    ensures { OnOk result (bytes.new ≡ bytes.old ++ flat_map item_text items.now) }
{
    for item in items {
        push_item(bytes, item)?;
    }
    Ok(())
}

fn push_items(bytes: &mut Bytes, items: &[Item]) -> Result<(), AllocError>
    requires { All HasOptions items.now }
    ensures { OnOk result (bytes.new ≡ bytes.old ++ list_text item_text items.now) }
{
    push_count(bytes, items.len())?;
    push_each_item(bytes, items)
}

/// Appends an interface.
#[tactic(auto, unfolding(crate::specs::interface_file::Text::interface_text))]
pub fn push_interface(bytes: &mut Bytes, interface: &Interface) -> Result<(), AllocError>
    requires { IsInterface interface.now }
    ensures { OnOk result (bytes.new ≡ bytes.old ++ interface_text interface.now) }
{
    push_name(bytes, &interface.name)?;
    push_types(bytes, &interface.types)?;
    push_items(bytes, interface.items.as_slice())
}
