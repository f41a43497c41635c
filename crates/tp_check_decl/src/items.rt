//! What a unit shows.

ghost use Rattle.std.specs.Prelude.{◌≡◌, ◌++◌, IfOk, OnOk};
ghost use Rattle.tp_check_decl.specs.Interfaces.{item_of, items_in, items_of};

use scopes::{Entry, Scope, Symbols};
use std::alloc::{AllocError, Global};
use type_layout::Name;
use typed_tree::{Item, Items, Value};

fn copied_value(alloc: Global, value: &Value) -> Result<Value, AllocError>
    ensures { IfOk result (λ copy. copy ≡ value.now) }
{
    Ok(match value {
        Value::Number(number) => Value::Number(*number),
        Value::Chars(bytes) => Value::Chars(bytes.copied(alloc)?),
        Value::Nil => Value::Nil,
        Value::Elements(bytes) => Value::Elements(bytes.copied(alloc)?),
    })
}

// Puts what a name is to those that use the unit behind what is there.
fn add_item(alloc: Global, items: &mut Items, name: &Name, entry: &Entry) -> Result<(), AllocError>
    ensures { OnOk result (items.new ≡ items.old ++ item_of name.now entry.now) }
{
    let name = name.copied();
    match entry {
        Entry::Const { ty, value } => items.push(Item::Const {
            name,
            ty: *ty,
            value: copied_value(alloc, value)?,
        }),
        Entry::Ty { ty } => items.push(Item::Ty { name, ty: *ty }),
        Entry::Var { number, ty, .. } => items.push(Item::Var {
            name,
            ty: *ty,
            number: *number,
        }),
        Entry::Code {
            routine,
            header,
            ..
        } => items.push(Item::Code {
            name,
            header: header.copied(alloc)?,
            number: routine.number,
        }),
        Entry::Std { .. } => Ok(()),
    }
}

fn items_in(alloc: Global, symbols: &Symbols) -> Result<Items, AllocError>
    ensures { IfOk result (λ items. items ≡ items_in symbols.now) }
{
    let mut items = Items::new(alloc);
    for place in 0..symbols.len() {
        let (name, entry) = symbols.at(place);
        add_item(alloc, &mut items, name, entry)?;
    }
    Ok(items)
}

/// The names of the innermost block, as they are to those that use the unit.
pub(crate) fn items_of(alloc: Global, scope: &Scope) -> Result<Items, AllocError>
    ensures { IfOk result (λ items. items ≡ items_of scope.now) }
{
    match scope.own_symbols() {
        Some(symbols) => items_in(alloc, symbols),
        None => Ok(Items::new(alloc)),
    }
}
