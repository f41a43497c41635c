//! Items and interfaces from constants.

use std::alloc::{AllocError, Global};
use tree_samples::{HeaderSample, TypeSample, header, named, table};
use type_layout::{Name, TypeId};
use typed_tree::{Item, Items};
use unit_interface::Interface;

/// A type with the unit that declares it and its number there.
pub(crate) type Declared = (&'static str, u32, TypeSample);

/// What an interface declares. Each variable has the number 3, and each routine 8.
pub(crate) enum ItemSample {
    Ty(&'static str, u32),
    Var(&'static str, u32),
    Code(&'static str, HeaderSample),
}

/// A unit's name, its types and its items.
pub(crate) type InterfaceSample = (&'static str, &'static [Declared], &'static [ItemSample]);

pub(crate) fn first(name: &Name) -> u8 {
    match name.as_bytes().first() {
        Some(byte) => *byte,
        None => b'?',
    }
}

fn item(alloc: Global, sample: &ItemSample) -> Result<Item, AllocError> {
    match sample {
        ItemSample::Ty(name, ty) => Ok(Item::Ty {
            name: named(name)?,
            ty: TypeId(*ty),
        }),
        ItemSample::Var(name, ty) => Ok(Item::Var {
            name: named(name)?,
            ty: TypeId(*ty),
            number: 3,
        }),
        ItemSample::Code(name, shape) => {
            let header = header(alloc, shape)?;
            Ok(Item::Code {
                name: named(name)?,
                header,
                number: 8,
            })
        }
    }
}

pub(crate) fn items(alloc: Global, list: &[ItemSample]) -> Result<Items, AllocError> {
    let mut items = Items::new(alloc);
    for sample in list {
        items.push(item(alloc, sample)?)?;
    }
    Ok(items)
}

fn interface(alloc: Global, sample: &InterfaceSample) -> Result<Interface, AllocError> {
    let (unit, rows, list) = sample;
    let items = items(alloc, list)?;
    let types = table(alloc, rows)?;
    let name = named(unit)?;
    Ok(Interface { name, types, items })
}

pub(crate) fn interfaces(
    alloc: Global,
    list: &[InterfaceSample],
) -> Result<Vec<Interface>, AllocError> {
    let mut interfaces = Vec::new(alloc);
    for sample in list {
        interfaces.push(interface(alloc, sample)?)?;
    }
    Ok(interfaces)
}
