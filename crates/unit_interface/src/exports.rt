//! The interface of a unit.

ghost use Rattle.std.specs.Prelude.{◌≡◌, ◌<◌, IfOk, OnOk, length, map};
ghost use Rattle.type_layout.specs.Table.{IsWellFormed};
ghost use Rattle.typed_tree.specs.declared.units.Unit.{Unit};
ghost use Rattle.unit_interface.specs.declared.interfaces.Interface.{Interface};
ghost use Rattle.unit_interface.specs.Exports.{new_ids, with_kept, kept, renumbered_item, IsInterfaceOf, IsClosed, IsFitAt};

use crate::Interface;
use crate::keys::Ids;
use crate::merge::{added_type, value_of};
use crate::reach::reached;
use crate::renumber::{header_of, new_id};
use crate::visits::is_met;
use std::alloc::{AllocError, Global};
use type_layout::{TypeError, TypeId, Types};
use typed_tree::{Item, Items, Unit};

// The new ids of the first types: a type that is reached stands behind those before it that are.
fn new_ids(alloc: Global, reached: &[usize], count: u32) -> Result<Ids, AllocError>
    ensures { IfOk result (λ ids. ids ≡ new_ids reached.now count) }
{
    let mut ids = Ids::new(alloc);
    let mut next = 0;
    for number in 0..count {
        ids.push(TypeId(next))?;
        if is_met(reached, number as usize) {
            next += 1;
        }
    }
    Ok(ids)
}

// Adds the type of this number of a unit's table.
fn keep_type(
    alloc: Global,
    types: &mut Types,
    own: &Types,
    ids: &[TypeId],
    number: u32,
) -> Result<(), AllocError>
    requires known { number < length own.now.types }
    requires well_formed { IsWellFormed own.now }
    requires fits { IsFitAt ids.now types.old own.now number }
    ensures { OnOk result (types.new ≡ with_kept own.now ids.now types.old number) }
{
    let (unit, own_number) = own.origin(TypeId(number));
    let origin = own.units()[unit as usize].copied();
    let one = added_type(alloc, types, ids, &origin, own.get(TypeId(number)))?;
    match types.add(origin, own_number, one) {
        Ok(_) => Ok(()),
        Err(TypeError::TooLarge { .. }) => unreachable!(),
        Err(TypeError::NoMemory) => Err(AllocError),
    }
}

// The types that are reached, in the order of the unit's table.
fn kept_types(
    alloc: Global,
    own: &Types,
    reached: &[usize],
    ids: &[TypeId],
) -> Result<Types, AllocError>
    requires closed { IsClosed own.now.types reached.now }
    requires ids { ids.now ≡ new_ids reached.now (length own.now.types) }
    ensures { IfOk result (λ types. types ≡ kept own.now reached.now ids.now (length own.now.types)) }
{
    let mut types = Types::new(alloc);
    for number in 0..own.count() {
        if is_met(reached, number as usize) {
            keep_type(alloc, &mut types, own, ids, number)?;
        }
    }
    Ok(types)
}

fn item_of(alloc: Global, ids: &[TypeId], item: &Item) -> Result<Item, AllocError>
    ensures { IfOk result (λ copy. copy ≡ renumbered_item ids.now item.now) }
{
    Ok(match item {
        Item::Const { name, ty, value } => Item::Const {
            name: name.copied(),
            ty: new_id(ids, *ty),
            value: value_of(alloc, value)?,
        },
        Item::Ty { name, ty } => Item::Ty {
            name: name.copied(),
            ty: new_id(ids, *ty),
        },
        Item::Var { name, ty, number } => Item::Var {
            name: name.copied(),
            ty: new_id(ids, *ty),
            number: *number,
        },
        Item::Code {
            name,
            header,
            number,
        } => Item::Code {
            name: name.copied(),
            header: header_of(alloc, ids, header)?,
            number: *number,
        },
    })
}

fn items_of(alloc: Global, ids: &[TypeId], items: &[Item]) -> Result<Items, AllocError>
    ensures { IfOk result (λ copy. copy ≡ map (renumbered_item ids.now) items.now) }
{
    let mut copy = Items::new(alloc);
    for item in items {
        copy.push(item_of(alloc, ids, item)?)?;
    }
    Ok(copy)
}

/// The interface of a unit: its items, with just those types behind them to which they lead. The types keep their order,
/// and their ids close up; each keeps the unit that declares it and its number there. There is one such interface; an
/// error says that there is no memory.
pub fn interface_of(alloc: Global, unit: &Unit) -> Result<Interface, AllocError>
    ensures ok { IfOk result (IsInterfaceOf unit.now) }
    ensures one { (first second : Interface) → IsInterfaceOf unit.now first → IsInterfaceOf unit.now second → first ≡ second }
{
    let reached = reached(alloc, &unit.types, unit.items.as_slice())?;
    let ids = new_ids(alloc, reached.as_slice(), unit.types.count())?;
    let types = kept_types(alloc, &unit.types, reached.as_slice(), ids.as_slice())?;
    let items = items_of(alloc, ids.as_slice(), unit.items.as_slice())?;
    Ok(Interface {
        name: unit.name.copied(),
        types,
        items,
    })
}
