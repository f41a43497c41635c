//! The virtual method tables of a unit, by the numbers of the types that it declares itself.

use flat_code::{FlatVmt, FlatVmts, RoutineIds};
use object_vmt::Classes;
use std::alloc::{AllocError, Global};
use type_layout::{RoutineId, TypeId, class_field_of, size_of};
use typed_tree::Unit;

/// A table for a type whose instances have no class.
fn no_table(alloc: Global) -> FlatVmt {
    FlatVmt {
        size: 0,
        slots: RoutineIds::new(alloc),
    }
}

/// The routine that answers a slot of a class. The units that the types name stand behind those of the unit's trees.
fn routine_of(
    unit: &Unit,
    classes: &Classes,
    ty: TypeId,
    slot: u32,
) -> Result<RoutineId, AllocError> {
    if !classes.has(ty) || slot >= classes.slots(ty) {
        return Err(AllocError);
    }
    let RoutineId {
        unit: place,
        number,
    } = classes.method_of(ty, slot);
    let before = match u32::try_from(unit.names.len()) {
        Ok(before) => before,
        Err(_) => return Err(AllocError),
    };
    Ok(RoutineId {
        unit: before.checked_add(place).ok_or(AllocError)?,
        number,
    })
}

fn table_of(
    alloc: Global,
    unit: &Unit,
    classes: &Classes,
    ty: TypeId,
) -> Result<FlatVmt, AllocError> {
    if ty.0 >= unit.types.count() || !classes.has(ty) {
        return Err(AllocError);
    }
    if class_field_of(&unit.types, ty).is_none() {
        return Ok(no_table(alloc));
    }
    let size = match u16::try_from(size_of(&unit.types, ty)) {
        Ok(size) => size,
        Err(_) => return Err(AllocError),
    };
    let mut slots = RoutineIds::new(alloc);
    for slot in 0..classes.slots(ty) {
        slots.push(routine_of(unit, classes, ty, slot)?)?;
    }
    Ok(FlatVmt { size, slots })
}

/// Whether a unit declares a type itself.
fn is_own(unit: &Unit, ty: TypeId) -> bool {
    if ty.0 >= unit.types.count() {
        return false;
    }
    let (place, _) = unit.types.origin(ty);
    match unit.types.units().get(place as usize) {
        Some(name) => name.is(&unit.name),
        None => false,
    }
}

/// The tables of a unit. Its own types have numbers that follow one another.
pub fn tables_of(alloc: Global, unit: &Unit, classes: &Classes) -> Result<FlatVmts, AllocError> {
    let mut tables = FlatVmts::new(alloc);
    for number in 0..unit.types.count() {
        let ty = TypeId(number);
        if is_own(unit, ty) {
            let (_, own) = unit.types.origin(ty);
            if tables.len() != own as usize {
                return Err(AllocError);
            }
            tables.push(table_of(alloc, unit, classes, ty)?)?;
        }
    }
    Ok(tables)
}
