//! The data of a unit: its globals, and then its literals.

ghost use Rattle.std.specs.Prelude.{◌≡◌, ◌++◌, IfOk, OnOk, map};
ghost use Rattle.flat_code.specs.Plain.{view_datum};
ghost use Rattle.lower_places.specs.Data.{first_bytes, global_datum, global_data, literals_of_routines, flat_data};

use crate::literals::add_stmt;
use flat_code::{FlatData, FlatDatum};
use std::alloc::{AllocError, Global};
use type_layout::{Bytes, Types, size_of};
use typed_tree::{Global as GlobalVariable, Routine, Unit};

/// The bytes with which a global begins.
fn first_bytes(alloc: Global, global: &GlobalVariable) -> Result<Bytes, AllocError>
    ensures { IfOk result (λ bytes. bytes ≡ first_bytes global.now.first) }
{
    match &global.first {
        None => Ok(Bytes::new(alloc)),
        Some(bytes) => bytes.copied(alloc),
    }
}

fn global_datum(
    alloc: Global,
    types: &Types,
    global: &GlobalVariable,
) -> Result<FlatDatum, AllocError>
    ensures { IfOk result (λ datum. view_datum datum ≡ global_datum types.now.types global.now) }
{
    if global.ty.0 >= types.count() {
        return Err(AllocError);
    }
    Ok(FlatDatum {
        size: size_of(types, global.ty),
        first: first_bytes(alloc, global)?,
    })
}

fn globals_of(alloc: Global, unit: &Unit) -> Result<FlatData, AllocError>
    ensures { IfOk result (λ made. map view_datum made ≡ global_data unit.now) }
{
    let mut made = FlatData::new(alloc);
    for global in unit.globals.as_slice() {
        made.push(global_datum(alloc, &unit.types, global)?)?;
    }
    Ok(made)
}

fn add_routines(alloc: Global, made: &mut FlatData, routines: &[Routine]) -> Result<(), AllocError>
    ensures { OnOk result (map view_datum made.new ≡ map view_datum made.old ++ literals_of_routines routines.now) }
{
    for routine in routines {
        add_stmt(alloc, made, &routine.body)?;
    }
    Ok(())
}

/// The data of a unit.
pub fn data_of(alloc: Global, unit: &Unit) -> Result<FlatData, AllocError>
    ensures { IfOk result (λ made. map view_datum made ≡ flat_data unit.now) }
{
    let mut made = globals_of(alloc, unit)?;
    add_routines(alloc, &mut made, unit.routines.as_slice())?;
    Ok(made)
}
