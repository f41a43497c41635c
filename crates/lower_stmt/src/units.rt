//! Routines and units.

ghost use Rattle.std.specs.Prelude.{◌≡◌, IfOk};

use crate::prologues::prologue;
use crate::statements::lower_stmt;
use crate::tables::tables_of;
use crate::unit_data::data_of;
use flat_code::flat_builders::then;
use flat_code::{Address, FlatResult, FlatRoutine, FlatRoutines, FlatUnit};
use lower_places::{
    Home, Scene, Spot, UnitGlobals, argument_bytes, flat_names, home_of_result, literals_of_stmt,
    local_bytes,
};
use object_vmt::Classes;
use std::alloc::{AllocError, Global};
use type_layout::size_of;
use typed_tree::{Routine, Unit, frame_of, own_bytes};

/// A number of 64 bits as one of 32.
fn short(number: u64) -> Result<u32, AllocError>
    ensures { IfOk result (λ short. short ≡ number) }
{
    match u32::try_from(number) {
        Ok(number) => Ok(number),
        Err(_) => Err(AllocError),
    }
}

/// Where the bytes of a routine's result lie; a string's are not given to the call, but written through a pointer.
fn result_of(unit: &Unit, routine: &Routine) -> Result<Option<FlatResult>, AllocError> {
    let Some(ty) = routine.header.result else {
        return Ok(None);
    };
    if ty.0 >= unit.types.count() {
        return Err(AllocError);
    }
    match home_of_result(&unit.types, routine)? {
        Home::Behind(_) => Ok(None),
        Home::In(at) => match u8::try_from(size_of(&unit.types, ty)) {
            Ok(bytes) => Ok(Some(FlatResult {
                at: Address::Local(at),
                bytes,
            })),
            Err(_) => Err(AllocError),
        },
    }
}

/// A routine, before whose literals so many others of the unit stand.
fn lower_routine(scene: &Scene, frame: u64, literal: u32) -> Result<FlatRoutine, AllocError> {
    let (unit, routine) = (scene.unit, scene.routine);
    let spot = Spot { slot: 0, literal };
    let body = then(prologue(scene)?, lower_stmt(scene, &routine.body, spot)?)?;
    Ok(FlatRoutine {
        name: routine.name.copied(),
        far: routine.far,
        arguments: argument_bytes(&unit.types, routine)?,
        locals: short(own_bytes(&unit.types, routine))?,
        frame: short(frame)?,
        result: result_of(unit, routine)?,
        body,
    })
}

fn lower_routines(
    alloc: Global,
    unit: &Unit,
    classes: &Classes,
    globals: &[UnitGlobals],
) -> Result<FlatRoutines, AllocError> {
    let count = short(unit.routines.len() as u64)?;
    let mut routines = FlatRoutines::new(alloc);
    let mut literal = 0u32;
    for number in 0..count {
        let routine = &unit.routines.as_slice()[number as usize];
        let scene = Scene {
            alloc,
            unit,
            classes,
            globals,
            routine,
            number,
            locals: local_bytes(&unit.types, routine)?,
            withs: &[],
        };
        routines.push(lower_routine(&scene, frame_of(unit, number), literal)?)?;
        literal = literal.saturating_add(literals_of_stmt(&routine.body));
    }
    Ok(routines)
}

/// A unit as flat code. The classes are those of its types, and the globals those of all units of the program.
pub fn flat_unit(
    alloc: Global,
    unit: &Unit,
    classes: &Classes,
    globals: &[UnitGlobals],
) -> Result<FlatUnit, AllocError> {
    Ok(FlatUnit {
        names: flat_names(alloc, unit)?,
        routines: lower_routines(alloc, unit, classes, globals)?,
        globals: data_of(alloc, unit)?,
        vmts: tables_of(alloc, unit, classes)?,
        initial: unit.initial,
    })
}
