//! Whole programs.

ghost use Rattle.std.specs.Prelude.{◌≡◌, ◌+◌, IfOk, length, min};

use crate::units::flat_unit;
use flat_code::FlatUnit;
use lower_places::UnitGlobals;
use lowerable::is_lowerable;
use object_vmt::{Classes, classes};
use runtime_units::runtime_units;
use std::alloc::{AllocError, Global};
use typed_tree::{Program, Unit};

fn classes_of(alloc: Global, units: &[Unit]) -> Result<Vec<Classes>, AllocError>
    ensures { IfOk result (λ all. length all.items ≡ length units.now) }
{
    let mut all = Vec::new(alloc);
    for unit in units {
        match classes(alloc, &unit.types) {
            Ok(one) => all.push(one)?,
            Err(_) => return Err(AllocError),
        }
    }
    Ok(all)
}

/// Units beside the classes of their types.
fn globals_of<'a>(
    alloc: Global,
    units: &'a [Unit],
    classes: &'a [Classes],
) -> Result<Vec<UnitGlobals<'a>>, AllocError>
    ensures { IfOk result (λ globals. length globals.items ≡ min (length units.now) (length classes.now)) }
{
    let mut globals = Vec::new(alloc);
    'units: for (unit, classes) in units.iter().zip(classes) {
        globals.push(UnitGlobals { unit, classes })?;
    }
    Ok(globals)
}

/// The units of flat code of a program: those of the runtime, and then its own, in their order. A program that can't be
/// lowered is answered as out of memory.
pub fn flat_units(alloc: Global, program: &Program) -> Result<Vec<FlatUnit>, AllocError>
    ensures count { IfOk result (λ flat. length flat.items ≡ 3 + length program.now.units) }
{
    if !is_lowerable(program) {
        return Err(AllocError);
    }
    let units = program.units.as_slice();
    let classes = classes_of(alloc, units)?;
    let globals = globals_of(alloc, units, classes.as_slice())?;
    let mut flat = runtime_units(alloc)?;
    for one in globals.as_slice() {
        flat.push(flat_unit(alloc, one.unit, one.classes, globals.as_slice())?)?;
    }
    Ok(flat)
}
