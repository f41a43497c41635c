//! The units of a program for the linker.

ghost use Rattle.std.specs.Prelude.{◌≡◌, ◌++◌, map, length, IfOk, IfErr, OnOk};
ghost use Rattle.back_end.specs.Overlaid.{is_among};
ghost use Rattle.back_end.specs.Refused.{IsCodeCause};
ghost use Rattle.back_end.specs.Told.{told, told_of, told_of_runtime, AreUnitsOf};

use crate::error::BuildError;
use codegen_8086::{generate, has_short_arguments};
use flat_code::FlatUnit;
use lower_stmt::flat_units;
use object_file::object_unit::ObjectUnit;
use smart_linker::{LinkUnit, RUNTIME_UNITS};
use std::alloc::Global;
use type_layout::{Name, Sequence};
use typed_tree::{Program, Unit};

/// Units to link, in order.
pub(crate) type LinkUnits = Sequence<LinkUnit>;

/// Whether a list of names has this one.
fn is_among(names: &[Name], name: &Name) -> bool
    ensures { result ≡ is_among names.now name.now }
{
    names.iter().any(|other| *name == *other)
}

/// The object unit of a flat unit.
fn object_unit(alloc: Global, unit: &FlatUnit) -> Result<ObjectUnit, BuildError>
    ensures { IfErr result IsCodeCause }
{
    if unit.names.is_empty() || !has_short_arguments(unit) {
        return Err(BuildError::NoMemory);
    }
    Ok(generate(alloc, unit)?)
}

/// A unit of a program that overlays those of these names, compiled.
fn program_unit(
    alloc: Global,
    unit: &Unit,
    flat: &FlatUnit,
    overlaid: &[Name],
) -> Result<LinkUnit, BuildError>
    ensures told { IfOk result (λ made. told made ≡ told_of overlaid.now unit.now) }
    ensures cause { IfErr result IsCodeCause }
{
    Ok(LinkUnit {
        name: unit.name.copied(),
        object: object_unit(alloc, flat)?,
        initial: unit.initial,
        overlayable: unit.overlayable,
        overlaid: is_among(overlaid, &unit.name),
        marked: true,
    })
}

/// A unit of the runtime, compiled.
fn runtime_unit(alloc: Global, flat: &FlatUnit) -> Result<LinkUnit, BuildError>
    ensures told { IfOk result (λ made. told made ≡ told_of_runtime flat.now) }
    ensures cause { IfErr result IsCodeCause }
{
    let Some(name) = flat.names.as_slice().first() else {
        return Err(BuildError::NoMemory);
    };
    Ok(LinkUnit {
        name: name.copied(),
        object: object_unit(alloc, flat)?,
        initial: flat.initial,
        overlayable: false,
        overlaid: false,
        marked: true,
    })
}

/// Appends units of a program that overlays those of these names, with the flat code of each.
fn push_program(
    alloc: Global,
    made: &mut LinkUnits,
    units: &[Unit],
    flat: &[FlatUnit],
    overlaid: &[Name],
) -> Result<(), BuildError>
    requires { length units.now ≡ length flat.now }
    ensures told { OnOk result (map told made.new ≡ map told made.old ++ map (told_of overlaid.now) units.now) }
    ensures cause { IfErr result IsCodeCause }
{
    match (units, flat) {
        ([], []) => Ok(()),
        ([unit, units @ ..], [code, flat @ ..]) => {
            made.push(program_unit(alloc, unit, code, overlaid)?)?;
            push_program(alloc, made, units, flat, overlaid)
        }
        _ => unreachable!(),
    }
}

/// Appends the units of the runtime.
fn push_runtime(alloc: Global, made: &mut LinkUnits, flat: &[FlatUnit]) -> Result<(), BuildError>
    ensures told { OnOk result (map told made.new ≡ map told made.old ++ map told_of_runtime flat.now) }
    ensures cause { IfErr result IsCodeCause }
{
    for code in flat {
        made.push(runtime_unit(alloc, code)?)?;
    }
    Ok(())
}

/// The units of a program in their order, compiled, and behind them those of the runtime. The program overlays units of these names.
pub(crate) fn link_units(
    alloc: Global,
    program: &Program,
    overlaid: &[Name],
) -> Result<LinkUnits, BuildError>
    ensures told { IfOk result (AreUnitsOf overlaid.now program.now.units) }
    ensures cause { IfErr result IsCodeCause }
{
    let flat = flat_units(alloc, program)?;
    let (runtime, own) = flat.as_slice().split_at(RUNTIME_UNITS);
    let mut units = LinkUnits::new(alloc);
    push_program(alloc, &mut units, program.units.as_slice(), own, overlaid)?;
    push_runtime(alloc, &mut units, runtime)?;
    Ok(units)
}
