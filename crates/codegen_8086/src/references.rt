//! What lines refer to, as references in the bytes of their code.

ghost use Rattle.std.specs.Prelude.{◌≡◌, ◌<◌, length, IfOk};
ghost use Rattle.codegen_8086.specs.object_code.References.{bytes_before, kind_of, name_in, place_of, number_of, ref_of, refs_at};

use code_templates::code_references::{MarkedLine, Target};
use object_file::object_unit::{Ref, RefKind, Refs};
use std::alloc::{AllocError, Global};
use type_layout::Name;

fn bytes_before(target: Target) -> u32
    ensures { result ≡ bytes_before target }
{
    match target {
        Target::Datum { .. } => 2,
        _ => 1,
    }
}

fn kind_of(target: Target) -> RefKind
    ensures { result ≡ kind_of target }
{
    match target {
        Target::Datum { .. } => RefKind::DataOffset,
        Target::Table { .. } => RefKind::Vmt,
        Target::Routine { .. } => RefKind::FarRoutine,
        Target::OwnRoutine(_) => RefKind::NearRoutine,
        Target::Runtime(_) => RefKind::Runtime,
        Target::ErrorRoutine => RefKind::Runtime,
        Target::ClearRoutine => RefKind::Runtime,
        Target::FlagRoutine => RefKind::Runtime,
    }
}

/// The name at a place in a unit's names, the unit's own where there is none.
pub(crate) fn name_in(names: &[Name], place: u32) -> &Name
    requires { 0 < length names.now }
    ensures { result.now ≡ name_in names.now place }
{
    match names.get(place as usize) {
        Some(name) => name,
        None => &names[0],
    }
}

fn place_of(target: Target) -> u32
    ensures { result ≡ place_of target }
{
    match target {
        Target::Datum { unit, .. } => unit,
        Target::Table { unit, .. } => unit,
        Target::Routine { unit, .. } => unit,
        _ => 0,
    }
}

fn number_of(target: Target) -> u32
    ensures { result ≡ number_of target }
{
    match target {
        Target::Datum { number, .. } => number,
        Target::Table { number, .. } => number,
        Target::Routine { number, .. } => number,
        Target::OwnRoutine(number) => number,
        Target::Runtime(number) => u32::from(number),
        Target::ErrorRoutine => 0,
        Target::ClearRoutine => 3,
        Target::FlagRoutine => 4,
    }
}

// The reference of an instruction at a place.
fn ref_of(names: &[Name], place: u32, target: Target) -> Result<Ref, AllocError>
    requires { 0 < length names.now }
    ensures { IfOk result (λ one. one ≡ ref_of names.now place target) }
{
    Ok(Ref {
        offset: place.checked_add(bytes_before(target)).ok_or(AllocError)?,
        kind: kind_of(target),
        unit: name_in(names, place_of(target)).clone()?,
        number: number_of(target),
    })
}

/// The references of lines at these places.
pub(crate) fn refs_at(
    alloc: Global,
    names: &[Name],
    places: &[u32],
    lines: &[MarkedLine],
) -> Result<Refs, AllocError>
    requires named { 0 < length names.now }
    requires placed { length places.now ≡ length lines.now }
    ensures { IfOk result (λ refs. refs ≡ refs_at names.now places.now lines.now) }
{
    let mut refs = Refs::new(alloc);
    for (number, line) in lines.iter().enumerate() {
        if let Some(target) = line.target {
            refs.push(ref_of(names, places[number], target)?)?;
        }
    }
    Ok(refs)
}
