//! The parts of records and objects.

ghost use Rattle.std.specs.Prelude.{◌≡◌, ◌≤◌, ◌<◌, ◌++◌, map, take, length, slice_get, IfOk, IfSome, OnOk};
ghost use Rattle.std.specs.Option.{option_copied};
ghost use Rattle.type_layout.specs.Layouts.{bounds_at};
ghost use Rattle.typed_tree.specs.type_fits.Fits.{fields_by, field_types_of, field_type};
ghost use Rattle.tp_meaning.specs.Shapes.{has_class_part, field_parts, class_parts, object_parts, parts_by, parts_of, parts_at, field_place, class_place};
ghost use Rattle.interpreter_store.specs.typed_cells.Parts.{view_part, parts_before, fields_before};

use crate::typed_cells::sorts::bounds_of;
use std::alloc::{AllocError, Global};
use type_layout::{Field, TypeDef, TypeId, Types};

/// A part of a record or an object: a field, or the class of an instance.
#[derive(Clone, Copy, Debug, PartialEq, Eq)]
pub enum Part {
    Field(TypeId),
    Class,
}

fn has_class_part(parts: &[Part]) -> bool
    ensures { result ≡ has_class_part (map view_part parts.now) }
{
    match parts {
        [] => false,
        [Part::Class, ..] => true,
        [Part::Field(_), rest @ ..] => has_class_part(rest),
    }
}

fn append_fields(fields: &[Field], to: &mut Vec<Part>) -> Result<(), AllocError>
    ensures { OnOk result (map view_part to.new.items ≡ map view_part to.old.items ++ field_parts fields.now) }
{
    'fields: for field in fields {
        to.push(Part::Field(field.ty))?;
    }
    Ok(())
}

fn append_class(has_one: bool, to: &mut Vec<Part>) -> Result<(), AllocError>
    ensures { OnOk result (map view_part to.new.items ≡ map view_part to.old.items ++ class_parts has_one) }
{
    if has_one {
        to.push(Part::Class)?;
    }
    Ok(())
}

/// A type among the first ones of a table.
#[tactic(auto, using(crate::proofs::typed_cells::Before::get_within, crate::proofs::typed_cells::Before::get_past))]
pub(crate) fn type_before(types: &Types, before: u32, ty: TypeId) -> Option<&TypeDef>
    requires { before ≤ length types.now.types }
    ensures { option_copied result ≡ slice_get (take before types.now.types) ty.0 }
{
    if ty.0 < before {
        Some(types.get(ty))
    } else {
        None
    }
}

/// The bounds of a type among the first ones of a table.
pub(crate) fn bounds_before(types: &Types, before: u32, ty: TypeId) -> (i32, i32)
    requires { before ≤ length types.now.types }
    ensures { result ≡ bounds_at (take before types.now.types) ty }
{
    bounds_of(type_before(types, before, ty))
}

/// The parts of a type among the first ones of a table.
#[cycle(parts)]
#[tactic(auto, using(crate::proofs::typed_cells::Before::given_within, crate::proofs::typed_cells::Before::given_past))]
pub(crate) fn parts_before(
    alloc: Global,
    types: &Types,
    before: u32,
    ty: Option<TypeId>,
) -> Result<Vec<Part>, AllocError>
    requires { before ≤ length types.now.types }
    ensures { IfOk result (λ parts. map view_part parts.items ≡ parts_before types.now.types before ty) }
{
    match ty {
        Some(ty) if ty.0 < before => parts_by(alloc, types, ty.0, types.get(ty)),
        _ => Ok(Vec::new(alloc)),
    }
}

/// The parts of a type over the first ones of a table.
#[cycle(parts)]
pub(crate) fn parts_by(
    alloc: Global,
    types: &Types,
    before: u32,
    one: &TypeDef,
) -> Result<Vec<Part>, AllocError>
    requires { before ≤ length types.now.types }
    ensures { IfOk result (λ parts. map view_part parts.items ≡ parts_by (take before types.now.types) (parts_of (take before types.now.types)) one.now) }
{
    match one {
        TypeDef::RecordOf { fields } => {
            let mut parts = Vec::new(alloc);
            append_fields(fields.as_slice(), &mut parts)?;
            Ok(parts)
        }
        TypeDef::ObjectOf {
            parent,
            dynamic,
            fields,
            ..
        } => {
            let above = parts_before(alloc, types, before, *parent)?;
            object_parts(above, *dynamic, fields.as_slice())
        }
        _ => Ok(Vec::new(alloc)),
    }
}

fn object_parts(above: Vec<Part>, dynamic: bool, fields: &[Field]) -> Result<Vec<Part>, AllocError>
    ensures { IfOk result (λ parts. map view_part parts.items ≡ object_parts (map view_part above.items) dynamic fields.now) }
{
    let has_class = has_class_part(above.as_slice());
    let mut parts = above;
    append_fields(fields, &mut parts)?;
    append_class(dynamic && !has_class, &mut parts)?;
    Ok(parts)
}

/// The parts of a type, those of its ancestor first.
#[tactic(auto, using(crate::proofs::typed_cells::Before::whole))]
pub fn parts_of_type(alloc: Global, types: &Types, ty: TypeId) -> Result<Vec<Part>, AllocError>
    ensures { IfOk result (λ parts. map view_part parts.items ≡ parts_at types.now.types ty) }
{
    parts_before(alloc, types, types.count(), Some(ty))
}

/// Where a field lies among the parts, by its number among the fields.
pub fn field_place(parts: &[Part], number: u32) -> usize
    ensures value { result ≡ field_place (map view_part parts.now) number }
    ensures bound { result ≤ length parts.now }
{
    match parts {
        [] => 0,
        [Part::Class, rest @ ..] => 1 + field_place(rest, number),
        [Part::Field(_), rest @ ..] => {
            if number == 0 {
                0
            } else {
                1 + field_place(rest, number - 1)
            }
        }
    }
}

/// Where the class lies among the parts, if they have one.
pub fn class_place(parts: &[Part]) -> Option<usize>
    ensures value { result ≡ class_place (map view_part parts.now) }
    ensures bound { IfSome result (λ place. place < length parts.now) }
{
    match parts {
        [] => None,
        [Part::Class, ..] => Some(0),
        [Part::Field(_), rest @ ..] => match class_place(rest) {
            None => None,
            Some(place) => Some(1 + place),
        },
    }
}

fn append_types(fields: &[Field], to: &mut Vec<TypeId>) -> Result<(), AllocError>
    ensures { OnOk result (to.new.items ≡ to.old.items ++ map (λ field. field.ty) fields.now) }
{
    'fields: for field in fields {
        to.push(field.ty)?;
    }
    Ok(())
}

#[cycle(fields)]
#[tactic(auto, using(crate::proofs::typed_cells::Before::given_within, crate::proofs::typed_cells::Before::given_past))]
fn fields_before(
    alloc: Global,
    types: &Types,
    before: u32,
    ty: Option<TypeId>,
) -> Result<Vec<TypeId>, AllocError>
    requires { before ≤ length types.now.types }
    ensures { IfOk result (λ fields. fields.items ≡ fields_before types.now.types before ty) }
{
    match ty {
        Some(ty) if ty.0 < before => fields_by(alloc, types, ty.0, types.get(ty)),
        _ => Ok(Vec::new(alloc)),
    }
}

#[cycle(fields)]
fn fields_by(
    alloc: Global,
    types: &Types,
    before: u32,
    one: &TypeDef,
) -> Result<Vec<TypeId>, AllocError>
    requires { before ≤ length types.now.types }
    ensures { IfOk result (λ found. found.items ≡ fields_by (take before types.now.types) (field_types_of (take before types.now.types)) one.now) }
{
    match one {
        TypeDef::RecordOf { fields } => {
            let mut found = Vec::new(alloc);
            append_types(fields.as_slice(), &mut found)?;
            Ok(found)
        }
        TypeDef::ObjectOf { parent, fields, .. } => {
            let mut found = fields_before(alloc, types, before, *parent)?;
            append_types(fields.as_slice(), &mut found)?;
            Ok(found)
        }
        _ => Ok(Vec::new(alloc)),
    }
}

/// The type of a field of a type, by its number, those of ancestors counted first.
#[tactic(auto, using(crate::proofs::typed_cells::Before::whole))]
pub fn field_type(
    alloc: Global,
    types: &Types,
    ty: TypeId,
    number: u32,
) -> Result<Option<TypeId>, AllocError>
    ensures { IfOk result (λ found. found ≡ field_type types.now.types ty number) }
{
    let fields = fields_before(alloc, types, types.count(), Some(ty))?;
    Ok(fields.get(number as usize).copied())
}
