//! How values of types are stored, and the parts of types.

ghost use Rattle.std.specs.Prelude.{◌≡◌, ◌+◌, ◌/◌, ◌≤◌, ◌<◌, MatchResult, Some, length, map, slice_get, take, unsigned_abs};
ghost use Rattle.std.specs.List.{list_any};
ghost use Rattle.type_layout.specs.declared.definitions.TypeDef.TheVariants as type;
ghost use Rattle.type_layout.specs.Layouts.{bounds_at, layout_at, size_of};
ghost use Rattle.typed_tree.specs.type_fits.Fits.{types_in, fields_by, field_types_of, field_type};
ghost use Rattle.lower_places.specs.declared.sorts.Shape.TheVariants as shape;
ghost use Rattle.lower_places.specs.Shapes.{shape_of, is_flagged, is_flagged_field, is_flagged_parent, holds_class_by, class_holders, holds_class};

use crate::sizes::size_at;
use crate::sorts::Shape;
use type_layout::{Field, TypeDef, TypeId, Types, class_field_of, storage_of};

pub(crate) fn bounds_at(types: &Types, ty: TypeId) -> (i32, i32)
    ensures { result ≡ bounds_at types.now.types ty }
{
    if ty.0 >= types.count() {
        return (0, 0);
    }
    match types.get(ty) {
        TypeDef::Ordinal { low, high, .. } => (*low, *high),
        _ => (0, 0),
    }
}

/// Where instances of a type say their class.
#[tactic(auto, using(crate::proofs::Layouts::class_small, crate::proofs::Tables::class_past))]
pub(crate) fn class_at(types: &Types, ty: TypeId) -> Option<u16>
    ensures { result ≡ (layout_at types.now.types ty).class_field }
{
    if ty.0 >= types.count() {
        return None;
    }
    match class_field_of(types, ty) {
        None => None,
        Some(at) => Some(at as u16),
    }
}

#[tactic(auto, using(crate::proofs::Layouts::set_first))]
fn set_of(types: &Types, ty: TypeId, base: TypeId) -> Shape
    requires { slice_get types.now.types ty.0 ≡ Some (type.SetOf base) }
    ensures { result ≡ shape.Set (unsigned_abs (bounds_at types.now.types base).0 / 8) (size_of types.now.types ty) }
{
    let _count = types.count();
    let (low, _) = bounds_at(types, base);
    Shape::Set {
        first: (low.unsigned_abs() / 8) as u16,
        bytes: size_at(types, ty) as u16,
    }
}

/// How values of a type are stored, if the table has it.
pub fn shape_of(types: &Types, ty: TypeId) -> Option<Shape>
    ensures { result ≡ shape_of types.now.types ty }
{
    if ty.0 >= types.count() {
        return None;
    }
    Some(match types.get(ty) {
        TypeDef::Ordinal { host, low, high } => Shape::Number {
            host: storage_of(*host, *low, *high),
            low: *low,
            high: *high,
        },
        TypeDef::Str { max } => Shape::Text { max: *max },
        TypeDef::SetOf { base } => set_of(types, ty, *base),
        TypeDef::PointerTo { .. } | TypeDef::Procedural { .. } => Shape::Far,
        TypeDef::ArrayOf { .. } | TypeDef::RecordOf { .. } | TypeDef::ObjectOf { .. } =>
            Shape::Whole {
                size: size_at(types, ty) as u16,
                class: class_at(types, ty),
            },
    })
}

// ---- classes in values

#[cycle(holding)]
#[tactic(auto, using(crate::proofs::Before::given_within, crate::proofs::Before::given_past))]
fn is_flagged(types: &Types, before: u32, ty: TypeId) -> bool
    requires { before ≤ length types.now.types }
    ensures { result ≡ is_flagged (class_holders (take before types.now.types)) ty }
{
    if ty.0 < before {
        holds_class_by(types, ty.0, types.get(ty))
    } else {
        false
    }
}

#[cycle(holding)]
fn is_any_flagged(types: &Types, before: u32, fields: &[Field]) -> bool
    requires { before ≤ length types.now.types }
    ensures { result ≡ list_any (is_flagged_field (class_holders (take before types.now.types))) fields.now }
{
    let mut any = false;
    for field in fields {
        any = is_flagged(types, before, field.ty) || any;
    }
    any
}

#[cycle(holding)]
fn is_flagged_parent(types: &Types, before: u32, parent: Option<TypeId>) -> bool
    requires { before ≤ length types.now.types }
    ensures { result ≡ is_flagged_parent (class_holders (take before types.now.types)) parent }
{
    match parent {
        None => false,
        Some(parent) => is_flagged(types, before, parent),
    }
}

#[cycle(holding)]
fn holds_class_by(types: &Types, before: u32, one: &TypeDef) -> bool
    requires { before ≤ length types.now.types }
    ensures { result ≡ holds_class_by (take before types.now.types) (class_holders (take before types.now.types)) one.now }
{
    match one {
        TypeDef::ArrayOf { element, .. } => is_flagged(types, before, *element),
        TypeDef::RecordOf { fields } => is_any_flagged(types, before, fields.as_slice()),
        TypeDef::ObjectOf {
            parent,
            dynamic,
            fields,
            ..
        } => {
            *dynamic
                || is_any_flagged(types, before, fields.as_slice())
                || is_flagged_parent(types, before, *parent)
        }
        _ => false,
    }
}

/// Whether a value of a type has the class of an instance in it.
#[tactic(auto, using(crate::proofs::Before::whole))]
pub fn holds_class(types: &Types, ty: TypeId) -> bool
    ensures { result ≡ holds_class types.now.types ty }
{
    is_flagged(types, types.count(), ty)
}

// ---- the types of fields

// The type of the field with a number, or how far the number is past the last.
#[tactic(auto, using(crate::proofs::Before::field_there, crate::proofs::Before::length_types))]
fn field_within(fields: &[Field], number: usize) -> Result<TypeId, usize>
    ensures { MatchResult result (λ found. slice_get (map (λ field. field.ty) fields.now) number ≡ Some found)
        (λ rest. number ≡ length (map (λ field. field.ty) fields.now) + rest) }
{
    if number < fields.len() {
        Ok(fields[number].ty)
    } else {
        Err(number - fields.len())
    }
}

#[cycle(fields)]
#[tactic(auto, using(crate::proofs::Before::given_within, crate::proofs::Before::given_past))]
fn field_before(
    types: &Types,
    before: u32,
    ty: Option<TypeId>,
    number: usize,
) -> Result<TypeId, usize>
    requires { before ≤ length types.now.types }
    ensures { MatchResult result (λ found. slice_get (types_in (field_types_of (take before types.now.types)) ty) number ≡ Some found)
        (λ rest. number ≡ length (types_in (field_types_of (take before types.now.types)) ty) + rest) }
{
    match ty {
        Some(ty) if ty.0 < before => field_by(types, ty.0, types.get(ty), number),
        _ => Err(number),
    }
}

#[cycle(fields)]
#[tactic(auto, using(crate::proofs::Before::first_of_two, crate::proofs::Before::second_of_two, crate::proofs::Before::length_two))]
fn field_by(types: &Types, before: u32, one: &TypeDef, number: usize) -> Result<TypeId, usize>
    requires { before ≤ length types.now.types }
    ensures { MatchResult result (λ found. slice_get (fields_by (take before types.now.types) (field_types_of (take before types.now.types)) one.now) number ≡ Some found)
        (λ rest. number ≡ length (fields_by (take before types.now.types) (field_types_of (take before types.now.types)) one.now) + rest) }
{
    match one {
        TypeDef::RecordOf { fields } => field_within(fields.as_slice(), number),
        TypeDef::ObjectOf { parent, fields, .. } => {
            match field_before(types, before, *parent, number) {
                Ok(found) => Ok(found),
                Err(rest) => field_within(fields.as_slice(), rest),
            }
        }
        _ => Err(number),
    }
}

/// The type of a field, by its number, those of ancestors counted first.
#[tactic(auto, using(crate::proofs::Before::whole, std::proofs::lemmas::Option::slice_get_past))]
pub(crate) fn field_type(types: &Types, ty: TypeId, number: u32) -> Option<TypeId>
    ensures { result ≡ field_type types.now.types ty number }
{
    match field_before(types, types.count(), Some(ty), number as usize) {
        Ok(found) => Some(found),
        Err(_) => None,
    }
}
