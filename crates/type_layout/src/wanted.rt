//! What a table asks of a type that is added.

ghost use Rattle.std.specs.Prelude.{◌≡◌, ◌<◌, ◌≤◌, ◌↔◌, All, IsTrue, length, slice_get};
ghost use Rattle.type_layout.specs.Table.{IsOrdinal, IsByteRange, IsObject, IsAncestor, IsDefinedOver, HasMethodsOf};

use crate::{Field, Method, TypeDef, TypeId};

fn is_ordinal(types: &[TypeDef], id: TypeId) -> bool
    ensures { IsTrue result ↔ IsOrdinal (slice_get types.now id.0) }
{
    matches!(types.get(id.0 as usize), Some(TypeDef::Ordinal { .. }))
}

fn is_byte_range(types: &[TypeDef], id: TypeId) -> bool
    ensures { IsTrue result ↔ IsByteRange (slice_get types.now id.0) }
{
    match types.get(id.0 as usize) {
        Some(TypeDef::Ordinal { low, high, .. }) => 0 <= *low && *high <= 255,
        _ => false,
    }
}

fn is_object(types: &[TypeDef], id: TypeId) -> bool
    ensures { IsTrue result ↔ IsObject (slice_get types.now id.0) }
{
    matches!(types.get(id.0 as usize), Some(TypeDef::ObjectOf { .. }))
}

fn is_ancestor(types: &[TypeDef], parent: Option<TypeId>) -> bool
    ensures { IsTrue result ↔ IsAncestor types.now parent }
{
    match parent {
        None => true,
        Some(id) => is_object(types, id),
    }
}

fn are_known(types: &[TypeDef], fields: &[Field]) -> bool
    ensures { IsTrue result ↔ All (λ field. field.ty.0 < length types.now) fields.now }
{
    let count = types.len();
    fields.iter().all(|field| (field.ty.0 as usize) < count)
}

fn are_of_unit(unit: usize, methods: &[Method]) -> bool
    ensures { IsTrue result ↔ All (λ method. method.routine.unit ≡ unit) methods.now }
{
    methods
        .iter()
        .all(|method| method.routine.unit as usize == unit)
}

/// Whether the parts by value of a type stand among these types and are of the right kind.
pub(crate) fn is_defined_over(types: &[TypeDef], one: &TypeDef) -> bool
    ensures { IsTrue result ↔ IsDefinedOver types.now one.now }
{
    match one {
        TypeDef::Ordinal { host, low, high } => host.least() <= *low
            && *low <= *high
            && *high <= host.greatest(),
        TypeDef::Str { max } => 1 <= *max,
        TypeDef::SetOf { base } => is_byte_range(types, *base),
        TypeDef::ArrayOf { index, element } => is_ordinal(types, *index)
            && (element.0 as usize) < types.len(),
        TypeDef::RecordOf { fields } => are_known(types, fields.as_slice()),
        TypeDef::PointerTo { .. } | TypeDef::Procedural { .. } => true,
        TypeDef::ObjectOf { parent, fields, .. } => is_ancestor(types, *parent)
            && are_known(types, fields.as_slice()),
    }
}

/// Whether the routines of an object's methods are of the unit at this place.
pub(crate) fn has_methods_of(unit: usize, one: &TypeDef) -> bool
    ensures { IsTrue result ↔ HasMethodsOf unit one.now }
{
    match one {
        TypeDef::ObjectOf { methods, .. } => are_of_unit(unit, methods.as_slice()),
        _ => true,
    }
}
