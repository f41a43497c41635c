//! Sizes of types, and offsets of their fields.

ghost use Rattle.std.specs.Prelude.{◌≡◌, ◌+◌, ◌<◌, ◌≤◌, ◌^◌, All, Some, IsTrue, ◌↔◌, MatchResult, length, slice_get, slice_index};
ghost use Rattle.type_layout.specs.Layouts.{fields_size, placed_from, layout_at, size_of, offsets_at, offset_of};

use crate::layout::{Layout, end_of_fields};
use crate::table::{TYPE_LIMIT, Types};
use crate::{Field, TypeDef, TypeId};

/// The bytes of a value of this type.
pub fn size_of(types: &Types, id: TypeId) -> u32
    requires { id.0 < length types.now.types }
    ensures value { result ≡ size_of types.now.types id }
    ensures limit { result ≤ TYPE_LIMIT }
{
    types.layouts()[id.0 as usize].size
}

/// Where an object of this type has the two bytes that say its class, if it has them.
pub fn class_field_of(types: &Types, id: TypeId) -> Option<u32>
    requires { id.0 < length types.now.types }
    ensures { result ≡ (layout_at types.now.types id).class_field }
{
    types.layouts()[id.0 as usize].class_field
}

// The offset of the field with this number among fields that follow one another, or how far the number is past them.
fn offset_within(layouts: &[Layout], start: u32, fields: &[Field], number: u64) -> Result<u32, u64>
    requires known { All (λ field. field.ty.0 < length layouts.now) fields.now }
    requires room { start + fields_size layouts.now fields.now ≤ TYPE_LIMIT }
    ensures { MatchResult result (λ offset. slice_get (placed_from layouts.now start fields.now) number ≡ Some offset)
        (λ rest. number ≡ length (placed_from layouts.now start fields.now) + rest) }
{
    let count = fields.len() as u64;
    if number >= count {
        return Err(number - count);
    }
    Ok(end_of_fields(layouts, u64::from(start), &fields[..number as usize]) as u32)
}

// The offset of the field with this number, those of the ancestors being counted first, or how far the number is past the last.
fn offset_along(types: &Types, id: TypeId, number: u64) -> Result<u32, u64>
    requires { id.0 < length types.now.types }
    ensures { MatchResult result (λ offset. slice_get (offsets_at types.now.types id) number ≡ Some offset)
        (λ rest. number ≡ length (offsets_at types.now.types id) + rest) }
{
    match types.get_laid(id) {
        TypeDef::RecordOf { fields } => offset_within(
            types.layouts(),
            0,
            fields.as_slice(),
            number,
        ),
        TypeDef::ObjectOf {
            parent: None,
            fields,
            ..
        } => offset_within(types.layouts(), 0, fields.as_slice(), number),
        TypeDef::ObjectOf {
            parent: Some(parent),
            fields,
            ..
        } => match offset_along(types, *parent, number) {
            Ok(offset) => Ok(offset),
            Err(rest) => offset_within(
                types.layouts(),
                size_of(types, *parent),
                fields.as_slice(),
                rest,
            ),
        },
        _ => Err(number),
    }
}

/// Whether the type is a record or an object with a field of this number.
pub fn has_field(types: &Types, id: TypeId, field: u32) -> bool
    requires { id.0 < length types.now.types }
    ensures { IsTrue result ↔ (field < length (offsets_at types.now.types id)) }
{
    offset_along(types, id, u64::from(field)).is_ok()
}

/// The offset of a field of a record or an object. The fields of an object's ancestors come first and count first.
pub fn offset_of(types: &Types, id: TypeId, field: u32) -> u32
    requires known { id.0 < length types.now.types }
    requires declared { field < length (offsets_at types.now.types id) }
    ensures { result ≡ offset_of types.now.types id field }
{
    match offset_along(types, id, u64::from(field)) {
        Ok(offset) => offset,
        Err(_) => unreachable!(),
    }
}
