//! The memory that a type takes, from the types before it.

ghost use Rattle.std.specs.Prelude.{◌≡◌, ◌+◌, ◌<◌, ◌≤◌, All, OnSome, IfSome, length, min};
ghost use Rattle.type_layout.specs.Layouts.{bounds_at, plain, size_in, fields_size, inherited, object_by, class_field_within, layout_by};
ghost use Rattle.type_layout.specs.Table.{IsDefinedOver};

use crate::storage::{count_between, set_bytes, storage_of};
use crate::{Field, TypeDef, TypeId};

/// What the values of a type take: their bytes, and for an object with a virtual method, a constructor
/// or a destructor in its line, the offset of the two bytes that say its class.
#[derive(Clone, Copy, Debug, PartialEq, Eq)]
pub struct Layout {
    pub size: u32,
    pub class_field: Option<u32>,
}

// The bounds of an ordinal type.
fn bounds_at(types: &[TypeDef], id: TypeId) -> (i32, i32)
    ensures { result ≡ bounds_at types.now id }
{
    match types.get(id.0 as usize) {
        Some(TypeDef::Ordinal { low, high, .. }) => (*low, *high),
        _ => (0, 0),
    }
}

pub(crate) fn size_in(layouts: &[Layout], id: TypeId) -> u32
    requires { id.0 < length layouts.now }
    ensures { result ≡ size_in layouts.now id }
{
    layouts[id.0 as usize].size
}

// Where fields end that begin at `start`, or the greatest u64 where they pass it.
pub(crate) fn end_of_fields(layouts: &[Layout], start: u64, fields: &[Field]) -> u64
    requires { All (λ field. field.ty.0 < length layouts.now) fields.now }
    ensures { result ≡ min (start + fields_size layouts.now fields.now) u64.MAX }
{
    let mut end = start;
    for field in fields {
        end = end.saturating_add(u64::from(size_in(layouts, field.ty)));
    }
    end
}

// What an object type inherits.
fn inherited(layouts: &[Layout], parent: Option<TypeId>) -> Layout
    requires { IfSome parent (λ id. id.0 < length layouts.now) }
    ensures { result ≡ inherited layouts.now parent }
{
    match parent {
        None => Layout {
            size: 0,
            class_field: None,
        },
        Some(id) => layouts[id.0 as usize],
    }
}

fn object_size(inherited: Layout, dynamic: bool, end: u64) -> u64
    ensures { result ≡ min (object_by inherited.class_field dynamic end).size u64.MAX }
{
    if dynamic && inherited.class_field.is_none() {
        end.saturating_add(2)
    } else {
        end
    }
}

/// The bytes of a type over those before it, or the greatest u64 where they pass it.
pub(crate) fn size_over(types: &[TypeDef], layouts: &[Layout], one: &TypeDef) -> u64
    requires defined { IsDefinedOver types.now one.now }
    requires measured { length layouts.now ≡ length types.now }
    ensures { result ≡ min (layout_by types.now layouts.now one.now).size u64.MAX }
{
    match one {
        TypeDef::Ordinal { host, low, high } => u64::from(storage_of(*host, *low, *high).width()),
        TypeDef::Str { max } => u64::from(*max) + 1,
        TypeDef::SetOf { base } => {
            let (low, high) = bounds_at(types, *base);
            set_bytes(low, high)
        }
        TypeDef::ArrayOf { index, element } => {
            let (low, high) = bounds_at(types, *index);
            count_between(low, high) * u64::from(size_in(layouts, *element))
        }
        TypeDef::RecordOf { fields } => end_of_fields(layouts, 0, fields.as_slice()),
        TypeDef::PointerTo { .. } | TypeDef::Procedural { .. } => 4,
        TypeDef::ObjectOf {
            parent,
            dynamic,
            fields,
            ..
        } => {
            let inherited = inherited(layouts, *parent);
            let end = end_of_fields(layouts, u64::from(inherited.size), fields.as_slice());
            object_size(inherited, *dynamic, end)
        }
    }
}

/// The layout of a type over those before it, whose size is known.
pub(crate) fn layout_over(types: &[TypeDef], layouts: &[Layout], one: &TypeDef, size: u32) -> Layout
    requires defined { IsDefinedOver types.now one.now }
    requires measured { length layouts.now ≡ length types.now }
    requires sized { size ≡ (layout_by types.now layouts.now one.now).size }
    ensures { result ≡ layout_by types.now layouts.now one.now }
{
    let class_field = match one {
        TypeDef::ObjectOf {
            parent,
            dynamic,
            ..
        } => class_field(inherited(layouts, *parent), *dynamic, size),
        _ => None,
    };
    Layout { size, class_field }
}

fn class_field(inherited: Layout, dynamic: bool, size: u32) -> Option<u32>
    requires { (object_by inherited.class_field dynamic 0).size ≤ size }
    ensures { result ≡ class_field_within inherited.class_field dynamic size }
{
    match inherited.class_field {
        Some(at) => Some(at),
        None if dynamic => Some(size - 2),
        None => None,
    }
}
