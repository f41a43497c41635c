//! How many types are added for a type.

ghost use Rattle.std.specs.Prelude.{◌≡◌};
ghost use Rattle.type_layout.specs.declared.texts.Place.{Place};
ghost use Rattle.scopes.specs.Members.{narrow};
ghost use Rattle.declaration_checker.specs.type_denoters.Trees.{view_denoter, view_structured, view_denoters, view_groups};
ghost use Rattle.declaration_checker.specs.type_parts.Promised.{adds, adds_indexes, adds_fields};

use syntax_tree::type_tree::{FieldGroup, StructuredType, TypeDenoter};

/// How many types are added for a type.
#[cycle(counts)]
pub(crate) fn adds(tree: &TypeDenoter) -> u32
    ensures { result ≡ narrow (adds (view_denoter tree.now)) }
{
    match tree {
        TypeDenoter::Name(_) => 0,
        TypeDenoter::Range(..) | TypeDenoter::Enumeration { .. } => 2,
        TypeDenoter::Pointer { .. }
        | TypeDenoter::Procedure { .. }
        | TypeDenoter::Function { .. } => 1,
        TypeDenoter::String { length, .. } => match length {
            Some(_) => 1,
            None => 0,
        },
        TypeDenoter::Object { fields, .. } => adds_fields(fields.as_slice()).saturating_add(1),
        TypeDenoter::Packed { inner, .. } | TypeDenoter::Structured(inner) => {
            adds_structured(inner)
        }
    }
}

#[cycle(counts)]
fn adds_structured(tree: &StructuredType) -> u32
    ensures { (place : Place) → result ≡ narrow (adds (view_structured place tree.now)) }
{
    match tree {
        StructuredType::Array {
            indexes,
            element,
            ..
        } => adds_indexes(indexes.as_slice()).saturating_add(adds(element)),
        StructuredType::Record { fields, .. } => adds_fields(fields.as_slice()).saturating_add(1),
        StructuredType::Set { element, .. } => adds(element).saturating_add(1),
    }
}

#[cycle(counts)]
fn adds_indexes(all: &[TypeDenoter]) -> u32
    ensures { result ≡ narrow (adds_indexes (view_denoters all.now)) }
{
    let mut sum = 0u32;
    for one in all {
        sum = sum.saturating_add(adds(one).saturating_add(1));
    }
    sum
}

#[cycle(counts)]
fn adds_fields(groups: &[FieldGroup]) -> u32
    ensures { result ≡ narrow (adds_fields (view_groups groups.now)) }
{
    let mut sum = 0u32;
    for group in groups {
        match group {
            FieldGroup::Fields { of, .. } => {
                sum = sum.saturating_add(adds(of));
            }
        }
    }
    sum
}
