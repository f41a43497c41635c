//! The types that typed constants have.

ghost use Rattle.std.specs.Prelude.{◌≡◌, IfOk, get_or, false};
ghost use Rattle.std.specs.List.{list_all};
ghost use Rattle.type_layout.specs.declared.definitions.Field.{Field as FieldOf};
ghost use Rattle.constant_checker.specs.typed_constants.Initializers.{plain_by, plain_types, is_plain};

use std::alloc::{AllocError, Global};
use type_layout::{Field, TypeDef, TypeId, Types};

// Whether a type before is one.
fn was_plain(given: &[bool], ty: TypeId) -> bool
    ensures { result ≡ get_or given.now ty.0 false }
{
    match given.get(ty.0 as usize) {
        Some(plain) => *plain,
        None => false,
    }
}

fn are_plain(given: &[bool], fields: &[Field]) -> bool
    ensures { result ≡ list_all (λ (field : FieldOf). get_or given.now field.ty.0 false) fields.now }
{
    fields.iter().all(|field| was_plain(given, field.ty))
}

fn plain_by(given: &[bool], one: &TypeDef) -> bool
    ensures { result ≡ plain_by given.now one.now }
{
    match one {
        TypeDef::Ordinal { .. } | TypeDef::Str { .. } | TypeDef::SetOf { .. } => true,
        TypeDef::ArrayOf { element, .. } => was_plain(given, *element),
        TypeDef::RecordOf { fields } => are_plain(given, fields.as_slice()),
        TypeDef::PointerTo { .. } | TypeDef::ObjectOf { .. } | TypeDef::Procedural { .. } => false,
    }
}

// Which types of the table are.
fn plain_types(alloc: Global, types: &Types) -> Result<Vec<bool>, AllocError>
    ensures { IfOk result (λ all. all.items ≡ plain_types types.now.types) }
{
    let mut given = Vec::new(alloc);
    for number in 0..types.count() {
        let plain = plain_by(given.as_slice(), types.get(TypeId(number)));
        given.push(plain)?;
    }
    Ok(given)
}

/// Whether a type is neither an object, a pointer nor procedural, and has no part of such a type.
pub(crate) fn is_plain(alloc: Global, types: &Types, ty: TypeId) -> Result<bool, AllocError>
    ensures { IfOk result (λ plain. plain ≡ is_plain types.now.types ty) }
{
    let plain = plain_types(alloc, types)?;
    Ok(was_plain(plain.as_slice(), ty))
}
