//! Pointers and objects by the lines of object types.

ghost use Rattle.std.specs.Prelude.{◌≡◌, option_copied};
ghost use Rattle.typed_tree.specs.type_fits.Fits.{parent_of};
ghost use Rattle.typing_rules.specs.Joins.{reaches, descends, is_object, is_line, is_below_by, is_below, is_of_type, is_nil_for, is_address, are_pointers, takes_pointer, are_pointers_joined};

use crate::sorts::{Sort, definition};
use type_layout::{TypeDef, TypeId, Types};

fn parent_of(one: Option<&TypeDef>) -> Option<TypeId>
    ensures { result ≡ parent_of (option_copied one.entry) }
{
    match one {
        Some(TypeDef::ObjectOf { parent, .. }) => *parent,
        _ => None,
    }
}

// Whether a type is found on a line, where at most so many types are looked at.
fn reaches(types: &Types, ty: Option<TypeId>, above: TypeId, room: u32) -> bool
    ensures { result ≡ reaches room types.now.types ty above }
{
    if room == 0 {
        return false;
    }
    match ty {
        None => false,
        Some(ty) => {
            ty.0 == above.0 || reaches(types, parent_of(definition(types, ty)), above, room - 1)
        }
    }
}

fn descends(types: &Types, ty: TypeId, above: TypeId) -> bool
    ensures { result ≡ descends types.now.types ty above }
{
    reaches(types, Some(ty), above, types.count())
}

fn is_object(one: Option<&TypeDef>) -> bool
    ensures { result ≡ is_object (option_copied one.entry) }
{
    matches!(one, Some(TypeDef::ObjectOf { .. }))
}

/// Whether it is an object type that descends from the other, or is that one.
pub fn is_line(types: &Types, below: TypeId, above: TypeId) -> bool
    ensures { result ≡ is_line types.now.types below above }
{
    is_object(definition(types, below)) && descends(types, below, above)
}

fn is_below_by(
    types: &Types,
    ty: TypeId,
    own: TypeId,
    target: Option<&TypeDef>,
    one: Option<&TypeDef>,
) -> bool
    ensures { result ≡ is_below_by types.now.types ty own (option_copied target.entry) (option_copied one.entry) }
{
    match (target, one) {
        (Some(TypeDef::ObjectOf { .. }), _) => is_line(types, own, ty),
        (Some(TypeDef::PointerTo { target: above }), Some(TypeDef::PointerTo { target: below })) =>
            is_line(types, *below, *above),
        _ => false,
    }
}

/// Whether the other type is a descendant of an object type, or a pointer to one of the object type that a pointer leads to.
pub fn is_below(types: &Types, ty: TypeId, own: Option<TypeId>) -> bool
    ensures { result ≡ is_below types.now.types ty own }
{
    match own {
        None => false,
        Some(own) => is_below_by(
            types,
            ty,
            own,
            definition(types, ty),
            definition(types, own),
        ),
    }
}

/// Whether this is the type.
pub fn is_of_type(ty: TypeId, own: Option<TypeId>) -> bool
    ensures { result ≡ is_of_type ty own }
{
    match own {
        Some(own) => ty.0 == own.0,
        None => false,
    }
}

/// Whether nil stands where a pointer is due.
pub(crate) fn is_nil_for(target: Sort, sort: Sort) -> bool
    ensures { result ≡ is_nil_for target sort }
{
    matches!((target, sort), (Sort::Pointer, Sort::Nil))
}

fn is_address(sort: Sort) -> bool
    ensures { result ≡ is_address sort }
{
    matches!(sort, Sort::Pointer | Sort::Nil)
}

/// Whether both are pointers or nil.
pub(crate) fn are_pointers(left: Sort, right: Sort) -> bool
    ensures { result ≡ are_pointers left right }
{
    is_address(left) && is_address(right)
}

fn takes_pointer(types: &Types, sort: Sort, ty: Option<TypeId>, own: Option<TypeId>) -> bool
    ensures { result ≡ takes_pointer types.now.types sort ty own }
{
    match (sort, ty) {
        (Sort::Pointer, Some(ty)) => is_of_type(ty, own) || is_below(types, ty, own),
        _ => false,
    }
}

/// Whether two are nil and a pointer, or pointers of which one could be assigned to the other.
pub(crate) fn are_pointers_joined(
    types: &Types,
    left: Sort,
    right: Sort,
    own: Option<TypeId>,
    other: Option<TypeId>,
) -> bool
    ensures { result ≡ are_pointers_joined types.now.types left right own other }
{
    (is_nil_for(left, right) || is_nil_for(right, left))
        || (takes_pointer(types, left, own, other) || takes_pointer(types, right, other, own))
}
