//! The types of sets.

ghost use Rattle.std.specs.Prelude.{◌≡◌};
ghost use Rattle.call_rules.specs.set_rules.Bases.{is_set_of, set_in, set_over};

use scopes::{SET_OF_BOOLEAN, SET_OF_BYTE, SET_OF_CHAR};
use type_layout::{TypeDef, TypeId, Types};
use typing_rules::Sort;

fn is_set_of(ty: TypeId, one: &TypeDef) -> bool
    ensures { result ≡ is_set_of ty one.now }
{
    match one {
        TypeDef::SetOf { base } => base.0 == ty.0,
        _ => false,
    }
}

// The first set over a type in the table.
fn set_in(types: &Types, ty: TypeId) -> Option<TypeId>
    ensures { result ≡ set_in ty 0 types.now.types }
{
    for number in 0..types.count() {
        if is_set_of(ty, types.get(TypeId(number))) {
            return Some(TypeId(number));
        }
    }
    None
}

/// The sets over all of a host: of integers those of 0..255, of an enumeration the first one that the table has.
pub fn set_over(types: &Types, sort: Sort) -> Option<TypeId>
    ensures { result ≡ set_over types.now.types sort }
{
    match sort {
        Sort::Integer(_) => Some(SET_OF_BYTE),
        Sort::Char => Some(SET_OF_CHAR),
        Sort::Boolean => Some(SET_OF_BOOLEAN),
        Sort::Enumeration(ty) => set_in(types, ty),
        _ => None,
    }
}
