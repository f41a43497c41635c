//! Selectors on typed operands.

ghost use Rattle.std.specs.Prelude.{◌≡◌, Ok, option_copied, position};
ghost use Rattle.type_layout.specs.Words.{same_bytes};
ghost use Rattle.typed_tree.specs.Expressions.{view_expr, view_place, Index};
ghost use Rattle.typed_tree.specs.type_fits.Fits.{definition};
ghost use Rattle.typing_rules.specs.Judgements.{Gives};
ghost use Rattle.typing_rules.specs.Selectors.{loaded, field_at, field_in, declared_field, own_field, member_named, selected_by, selected, indexed_by, indexed, target_of, followed};

use crate::faults::{Refusal, Rule, broken};
use crate::plans::{are_of_one_host, is_integer};
use crate::sorts::{definition, sort_of, sort_of_type, type_of};
use scopes::{CHAR, Member, member_of};
use std::alloc::Global;
use type_layout::{Field, Name, Place, TypeDef, TypeId, Types};
use typed_tree::{Expr, PlaceExpr};

/// What a place of a type holds.
pub fn loaded(alloc: Global, ty: TypeId, at: PlaceExpr) -> Result<Expr, Refusal>
    ensures { Gives view_expr result (loaded ty (view_place at)).run }
{
    Ok(Expr::Load {
        ty,
        place: Box::new(alloc, at)?,
    })
}

// The field with this number of those of a record.
fn field_at(
    alloc: Global,
    place: Place,
    at: PlaceExpr,
    number: u32,
    field: Option<&Field>,
) -> Result<Expr, Refusal>
    ensures { Gives view_expr result (field_at place (view_place at) number (option_copied field.entry)).run }
{
    match field {
        Some(field) => {
            let at = PlaceExpr::FieldOf {
                place: Box::new(alloc, at)?,
                number,
            };
            loaded(alloc, field.ty, at)
        }
        None => Err(Refusal::Because(broken(place, Rule::Selected))),
    }
}

fn field_place(fields: &[Field], name: &Name) -> Option<usize>
    ensures { result ≡ position (λ field. same_bytes name.now field.name) fields.now }
{
    fields.iter().position(|field| *name == field.name)
}

fn field_in(fields: &[Field], place: Option<usize>) -> Option<&Field>
    ensures { option_copied result ≡ field_in fields.now place }
{
    match place {
        Some(place) => fields.get(place),
        None => None,
    }
}

#[tactic(auto, unfolding(crate::specs::Selectors::declared_field))]
fn declared_field<'a>(fields: &'a [Field], name: &Name) -> Option<&'a Field>
    ensures { option_copied result ≡ declared_field fields.now name.now }
{
    field_in(fields, field_place(fields, name))
}

// The field of this name that an object type declares itself.
fn own_field<'a>(one: Option<&'a TypeDef>, name: &Name) -> Option<&'a Field>
    ensures { option_copied result ≡ own_field (option_copied one.entry) name.now }
{
    match one {
        Some(TypeDef::ObjectOf { fields, .. }) => { declared_field(fields.as_slice(), name) }
        _ => None,
    }
}

// A field of the line of an object.
fn member_named(
    alloc: Global,
    types: &Types,
    place: Place,
    at: PlaceExpr,
    name: &Name,
    member: Option<Member>,
) -> Result<Expr, Refusal>
    ensures { Gives view_expr result (member_named types.now.types place (view_place at) name.now member).run }
{
    match member {
        None => Err(Refusal::Because(broken(place, Rule::Selected))),
        Some(one) if one.method => Err(Refusal::Because(broken(place, Rule::Selected))),
        Some(one) => {
            let field = own_field(definition(types, one.class), name);
            field_at(alloc, place, at, one.number, field)
        }
    }
}

// A field of what a place of a type holds.
fn selected_by(
    alloc: Global,
    types: &Types,
    place: Place,
    ty: TypeId,
    at: PlaceExpr,
    name: &Name,
) -> Result<Expr, Refusal>
    ensures { Gives view_expr result (selected_by types.now.types place ty (view_place at) (definition types.now.types ty) name.now).run }
{
    match definition(types, ty) {
        Some(TypeDef::RecordOf { fields }) => match member_of(types, Some(ty), name) {
            Some(one) => {
                let field = fields.as_slice().get(one.number as usize);
                field_at(alloc, place, at, one.number, field)
            }
            None => Err(Refusal::Because(broken(place, Rule::Selected))),
        },
        Some(TypeDef::ObjectOf { .. }) => member_named(
            alloc,
            types,
            place,
            at,
            name,
            member_of(types, Some(ty), name),
        ),
        _ => Err(Refusal::Because(broken(place, Rule::Selected))),
    }
}

/// The node of a field of a record or an object, at the place of its selector.
#[tactic(auto, unfolding(crate::specs::Selectors::selected))]
pub fn selected(
    alloc: Global,
    types: &Types,
    place: Place,
    owner: Expr,
    name: &Name,
) -> Result<Expr, Refusal>
    ensures { Gives view_expr result (selected types.now.types place (view_expr owner) name.now).run }
{
    match owner {
        Expr::Load { ty, place: at } => selected_by(
            alloc,
            types,
            place,
            ty,
            Box::into_inner(at),
            name,
        ),
        _ => Err(Refusal::Because(broken(place, Rule::Selected))),
    }
}

fn index_of(alloc: Global, at: PlaceExpr, index: Expr, checked: bool) -> Result<PlaceExpr, Refusal>
    ensures { Gives view_place result (Ok (Index (view_place at) (view_expr index) checked)) }
{
    Ok(PlaceExpr::Index {
        place: Box::new(alloc, at)?,
        index: Box::new(alloc, index)?,
        checked,
    })
}

// An element of what a place of a type holds.
fn indexed_by(
    alloc: Global,
    types: &Types,
    place: Place,
    checked: bool,
    ty: TypeId,
    at: PlaceExpr,
    index: Expr,
) -> Result<Expr, Refusal>
    ensures { Gives view_expr result (indexed_by types.now.types place checked (view_place at) (definition types.now.types ty) (view_expr index)).run }
{
    let sort = sort_of(types, &index);
    match definition(types, ty) {
        Some(
            TypeDef::ArrayOf {
                index: over,
                element,
            },
        ) if are_of_one_host(sort_of_type(types, *over), sort) => {
            let at = index_of(alloc, at, index, checked)?;
            loaded(alloc, *element, at)
        }
        Some(TypeDef::Str { .. }) if is_integer(sort) => {
            let at = index_of(alloc, at, index, checked)?;
            Ok(Expr::Load {
                ty: CHAR,
                place: Box::new(alloc, at)?,
            })
        }
        _ => Err(Refusal::Because(broken(place, Rule::Indexed))),
    }
}

/// The node of an element of an array, or of a character of a string, at the place of its selector. With `checked`, an
/// index outside the bounds is an error.
#[tactic(auto, unfolding(crate::specs::Selectors::indexed))]
pub fn indexed(
    alloc: Global,
    types: &Types,
    place: Place,
    checked: bool,
    owner: Expr,
    index: Expr,
) -> Result<Expr, Refusal>
    ensures { Gives view_expr result (indexed types.now.types place checked (view_expr owner) (view_expr index)).run }
{
    match owner {
        Expr::Load { ty, place: at } => indexed_by(
            alloc,
            types,
            place,
            checked,
            ty,
            Box::into_inner(at),
            index,
        ),
        _ => Err(Refusal::Because(broken(place, Rule::Indexed))),
    }
}

fn target_of(types: &Types, pointer: &Expr) -> Option<TypeId>
    ensures { result ≡ target_of types.now.types (view_expr pointer.now) }
{
    match definition(types, type_of(pointer)?) {
        Some(TypeDef::PointerTo { target }) => Some(*target),
        _ => None,
    }
}

/// The node of what a pointer leads to, at the place of its selector.
#[tactic(auto, unfolding(crate::specs::Selectors::followed))]
pub fn followed(alloc: Global, types: &Types, place: Place, pointer: Expr) -> Result<Expr, Refusal>
    ensures { Gives view_expr result (followed types.now.types place (view_expr pointer)).run }
{
    match target_of(types, &pointer) {
        Some(target) => {
            let at = PlaceExpr::Deref {
                pointer: Box::new(alloc, pointer)?,
            };
            loaded(alloc, target, at)
        }
        None => Err(Refusal::Because(broken(place, Rule::Dereferenced))),
    }
}
