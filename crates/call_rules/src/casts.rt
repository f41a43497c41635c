//! Conversions.

ghost use Rattle.std.specs.Prelude.{◌≡◌, map};
ghost use Rattle.typed_tree.specs.Expressions.{view_expr};
ghost use Rattle.typed_tree.specs.type_fits.Fits.{definition};
ghost use Rattle.typing_rules.specs.Judgements.{Gives};
ghost use Rattle.typing_rules.specs.Sorts.{sort_of};
ghost use Rattle.call_rules.specs.Casts.{is_ordinal, is_pointer, cast_one, cast};

use std::alloc::Global;
use tp_lexer::Feature;
use type_layout::{Place, TypeDef, TypeId, Types, storage_of};
use typed_tree::Expr;
use typing_rules::{Refusal, Rule, Sort, broken, definition, left_out, predefined, sort_of};

/// Whether it is an ordinal.
pub fn is_ordinal(sort: Sort) -> bool
    ensures { result ≡ is_ordinal sort }
{
    matches!(
        sort,
        Sort::Integer(_) | Sort::Boolean | Sort::Char | Sort::Enumeration(_)
    )
}

fn is_pointer(sort: Sort) -> bool
    ensures { result ≡ is_pointer sort }
{
    matches!(sort, Sort::Pointer | Sort::Nil)
}

fn cast_one(
    alloc: Global,
    types: &Types,
    place: Place,
    ty: TypeId,
    operand: Expr,
) -> Result<Expr, Refusal>
    ensures { Gives view_expr result (cast_one place ty (definition types.now.types ty) (sort_of types.now.types (view_expr operand)) (view_expr operand)).run }
{
    let sort = sort_of(types, &operand);
    match definition(types, ty) {
        Some(TypeDef::Ordinal { .. }) if is_pointer(sort) => {
            Err(Refusal::Because(left_out(place, Feature::Casts)))
        }
        Some(TypeDef::Ordinal { host, low, high }) if is_ordinal(sort) => Ok(Expr::Convert {
            ty: predefined(storage_of(*host, *low, *high), ty),
            operand: Box::new(alloc, operand)?,
        }),
        Some(TypeDef::PointerTo { .. }) => Err(Refusal::Because(left_out(place, Feature::Casts))),
        _ => Err(Refusal::Because(broken(place, Rule::Stands))),
    }
}

/// The node of a conversion to a type, at the place of its name.
#[tactic(auto, unfolding(crate::specs::Casts::cast))]
pub fn cast(
    alloc: Global,
    types: &Types,
    place: Place,
    ty: TypeId,
    operands: Vec<Expr>,
) -> Result<Expr, Refusal>
    ensures { Gives view_expr result (cast types.now.types place ty (map view_expr operands.items)).run }
{
    let mut operands = operands;
    if operands.len() != 1 {
        return Err(Refusal::Because(broken(place, Rule::Stands)));
    }
    match operands.pop() {
        Some(operand) => cast_one(alloc, types, place, ty, operand),
        None => Err(Refusal::Because(broken(place, Rule::Stands))),
    }
}
