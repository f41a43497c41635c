//! SizeOf of types and variables.

ghost use Rattle.std.specs.Prelude.{◌≡◌, Ok, Some, [], ◌∷◌};
ghost use Rattle.type_layout.specs.Layouts.{size_of};
ghost use Rattle.typed_tree.specs.Expressions.{Std, view_expr, view_place};
ghost use Rattle.typed_tree.specs.Standard as routine;
ghost use Rattle.typing_rules.specs.Judgements.{Gives};
ghost use Rattle.typing_rules.specs.Sorts.{word};
ghost use Rattle.call_rules.specs.Given.{arguments_of, place_of};
ghost use Rattle.call_rules.specs.standard_rules.Sizes.{has_class, is_size, size_node, sized, variable_sized};

use scopes::WORD;
use std::alloc::Global;
use type_layout::{Place, TypeId, Types, class_field_of, size_of};
use typed_tree::standard::SIZE_OF;
use typed_tree::{Arg, Expr, PlaceExpr, Value};
use typing_rules::{Refusal, Rule, broken, number_type};

/// Whether a standard routine is SizeOf, whose argument may be a type.
pub fn is_size(number: u32) -> bool
    ensures { result ≡ is_size number }
{
    number == SIZE_OF
}

/// The bytes of a value of a type; 0 of one that the table does not have.
pub fn bytes_of_type(types: &Types, ty: TypeId) -> u16
    ensures { result ≡ size_of types.now.types ty }
{
    if ty.0 < types.count() {
        size_of(types, ty) as u16
    } else {
        0
    }
}

/// Whether the instances of a type may say which class they are of.
pub fn has_class(types: &Types, ty: TypeId) -> bool
    ensures { result ≡ has_class types.now.types ty }
{
    if ty.0 < types.count() {
        class_field_of(types, ty).is_some()
    } else {
        false
    }
}

/// SizeOf of a type: its number, converted to Word.
pub fn sized(alloc: Global, types: &Types, ty: TypeId) -> Result<Expr, Refusal>
    ensures { Gives view_expr result (Ok (sized types.now.types ty)) }
{
    let bytes = i32::from(bytes_of_type(types, ty));
    let number = Expr::Const {
        ty: number_type(bytes),
        value: Value::Number(bytes),
    };
    Ok(Expr::Convert {
        ty: WORD,
        operand: Box::new(alloc, number)?,
    })
}

// SizeOf of an instance that says its class.
fn size_asked(alloc: Global, at: PlaceExpr) -> Result<Expr, Refusal>
    ensures { Gives view_expr result (Ok (Std (Some word) routine.size_of (arguments_of (place_of (view_place at) ∷ [])))) }
{
    let mut args = Vec::new(alloc);
    args.push(Arg::Place(at))?;
    Ok(Expr::Std {
        ty: Some(WORD),
        number: SIZE_OF,
        args,
    })
}

// SizeOf of a variable of a type.
fn size_node(alloc: Global, types: &Types, ty: TypeId, at: PlaceExpr) -> Result<Expr, Refusal>
    ensures { Gives view_expr result (Ok (size_node types.now.types ty (view_place at))) }
{
    if has_class(types, ty) {
        size_asked(alloc, at)
    } else {
        sized(alloc, types, ty)
    }
}

/// SizeOf of an expression, in a call at a place.
#[tactic(auto, unfolding(crate::specs::standard_rules::Sizes::variable_sized))]
pub fn variable_sized(
    alloc: Global,
    types: &Types,
    place: Place,
    operand: Expr,
) -> Result<Expr, Refusal>
    ensures { Gives view_expr result (variable_sized types.now.types place (view_expr operand)).run }
{
    match operand {
        Expr::Load { ty, place: at } => size_node(alloc, types, ty, Box::into_inner(at)),
        _ => Err(Refusal::Because(broken(place, Rule::Called))),
    }
}
