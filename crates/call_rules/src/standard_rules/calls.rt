//! Calls of standard functions.

ghost use Rattle.std.specs.Prelude.{◌≡◌, Ok, [], ◌∷◌, map};
ghost use Rattle.typed_tree.specs.Expressions.{view_expr};
ghost use Rattle.typing_rules.specs.Judgements.{Gives};
ghost use Rattle.typing_rules.specs.Sorts.{sort_of};
ghost use Rattle.call_rules.specs.Given.{view_handed};
ghost use Rattle.call_rules.specs.standard_rules.Standard.{is_short, is_char, fits, are_texts, accepts, is_for_text, takes_text, handed, held_type, stored_type, result_type, is_special, standard};

use crate::is_ordinal;
use crate::standard_rules::signatures::{Outcome, Shape, Want, signature_of};
use scopes::{INTEGER, LONG_INT};
use std::alloc::Global;
use type_layout::{Host, Place, TypeId, Types};
use typed_tree::standard::{NEW, SIZE_OF};
use typed_tree::{Arg, Expr};
use typing_rules::{
    Refusal, Rule, Sort, as_text, broken, holding_type, is_integer, is_text, predefined, sort_of,
    stored_of_type, type_of,
};

fn is_short(sort: Sort) -> bool
    ensures { result ≡ is_short sort }
{
    match sort {
        Sort::Integer(range) => holding_type(range).0 != LONG_INT.0,
        _ => false,
    }
}

fn is_char(sort: Sort) -> bool
    ensures { result ≡ is_char sort }
{
    matches!(sort, Sort::Char)
}

/// Whether an operand is as is asked for.
pub fn fits(want: Want, sort: Sort) -> bool
    ensures { result ≡ fits want sort }
{
    match want {
        Want::Integer => is_integer(sort),
        Want::Short => is_short(sort),
        Want::Ordinal => is_ordinal(sort),
        Want::Char => is_char(sort),
        Want::Text => is_text(sort),
    }
}

fn are_texts(types: &Types, values: &[Expr]) -> bool
    ensures { result ≡ are_texts (map (sort_of types.now.types) (map view_expr values.now)) }
{
    match values {
        [] => true,
        [value, rest @ ..] => is_text(sort_of(types, value)) && are_texts(types, rest),
    }
}

// Whether there are as many arguments as are asked for, and each is as is asked of it.
fn accepts(types: &Types, shape: Shape, values: &[Expr]) -> bool
    ensures { result ≡ accepts shape (map (sort_of types.now.types) (map view_expr values.now)) }
{
    match (shape, values) {
        (Shape::Nothing, []) => true,
        (Shape::One(a), [one]) => fits(a, sort_of(types, one)),
        (Shape::Pair(a, b), [one, other]) => {
            fits(a, sort_of(types, one)) && fits(b, sort_of(types, other))
        }
        (Shape::Triple(a, b, c), [one, other, third]) => {
            fits(a, sort_of(types, one))
                && (fits(b, sort_of(types, other)) && fits(c, sort_of(types, third)))
        }
        (Shape::Texts, [_, ..]) => are_texts(types, values),
        _ => false,
    }
}

/// Whether one argument is as is asked of all.
pub fn accepts_one(shape: Shape, sort: Sort) -> bool
    ensures { result ≡ accepts shape (sort ∷ []) }
{
    match shape {
        Shape::One(want) => fits(want, sort),
        Shape::Texts => is_text(sort),
        Shape::Nothing | Shape::Pair(..) | Shape::Triple(..) => false,
    }
}

/// Whether a Char stands as a string there.
pub fn is_for_text(want: Want) -> bool
    ensures { result ≡ is_for_text want }
{
    matches!(want, Want::Text)
}

// Whether a Char stands as a string in the arguments.
fn takes_text(shape: Shape) -> bool
    ensures { result ≡ takes_text shape }
{
    match shape {
        Shape::Nothing => false,
        Shape::One(a) | Shape::Pair(a, _) | Shape::Triple(a, _, _) => is_for_text(a),
        Shape::Texts => true,
    }
}

/// A value that is handed over, as a string where texts are asked for.
pub fn handed(alloc: Global, types: &Types, text: bool, value: Expr) -> Result<Arg, Refusal>
    ensures { Gives view_handed result (Ok (handed types.now.types text (view_expr value))) }
{
    if !text {
        return Ok(Arg::Value(value));
    }
    let stored = stored_of_type(types, type_of(&value));
    Ok(Arg::Value(as_text(alloc, stored, value)?))
}

fn arguments(
    alloc: Global,
    types: &Types,
    text: bool,
    values: Vec<Expr>,
) -> Result<Vec<Arg>, Refusal>
    ensures { Gives (λ args. map view_handed args.items) result (Ok (map (handed types.now.types text) (map view_expr values.items))) }
{
    let mut args = Vec::new(alloc);
    for value in values {
        let arg = handed(alloc, types, text, value)?;
        args.push(arg)?;
    }
    Ok(args)
}

fn held_type(sort: Sort) -> TypeId
    ensures { result ≡ held_type sort }
{
    match sort {
        Sort::Integer(range) => holding_type(range),
        _ => INTEGER,
    }
}

fn stored_type(stored: Option<Host>, ty: Option<TypeId>) -> TypeId
    ensures { result ≡ stored_type stored ty }
{
    match (stored, ty) {
        (Some(stored), Some(ty)) => predefined(stored, ty),
        _ => INTEGER,
    }
}

// The type of the result, by the first argument where it depends on one.
fn result_type(types: &Types, outcome: Outcome, values: &[Expr]) -> TypeId
    ensures { result ≡ result_type types.now.types outcome (map view_expr values.now) }
{
    match (outcome, values) {
        (Outcome::Is(ty), _) => ty,
        (Outcome::Held, [value, ..]) => held_type(sort_of(types, value)),
        (Outcome::Stored, [value, ..]) => {
            let ty = type_of(value);
            stored_type(stored_of_type(types, ty), ty)
        }
        (_, []) => INTEGER,
    }
}

/// SizeOf and New, whose arguments are no values of a row of the table.
pub fn is_special(number: u32) -> bool
    ensures { result ≡ is_special number }
{
    number == SIZE_OF || number == NEW
}

/// The node of the call of a standard function at a place.
#[tactic(auto, unfolding(crate::specs::standard_rules::Standard::standard))]
pub fn standard(
    alloc: Global,
    types: &Types,
    place: Place,
    number: u32,
    values: Vec<Expr>,
) -> Result<Expr, Refusal>
    ensures { Gives view_expr result (standard types.now.types place number (map view_expr values.items)).run }
{
    let Some(one) = signature_of(number) else {
        return Err(Refusal::Because(broken(place, Rule::Stands)));
    };
    if !accepts(types, one.shape, values.as_slice()) {
        return Err(Refusal::Because(broken(place, Rule::Called)));
    }
    let ty = Some(result_type(types, one.outcome, values.as_slice()));
    let args = arguments(alloc, types, takes_text(one.shape), values)?;
    Ok(Expr::Std { ty, number, args })
}
