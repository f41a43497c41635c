//! Set constructors.

ghost use Rattle.std.specs.Prelude.{◌≡◌, Ok, Some, map};
ghost use Rattle.typed_tree.specs.Expressions.{view_expr};
ghost use Rattle.typing_rules.specs.Judgements.{Gives};
ghost use Rattle.call_rules.specs.set_rules.Sets.{view_item, is_small, is_element, is_item, are_items, ranged_item, first_sort, constructed_by, constructed};

use crate::set_rules::bases::set_over;
use scopes::SET_OF_BYTE;
use std::alloc::Global;
use type_layout::{Host, Place, Types};
use typed_tree::{Expr, SetElement, Value};
use typing_rules::{Refusal, Rule, Sort, are_of_one_host, broken, ranged, sort_of};

// A constant lies in 0..255.
fn is_small(expr: &Expr) -> bool
    ensures { result ≡ is_small (view_expr expr.now) }
{
    match expr {
        Expr::Const {
            value: Value::Number(number),
            ..
        } => Host::Byte.holds(*number, *number),
        _ => true,
    }
}

fn is_element(types: &Types, sort: Sort, expr: &Expr) -> bool
    ensures { result ≡ is_element types.now.types sort (view_expr expr.now) }
{
    are_of_one_host(sort, sort_of(types, expr)) && is_small(expr)
}

fn is_item(types: &Types, sort: Sort, item: &SetElement) -> bool
    ensures { result ≡ is_item types.now.types sort (view_item item.now) }
{
    match item {
        SetElement::One(one) => is_element(types, sort, one),
        SetElement::Span(low, high) => {
            is_element(types, sort, low) && is_element(types, sort, high)
        }
    }
}

// Whether all are ordinals of the host.
fn are_items(types: &Types, sort: Sort, items: &[SetElement]) -> bool
    ensures { result ≡ are_items types.now.types sort (map view_item items.now) }
{
    match items {
        [] => true,
        [item, rest @ ..] => is_item(types, sort, item) && are_items(types, sort, rest),
    }
}

fn ranged_item(alloc: Global, checked: bool, item: SetElement) -> Result<SetElement, Refusal>
    ensures { Gives view_item result (Ok (ranged_item checked (view_item item))) }
{
    match item {
        SetElement::One(one) => Ok(SetElement::One(ranged(alloc, checked, 0, 255, one)?)),
        SetElement::Span(low, high) => {
            let low = ranged(alloc, checked, 0, 255, low)?;
            let high = ranged(alloc, checked, 0, 255, high)?;
            Ok(SetElement::Span(low, high))
        }
    }
}

fn ranged_items(
    alloc: Global,
    checked: bool,
    items: Vec<SetElement>,
) -> Result<Vec<SetElement>, Refusal>
    ensures { Gives (λ all. map view_item all.items) result (Ok (map (ranged_item checked) (map view_item items.items))) }
{
    let mut made = Vec::new(alloc);
    for item in items {
        let tested = ranged_item(alloc, checked, item)?;
        made.push(tested)?;
    }
    Ok(made)
}

// What the first element is.
fn first_sort(types: &Types, items: &[SetElement]) -> Option<Sort>
    ensures { result ≡ first_sort types.now.types (map view_item items.now) }
{
    match items {
        [] => None,
        [SetElement::One(one), ..] => Some(sort_of(types, one)),
        [SetElement::Span(low, _), ..] => Some(sort_of(types, low)),
    }
}

// The node of what begins with an ordinal of a sort.
fn constructed_over(
    alloc: Global,
    types: &Types,
    place: Place,
    checked: bool,
    sort: Sort,
    items: Vec<SetElement>,
) -> Result<Expr, Refusal>
    ensures { Gives view_expr result (constructed_by types.now.types place checked (Some sort) (map view_item items.items)).run }
{
    if !are_items(types, sort, items.as_slice()) {
        return Err(Refusal::Because(broken(place, Rule::Listed)));
    }
    match set_over(types, sort) {
        None => Err(Refusal::Because(broken(place, Rule::Listed))),
        Some(ty) => {
            let elements = ranged_items(alloc, checked, items)?;
            Ok(Expr::SetOf { ty, elements })
        }
    }
}

/// The node of a set constructor at a place. With `checked` each element must lie in 0..255.
#[tactic(auto, unfolding(crate::specs::set_rules::Sets::constructed))]
pub fn constructed(
    alloc: Global,
    types: &Types,
    place: Place,
    checked: bool,
    items: Vec<SetElement>,
) -> Result<Expr, Refusal>
    ensures { Gives view_expr result (constructed types.now.types place checked (map view_item items.items)).run }
{
    match first_sort(types, items.as_slice()) {
        None => Ok(Expr::SetOf {
            ty: SET_OF_BYTE,
            elements: items,
        }),
        Some(sort) => constructed_over(alloc, types, place, checked, sort, items),
    }
}
