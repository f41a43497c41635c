//! Calls of methods.

ghost use Rattle.std.specs.Prelude.{Ok, map};
ghost use Rattle.typed_tree.specs.Expressions.{view_expr, view_place};
ghost use Rattle.typing_rules.specs.Judgements.{Gives};
ghost use Rattle.call_rules.specs.Given.{view_handed, arguments_of};
ghost use Rattle.call_rules.specs.method_rules.Methods.{view_bound};
ghost use Rattle.call_rules.specs.method_rules.Calls.{node_of, call_of, called_on, performed_on};

use crate::given;
use crate::method_rules::methods::{BoundMethod, Callee};
use std::alloc::Global;
use type_layout::{Place, TypeId, Types};
use typed_tree::{Arg, Expr, PlaceExpr};
use typing_rules::{Refusal, Rule, broken};

// The node of a call, from its arguments.
fn node_of(
    alloc: Global,
    callee: Callee,
    own: PlaceExpr,
    ty: Option<TypeId>,
    checked: bool,
    args: Vec<Arg>,
) -> Result<Expr, Refusal>
    ensures { Gives view_expr result (Ok (node_of callee (view_place own) ty checked (arguments_of (map view_handed args.items)))) }
{
    let own = Box::new(alloc, own)?;
    match callee {
        Callee::Routine(routine) => Ok(Expr::Call {
            ty,
            routine,
            own: Some(own),
            args,
        }),
        Callee::Slot(slot) => Ok(Expr::CallVirtual {
            ty,
            own,
            slot,
            checked,
            args,
        }),
    }
}

fn call_of(
    alloc: Global,
    types: &Types,
    place: Place,
    checked: bool,
    one: BoundMethod<'_>,
    ty: Option<TypeId>,
    values: Vec<Expr>,
) -> Result<Expr, Refusal>
    ensures { Gives view_expr result (call_of types.now.types place checked (view_bound one.entry) ty (map view_expr values.items)).run }
{
    let BoundMethod {
        header,
        callee,
        own,
    } = one;
    let args = given(
        alloc,
        types,
        place,
        checked,
        header.params.as_slice(),
        values,
    )?;
    node_of(alloc, callee, own, ty, checked, args)
}

/// The node of a method's call at a place, for its value.
#[tactic(auto, unfolding(crate::specs::method_rules::Calls::called_on))]
pub fn called_on(
    alloc: Global,
    types: &Types,
    place: Place,
    checked: bool,
    one: BoundMethod<'_>,
    values: Vec<Expr>,
) -> Result<Expr, Refusal>
    ensures { Gives view_expr result (called_on types.now.types place checked (view_bound one.entry) (map view_expr values.items)).run }
{
    match one.header.result {
        None => Err(Refusal::Because(broken(place, Rule::Stands))),
        Some(ty) => call_of(alloc, types, place, checked, one, Some(ty), values),
    }
}

/// The node of a method's call at a place, as a statement.
#[tactic(auto, unfolding(crate::specs::method_rules::Calls::performed_on))]
pub fn performed_on(
    alloc: Global,
    types: &Types,
    place: Place,
    checked: bool,
    one: BoundMethod<'_>,
    values: Vec<Expr>,
) -> Result<Expr, Refusal>
    ensures { Gives view_expr result (performed_on types.now.types place checked (view_bound one.entry) (map view_expr values.items)).run }
{
    match one.header.result {
        Some(_) => Err(Refusal::Because(broken(place, Rule::Stands))),
        None => call_of(alloc, types, place, checked, one, None, values),
    }
}
