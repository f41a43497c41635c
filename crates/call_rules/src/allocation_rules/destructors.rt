//! Dispose with a destructor.

ghost use Rattle.std.specs.Prelude.{◌≡◌, Ok, map, option_copied};
ghost use Rattle.typed_tree.specs.Expressions.{view_expr};
ghost use Rattle.typed_tree.specs.Statements.{Unmake, view_stmt};
ghost use Rattle.typing_rules.specs.Judgements.{Gives};
ghost use Rattle.call_rules.specs.Given.{view_handed, arguments_of};
ghost use Rattle.call_rules.specs.allocation_rules.Allocations.{is_destructor, of_kind, view_unmaker, destructor_in, destructor_of, destructor_as, unmade};

use crate::allocation_rules::constructors::target_in;
use crate::given;
use crate::method_rules::{Callee, callee_of, method_in};
use scopes::Scope;
use std::alloc::Global;
use type_layout::{Header, Kind, Method, Name, Place, TypeId, Types};
use typed_tree::{Arg, Destructor, Expr, Stmt};
use typing_rules::{Refusal, Rule, broken, type_of};

/// A destructor that is called on a block before it is freed.
#[derive(Clone, Copy, Debug)]
pub struct BoundDestructor<'a> {
    pub header: &'a Header,
    pub callee: Callee,
}

fn destructor_among(method: Option<&Method>) -> Option<&Method>
    ensures { option_copied result ≡ of_kind is_destructor (option_copied method.entry) }
{
    match method {
        Some(method) if matches!(method.header.kind, Kind::Destructor) => Some(method),
        _ => None,
    }
}

fn destructor_in<'a>(
    alloc: Global,
    scope: &Scope,
    place: Place,
    class: TypeId,
    name: &Name,
    method: Option<&'a Method>,
) -> Result<BoundDestructor<'a>, Refusal>
    ensures { Gives view_unmaker result (destructor_in scope.now place class name.now (option_copied method.entry)).run }
{
    match method {
        None => Err(Refusal::Because(broken(place, Rule::Allocating))),
        Some(method) => {
            let callee = callee_of(alloc, scope, place, class, name, method)?;
            Ok(BoundDestructor {
                header: &method.header,
                callee,
            })
        }
    }
}

/// The destructor of this name of what a pointer points to, for a call at a place.
#[tactic(auto, unfolding(crate::specs::allocation_rules::Allocations::destructor_of))]
pub fn destructor_of<'a>(
    alloc: Global,
    scope: &'a Scope,
    place: Place,
    pointer: &Expr,
    name: &Name,
) -> Result<BoundDestructor<'a>, Refusal>
    ensures { Gives view_unmaker result (destructor_of scope.now place (view_expr pointer.now) name.now).run }
{
    let types = scope.types();
    match target_in(types, type_of(pointer)) {
        None => Err(Refusal::Because(broken(place, Rule::Allocating))),
        Some(class) => {
            let method = destructor_among(method_in(types, class, name));
            destructor_in(alloc, scope, place, class, name, method)
        }
    }
}

fn destructor_as(checked: bool, callee: Callee) -> Destructor
    ensures { result ≡ destructor_as checked callee }
{
    match callee {
        Callee::Routine(routine) => Destructor::Routine(routine),
        Callee::Slot(slot) => Destructor::Slot { slot, checked },
    }
}

fn unmake_node(pointer: Box<Expr>, destructor: Destructor, args: Vec<Arg>) -> Stmt
    ensures { view_stmt result ≡ Unmake (view_expr pointer.value) destructor (arguments_of (map view_handed args.items)) }
{
    Stmt::Unmake {
        pointer,
        destructor,
        args,
    }
}

/// The node of a Dispose of a pointer with a destructor, at the place of the call. With `checked`, values that are handed over lie
/// within the bounds of their parameters, and an object without a class is an error of a virtual destructor's call.
#[tactic(auto, unfolding(crate::specs::allocation_rules::Allocations::unmade))]
pub fn unmade(
    alloc: Global,
    types: &Types,
    place: Place,
    checked: bool,
    pointer: Expr,
    one: BoundDestructor<'_>,
    values: Vec<Expr>,
) -> Result<Stmt, Refusal>
    ensures { Gives view_stmt result (unmade types.now.types place checked (view_expr pointer) (view_unmaker one.entry) (map view_expr values.items)).run }
{
    let params = one.header.params.as_slice();
    let args = given(alloc, types, place, checked, params, values)?;
    let pointer = Box::new(alloc, pointer)?;
    Ok(unmake_node(pointer, destructor_as(checked, one.callee), args))
}
