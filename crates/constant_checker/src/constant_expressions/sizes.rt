//! SizeOf in constants.

ghost use Rattle.std.specs.Prelude.{◌≡◌, Ok};
ghost use Rattle.syntax_tree.specs.expression_tree.Trees.{view_designator};
ghost use Rattle.typed_tree.specs.Expressions.{view_expr};
ghost use Rattle.typing_rules.specs.Judgements.{Gives};
ghost use Rattle.constant_checker.specs.constant_expressions.Values.{itself};
ghost use Rattle.constant_checker.specs.constant_expressions.Sizes.{means_size, asks_size, size_constant, size_held, size_by, instance, operand, is_method_of, selected_from, owner_entry, owner_name, sized_entry, sized_name};

use crate::constant_expressions::constants::Constant;
use crate::constant_expressions::names::of_value;
use call_rules::standard_rules::{bytes_of_type, has_class, is_size};
use scopes::{Entry, Found, Scope, WORD, member_of};
use std::alloc::Global;
use syntax_tree::Designator;
use tp_lexer::left_out_names::feature_of;
use type_layout::{Name, Place, TypeId, Types};
use typed_tree::{Expr, PlaceExpr, Value, Variable};
use typing_rules::{Refusal, Rule, broken, loaded, selected, undeclared};

#[tactic(auto, unfolding(crate::specs::constant_expressions::Sizes::means_size))]
fn means_size(scope: &Scope, name: &Name) -> bool
    ensures { result ≡ means_size scope.now name.now }
{
    match scope.find(name) {
        Some(
            Found::Named {
                entry: Entry::Std { number },
                ..
            },
        ) => is_size(*number),
        _ => false,
    }
}

/// Whether what stands before arguments is SizeOf.
pub(crate) fn asks_size(scope: &Scope, callee: &Designator) -> bool
    ensures { result ≡ asks_size scope.now (view_designator callee.now) }
{
    match callee {
        Designator::Name(one) => means_size(scope, &one.name),
        Designator::Field { .. } | Designator::Index { .. } | Designator::Dereference { .. } => {
            false
        }
    }
}

fn size_constant(types: &Types, ty: TypeId) -> Constant
    ensures { result ≡ size_constant types.now.types ty }
{
    Constant {
        ty: WORD,
        value: Value::Number(i32::from(bytes_of_type(types, ty))),
    }
}

// SizeOf of a variable of a type.
fn size_held(types: &Types, place: Place, ty: TypeId) -> Result<Constant, Refusal>
    ensures { Gives itself result (size_held types.now.types place ty).run }
{
    if has_class(types, ty) {
        Err(Refusal::Because(broken(place, Rule::Constant)))
    } else {
        Ok(size_constant(types, ty))
    }
}

/// SizeOf of what a designator means, in a call at a place.
pub(crate) fn size_by(types: &Types, place: Place, operand: &Expr) -> Result<Constant, Refusal>
    ensures { Gives itself result (size_by types.now.types place (view_expr operand.now)).run }
{
    match operand {
        Expr::Load { ty, .. } => size_held(types, place, *ty),
        _ => Err(Refusal::Because(broken(place, Rule::Called))),
    }
}

// A variable of a type, wherever it lies.
fn instance(alloc: Global, ty: TypeId) -> Result<Expr, Refusal>
    ensures { Gives view_expr result (Ok (instance ty)) }
{
    let somewhere = Variable {
        unit: 0,
        level: 0,
        number: 0,
    };
    loaded(alloc, ty, PlaceExpr::Var(somewhere))
}

/// A constant as an operand.
pub(crate) fn operand(constant: Constant) -> Expr
    ensures { view_expr result ≡ operand constant }
{
    Expr::Const {
        ty: constant.ty,
        value: constant.value,
    }
}

fn is_method_of(types: &Types, owner: &Expr, name: &Name) -> bool
    ensures { result ≡ is_method_of types.now.types (view_expr owner.now) name.now }
{
    match owner {
        Expr::Load { ty, .. } => match member_of(types, Some(*ty), name) {
            Some(one) => one.method,
            None => false,
        },
        _ => false,
    }
}

/// A field that is selected at a place.
pub(crate) fn selected_from(
    alloc: Global,
    types: &Types,
    here: Place,
    owner: Expr,
    name: &Name,
) -> Result<Expr, Refusal>
    ensures { Gives view_expr result (selected_from types.now.types here (view_expr owner) name.now).run }
{
    if is_method_of(types, &owner, name) {
        Err(Refusal::Because(broken(here, Rule::Constant)))
    } else {
        selected(alloc, types, here, owner, name)
    }
}

fn owner_entry(alloc: Global, types: &Types, at: Place, entry: &Entry) -> Result<Expr, Refusal>
    ensures { Gives view_expr result (owner_entry types.now.types at entry.now).run }
{
    match entry {
        Entry::Const { ty, value } => Ok(operand(of_value(alloc, types, *ty, value)?)),
        Entry::Var { ty, .. } => instance(alloc, *ty),
        Entry::Ty { .. } => Err(Refusal::Because(broken(at, Rule::Stands))),
        Entry::Code { .. } | Entry::Std { .. } => {
            Err(Refusal::Because(broken(at, Rule::Constant)))
        }
    }
}

/// What a name before a selector means.
#[tactic(auto, unfolding(crate::specs::constant_expressions::Sizes::owner_name))]
pub(crate) fn owner_name(
    alloc: Global,
    scope: &Scope,
    at: Place,
    name: &Name,
) -> Result<Expr, Refusal>
    ensures { Gives view_expr result (owner_name scope.now at name.now).run }
{
    match scope.find(name) {
        None => Err(Refusal::Because(undeclared(at, feature_of(name)))),
        Some(Found::Named { entry, .. }) => owner_entry(alloc, scope.types(), at, entry),
        Some(Found::Member { class, .. }) => {
            let owner = instance(alloc, class)?;
            selected_from(alloc, scope.types(), at, owner, name)
        }
    }
}

fn sized_entry(types: &Types, place: Place, entry: &Entry) -> Result<Constant, Refusal>
    ensures { Gives itself result (sized_entry types.now.types place entry.now).run }
{
    match entry {
        Entry::Ty { ty } => Ok(size_constant(types, *ty)),
        Entry::Var { ty, .. } => size_held(types, place, *ty),
        Entry::Const { .. } | Entry::Code { .. } | Entry::Std { .. } => {
            Err(Refusal::Because(broken(place, Rule::Called)))
        }
    }
}

/// The size of the type or variable that a name means, in a call of SizeOf at a place.
#[tactic(auto, unfolding(crate::specs::constant_expressions::Sizes::sized_name))]
pub(crate) fn sized_name(
    alloc: Global,
    scope: &Scope,
    place: Place,
    at: Place,
    name: &Name,
) -> Result<Constant, Refusal>
    ensures { Gives itself result (sized_name scope.now place at name.now).run }
{
    match scope.find(name) {
        None => Err(Refusal::Because(undeclared(at, feature_of(name)))),
        Some(Found::Named { entry, .. }) => sized_entry(scope.types(), place, entry),
        Some(Found::Member { class, .. }) => {
            let owner = instance(alloc, class)?;
            let field = selected_from(alloc, scope.types(), at, owner, name)?;
            size_by(scope.types(), place, &field)
        }
    }
}
