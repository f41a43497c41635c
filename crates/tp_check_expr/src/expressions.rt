//! Expressions, part by part.

ghost use Rattle.std.specs.Prelude.{◌≡◌, [], map, option_copied};
ghost use Rattle.typed_tree.specs.Expressions.{view_expr};
ghost use Rattle.typing_rules.specs.Judgements.{Gives};
ghost use Rattle.syntax_tree.specs.expression_tree.Trees.{set, begins, view_expression, view_simple, view_term, view_factor, view_designator, view_argument, view_arguments, view_element, view_elements};
ghost use Rattle.call_rules.specs.set_rules.Sets.{view_item};
ghost use Rattle.tp_check_expr.specs.Calls.{view_callable, target_for};
ghost use Rattle.tp_check_expr.specs.Typed.{first_param, rest_params, judged_as, judged, callable, items_judged, item_judged, all_given, one_given, misplaced, miscalled, special_given, called_for, size_of_one, made_by};

mod designators;

use crate::calls::{CallTarget, constructor_at, parameters, special_of, target_called};
use crate::constants::{control_constant, number_constant, text_constant};
use crate::names::{Purpose, purpose_of};
use crate::operations::{combined, marked};
use crate::owners::type_at;
use call_rules::allocation_rules::{blank, newly_made};
use call_rules::set_rules::constructed;
use call_rules::standard_rules::{is_size, sized, variable_sized};
pub use designators::{callable, designator_as};
use pascal_grammar::Position;
use scopes::Scope;
use std::alloc::Global;
use syntax_tree::expression_tree::{begins, of_adder, of_multiplier, of_relator};
use syntax_tree::{Argument, Designator, Element, Expression, Factor, SimpleExpression, Term};
use type_layout::{Param, Place, TypeId};
use typed_tree::{Expr, SetElement};
use typing_rules::{Refusal, Rule, broken, negated, nil};

/// The node of an expression that stands for this.
#[cycle(parts)]
pub fn expression_as(
    alloc: Global,
    tree: &Expression,
    purpose: Purpose,
    scope: &Scope,
) -> Result<Expr, Refusal>
    ensures { Gives view_expr result (judged_as scope.now purpose (view_expression tree.now)).run }
{
    match tree {
        Expression::Simple(one) => simple_as(alloc, one, purpose, scope),
        Expression::Relation {
            left,
            relator,
            position,
            right,
        } => {
            let left = simple_as(alloc, left, Purpose::Value, scope)?;
            let right = simple_as(alloc, right, Purpose::Value, scope)?;
            combined(
                alloc,
                scope.types(),
                *position,
                of_relator(*relator),
                left,
                right,
            )
        }
    }
}

#[cycle(parts)]
fn simple_as(
    alloc: Global,
    tree: &SimpleExpression,
    purpose: Purpose,
    scope: &Scope,
) -> Result<Expr, Refusal>
    ensures { Gives view_expr result (judged_as scope.now purpose (view_simple tree.now)).run }
{
    match tree {
        SimpleExpression::Term(one) => term_as(alloc, one, purpose, scope),
        SimpleExpression::Signed(mark, one) => {
            let operand = term_as(alloc, one, Purpose::Value, scope)?;
            marked(alloc, scope.types(), Some(*mark), operand)
        }
        SimpleExpression::Sum {
            left,
            adder,
            position,
            sign,
            right,
        } => {
            let left = simple_as(alloc, left, Purpose::Value, scope)?;
            let right = term_as(alloc, right, Purpose::Value, scope)?;
            let right = marked(alloc, scope.types(), *sign, right)?;
            combined(
                alloc,
                scope.types(),
                *position,
                of_adder(*adder),
                left,
                right,
            )
        }
    }
}

#[cycle(parts)]
fn term_as(alloc: Global, tree: &Term, purpose: Purpose, scope: &Scope) -> Result<Expr, Refusal>
    ensures { Gives view_expr result (judged_as scope.now purpose (view_term tree.now)).run }
{
    match tree {
        Term::Factor(one) => factor_as(alloc, one, purpose, scope),
        Term::Product {
            left,
            multiplier,
            position,
            sign,
            right,
        } => {
            let left = term_as(alloc, left, Purpose::Value, scope)?;
            let right = factor_as(alloc, right, Purpose::Value, scope)?;
            let right = marked(alloc, scope.types(), *sign, right)?;
            combined(
                alloc,
                scope.types(),
                *position,
                of_multiplier(*multiplier),
                left,
                right,
            )
        }
    }
}

#[cycle(parts)]
fn factor_as(alloc: Global, tree: &Factor, purpose: Purpose, scope: &Scope) -> Result<Expr, Refusal>
    ensures { Gives view_expr result (judged_as scope.now purpose (view_factor tree.now)).run }
{
    match tree {
        Factor::Number { value, .. } => Ok(number_constant(*value)),
        Factor::Text { bytes, .. } => text_constant(alloc, bytes.as_slice()),
        Factor::Control { letter, .. } => control_constant(alloc, letter.name.as_bytes()),
        Factor::Nil { .. } => Ok(nil()),
        Factor::Set { position, elements } => {
            judged_set(alloc, elements.as_slice(), *position, scope)
        }
        Factor::Negation { position, operand } => {
            let operand = factor_as(alloc, operand, Purpose::Value, scope)?;
            negated(alloc, scope.types(), position.place, operand)
        }
        Factor::Group { inner, .. } => expression_as(alloc, inner, purpose, scope),
        Factor::Designator(one) => designator_as(alloc, one, purpose, scope),
        Factor::Call { callee, arguments } => {
            let here = begins(callee);
            let target = target_for(alloc, callee, here.place, purpose, scope)?;
            applied(alloc, arguments.as_slice(), target, here, scope)
        }
    }
}

// A set constructor that stands here.
#[cycle(parts)]
fn judged_set(
    alloc: Global,
    elements: &[Element],
    here: Position,
    scope: &Scope,
) -> Result<Expr, Refusal>
    ensures { Gives view_expr result (judged scope.now (set here (view_elements elements.now))).run }
{
    let items = items(alloc, elements, scope)?;
    constructed(alloc, scope.types(), here.place, here.switches.r, items)
}

// What stands before arguments in a call that stands for this.
#[cycle(parts)]
fn target_for<'a>(
    alloc: Global,
    callee: &Designator,
    place: Place,
    purpose: Purpose,
    scope: &'a Scope,
) -> Result<CallTarget<'a>, Refusal>
    ensures { Gives view_callable result (target_for scope.now purpose (view_designator callee.now) (callable scope.now place (view_designator callee.now))).run }
{
    match purpose {
        Purpose::Constructor { ty, place } => constructor_at(scope, ty, place, callee),
        _ => callable(alloc, callee, place, scope),
    }
}

// A call with these arguments, which begins here.
#[cycle(parts)]
fn applied(
    alloc: Global,
    arguments: &[Argument],
    target: CallTarget<'_>,
    here: Position,
    scope: &Scope,
) -> Result<Expr, Refusal>
    ensures { Gives view_expr result (called_for scope.now here (view_callable target.entry) (view_arguments arguments.now)).run }
{
    if let Some(number) = special_of(&target) {
        return special(alloc, arguments, number, here, scope);
    }
    let values = operands(alloc, arguments, parameters(&target), here, scope)?;
    target_called(alloc, scope.types(), here, target, values)
}

// The call of a standard function that takes a type.
#[cycle(parts)]
fn special(
    alloc: Global,
    arguments: &[Argument],
    number: u32,
    here: Position,
    scope: &Scope,
) -> Result<Expr, Refusal>
    ensures { Gives view_expr result (special_given scope.now here number (all_given scope.now here [] (view_arguments arguments.now)) (view_arguments arguments.now)).run }
{
    match arguments {
        [] => miscalled(alloc, arguments, here, scope),
        [Argument::Wide(..), ..] => miscalled(alloc, arguments, here, scope),
        [Argument::Plain(one), rest @ ..] => match rest {
            [] => {
                if is_size(number) {
                    return size_asked(alloc, one, here.place, scope);
                }
                match type_at(scope, one) {
                    Some(named) => blank(alloc, scope.types(), here.place, named.ty),
                    None => misplaced(alloc, one, here.place, scope),
                }
            }
            [Argument::Wide(..), ..] => miscalled(alloc, arguments, here, scope),
            [Argument::Plain(two), more @ ..] => match more {
                [] => {
                    if is_size(number) {
                        return miscalled(alloc, arguments, here, scope);
                    }
                    match type_at(scope, one) {
                        Some(named) => made_by(alloc, two, named.ty, here.place, scope),
                        None => misplaced(alloc, one, here.place, scope),
                    }
                }
                [_more, ..] => miscalled(alloc, arguments, here, scope),
            },
        },
    }
}

// Other arguments than those that are asked for.
#[cycle(parts)]
fn miscalled(
    alloc: Global,
    arguments: &[Argument],
    here: Position,
    scope: &Scope,
) -> Result<Expr, Refusal>
    ensures { Gives view_expr result (miscalled here.place (all_given scope.now here [] (view_arguments arguments.now))).run }
{
    let _values = operands(alloc, arguments, &[], here, scope)?;
    Err(Refusal::Because(broken(here.place, Rule::Called)))
}

// What stands where a type is due.
#[cycle(parts)]
fn misplaced(alloc: Global, tree: &Expression, place: Place, scope: &Scope) -> Result<Expr, Refusal>
    ensures { Gives view_expr result (misplaced place (judged scope.now (view_expression tree.now))).run }
{
    let _value = expression_as(alloc, tree, Purpose::Value, scope)?;
    Err(Refusal::Because(broken(place, Rule::Stands)))
}

// SizeOf of a type or a variable.
#[cycle(parts)]
fn size_asked(
    alloc: Global,
    tree: &Expression,
    place: Place,
    scope: &Scope,
) -> Result<Expr, Refusal>
    ensures { Gives view_expr result (size_of_one scope.now place (view_expression tree.now)).run }
{
    match type_at(scope, tree) {
        Some(named) => sized(alloc, scope.types(), named.ty),
        None => {
            let one = expression_as(alloc, tree, Purpose::Variable, scope)?;
            variable_sized(alloc, scope.types(), place, one)
        }
    }
}

/// The node of a New at a place of a pointer type, with the constructor that an expression calls.
#[cycle(parts)]
pub fn made_by(
    alloc: Global,
    tree: &Expression,
    ty: TypeId,
    place: Place,
    scope: &Scope,
) -> Result<Expr, Refusal>
    ensures { Gives view_expr result (made_by scope.now place ty (view_expression tree.now)).run }
{
    let one = expression_as(alloc, tree, Purpose::Constructor { ty, place }, scope)?;
    newly_made(place, one)
}

// What a set constructor lists.
#[cycle(parts)]
fn items(alloc: Global, elements: &[Element], scope: &Scope) -> Result<Vec<SetElement>, Refusal>
    ensures { Gives (λ all. map view_item all.items) result (items_judged scope.now (view_elements elements.now)).run }
{
    let mut items = Vec::new(alloc);
    for element in elements {
        let one = item(alloc, element, scope)?;
        items.push(one)?;
    }
    Ok(items)
}

#[cycle(parts)]
fn item(alloc: Global, element: &Element, scope: &Scope) -> Result<SetElement, Refusal>
    ensures { Gives view_item result (item_judged scope.now (view_element element.now)).run }
{
    match element {
        Element::Single(one) => {
            let one = expression_as(alloc, one, Purpose::Value, scope)?;
            Ok(SetElement::One(one))
        }
        Element::Range(low, high) => {
            let low = expression_as(alloc, low, Purpose::Value, scope)?;
            let high = expression_as(alloc, high, Purpose::Value, scope)?;
            Ok(SetElement::Span(low, high))
        }
    }
}

fn first_param(params: &[Param]) -> Option<&Param>
    ensures { option_copied result ≡ first_param params.now }
{
    match params {
        [] => None,
        [one, ..] => Some(one),
    }
}

fn rest_params(params: &[Param]) -> &[Param]
    ensures { result.now ≡ rest_params params.now }
{
    match params {
        [] => params,
        [_, rest @ ..] => rest,
    }
}

/// The arguments of a call that begins here, by its parameters as far as there are any.
#[cycle(parts)]
pub fn operands(
    alloc: Global,
    arguments: &[Argument],
    params: &[Param],
    here: Position,
    scope: &Scope,
) -> Result<Vec<Expr>, Refusal>
    ensures { Gives (λ all. map view_expr all.items) result (all_given scope.now here params.now (view_arguments arguments.now)).run }
{
    let mut operands = Vec::new(alloc);
    let mut left = params;
    for argument in arguments {
        let value = operand(alloc, argument, first_param(left), here, scope)?;
        operands.push(value)?;
        left = rest_params(left);
    }
    Ok(operands)
}

#[cycle(parts)]
fn operand(
    alloc: Global,
    argument: &Argument,
    param: Option<&Param>,
    here: Position,
    scope: &Scope,
) -> Result<Expr, Refusal>
    ensures { Gives view_expr result (one_given scope.now here (option_copied param.entry) (view_argument argument.now)).run }
{
    match argument {
        Argument::Plain(one) => {
            let purpose = purpose_of(scope.types(), here.place, param);
            expression_as(alloc, one, purpose, scope)
        }
        Argument::Wide(one, width) => {
            let _value = expression_as(alloc, one, Purpose::Value, scope)?;
            let _width = expression_as(alloc, width, Purpose::Value, scope)?;
            Err(Refusal::Because(broken(here.place, Rule::Called)))
        }
    }
}
