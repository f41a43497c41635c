//! Constant expressions, part by part.

ghost use Rattle.std.specs.Prelude.{◌≡◌, []};
ghost use Rattle.typing_rules.specs.Judgements.{Gives};
ghost use Rattle.typed_tree.specs.Expressions.{view_expr};
ghost use Rattle.syntax_tree.specs.expression_tree.Trees.{set, call, begins, sole_designator, view_argument, view_arguments, view_element, view_elements, view_expression, view_simple, view_term, view_factor, view_designator};
ghost use Rattle.constant_checker.specs.constant_expressions.Values.{itself};
ghost use Rattle.constant_checker.specs.constant_expressions.Sizes.{size_called};
ghost use Rattle.constant_checker.specs.constant_expressions.Constants.{marked, judged, meant, sole_meant, operands_judged, operand_judged, spans_judged, span_judged};

use crate::constant_expressions::constants::{Constant, integer, of_control, of_text};
use crate::constant_expressions::constructors::{Span, ordinal_of, set_of};
use crate::constant_expressions::functions::{called_with, function_named};
use crate::constant_expressions::names::of_name;
use crate::constant_expressions::operations::{combined, negated, signed};
use crate::constant_expressions::sizes::{
    asks_size, operand, owner_name, selected_from, size_by, sized_name,
};
use pascal_grammar::Position;
use scopes::Scope;
use std::alloc::Global;
use syntax_tree::expression_tree::{
    begins, of_adder, of_multiplier, of_relator, of_sign, sole_designator,
};
use syntax_tree::{
    Argument, Designator, Element, Expression, Factor, PlacedSign, SimpleExpression, Term,
};
use type_layout::{Place, Types};
use typed_tree::Expr;
use typing_rules::{Refusal, Rule, broken, followed, indexed};

fn marked(types: &Types, sign: Option<PlacedSign>, operand: Constant) -> Result<Constant, Refusal>
    ensures { Gives itself result (marked types.now.types sign operand).run }
{
    match sign {
        None => Ok(operand),
        Some(mark) => signed(types, mark.position.place, of_sign(mark.sign), operand),
    }
}

#[cycle(parts)]
fn of_expression(alloc: Global, tree: &Expression, scope: &Scope) -> Result<Constant, Refusal>
    ensures { Gives itself result (judged scope.now (view_expression tree.now)).run }
{
    match tree {
        Expression::Simple(one) => constant_of(alloc, one, scope),
        Expression::Relation {
            left,
            relator,
            position,
            right,
        } => {
            let left = constant_of(alloc, left, scope)?;
            let right = constant_of(alloc, right, scope)?;
            let op = of_relator(*relator);
            combined(alloc, scope.types(), position.place, op, left, right)
        }
    }
}

/// The constant that an expression is, or a fault that is in it.
#[cycle(parts)]
pub fn constant_of(
    alloc: Global,
    tree: &SimpleExpression,
    scope: &Scope,
) -> Result<Constant, Refusal>
    ensures { Gives itself result (judged scope.now (view_simple tree.now)).run }
{
    match tree {
        SimpleExpression::Term(one) => of_term(alloc, one, scope),
        SimpleExpression::Signed(mark, one) => {
            let operand = of_term(alloc, one, scope)?;
            marked(scope.types(), Some(*mark), operand)
        }
        SimpleExpression::Sum {
            left,
            adder,
            position,
            sign,
            right,
        } => {
            let left = constant_of(alloc, left, scope)?;
            let right = of_term(alloc, right, scope)?;
            let right = marked(scope.types(), *sign, right)?;
            let op = of_adder(*adder);
            combined(alloc, scope.types(), position.place, op, left, right)
        }
    }
}

#[cycle(parts)]
fn of_term(alloc: Global, tree: &Term, scope: &Scope) -> Result<Constant, Refusal>
    ensures { Gives itself result (judged scope.now (view_term tree.now)).run }
{
    match tree {
        Term::Factor(one) => of_factor(alloc, one, scope),
        Term::Product {
            left,
            multiplier,
            position,
            sign,
            right,
        } => {
            let left = of_term(alloc, left, scope)?;
            let right = of_factor(alloc, right, scope)?;
            let right = marked(scope.types(), *sign, right)?;
            let op = of_multiplier(*multiplier);
            combined(alloc, scope.types(), position.place, op, left, right)
        }
    }
}

#[cycle(parts)]
fn of_factor(alloc: Global, tree: &Factor, scope: &Scope) -> Result<Constant, Refusal>
    ensures { Gives itself result (judged scope.now (view_factor tree.now)).run }
{
    match tree {
        Factor::Number { value, .. } => Ok(integer(*value)),
        Factor::Text { bytes, .. } => of_text(alloc, bytes.as_slice()),
        Factor::Control { letter, .. } => of_control(alloc, letter.name.as_bytes()),
        Factor::Nil { position } => {
            Err(Refusal::Because(broken(position.place, Rule::Constant)))
        }
        Factor::Set { position, elements } => of_set(alloc, elements.as_slice(), *position, scope),
        Factor::Negation { position, operand } => {
            let operand = of_factor(alloc, operand, scope)?;
            negated(scope.types(), position.place, operand)
        }
        Factor::Group { inner, .. } => of_expression(alloc, inner, scope),
        Factor::Designator(one) => of_designator(alloc, one, scope),
        Factor::Call { callee, arguments } => of_call(alloc, arguments.as_slice(), callee, scope),
    }
}

// A function before its arguments.
#[cycle(parts)]
fn of_call(
    alloc: Global,
    arguments: &[Argument],
    callee: &Designator,
    scope: &Scope,
) -> Result<Constant, Refusal>
    ensures { Gives itself result (judged scope.now (call (begins callee.now) (view_designator callee.now) (view_arguments arguments.now))).run }
{
    let place = begins(callee).place;
    if asks_size(scope, callee) {
        return size_called(alloc, arguments, place, scope);
    }
    let function = function_named(scope, place, callee)?;
    let operands = operands_of(alloc, arguments, place, scope)?;
    called_with(scope.types(), place, function, operands.as_slice())
}

// SizeOf before its arguments.
#[cycle(parts)]
fn size_called(
    alloc: Global,
    arguments: &[Argument],
    place: Place,
    scope: &Scope,
) -> Result<Constant, Refusal>
    ensures { Gives itself result (size_called scope.now place (sole_designator (view_arguments arguments.now)) (sole_meant scope.now place (view_arguments arguments.now)) (operands_judged scope.now place [] (view_arguments arguments.now))).run }
{
    match sole_designator(arguments) {
        Some(Designator::Name(one)) => {
            sized_name(alloc, scope, place, one.position.place, &one.name)
        }
        Some(
            Designator::Field { .. } | Designator::Index { .. } | Designator::Dereference { .. },
        ) => {
            let meant = sole_meant(alloc, arguments, place, scope)?;
            size_by(scope.types(), place, &meant)
        }
        None => {
            let _operands = operands_of(alloc, arguments, place, scope)?;
            Err(Refusal::Because(broken(place, Rule::Called)))
        }
    }
}

// What the only argument of SizeOf means.
#[cycle(parts)]
fn sole_meant(
    alloc: Global,
    arguments: &[Argument],
    place: Place,
    scope: &Scope,
) -> Result<Expr, Refusal>
    ensures { Gives view_expr result (sole_meant scope.now place (view_arguments arguments.now)).run }
{
    match arguments {
        [Argument::Plain(one), rest @ ..] => match rest {
            [] => meant_by_expression(alloc, one, place, scope),
            [_, ..] => Err(Refusal::Because(broken(place, Rule::Called))),
        },
        [Argument::Wide(..), ..] | [] => Err(Refusal::Because(broken(place, Rule::Called))),
    }
}

#[cycle(parts)]
fn meant_by_expression(
    alloc: Global,
    tree: &Expression,
    place: Place,
    scope: &Scope,
) -> Result<Expr, Refusal>
    ensures { Gives view_expr result (meant scope.now place (view_expression tree.now)).run }
{
    match tree {
        Expression::Simple(one) => meant_by_simple(alloc, one, place, scope),
        Expression::Relation { .. } => Err(Refusal::Because(broken(place, Rule::Called))),
    }
}

#[cycle(parts)]
fn meant_by_simple(
    alloc: Global,
    tree: &SimpleExpression,
    place: Place,
    scope: &Scope,
) -> Result<Expr, Refusal>
    ensures { Gives view_expr result (meant scope.now place (view_simple tree.now)).run }
{
    match tree {
        SimpleExpression::Term(one) => meant_by_term(alloc, one, place, scope),
        SimpleExpression::Signed(..) | SimpleExpression::Sum { .. } => {
            Err(Refusal::Because(broken(place, Rule::Called)))
        }
    }
}

#[cycle(parts)]
fn meant_by_term(alloc: Global, tree: &Term, place: Place, scope: &Scope) -> Result<Expr, Refusal>
    ensures { Gives view_expr result (meant scope.now place (view_term tree.now)).run }
{
    match tree {
        Term::Factor(one) => meant_by_factor(alloc, one, place, scope),
        Term::Product { .. } => Err(Refusal::Because(broken(place, Rule::Called))),
    }
}

#[cycle(parts)]
fn meant_by_factor(
    alloc: Global,
    tree: &Factor,
    place: Place,
    scope: &Scope,
) -> Result<Expr, Refusal>
    ensures { Gives view_expr result (meant scope.now place (view_factor tree.now)).run }
{
    match tree {
        Factor::Designator(one) => meant(alloc, one, place, scope),
        Factor::Group { inner, .. } => meant_by_expression(alloc, inner, place, scope),
        Factor::Number { .. }
        | Factor::Text { .. }
        | Factor::Control { .. }
        | Factor::Nil { .. }
        | Factor::Set { .. }
        | Factor::Negation { .. }
        | Factor::Call { .. } => Err(Refusal::Because(broken(place, Rule::Called))),
    }
}

// What a designator means in the parentheses of SizeOf.
#[cycle(parts)]
fn meant(alloc: Global, tree: &Designator, place: Place, scope: &Scope) -> Result<Expr, Refusal>
    ensures { Gives view_expr result (meant scope.now place (view_designator tree.now)).run }
{
    match tree {
        Designator::Name(one) => owner_name(alloc, scope, one.position.place, &one.name),
        Designator::Field {
            owner,
            position,
            field,
        } => {
            let owner = meant(alloc, owner, place, scope)?;
            selected_from(alloc, scope.types(), position.place, owner, &field.name)
        }
        Designator::Index {
            owner,
            position,
            index,
            ..
        } => {
            let owner = meant(alloc, owner, place, scope)?;
            let index = operand(of_expression(alloc, index, scope)?);
            indexed(alloc, scope.types(), position.place, false, owner, index)
        }
        Designator::Dereference { owner, position } => {
            let owner = meant(alloc, owner, place, scope)?;
            followed(alloc, scope.types(), position.place, owner)
        }
    }
}

#[cycle(parts)]
fn operands_of(
    alloc: Global,
    arguments: &[Argument],
    place: Place,
    scope: &Scope,
) -> Result<Vec<Constant>, Refusal>
    ensures { Gives (λ all. all.items) result (operands_judged scope.now place [] (view_arguments arguments.now)).run }
{
    let mut operands = Vec::new(alloc);
    for argument in arguments {
        let operand = operand_of(alloc, argument, place, scope)?;
        operands.push(operand)?;
    }
    Ok(operands)
}

#[cycle(parts)]
fn operand_of(
    alloc: Global,
    argument: &Argument,
    place: Place,
    scope: &Scope,
) -> Result<Constant, Refusal>
    ensures { Gives itself result (operand_judged scope.now place (view_argument argument.now)).run }
{
    match argument {
        Argument::Plain(one) => of_expression(alloc, one, scope),
        Argument::Wide(one, by) => {
            let _value = of_expression(alloc, one, scope)?;
            let _width = of_expression(alloc, by, scope)?;
            Err(Refusal::Because(broken(place, Rule::Called)))
        }
    }
}

// What stands in brackets.
#[cycle(parts)]
fn of_set(
    alloc: Global,
    elements: &[Element],
    here: Position,
    scope: &Scope,
) -> Result<Constant, Refusal>
    ensures { Gives itself result (judged scope.now (set here (view_elements elements.now))).run }
{
    let spans = spans_of(alloc, elements, scope)?;
    set_of(alloc, scope.types(), here.place, spans.as_slice())
}

#[cycle(parts)]
fn spans_of(alloc: Global, elements: &[Element], scope: &Scope) -> Result<Vec<Span>, Refusal>
    ensures { Gives (λ all. all.items) result (spans_judged scope.now [] (view_elements elements.now)).run }
{
    let mut spans = Vec::new(alloc);
    for element in elements {
        let span = span_of(alloc, element, scope)?;
        spans.push(span)?;
    }
    Ok(spans)
}

#[cycle(parts)]
fn span_of(alloc: Global, element: &Element, scope: &Scope) -> Result<Span, Refusal>
    ensures { Gives (λ one. one) result (span_judged scope.now (view_element element.now)).run }
{
    match element {
        Element::Single(one) => {
            let one = ordinal_of(scope.types(), &of_expression(alloc, one, scope)?);
            Ok(Span {
                low: one,
                high: one,
            })
        }
        Element::Range(low, high) => {
            let low = of_expression(alloc, low, scope)?;
            let high = of_expression(alloc, high, scope)?;
            Ok(Span {
                low: ordinal_of(scope.types(), &low),
                high: ordinal_of(scope.types(), &high),
            })
        }
    }
}

#[cycle(parts)]
fn of_designator(alloc: Global, tree: &Designator, scope: &Scope) -> Result<Constant, Refusal>
    ensures { Gives itself result (judged scope.now (view_designator tree.now)).run }
{
    match tree {
        Designator::Name(one) => of_name(alloc, scope, one.position.place, &one.name),
        Designator::Field {
            owner,
            position,
            ..
        } => {
            let _owner = of_designator(alloc, owner, scope)?;
            Err(Refusal::Because(broken(position.place, Rule::Selected)))
        }
        Designator::Index {
            owner,
            position,
            index,
            ..
        } => {
            let _owner = of_designator(alloc, owner, scope)?;
            let _index = of_expression(alloc, index, scope)?;
            Err(Refusal::Because(broken(position.place, Rule::Indexed)))
        }
        Designator::Dereference { owner, position } => {
            let _owner = of_designator(alloc, owner, scope)?;
            Err(Refusal::Because(broken(position.place, Rule::Dereferenced)))
        }
    }
}
