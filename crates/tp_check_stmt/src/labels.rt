//! Labels of a `case`.

ghost use Rattle.std.specs.Prelude.{◌≡◌, ◌++◌, IfOk, map};
ghost use Rattle.syntax_tree.specs.expression_tree.Trees.{view_simple};
ghost use Rattle.syntax_tree.specs.statement_tree.Trees.{view_label};
ghost use Rattle.typing_rules.specs.Judgements.{Gives};
ghost use Rattle.constant_checker.specs.constant_expressions.Values.{number_of};
ghost use Rattle.tp_check_stmt.specs.Labels.{number_itself, range_itself, label_value, label_range, are_apart, is_new, label_place, new_label, labelled};

use constant_checker::constant_expressions::{Constant, constant_of};
use scopes::Scope;
use std::alloc::Global;
use syntax_tree::statement_tree::place_of_simple;
use syntax_tree::{CaseLabel, SimpleExpression};
use type_layout::Place;
use typed_tree::{LabelRange, Value};
use typing_rules::{Refusal, Rule, Sort, are_of_one_host, broken, sort_of_type};

fn number_of(constant: Constant) -> i32
    ensures { result ≡ number_of constant.value }
{
    match constant.value {
        Value::Number(number) => number,
        Value::Chars(_) | Value::Nil | Value::Elements(_) => 0,
    }
}

// A constant of the selector's host.
fn label_value(
    alloc: Global,
    tree: &SimpleExpression,
    scope: &Scope,
    sort: Sort,
) -> Result<i32, Refusal>
    ensures { Gives number_itself result (label_value scope.now sort (view_simple tree.now)).run }
{
    let constant = constant_of(alloc, tree, scope)?;
    if are_of_one_host(sort, sort_of_type(scope.types(), constant.ty)) {
        Ok(number_of(constant))
    } else {
        Err(Refusal::Because(broken(place_of_simple(tree), Rule::Labelled)))
    }
}

fn label_range(
    alloc: Global,
    label: &CaseLabel,
    scope: &Scope,
    sort: Sort,
) -> Result<LabelRange, Refusal>
    ensures { Gives range_itself result (label_range scope.now sort (view_label label.now)).run }
{
    match label {
        CaseLabel::Single(one) => {
            let number = label_value(alloc, one, scope, sort)?;
            Ok(LabelRange {
                low: number,
                high: number,
            })
        }
        CaseLabel::Range(first, last) => {
            let low = label_value(alloc, first, scope, sort)?;
            let high = label_value(alloc, last, scope, sort)?;
            if low <= high {
                Ok(LabelRange { low, high })
            } else {
                Err(Refusal::Because(broken(place_of_simple(first), Rule::Constant)))
            }
        }
    }
}

fn are_apart(one: LabelRange, other: LabelRange) -> bool
    ensures { result ≡ are_apart one other }
{
    one.high < other.low || other.high < one.low
}

fn is_new(seen: &[LabelRange], one: LabelRange) -> bool
    ensures { result ≡ is_new seen.now one }
{
    seen.iter().all(|other| are_apart(one, *other))
}

fn label_place(label: &CaseLabel) -> Place
    ensures { result ≡ label_place (view_label label.now) }
{
    match label {
        CaseLabel::Single(one) | CaseLabel::Range(one, _) => place_of_simple(one),
    }
}

// A label that none of those before it meets.
fn new_label(
    alloc: Global,
    label: &CaseLabel,
    scope: &Scope,
    sort: Sort,
    seen: &[LabelRange],
) -> Result<LabelRange, Refusal>
    ensures { Gives range_itself result (new_label scope.now sort seen.now (view_label label.now)).run }
{
    let range = label_range(alloc, label, scope, sort)?;
    if is_new(seen, range) {
        Ok(range)
    } else {
        Err(Refusal::Because(broken(label_place(label), Rule::Labelled)))
    }
}

/// The labels of a branch, which are put behind those that were seen before.
pub(crate) fn labelled(
    alloc: Global,
    labels: &[CaseLabel],
    scope: &Scope,
    sort: Sort,
    seen: &mut Vec<LabelRange>,
) -> Result<Vec<LabelRange>, Refusal>
    ensures gives { Gives (λ all. all.items) result (labelled scope.now sort seen.old.items (map view_label labels.now)).run }
    ensures seen { IfOk result (λ all. seen.new.items ≡ seen.old.items ++ all.items) }
{
    let mut ranges = Vec::new(alloc);
    for label in labels {
        let range = new_label(alloc, label, scope, sort, seen.as_slice())?;
        seen.push(range)?;
        ranges.push(range)?;
    }
    Ok(ranges)
}
