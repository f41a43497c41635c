//! New with a constructor, and Dispose with a destructor.

ghost use Rattle.std.specs.Prelude.{◌≡◌};
ghost use Rattle.std.specs.Option.{option_map};
ghost use Rattle.typed_tree.specs.Expressions.{view_expr};
ghost use Rattle.typed_tree.specs.Statements.{view_stmt};
ghost use Rattle.syntax_tree.specs.expression_tree.Trees.{and_operand, plain, view_arguments, view_expression};
ghost use Rattle.typing_rules.specs.Judgements.{Gives};
ghost use Rattle.tp_check_stmt.specs.Arguments.{view_named};
ghost use Rattle.tp_check_stmt.specs.Places.{spot_of};
ghost use Rattle.tp_check_stmt.specs.Standard.{made_to, creating, ended_by, ending, is_creating, view_pair, plain_pair};

use crate::arguments::{SoleCall, named_call};
use crate::assignments::assigned_to;
use crate::places::spot_of;
use call_rules::allocation_rules::{destructor_of, unmade};
use pascal_grammar::Position;
use scopes::Scope;
use std::alloc::Global;
use syntax_tree::{Argument, Expression};
use tp_check_expr::{judged_expression, made_by, operands};
use typed_tree::standard::NEW;
use typed_tree::{Expr, Stmt};
use typing_rules::{Refusal, Rule, broken};

// A new block to what an expression loads from.
fn made_to(
    alloc: Global,
    here: Position,
    call: &Expression,
    variable: Expr,
    scope: &Scope,
) -> Result<Stmt, Refusal>
    ensures { Gives view_stmt result (made_to scope.now here (view_expression call.now) (spot_of (view_expr variable))).run }
{
    match spot_of(variable) {
        None => Err(Refusal::Because(broken(here.place, Rule::Called))),
        Some(to) => {
            let block = made_by(alloc, call, to.ty, here.place, scope)?;
            assigned_to(alloc, scope.types(), here, to, block)
        }
    }
}

// New with a constructor.
pub(crate) fn creating(
    alloc: Global,
    here: Position,
    variable: &Expression,
    call: &Expression,
    scope: &Scope,
) -> Result<Stmt, Refusal>
    ensures { Gives view_stmt result (creating scope.now here (view_expression variable.now) (view_expression call.now)).run }
{
    let variable = judged_expression(alloc, variable, scope)?;
    made_to(alloc, here, call, variable, scope)
}

fn ended_by(
    alloc: Global,
    here: Position,
    pointer: Expr,
    call: Option<SoleCall<'_>>,
    scope: &Scope,
) -> Result<Stmt, Refusal>
    ensures { Gives view_stmt result (ended_by scope.now here (view_expr pointer) (option_map view_named call.entry)).run }
{
    let Some(SoleCall { name, arguments }) = call else {
        return Err(Refusal::Because(broken(here.place, Rule::Allocating)));
    };
    let at = name.position;
    let one = destructor_of(alloc, scope, here.place, &pointer, &name.name)?;
    let params = one.header.params.as_slice();
    let values = operands(alloc, arguments, params, at, scope)?;
    unmade(
        alloc,
        scope.types(),
        at.place,
        at.switches.r,
        pointer,
        one,
        values,
    )
}

// Dispose with a destructor.
pub(crate) fn ending(
    alloc: Global,
    here: Position,
    pointer: &Expression,
    call: &Expression,
    scope: &Scope,
) -> Result<Stmt, Refusal>
    ensures { Gives view_stmt result (ending scope.now here (view_expression pointer.now) (view_expression call.now)).run }
{
    let pointer = judged_expression(alloc, pointer, scope)?;
    ended_by(alloc, here, pointer, named_call(call), scope)
}

pub(crate) fn is_creating(number: u32) -> bool
    ensures { result ≡ is_creating number }
{
    number == NEW
}

// Two arguments without widths.
#[derive(Clone, Copy)]
pub(crate) struct PlainPair<'a> {
    pub first: &'a Expression,
    pub second: &'a Expression,
}

fn pair_of<'a>(
    first: &'a Expression,
    second: &'a Expression,
    more: &[Argument],
) -> Option<PlainPair<'a>>
    ensures { option_map view_pair result ≡ plain_pair (and_operand (plain (view_expression first.now)) (and_operand (plain (view_expression second.now)) (view_arguments more.now))) }
{
    match more {
        [] => Some(PlainPair { first, second }),
        [_more, _rest @ ..] => None,
    }
}

fn pair_behind<'a>(first: &'a Expression, rest: &'a [Argument]) -> Option<PlainPair<'a>>
    ensures { option_map view_pair result ≡ plain_pair (and_operand (plain (view_expression first.now)) (view_arguments rest.now)) }
{
    match rest {
        [] => None,
        [Argument::Wide(..), _more @ ..] => None,
        [Argument::Plain(second), more @ ..] => pair_of(first, second, more),
    }
}

pub(crate) fn plain_pair(given: &[Argument]) -> Option<PlainPair<'_>>
    ensures { option_map view_pair result ≡ plain_pair (view_arguments given.now) }
{
    match given {
        [] => None,
        [Argument::Wide(..), _rest @ ..] => None,
        [Argument::Plain(first), rest @ ..] => pair_behind(first, rest),
    }
}
