//! Calls as statements.

ghost use Rattle.std.specs.Prelude.{map};
ghost use Rattle.typed_tree.specs.Expressions.{view_expr};
ghost use Rattle.typed_tree.specs.Statements.{view_stmt};
ghost use Rattle.syntax_tree.specs.expression_tree.Trees.{view_designator, view_arguments};
ghost use Rattle.typing_rules.specs.Judgements.{Gives};
ghost use Rattle.tp_check_expr.specs.Calls.{view_callable};
ghost use Rattle.tp_check_stmt.specs.Calls.{performed_entry, run_entry, run_target, run_of};

use crate::nodes::run_node;
use crate::standard::standard_run;
use call_rules::method_rules::performed_on;
use call_rules::performed;
use call_rules::procedural_rules::performed_through;
use pascal_grammar::Position;
use scopes::{Entry, Scope};
use std::alloc::Global;
use syntax_tree::{Argument, Designator};
use tp_check_expr::{CallTarget, callable, operands, params_of};
use type_layout::Types;
use typed_tree::{Expr, Stmt};
use typing_rules::{Refusal, Rule, broken};

fn performed_entry(
    alloc: Global,
    types: &Types,
    here: Position,
    entry: &Entry,
    values: Vec<Expr>,
) -> Result<Stmt, Refusal>
    ensures { Gives view_stmt result (performed_entry types.now.types here entry.now (map view_expr values.items)).run }
{
    let place = here.place;
    match entry {
        Entry::Code {
            routine,
            header,
            ..
        } => {
            let checked = here.switches.r;
            let call = performed(alloc, types, place, checked, *routine, header, values)?;
            run_node(alloc, call)
        }
        _ => Err(Refusal::Because(broken(place, Rule::Stands))),
    }
}

fn run_entry(
    alloc: Global,
    here: Position,
    entry: &Entry,
    given: &[Argument],
    scope: &Scope,
) -> Result<Stmt, Refusal>
    ensures { Gives view_stmt result (run_entry scope.now here entry.now (view_arguments given.now)).run }
{
    match entry {
        Entry::Std { number } => standard_run(alloc, here, *number, given, scope),
        _ => {
            let values = operands(alloc, given, params_of(entry), here, scope)?;
            performed_entry(alloc, scope.types(), here, entry, values)
        }
    }
}

// A call of what stands before the arguments.
fn run_target(
    alloc: Global,
    here: Position,
    target: CallTarget<'_>,
    given: &[Argument],
    scope: &Scope,
) -> Result<Stmt, Refusal>
    ensures { Gives view_stmt result (run_target scope.now here (view_callable target.entry) (view_arguments given.now)).run }
{
    let types = scope.types();
    let checked = here.switches.r;
    match target {
        CallTarget::Declared(entry) => run_entry(alloc, here, entry, given, scope),
        CallTarget::Method(one) => {
            let params = one.header.params.as_slice();
            let values = operands(alloc, given, params, here, scope)?;
            let call = performed_on(alloc, types, here.place, checked, one, values)?;
            run_node(alloc, call)
        }
        CallTarget::Through(one) => {
            let params = one.header.params.as_slice();
            let values = operands(alloc, given, params, here, scope)?;
            let call = performed_through(alloc, types, here.place, checked, one, values)?;
            run_node(alloc, call)
        }
        CallTarget::Making(..) => Err(Refusal::Because(broken(here.place, Rule::Stands))),
    }
}

/// The node of a call that begins here.
pub(crate) fn run_of(
    alloc: Global,
    here: Position,
    callee: &Designator,
    given: &[Argument],
    scope: &Scope,
) -> Result<Stmt, Refusal>
    ensures { Gives view_stmt result (run_of scope.now here (view_designator callee.now) (view_arguments given.now)).run }
{
    let target = callable(alloc, callee, here.place, scope)?;
    run_target(alloc, here, target, given, scope)
}
