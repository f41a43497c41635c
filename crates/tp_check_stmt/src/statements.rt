//! Statements, part by part.

ghost use Rattle.std.specs.Prelude.{◌≡◌, [], ◌∷◌, ◌++◌, cond, OnOk, IfErr, map, option_copied};
ghost use Rattle.typed_tree.specs.Statements.{view_stmt};
ghost use Rattle.syntax_tree.specs.expression_tree.Trees.{begins, view_designator, view_expression};
ghost use Rattle.syntax_tree.specs.statement_tree.Trees.{assignment, view_statement, view_statements, view_else, view_case_else, view_with, view_arms};
ghost use Rattle.typing_rules.specs.declared.faults.Refusal.TheVariants.{NoMemory};
ghost use Rattle.typing_rules.specs.Judgements.{Gives};
ghost use Rattle.tp_check_stmt.specs.Places.{view_target};
ghost use Rattle.tp_check_stmt.specs.Asked.{condition};
ghost use Rattle.tp_check_stmt.specs.Loops.{counted};
ghost use Rattle.tp_check_stmt.specs.Typed.{is_empty, has_members, held, opened_by, view_arm, blocked, turning, repeating, counting, stated, listed, branched};

use crate::asked::{condition, selector};
use crate::assignments::{assigned_to, target};
use crate::calls::run_of;
use crate::labels::labelled;
use crate::loops::counted;
use crate::nodes::{
    block_of, case_node, for_node, if_node, nothing, repeat_node, while_node, with_node,
};
use crate::places::{Target, spot_of};
use pascal_grammar::Direction;
use scopes::{BlockKind, Scope};
use std::alloc::Global;
use syntax_tree::expression_tree::begins;
use syntax_tree::{
    CaseArm, CaseElse, Designator, ElsePart, Expression, Identifier, Statement, WithRest,
};
use tp_check_expr::{Purpose, designator_as, expression_as, purpose_for};
use type_layout::{Place, TypeDef};
use typed_tree::{Arm, LabelRange, Stmt};
use typing_rules::{Refusal, Rule, Sort, broken, definition, sort_of};

fn is_empty(statement: &Statement) -> bool
    ensures { result ≡ is_empty (view_statement statement.now) }
{
    matches!(statement, Statement::Empty)
}

fn has_members(one: Option<&TypeDef>) -> bool
    ensures { result ≡ has_members (option_copied one.entry) }
{
    matches!(
        one,
        Some(TypeDef::RecordOf { .. } | TypeDef::ObjectOf { .. })
    )
}

// The record or object that a `with` opens.
fn held(alloc: Global, place: Place, tree: &Designator, scope: &Scope) -> Result<Target, Refusal>
    ensures { Gives view_target result (held scope.now place (view_designator tree.now)).run }
{
    let value = designator_as(alloc, tree, Purpose::Value, scope)?;
    match spot_of(value) {
        Some(from) if has_members(definition(scope.types(), from.ty)) => Ok(from),
        _ => Err(Refusal::Because(broken(place, Rule::Opened))),
    }
}

// An assignment of a value to what is designated.
fn assigned(
    alloc: Global,
    designator: &Designator,
    value: &Expression,
    scope: &Scope,
) -> Result<Stmt, Refusal>
    ensures { Gives view_stmt result (stated scope.now (assignment (begins designator.now) (view_designator designator.now) (view_expression value.now))).run }
{
    let here = begins(designator);
    let to = target(alloc, designator, scope)?;
    let fault = broken(here.place, Rule::Assigned);
    let purpose = purpose_for(scope.types(), to.ty, fault);
    let value = expression_as(alloc, value, purpose, scope)?;
    assigned_to(alloc, scope.types(), here, to, value)
}

/// The node of a statement.
#[cycle(parts)]
pub(crate) fn stated(alloc: Global, tree: &Statement, scope: &mut Scope) -> Result<Stmt, Refusal>
    ensures gives { Gives view_stmt result (stated scope.old (view_statement tree.now)).run }
    ensures unchanged { scope.new ≡ scope.old }
{
    match tree {
        Statement::Empty => Ok(nothing(alloc)),
        Statement::Assignment { target, value } => assigned(alloc, target, value, scope),
        Statement::BareCall { callee } => run_of(alloc, begins(callee), callee, &[], scope),
        Statement::ProcedureCall { callee, arguments } => {
            run_of(alloc, begins(callee), callee, arguments.as_slice(), scope)
        }
        Statement::Compound(one) => compound(alloc, one.statements.as_slice(), scope),
        Statement::If {
            condition: test,
            body,
            otherwise,
            ..
        } => {
            let test = condition(alloc, test, scope)?;
            let yes = stated(alloc, body, scope)?;
            let no = otherwise_stated(alloc, otherwise, scope)?;
            if_node(alloc, test, yes, no)
        }
        Statement::Case {
            selector: by,
            arms,
            otherwise,
            ..
        } => {
            let by = selector(alloc, by, scope)?;
            let sort = sort_of(scope.types(), &by);
            let arms = branched(alloc, arms.as_slice(), sort, scope)?;
            let other = case_else_listed(alloc, otherwise, scope)?;
            case_node(alloc, by, arms, other)
        }
        Statement::While {
            condition: test,
            body,
            ..
        } => while_stated(alloc, body, test, scope),
        Statement::Repeat {
            statements,
            condition: test,
            ..
        } => repeat_stated(alloc, statements.as_slice(), test, scope),
        Statement::For {
            position,
            variable,
            first,
            direction,
            last,
            body,
        } => {
            let way = direction.direction;
            let checked = position.switches.r;
            for_stated(alloc, body, way, checked, variable, first, last, scope)
        }
        Statement::With {
            designator,
            rest,
            ..
        } => opened(alloc, rest, designator, scope),
    }
}

/// The node of the statements between `begin` and `end`.
#[cycle(parts)]
pub fn compound(alloc: Global, statements: &[Statement], scope: &mut Scope) -> Result<Stmt, Refusal>
    ensures gives { Gives view_stmt result (blocked (listed scope.old (view_statements statements.now))).run }
    ensures unchanged { scope.new ≡ scope.old }
{
    let all = listed(alloc, statements, scope)?;
    Ok(block_of(all))
}

#[cycle(parts)]
fn while_stated(
    alloc: Global,
    body: &Statement,
    test: &Expression,
    scope: &mut Scope,
) -> Result<Stmt, Refusal>
    ensures gives { Gives view_stmt result (turning (condition scope.old (view_expression test.now)) (stated scope.old (view_statement body.now))).run }
    ensures unchanged { scope.new ≡ scope.old }
{
    let test = condition(alloc, test, scope)?;
    let body = stated(alloc, body, scope)?;
    while_node(alloc, test, body)
}

#[cycle(parts)]
fn repeat_stated(
    alloc: Global,
    statements: &[Statement],
    test: &Expression,
    scope: &mut Scope,
) -> Result<Stmt, Refusal>
    ensures gives { Gives view_stmt result (repeating (listed scope.old (view_statements statements.now)) (condition scope.old (view_expression test.now))).run }
    ensures unchanged { scope.new ≡ scope.old }
{
    let all = listed(alloc, statements, scope)?;
    let test = condition(alloc, test, scope)?;
    repeat_node(alloc, all, test)
}

// A `for`. With `checked` its bounds are tested.
#[cycle(parts)]
fn for_stated(
    alloc: Global,
    body: &Statement,
    way: Direction,
    checked: bool,
    variable: &Identifier,
    first: &Expression,
    last: &Expression,
    scope: &mut Scope,
) -> Result<Stmt, Refusal>
    ensures gives { Gives view_stmt result (counting way checked (counted scope.old checked variable.now.position.place variable.now.name (view_expression first.now) (view_expression last.now)) (stated scope.old (view_statement body.now))).run }
    ensures unchanged { scope.new ≡ scope.old }
{
    let count = counted(alloc, variable, first, last, scope, checked)?;
    let body = stated(alloc, body, scope)?;
    for_node(alloc, way, checked, count, body)
}

// A `with` over a designator, and what stands behind that.
#[cycle(parts)]
fn opened(
    alloc: Global,
    rest: &WithRest,
    designator: &Designator,
    scope: &mut Scope,
) -> Result<Stmt, Refusal>
    ensures gives { Gives view_stmt result (stated scope.old (opened_by designator.now (view_with rest.now))).run }
    ensures unchanged { scope.new ≡ scope.old }
{
    let place = begins(designator).place;
    let over = held(alloc, place, designator, scope)?;
    scope.begin(BlockKind::With { ty: over.ty })?;
    let body = within(alloc, rest, scope);
    scope.end();
    with_node(alloc, over.at, body?)
}

#[cycle(parts)]
fn within(alloc: Global, rest: &WithRest, scope: &mut Scope) -> Result<Stmt, Refusal>
    ensures gives { Gives view_stmt result (stated scope.old (view_with rest.now)).run }
    ensures unchanged { scope.new ≡ scope.old }
{
    match rest {
        WithRest::Body(body) => stated(alloc, body, scope),
        WithRest::Next(designator, rest) => opened(alloc, rest, designator, scope),
    }
}

#[cycle(parts)]
fn otherwise_stated(alloc: Global, otherwise: &ElsePart, scope: &mut Scope) -> Result<Stmt, Refusal>
    ensures gives { Gives view_stmt result (stated scope.old (view_else otherwise.now)).run }
    ensures unchanged { scope.new ≡ scope.old }
{
    match otherwise {
        ElsePart::Absent => Ok(nothing(alloc)),
        ElsePart::Present(body) => stated(alloc, body, scope),
    }
}

#[cycle(parts)]
fn case_else_listed(
    alloc: Global,
    otherwise: &CaseElse,
    scope: &mut Scope,
) -> Result<Vec<Stmt>, Refusal>
    ensures gives { Gives (λ all. map view_stmt all.items) result (listed scope.old (view_case_else otherwise.now)).run }
    ensures unchanged { scope.new ≡ scope.old }
{
    match otherwise {
        CaseElse::Absent => Ok(Vec::new(alloc)),
        CaseElse::Present(statements) => listed(alloc, statements.as_slice(), scope),
    }
}

// Puts a node behind those before it, but for that of an empty statement.
fn keep(all: &mut Vec<Stmt>, is_empty: bool, node: Stmt) -> Result<(), Refusal>
    ensures ok { OnOk result (all.new.items ≡ cond is_empty all.old.items (all.old.items ++ node ∷ [])) }
    ensures err { IfErr result (λ refusal. refusal ≡ NoMemory) }
{
    if is_empty {
        return Ok(());
    }
    all.push(node)?;
    Ok(())
}

// The statements of a list, but for those that are empty.
#[cycle(parts)]
fn listed(alloc: Global, statements: &[Statement], scope: &mut Scope) -> Result<Vec<Stmt>, Refusal>
    ensures gives { Gives (λ all. map view_stmt all.items) result (listed scope.old (view_statements statements.now)).run }
    ensures unchanged { scope.new ≡ scope.old }
{
    let mut all = Vec::new(alloc);
    for statement in statements {
        let node = stated(alloc, statement, scope)?;
        keep(&mut all, is_empty(statement), node)?;
    }
    Ok(all)
}

// The branches of a `case` over this sort.
#[cycle(parts)]
fn branched(
    alloc: Global,
    arms: &[CaseArm],
    sort: Sort,
    scope: &mut Scope,
) -> Result<Vec<Arm>, Refusal>
    ensures gives { Gives (λ all. map view_arm all.items) result (branched scope.old sort [] (view_arms arms.now)).run }
    ensures unchanged { scope.new ≡ scope.old }
{
    let mut seen: Vec<LabelRange> = Vec::new(alloc);
    let mut all = Vec::new(alloc);
    for arm in arms {
        let CaseArm::Arm { labels, body } = arm;
        let labels = labelled(alloc, labels.as_slice(), scope, sort, &mut seen)?;
        let body = stated(alloc, body, scope)?;
        all.push(Arm { labels, body })?;
    }
    Ok(all)
}
