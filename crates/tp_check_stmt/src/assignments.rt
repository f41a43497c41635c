//! Assignments.

ghost use Rattle.std.specs.Prelude.{◌≡◌, ◌||◌, option_copied};
ghost use Rattle.std.specs.Option.{option_map};
ghost use Rattle.scopes.specs.Environment.{find};
ghost use Rattle.scopes.specs.Members.{narrow};
ghost use Rattle.typed_tree.specs.Expressions.{view_expr, view_place};
ghost use Rattle.typed_tree.specs.Statements.{view_stmt};
ghost use Rattle.syntax_tree.specs.expression_tree.Trees.{view_designator};
ghost use Rattle.typing_rules.specs.Judgements.{Gives};
ghost use Rattle.tp_check_stmt.specs.Places.{view_target};
ghost use Rattle.tp_check_stmt.specs.Assignments.{held_target, is_body_at, is_inside, result_spot, result_target, method_result, is_numbered, method_target, entry_target, meant_target, target, is_structured, stored, assigned_to};

use crate::nodes::{assign_node, copy_node};
use crate::places::{Target, spot_of};
use call_rules::method_rules::{method_in, routine_in};
use pascal_grammar::Position;
use scopes::{BlockKind, Entry, Found, Scope};
use std::alloc::Global;
use syntax_tree::Designator;
use syntax_tree::statement_tree::place_of_designator;
use tp_check_expr::{Purpose, designator_as, variable};
use type_layout::{Header, Method, Name, Place, RoutineId, TypeDef, TypeId, Types};
use typed_tree::{Expr, PlaceExpr, Stmt};
use typing_rules::{Refusal, Rule, assigned, broken, definition};

// A variable, or a part of one.
fn held_target(alloc: Global, tree: &Designator, scope: &Scope) -> Result<Target, Refusal>
    ensures { Gives view_target result (held_target scope.now (view_designator tree.now)).run }
{
    let value = designator_as(alloc, tree, Purpose::Variable, scope)?;
    match spot_of(value) {
        Some(target) => Ok(target),
        None => Err(Refusal::Because(broken(place_of_designator(tree), Rule::Target))),
    }
}

fn is_body_of(kind: Option<&BlockKind>, routine: u32) -> bool
    ensures { result ≡ is_body_at routine (option_copied kind.entry) }
{
    match kind {
        Some(BlockKind::Routine { number, .. }) => *number == routine,
        _ => false,
    }
}

fn or_is_body(inside: bool, kind: Option<&BlockKind>, routine: u32) -> bool
    ensures { result ≡ (inside || is_body_at routine (option_copied kind.entry)) }
{
    inside || is_body_of(kind, routine)
}

// Whether a routine of the unit itself is open round here.
fn is_inside(scope: &Scope, routine: RoutineId) -> bool
    ensures { result ≡ is_inside scope.now routine }
{
    let mut inside = false;
    for number in 0..scope.blocks() {
        inside = or_is_body(inside, scope.block(number), routine.number);
    }
    routine.unit == 0 && inside
}

fn narrow(number: usize) -> u32
    ensures { result ≡ narrow number }
{
    u32::try_from(number).unwrap_or(u32::MAX)
}

// The result of a function that is declared at a level.
fn result_spot(scope: &Scope, level: u32, header: &Header, ty: TypeId) -> Target
    ensures { view_target result ≡ result_spot scope.now level header.now ty }
{
    let number = narrow(header.params.len());
    Target {
        ty,
        at: PlaceExpr::Var(variable(scope, 0, level.saturating_add(1), number)),
    }
}

fn result_target(
    scope: &Scope,
    place: Place,
    routine: RoutineId,
    level: u32,
    header: &Header,
) -> Result<Target, Refusal>
    ensures { Gives view_target result (result_target scope.now place routine level header.now header.now.result).run }
{
    match header.result {
        Some(ty) if is_inside(scope, routine) => Ok(result_spot(scope, level, header, ty)),
        _ => Err(Refusal::Because(broken(place, Rule::Target))),
    }
}

// The result of a method, from a place inside its body.
fn method_result(scope: &Scope, place: Place, header: &Header) -> Result<Target, Refusal>
    ensures { Gives view_target result (method_result scope.now place header.now header.now.result).run }
{
    match header.result {
        None => Err(Refusal::Because(broken(place, Rule::Target))),
        Some(ty) => {
            let number = narrow(header.params.len()).saturating_add(1);
            Ok(Target {
                ty,
                at: PlaceExpr::Var(variable(scope, 0, 1, number)),
            })
        }
    }
}

fn is_numbered(number: u32, routine: Option<RoutineId>) -> bool
    ensures { result ≡ is_numbered number routine }
{
    match routine {
        None => false,
        Some(routine) => routine.unit == 0 && routine.number == number,
    }
}

// The method of a block, where its own name was found.
fn method_target(
    scope: &Scope,
    place: Place,
    kind: Option<&BlockKind>,
    method: Option<&Method>,
) -> Result<Target, Refusal>
    ensures { Gives view_target result (method_target scope.now place (option_copied kind.entry) (option_copied method.entry)).run }
{
    match (kind, method) {
        (Some(BlockKind::Routine { number, .. }), Some(method))
            if is_numbered(*number, routine_in(scope, method.routine)) => {
            method_result(scope, place, &method.header)
        }
        _ => Err(Refusal::Because(broken(place, Rule::Target))),
    }
}

// What a name stands for as a variable, or the result of a function.
fn entry_target(
    alloc: Global,
    tree: &Designator,
    place: Place,
    entry: &Entry,
    scope: &Scope,
) -> Result<Target, Refusal>
    ensures { Gives view_target result (entry_target scope.now place (view_designator tree.now) entry.now).run }
{
    match entry {
        Entry::Const { .. } | Entry::Var { .. } => held_target(alloc, tree, scope),
        Entry::Code {
            routine,
            level,
            header,
            ..
        } => result_target(scope, place, *routine, *level, header),
        Entry::Ty { .. } | Entry::Std { .. } => {
            Err(Refusal::Because(broken(place, Rule::Target)))
        }
    }
}

fn meant_target(
    alloc: Global,
    tree: &Designator,
    place: Place,
    name: &Name,
    scope: &Scope,
) -> Result<Target, Refusal>
    ensures { Gives view_target result (meant_target scope.now place (view_designator tree.now) name.now (find scope.now name.now)).run }
{
    match scope.find(name) {
        None => held_target(alloc, tree, scope),
        Some(Found::Named { entry, .. }) => entry_target(alloc, tree, place, entry, scope),
        Some(
            Found::Member {
                block,
                class,
                method,
                ..
            },
        ) => {
            if method {
                let method = method_in(scope.types(), class, name);
                method_target(scope, place, scope.block(block), method)
            } else {
                held_target(alloc, tree, scope)
            }
        }
    }
}

/// What stands before `:=`: a variable, a part of one, or a function within its body.
pub(crate) fn target(alloc: Global, tree: &Designator, scope: &Scope) -> Result<Target, Refusal>
    ensures { Gives view_target result (target scope.now (view_designator tree.now)).run }
{
    let Designator::Name(one) = tree else {
        return held_target(alloc, tree, scope);
    };
    meant_target(alloc, tree, one.position.place, &one.name, scope)
}

fn is_structured(one: Option<&TypeDef>) -> bool
    ensures { result ≡ is_structured (option_copied one.entry) }
{
    match one {
        Some(TypeDef::ArrayOf { .. })
        | Some(TypeDef::RecordOf { .. })
        | Some(TypeDef::ObjectOf { .. }) => true,
        _ => false,
    }
}

fn stored(
    alloc: Global,
    types: &Types,
    place: Place,
    to: Target,
    value: Expr,
) -> Result<Stmt, Refusal>
    ensures { Gives view_stmt result (stored types.now.types place (view_target to) (view_expr value)).run }
{
    if !is_structured(definition(types, to.ty)) {
        return assign_node(alloc, to.at, value);
    }
    match spot_of(value) {
        Some(from) => copy_node(alloc, to.at, from.at),
        None => Err(Refusal::Because(broken(place, Rule::Assigned))),
    }
}

/// The node of an assignment that begins here.
pub(crate) fn assigned_to(
    alloc: Global,
    types: &Types,
    here: Position,
    to: Target,
    value: Expr,
) -> Result<Stmt, Refusal>
    ensures { Gives view_stmt result (assigned_to types.now.types here (view_target to) (view_expr value)).run }
{
    let place = here.place;
    let value = assigned(alloc, types, place, to.ty, here.switches.r, value)?;
    stored(alloc, types, place, to, value)
}
