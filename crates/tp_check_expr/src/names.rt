//! Variables by their levels, and what a designator stands for.

ghost use Rattle.std.specs.Prelude.{◌≡◌, ◌+◌, ◌<◌, ◌≤◌, Ok, [], option_copied};
ghost use Rattle.typed_tree.specs.Expressions.{view_expr};
ghost use Rattle.typing_rules.specs.Judgements.{Gives};
ghost use Rattle.tp_check_expr.specs.Names.{is_of_routine, deeper, routine_depth, level_from, variable, purpose_for, purpose_of, as_wanted, routine_wanted, standard_called, standard_wanted, named_constant, entered};

use call_rules::called;
use call_rules::procedural_rules::{routine_value, settled};
use call_rules::standard_rules::{is_special, standard};
use pascal_grammar::Position;
use scopes::{BlockKind, Entry, Scope};
use std::alloc::Global;
use type_layout::{Header, Param, Place, RoutineId, TypeId, Types};
use typed_tree::{Expr, PlaceExpr, Value, Variable};
use typing_rules::{Fault, Refusal, Rule, broken, constant, definition, is_procedural, loaded};

/// What a designator stands for: the value that it has in an expression; the variable itself; a value of a procedural type, where
/// a routine of another type is told as this fault; or a constructor of what a pointer type points to, behind the type in a New at
/// a place.
#[derive(Clone, Copy, Debug, PartialEq, Eq)]
pub enum Purpose {
    Value,
    Variable,
    Routine { ty: TypeId, fault: Fault },
    Constructor { ty: TypeId, place: Place },
}

fn is_of_routine(kind: &BlockKind) -> bool
    ensures { result ≡ is_of_routine kind.now }
{
    matches!(kind, BlockKind::Routine { .. })
}

// The depth with one block more.
fn deeper(kind: Option<&BlockKind>, depth: u32) -> u32
    requires { depth < 4294967295 }
    ensures value { result ≡ deeper (option_copied kind.entry) depth }
    ensures bound { result ≤ depth + 1 }
{
    match kind {
        Some(kind) if is_of_routine(kind) => depth + 1,
        _ => depth,
    }
}

// How many of the open blocks are routines'.
fn routine_depth(scope: &Scope) -> u32
    ensures value { result ≡ routine_depth scope.now.blocks }
    ensures bound { result ≤ 4294967294 }
{
    let mut depth = 0;
    for number in 0..scope.blocks() {
        depth = deeper(scope.block(number), depth);
    }
    depth
}

// The level of a variable in a node, from a routine at this depth.
fn level_from(depth: u32, level: u32) -> u32
    requires { depth ≤ 4294967294 }
    ensures { result ≡ level_from depth level }
{
    if level == 0 {
        0
    } else {
        depth.saturating_sub(level) + 1
    }
}

/// A variable as a node has it, from the routine that is open.
pub fn variable(scope: &Scope, unit: u32, level: u32, number: u32) -> Variable
    ensures { result ≡ variable scope.now unit level number }
{
    Variable {
        unit,
        level: level_from(routine_depth(scope), level),
        number,
    }
}

/// What stands where a value of a type is due: a routine, if it is a procedural type. One of another type is told as this fault.
pub fn purpose_for(types: &Types, ty: TypeId, fault: Fault) -> Purpose
    ensures { result ≡ purpose_for types.now.types ty fault }
{
    if is_procedural(definition(types, ty)) {
        Purpose::Routine { ty, fault }
    } else {
        Purpose::Value
    }
}

/// What an argument of a call at a place stands for, by its parameter.
pub(crate) fn purpose_of(types: &Types, place: Place, param: Option<&Param>) -> Purpose
    ensures { result ≡ purpose_of types.now.types place (option_copied param.entry) }
{
    match param {
        None => Purpose::Value,
        Some(param) if !param.by_ref => {
            purpose_for(types, param.ty, broken(place, Rule::Called))
        }
        Some(param) if is_procedural(definition(types, param.ty)) => Purpose::Variable,
        Some(_) => Purpose::Value,
    }
}

/// The node of a variable, or of a part of one.
pub(crate) fn as_wanted(
    alloc: Global,
    types: &Types,
    place: Place,
    purpose: Purpose,
    variable: Expr,
) -> Result<Expr, Refusal>
    ensures { Gives view_expr result (as_wanted types.now.types place purpose (view_expr variable)).run }
{
    match purpose {
        Purpose::Value => settled(alloc, types, place, variable),
        _ => Ok(variable),
    }
}

// A routine of the sources: a call of it without arguments, or itself.
fn routine_wanted(
    alloc: Global,
    scope: &Scope,
    here: Position,
    purpose: Purpose,
    routine: RoutineId,
    level: u32,
    header: &Header,
    far: bool,
) -> Result<Expr, Refusal>
    ensures { Gives view_expr result (routine_wanted scope.now here purpose routine level header.now far).run }
{
    match purpose {
        Purpose::Routine { ty, fault } => routine_value(
            scope, here.place, fault, ty, routine, level, header, far,
        ),
        _ => called(
            alloc,
            scope.types(),
            here.place,
            here.switches.r,
            routine,
            header,
            Vec::new(alloc),
        ),
    }
}

fn standard_called(alloc: Global, types: &Types, place: Place, number: u32) -> Result<Expr, Refusal>
    ensures { Gives view_expr result (standard_called types.now.types place number).run }
{
    if is_special(number) {
        Err(Refusal::Because(broken(place, Rule::Called)))
    } else {
        standard(alloc, types, place, number, Vec::new(alloc))
    }
}

// A standard routine without arguments.
fn standard_wanted(
    alloc: Global,
    types: &Types,
    place: Place,
    purpose: Purpose,
    number: u32,
) -> Result<Expr, Refusal>
    ensures { Gives view_expr result (standard_wanted types.now.types place purpose number).run }
{
    match purpose {
        Purpose::Routine { .. } => Err(Refusal::Because(broken(place, Rule::RoutineValue))),
        _ => standard_called(alloc, types, place, number),
    }
}

fn named_constant(alloc: Global, types: &Types, ty: TypeId, value: &Value) -> Result<Expr, Refusal>
    ensures { Gives view_expr result (Ok (named_constant types.now.types ty value.now)) }
{
    match value {
        Value::Number(number) => Ok(constant(types, ty, *number)),
        Value::Nil => Ok(Expr::Const {
            ty,
            value: Value::Nil,
        }),
        Value::Chars(bytes) => Ok(Expr::Const {
            ty,
            value: Value::Chars(bytes.copied(alloc)?),
        }),
        Value::Elements(bytes) => Ok(Expr::Const {
            ty,
            value: Value::Elements(bytes.copied(alloc)?),
        }),
    }
}

/// What is declared under a name.
pub(crate) fn entered(
    alloc: Global,
    scope: &Scope,
    here: Position,
    purpose: Purpose,
    entry: &Entry,
) -> Result<Expr, Refusal>
    ensures { Gives view_expr result (entered scope.now here purpose entry.now).run }
{
    let place = here.place;
    match entry {
        Entry::Const { ty, value } => named_constant(alloc, scope.types(), *ty, value),
        Entry::Var {
            unit,
            level,
            number,
            ty,
        } => {
            let at = PlaceExpr::Var(variable(scope, *unit, *level, *number));
            let one = loaded(alloc, *ty, at)?;
            as_wanted(alloc, scope.types(), place, purpose, one)
        }
        Entry::Ty { .. } => Err(Refusal::Because(broken(place, Rule::Stands))),
        Entry::Code {
            routine,
            level,
            header,
            far,
        } => routine_wanted(alloc, scope, here, purpose, *routine, *level, header, *far),
        Entry::Std { number } => standard_wanted(alloc, scope.types(), place, purpose, *number),
    }
}
