//! Standard routines as statements.

ghost use Rattle.std.specs.Prelude.{◌≡◌, map};
ghost use Rattle.typed_tree.specs.Expressions.{view_expr};
ghost use Rattle.typed_tree.specs.Statements.{view_stmt, view_written, view_taken};
ghost use Rattle.syntax_tree.specs.expression_tree.Trees.{view_argument, view_arguments};
ghost use Rattle.typing_rules.specs.Judgements.{Gives, parts};
ghost use Rattle.tp_check_stmt.specs.Arguments.{sized};
ghost use Rattle.tp_check_stmt.specs.Lists.{each};
ghost use Rattle.tp_check_stmt.specs.Places.{spot_of};
ghost use Rattle.tp_check_stmt.specs.Standard.{item, written, taken_from, taken_one, taken, halted, left, told_of, misgiven, told_two, is_none, is_one, are_two, telling, proceeding, managing, standard_of, standard_run};

use crate::allocations::{PlainPair, creating, ending, is_creating, plain_pair};
use crate::arguments::sized;
use crate::asked::{is_readable, width, written_value};
use crate::nodes::{halt_node, plain_item, read_item, run_node, wide_item};
use crate::places::spot_of;
use call_rules::procedure_rules::{standard_performed, told};
use pascal_grammar::Position;
use scopes::{INTEGER, Scope};
use std::alloc::Global;
use syntax_tree::Argument;
use syntax_tree::statement_tree::place_of;
use tp_check_expr::{judged_expression, operands};
use type_layout::{Place, Types};
use typed_tree::standard::{DISPOSE, EXIT, HALT, NEW, READ, READ_LN, STR, WRITE, WRITE_LN};
use typed_tree::{Expr, ReadItem, Stmt, Value, WriteItem};
use typing_rules::{Refusal, Rule, broken, is_integer, sort_of, sort_of_type};

/// Which statement a standard routine is. `Heap` is New or Dispose. A function is none; it counts among the other ones.
#[derive(Clone, Copy, Debug, PartialEq, Eq)]
pub(crate) enum StandardStatement {
    Write(bool),
    Read(bool),
    Halt,
    Exit,
    Str,
    Heap,
    Other,
}

fn item(alloc: Global, argument: &Argument, scope: &Scope) -> Result<WriteItem, Refusal>
    ensures { Gives view_written result (item scope.now (view_argument argument.now)).run }
{
    match argument {
        Argument::Plain(one) => {
            let value = written_value(alloc, one, scope)?;
            plain_item(alloc, value)
        }
        Argument::Wide(one, by) => {
            let value = written_value(alloc, one, scope)?;
            let width = width(alloc, by, scope)?;
            wide_item(alloc, value, width)
        }
    }
}

fn items(alloc: Global, given: &[Argument], scope: &Scope) -> Result<Vec<WriteItem>, Refusal>
    ensures { Gives (λ all. map view_written all.items) result (each (item scope.now) (view_arguments given.now)).run }
{
    let mut items = Vec::new(alloc);
    for one in given {
        let item = item(alloc, one, scope)?;
        items.push(item)?;
    }
    Ok(items)
}

fn written(alloc: Global, line: bool, given: &[Argument], scope: &Scope) -> Result<Stmt, Refusal>
    ensures { Gives view_stmt result (written scope.now line (view_arguments given.now)).run }
{
    let items = items(alloc, given, scope)?;
    Ok(Stmt::WriteItems { items, line })
}

fn taken_from(
    alloc: Global,
    types: &Types,
    place: Place,
    checked: bool,
    value: Expr,
) -> Result<ReadItem, Refusal>
    ensures { Gives view_taken result (taken_from types.now.types place checked (spot_of (view_expr value))).run }
{
    match spot_of(value) {
        Some(from) if is_readable(sort_of_type(types, from.ty)) => {
            read_item(alloc, from.at, from.ty, checked)
        }
        _ => Err(Refusal::Because(broken(place, Rule::Read))),
    }
}

fn taken_one(
    alloc: Global,
    here: Position,
    argument: &Argument,
    scope: &Scope,
) -> Result<ReadItem, Refusal>
    ensures { Gives view_taken result (taken_one scope.now here (view_argument argument.now)).run }
{
    match argument {
        Argument::Plain(one) => {
            let value = judged_expression(alloc, one, scope)?;
            taken_from(alloc, scope.types(), place_of(one), here.switches.r, value)
        }
        Argument::Wide(one, by) => {
            let _value = judged_expression(alloc, one, scope)?;
            let _width = judged_expression(alloc, by, scope)?;
            Err(Refusal::Because(broken(here.place, Rule::Called)))
        }
    }
}

fn places(
    alloc: Global,
    here: Position,
    given: &[Argument],
    scope: &Scope,
) -> Result<Vec<ReadItem>, Refusal>
    ensures { Gives (λ all. map view_taken all.items) result (each (taken_one scope.now here) (view_arguments given.now)).run }
{
    let mut places = Vec::new(alloc);
    for one in given {
        let place = taken_one(alloc, here, one, scope)?;
        places.push(place)?;
    }
    Ok(places)
}

fn taken(
    alloc: Global,
    here: Position,
    line: bool,
    given: &[Argument],
    scope: &Scope,
) -> Result<Stmt, Refusal>
    ensures { Gives view_stmt result (taken scope.now here line (view_arguments given.now)).run }
{
    let items = places(alloc, here, given, scope)?;
    Ok(Stmt::ReadItems { items, line })
}

fn halted(alloc: Global, types: &Types, place: Place, values: Vec<Expr>) -> Result<Stmt, Refusal>
    ensures { Gives view_stmt result (halted types.now.types place (map view_expr values.items)).run }
{
    let mut values = values;
    if values.len() > 1 {
        return Err(Refusal::Because(broken(place, Rule::Called)));
    }
    match values.pop() {
        None => halt_node(
            alloc,
            Expr::Const {
                ty: INTEGER,
                value: Value::Number(0),
            },
        ),
        Some(code) if is_integer(sort_of(types, &code)) => halt_node(alloc, code),
        Some(_) => Err(Refusal::Because(broken(place, Rule::Called))),
    }
}

fn left(place: Place, values: &[Expr]) -> Result<Stmt, Refusal>
    ensures { Gives view_stmt result (left place (map view_expr values.now)).run }
{
    match values {
        [] => Ok(Stmt::Exit),
        _ => Err(Refusal::Because(broken(place, Rule::Called))),
    }
}

// Other arguments than those that are asked for.
fn misgiven(
    alloc: Global,
    here: Position,
    given: &[Argument],
    scope: &Scope,
) -> Result<Stmt, Refusal>
    ensures { Gives view_stmt result (misgiven scope.now here (view_arguments given.now)).run }
{
    let _values = operands(alloc, given, &[], here, scope)?;
    Err(Refusal::Because(broken(here.place, Rule::Called)))
}

fn told_pair(
    alloc: Global,
    place: Place,
    one: &Argument,
    to: &Argument,
    scope: &Scope,
) -> Result<Stmt, Refusal>
    ensures { Gives view_stmt result (parts (sized scope.now (view_argument one.now)) (sized scope.now (view_argument to.now)) (told_of scope.now.types.types place)).run }
{
    let one = sized(alloc, one, scope)?;
    let to = sized(alloc, to, scope)?;
    let call = told(alloc, scope.types(), place, one, to)?;
    run_node(alloc, call)
}

fn told_two(
    alloc: Global,
    here: Position,
    given: &[Argument],
    scope: &Scope,
) -> Result<Stmt, Refusal>
    ensures { Gives view_stmt result (told_two scope.now here (view_arguments given.now)).run }
{
    match given {
        [] => misgiven(alloc, here, given, scope),
        [one, rest @ ..] => match rest {
            [] => misgiven(alloc, here, given, scope),
            [to, _more @ ..] => told_pair(alloc, here.place, one, to, scope),
        },
    }
}

fn is_none(given: &[Argument]) -> bool
    ensures { result ≡ is_none (view_arguments given.now) }
{
    match given {
        [] => true,
        [_one, _rest @ ..] => false,
    }
}

fn is_one(given: &[Argument]) -> bool
    ensures { result ≡ is_one (view_arguments given.now) }
{
    match given {
        [] => false,
        [_one, rest @ ..] => is_none(rest),
    }
}

fn are_two(given: &[Argument]) -> bool
    ensures { result ≡ are_two (view_arguments given.now) }
{
    match given {
        [] => false,
        [_one, rest @ ..] => is_one(rest),
    }
}

// Str: an integer, with a width or without, and a string.
fn telling(
    alloc: Global,
    here: Position,
    given: &[Argument],
    scope: &Scope,
) -> Result<Stmt, Refusal>
    ensures { Gives view_stmt result (telling scope.now here (view_arguments given.now)).run }
{
    if are_two(given) {
        told_two(alloc, here, given, scope)
    } else {
        misgiven(alloc, here, given, scope)
    }
}

// Another standard procedure.
fn proceeding(
    alloc: Global,
    here: Position,
    number: u32,
    given: &[Argument],
    scope: &Scope,
) -> Result<Stmt, Refusal>
    ensures { Gives view_stmt result (proceeding scope.now here number (view_arguments given.now)).run }
{
    let values = operands(alloc, given, &[], here, scope)?;
    let call = standard_performed(alloc, scope.types(), here.place, number, values)?;
    run_node(alloc, call)
}

// New and Dispose.
fn managing(
    alloc: Global,
    here: Position,
    number: u32,
    given: &[Argument],
    scope: &Scope,
) -> Result<Stmt, Refusal>
    ensures { Gives view_stmt result (managing scope.now here number (view_arguments given.now)).run }
{
    match plain_pair(given) {
        None => proceeding(alloc, here, number, given, scope),
        Some(PlainPair { first, second }) => {
            if is_creating(number) {
                creating(alloc, here, first, second, scope)
            } else {
                ending(alloc, here, first, second, scope)
            }
        }
    }
}

fn standard_of(number: u32) -> StandardStatement
    ensures { result ≡ standard_of number }
{
    match number {
        WRITE => StandardStatement::Write(false),
        WRITE_LN => StandardStatement::Write(true),
        READ => StandardStatement::Read(false),
        READ_LN => StandardStatement::Read(true),
        HALT => StandardStatement::Halt,
        EXIT => StandardStatement::Exit,
        STR => StandardStatement::Str,
        NEW | DISPOSE => StandardStatement::Heap,
        _ => StandardStatement::Other,
    }
}

fn statement_of(
    alloc: Global,
    here: Position,
    number: u32,
    one: StandardStatement,
    given: &[Argument],
    scope: &Scope,
) -> Result<Stmt, Refusal>
    ensures { Gives view_stmt result (standard_run scope.now here number one (view_arguments given.now)).run }
{
    let place = here.place;
    match one {
        StandardStatement::Write(line) => written(alloc, line, given, scope),
        StandardStatement::Read(line) => taken(alloc, here, line, given, scope),
        StandardStatement::Halt => {
            let values = operands(alloc, given, &[], here, scope)?;
            halted(alloc, scope.types(), place, values)
        }
        StandardStatement::Exit => {
            let values = operands(alloc, given, &[], here, scope)?;
            left(place, values.as_slice())
        }
        StandardStatement::Str => telling(alloc, here, given, scope),
        StandardStatement::Heap => managing(alloc, here, number, given, scope),
        StandardStatement::Other => proceeding(alloc, here, number, given, scope),
    }
}

/// The call of the standard routine with a number, which begins here.
pub(crate) fn standard_run(
    alloc: Global,
    here: Position,
    number: u32,
    given: &[Argument],
    scope: &Scope,
) -> Result<Stmt, Refusal>
    ensures { Gives view_stmt result (standard_run scope.now here number (standard_of number) (view_arguments given.now)).run }
{
    statement_of(alloc, here, number, standard_of(number), given, scope)
}
