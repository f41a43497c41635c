//! The nodes of statements from their parts.

ghost use Rattle.std.specs.Prelude.{◌≡◌, [], Ok, Some, None, map};
ghost use Rattle.typed_tree.specs.Expressions.{view_expr, view_place};
ghost use Rattle.typed_tree.specs.Statements.{Assign, CopyAll, Run, If, While, Repeat, Case, With, Halt, view_stmt, view_written, view_taken};
ghost use Rattle.typing_rules.specs.Judgements.{Gives};
ghost use Rattle.tp_check_stmt.specs.Loops.{view_count};
ghost use Rattle.tp_check_stmt.specs.Typed.{view_arm, arms_of, block_of, for_node};

use crate::loops::{Count, is_down};
use pascal_grammar::Direction;
use std::alloc::Global;
use type_layout::TypeId;
use typed_tree::{Arm, Expr, PlaceExpr, ReadItem, Stmt, WriteItem};
use typing_rules::Refusal;

/// A list of statements.
pub(crate) fn block_of(statements: Vec<Stmt>) -> Stmt
    ensures { view_stmt result ≡ block_of (map view_stmt statements.items) }
{
    Stmt::Block { statements }
}

/// No statement.
pub(crate) fn nothing(alloc: Global) -> Stmt
    ensures { view_stmt result ≡ block_of [] }
{
    block_of(Vec::new(alloc))
}

/// A value goes into a place.
pub(crate) fn assign_node(alloc: Global, place: PlaceExpr, value: Expr) -> Result<Stmt, Refusal>
    ensures { Gives view_stmt result (Ok (Assign (view_place place) (view_expr value))) }
{
    Ok(Stmt::Assign {
        place: Box::new(alloc, place)?,
        value: Box::new(alloc, value)?,
    })
}

/// A record, array or object goes from one place to another.
pub(crate) fn copy_node(alloc: Global, to: PlaceExpr, from: PlaceExpr) -> Result<Stmt, Refusal>
    ensures { Gives view_stmt result (Ok (CopyAll (view_place to) (view_place from))) }
{
    Ok(Stmt::CopyAll {
        to: Box::new(alloc, to)?,
        from: Box::new(alloc, from)?,
    })
}

/// A call.
pub(crate) fn run_node(alloc: Global, call: Expr) -> Result<Stmt, Refusal>
    ensures { Gives view_stmt result (Ok (Run (view_expr call))) }
{
    let call = Box::new(alloc, call)?;
    Ok(Stmt::Run { call })
}

/// The end of the program with a code.
pub(crate) fn halt_node(alloc: Global, code: Expr) -> Result<Stmt, Refusal>
    ensures { Gives view_stmt result (Ok (Halt (view_expr code))) }
{
    let code = Box::new(alloc, code)?;
    Ok(Stmt::Halt { code })
}

/// A value that is written, with no width.
pub(crate) fn plain_item(alloc: Global, value: Expr) -> Result<WriteItem, Refusal>
    ensures { Gives view_written result (Ok (record { value = view_expr value; width = None })) }
{
    let value = Box::new(alloc, value)?;
    Ok(WriteItem { value, width: None })
}

/// A value that is written, and its width.
pub(crate) fn wide_item(alloc: Global, value: Expr, width: Expr) -> Result<WriteItem, Refusal>
    ensures { Gives view_written result (Ok (record { value = view_expr value; width = Some (view_expr width) })) }
{
    let value = Box::new(alloc, value)?;
    let width = Box::new(alloc, width)?;
    Ok(WriteItem {
        value,
        width: Some(width),
    })
}

/// A place that is read. With `checked`, a number outside the bounds of its type is an error.
pub(crate) fn read_item(
    alloc: Global,
    place: PlaceExpr,
    ty: TypeId,
    checked: bool,
) -> Result<ReadItem, Refusal>
    ensures { Gives view_taken result (Ok (record { at = view_place place; ty = ty; checked = checked })) }
{
    let place = Box::new(alloc, place)?;
    Ok(ReadItem { place, ty, checked })
}

/// An `if`.
pub(crate) fn if_node(alloc: Global, condition: Expr, yes: Stmt, no: Stmt) -> Result<Stmt, Refusal>
    ensures { Gives view_stmt result (Ok (If (view_expr condition) (view_stmt yes) (view_stmt no))) }
{
    Ok(Stmt::If {
        condition: Box::new(alloc, condition)?,
        yes: Box::new(alloc, yes)?,
        no: Box::new(alloc, no)?,
    })
}

/// A `while`.
pub(crate) fn while_node(alloc: Global, condition: Expr, body: Stmt) -> Result<Stmt, Refusal>
    ensures { Gives view_stmt result (Ok (While (view_expr condition) (view_stmt body))) }
{
    Ok(Stmt::While {
        condition: Box::new(alloc, condition)?,
        body: Box::new(alloc, body)?,
    })
}

/// A `repeat` over a list of statements.
pub(crate) fn repeat_node(
    alloc: Global,
    statements: Vec<Stmt>,
    condition: Expr,
) -> Result<Stmt, Refusal>
    ensures { Gives view_stmt result (Ok (Repeat (block_of (map view_stmt statements.items)) (view_expr condition))) }
{
    Ok(Stmt::Repeat {
        body: Box::new(alloc, block_of(statements))?,
        condition: Box::new(alloc, condition)?,
    })
}

/// A `case`.
pub(crate) fn case_node(
    alloc: Global,
    selector: Expr,
    arms: Vec<Arm>,
    other: Vec<Stmt>,
) -> Result<Stmt, Refusal>
    ensures { Gives view_stmt result (Ok (Case (view_expr selector) (arms_of (map view_arm arms.items)) (block_of (map view_stmt other.items)))) }
{
    let selector = Box::new(alloc, selector)?;
    let other = Box::new(alloc, block_of(other))?;
    Ok(Stmt::Case {
        selector,
        arms,
        other,
    })
}

/// A `for`. With `checked`, a bound outside the bounds of the variable's type is an error where the loop turns.
pub(crate) fn for_node(
    alloc: Global,
    direction: Direction,
    checked: bool,
    count: Count,
    body: Stmt,
) -> Result<Stmt, Refusal>
    ensures { Gives view_stmt result (Ok (for_node direction checked (view_count count) (view_stmt body))) }
{
    Ok(Stmt::For {
        variable: count.counter.variable,
        ty: count.counter.ty,
        from: Box::new(alloc, count.first)?,
        to: Box::new(alloc, count.last)?,
        down: is_down(direction),
        checked,
        body: Box::new(alloc, body)?,
    })
}

/// A `with`.
pub(crate) fn with_node(alloc: Global, place: PlaceExpr, body: Stmt) -> Result<Stmt, Refusal>
    ensures { Gives view_stmt result (Ok (With (view_place place) (view_stmt body))) }
{
    Ok(Stmt::With {
        place: Box::new(alloc, place)?,
        body: Box::new(alloc, body)?,
    })
}
