//! The evaluation stack that statements use.

ghost use Rattle.std.specs.Prelude.{◌≡◌, map};
ghost use Rattle.std.specs.Option.{option_map};
ghost use Rattle.typed_tree.specs.Expressions.{view_boxed};
ghost use Rattle.typed_tree.specs.Statements.{view_stmt, view_stmts, view_arms, view_written, view_taken};
ghost use Rattle.typed_tree.specs.Slots.{capped};
ghost use Rattle.typed_tree.specs.Needs.{width_need, written_need, taken_need, statement_need, statements_need, arms_need};

use crate::needs::{need_of_args, need_of_expr, need_of_place};
use crate::slots::{is_var, slot_of, slot_of_type};
use crate::{Arm, Expr, ReadItem, Stmt, WriteItem};
use type_layout::Types;

fn need_of_width(types: &Types, slot: u64, width: &Option<Box<Expr>>) -> u64
    ensures { result ≡ capped (width_need types.now.types slot (option_map view_boxed width.now)) }
{
    match width {
        None => 0,
        Some(width) => need_of_expr(types, width).saturating_add(slot),
    }
}

fn need_of_written(types: &Types, items: &[WriteItem]) -> u64
    ensures { result ≡ capped (written_need types.now.types (map view_written items.now)) }
{
    let mut most = 0u64;
    for item in items {
        let value = need_of_expr(types, &item.value);
        let width = need_of_width(types, slot_of(types, &item.value), &item.width);
        most = most.max(value.max(width));
    }
    most
}

fn need_of_taken(types: &Types, items: &[ReadItem]) -> u64
    ensures { result ≡ capped (taken_need types.now.types (map view_taken items.now)) }
{
    let mut most = 0u64;
    for item in items {
        most = most.max(need_of_place(types, &item.place));
    }
    most.max(4)
}

/// What a statement uses above the slots that are taken already.
#[cycle(statement_needs)]
pub(crate) fn need_of_stmt(types: &Types, stmt: &Stmt) -> u64
    ensures { result ≡ capped (statement_need types.now.types (view_stmt stmt.now)) }
{
    match stmt {
        Stmt::Assign { place, value } if is_var(place) => need_of_expr(types, value),
        Stmt::Assign { place, value } => {
            need_of_place(types, place).max(need_of_expr(types, value).saturating_add(4))
        }
        Stmt::CopyAll { to, from } => need_of_place(types, to).max(need_of_place(
            types, from,
        ).saturating_add(4)),
        Stmt::Run { call } => need_of_expr(types, call),
        Stmt::If { condition, yes, no } => {
            need_of_expr(types, condition).max(need_of_stmt(types, yes).max(need_of_stmt(
                types, no,
            )))
        }
        Stmt::While { condition, body } => need_of_expr(types, condition).max(need_of_stmt(
            types, body,
        )),
        Stmt::Repeat { body, condition } => need_of_stmt(types, body).max(need_of_expr(
            types, condition,
        )),
        Stmt::Block { statements } => need_of_stmts(types, statements.as_slice()),
        Stmt::Case {
            selector,
            arms,
            other,
        } => {
            let most = need_of_arms(types, arms.as_slice()).max(need_of_stmt(types, other));
            need_of_expr(types, selector).max(slot_of(types, selector).saturating_add(most))
        }
        Stmt::For {
            ty,
            from,
            to,
            body,
            ..
        } => {
            let most = need_of_expr(types, to).max(need_of_stmt(types, body));
            need_of_expr(types, from).max(slot_of_type(types, *ty).saturating_add(most))
        }
        Stmt::With { place, body } => need_of_place(types, place).max(need_of_stmt(
            types, body,
        ).saturating_add(4)),
        Stmt::WriteItems { items, .. } => need_of_written(types, items.as_slice()),
        Stmt::ReadItems { items, .. } => need_of_taken(types, items.as_slice()),
        Stmt::Halt { code } => need_of_expr(types, code),
        Stmt::Exit => 0,
        Stmt::Unmake { pointer, args, .. } => {
            need_of_expr(types, pointer).max(need_of_args(types, args.as_slice(), 4, 0))
        }
    }
}

#[cycle(statement_needs)]
fn need_of_stmts(types: &Types, statements: &[Stmt]) -> u64
    ensures { result ≡ capped (statements_need types.now.types (view_stmts statements.now)) }
{
    let mut most = 0u64;
    for stmt in statements {
        most = most.max(need_of_stmt(types, stmt));
    }
    most
}

#[cycle(statement_needs)]
fn need_of_arms(types: &Types, arms: &[Arm]) -> u64
    ensures { result ≡ capped (arms_need types.now.types (view_arms arms.now)) }
{
    let mut most = 0u64;
    for arm in arms {
        most = most.max(need_of_stmt(types, &arm.body));
    }
    most
}
