//! The code that statements ask for.

ghost use Rattle.std.specs.Prelude.{◌≡◌, map};
ghost use Rattle.std.specs.Option.{option_map};
ghost use Rattle.typed_tree.specs.Expressions.{view_boxed};
ghost use Rattle.typed_tree.specs.Statements.{view_stmt, view_stmts, view_arms, view_written, view_taken};
ghost use Rattle.typed_tree.specs.Slots.{capped};
ghost use Rattle.typed_tree.specs.Weights.{width_weight, written_weight, taken_weight, statement_weight, statements_weight, arms_weight, labels_weight};

use crate::weights::{weight_of_args, weight_of_expr, weight_of_place};
use crate::{Arm, Expr, LabelRange, ReadItem, Stmt, WriteItem};

fn weight_of_width(width: &Option<Box<Expr>>) -> u64
    ensures { result ≡ capped (width_weight (option_map view_boxed width.now)) }
{
    match width {
        None => 0,
        Some(width) => weight_of_expr(width),
    }
}

fn weight_of_written(items: &[WriteItem]) -> u64
    ensures { result ≡ capped (written_weight (map view_written items.now)) }
{
    let mut sum = 0u64;
    for item in items {
        let one = weight_of_expr(&item.value).saturating_add(weight_of_width(&item.width));
        sum = sum.saturating_add(one.saturating_add(64));
    }
    sum
}

fn weight_of_taken(items: &[ReadItem]) -> u64
    ensures { result ≡ capped (taken_weight (map view_taken items.now)) }
{
    let mut sum = 0u64;
    for item in items {
        sum = sum.saturating_add(weight_of_place(&item.place).saturating_add(64));
    }
    sum
}

fn weight_of_labels(labels: &[LabelRange]) -> u64
    ensures { result ≡ capped (labels_weight labels.now) }
{
    (labels.len() as u64).saturating_mul(64)
}

/// The weight of a statement with all its parts.
#[cycle(statement_weights)]
pub(crate) fn weight_of_stmt(stmt: &Stmt) -> u64
    ensures { result ≡ capped (statement_weight (view_stmt stmt.now)) }
{
    match stmt {
        Stmt::Assign { place, value } => weight_of_place(place)
            .saturating_add(weight_of_expr(value))
            .saturating_add(64),
        Stmt::CopyAll { to, from } => weight_of_place(to)
            .saturating_add(weight_of_place(from))
            .saturating_add(64),
        Stmt::Run { call } => weight_of_expr(call).saturating_add(16),
        Stmt::If { condition, yes, no } => {
            let branches = weight_of_stmt(yes).saturating_add(weight_of_stmt(no));
            weight_of_expr(condition)
                .saturating_add(branches)
                .saturating_add(64)
        }
        Stmt::While { condition, body } | Stmt::Repeat { body, condition } => {
            weight_of_expr(condition)
                .saturating_add(weight_of_stmt(body))
                .saturating_add(64)
        }
        Stmt::Block { statements } => weight_of_stmts(statements.as_slice()).saturating_add(64),
        Stmt::Case {
            selector,
            arms,
            other,
        } => {
            let branches = weight_of_arms(arms.as_slice()).saturating_add(weight_of_stmt(other));
            weight_of_expr(selector)
                .saturating_add(branches)
                .saturating_add(64)
        }
        Stmt::For { from, to, body, .. } => {
            let turn = weight_of_expr(to).saturating_add(weight_of_stmt(body));
            weight_of_expr(from)
                .saturating_add(turn)
                .saturating_add(192)
        }
        Stmt::With { place, body } => weight_of_place(place)
            .saturating_add(weight_of_stmt(body))
            .saturating_add(48),
        Stmt::WriteItems { items, .. } => weight_of_written(items.as_slice()).saturating_add(32),
        Stmt::ReadItems { items, .. } => weight_of_taken(items.as_slice()).saturating_add(32),
        Stmt::Halt { code } => weight_of_expr(code).saturating_add(48),
        Stmt::Exit => 48,
        Stmt::Unmake { pointer, args, .. } => {
            weight_of_expr(pointer)
                .saturating_add(weight_of_args(args.as_slice()))
                .saturating_add(192)
        }
    }
}

#[cycle(statement_weights)]
fn weight_of_stmts(statements: &[Stmt]) -> u64
    ensures { result ≡ capped (statements_weight (view_stmts statements.now)) }
{
    let mut sum = 0u64;
    for stmt in statements {
        sum = sum.saturating_add(weight_of_stmt(stmt));
    }
    sum
}

#[cycle(statement_weights)]
fn weight_of_arms(arms: &[Arm]) -> u64
    ensures { result ≡ capped (arms_weight (view_arms arms.now)) }
{
    let mut sum = 0u64;
    for arm in arms {
        let one = weight_of_labels(arm.labels.as_slice()).saturating_add(weight_of_stmt(&arm.body));
        sum = sum.saturating_add(one);
    }
    sum
}
