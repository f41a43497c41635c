//! What statements call, and what they have as values.

ghost use Rattle.std.specs.Prelude.{◌≡◌, map};
ghost use Rattle.std.specs.Option.{option_map};
ghost use Rattle.typed_tree.specs.Expressions.{view_boxed};
ghost use Rattle.typed_tree.specs.Statements.{view_stmt, view_stmts, view_arms, view_written, view_taken};
ghost use Rattle.lowerable.specs.Farness.{is_linkable_width, are_linkable_written, are_linkable_taken, is_callable_destructor, is_linkable_statement, are_linkable_statements, are_linkable_arms};

use crate::expressions::{are_linkable, is_linkable, is_linkable_place};
use crate::routines::is_callable;
use typed_tree::{Arm, Destructor, Expr, ReadItem, Stmt, Unit, WriteItem};

fn is_linkable_width(units: &[Unit], unit: &Unit, width: &Option<Box<Expr>>) -> bool
    ensures { result ≡ is_linkable_width units.now unit.now (option_map view_boxed width.now) }
{
    match width {
        None => true,
        Some(width) => is_linkable(units, unit, width),
    }
}

fn are_linkable_written(units: &[Unit], unit: &Unit, items: &[WriteItem]) -> bool
    ensures { result ≡ are_linkable_written units.now unit.now (map view_written items.now) }
{
    for item in items {
        let value = is_linkable(units, unit, &item.value);
        if !(value && is_linkable_width(units, unit, &item.width)) {
            return false;
        }
    }
    true
}

fn are_linkable_taken(units: &[Unit], unit: &Unit, items: &[ReadItem]) -> bool
    ensures { result ≡ are_linkable_taken units.now unit.now (map view_taken items.now) }
{
    for item in items {
        if !is_linkable_place(units, unit, &item.place) {
            return false;
        }
    }
    true
}

fn is_callable_destructor(units: &[Unit], unit: &Unit, destructor: Destructor) -> bool
    ensures { result ≡ is_callable_destructor units.now unit.now destructor }
{
    match destructor {
        Destructor::Routine(routine) => is_callable(units, unit, routine),
        Destructor::Slot { .. } => true,
    }
}

/// Whether all routines are far that a statement asks to be.
#[cycle(statements)]
#[tactic(auto, using(crate::proofs::Trees::linkable_block, crate::proofs::Trees::linkable_case))]
pub fn is_linkable_statement(units: &[Unit], unit: &Unit, stmt: &Stmt) -> bool
    ensures { result ≡ is_linkable_statement units.now unit.now (view_stmt stmt.now) }
{
    match stmt {
        Stmt::Assign { place, value } => {
            is_linkable_place(units, unit, place) && is_linkable(units, unit, value)
        }
        Stmt::CopyAll { to, from } => {
            is_linkable_place(units, unit, to) && is_linkable_place(units, unit, from)
        }
        Stmt::Run { call } => is_linkable(units, unit, call),
        Stmt::If { condition, yes, no } => {
            is_linkable(units, unit, condition)
                && is_linkable_statement(units, unit, yes)
                && is_linkable_statement(units, unit, no)
        }
        Stmt::While { condition, body } | Stmt::Repeat { body, condition } => {
            is_linkable(units, unit, condition) && is_linkable_statement(units, unit, body)
        }
        Stmt::Block { statements } => are_linkable_statements(units, unit, statements.as_slice()),
        Stmt::Case {
            selector,
            arms,
            other,
        } => {
            is_linkable(units, unit, selector)
                && are_linkable_arms(units, unit, arms.as_slice())
                && is_linkable_statement(units, unit, other)
        }
        Stmt::For { from, to, body, .. } => {
            is_linkable(units, unit, from)
                && is_linkable(units, unit, to)
                && is_linkable_statement(units, unit, body)
        }
        Stmt::With { place, body } => {
            is_linkable_place(units, unit, place) && is_linkable_statement(units, unit, body)
        }
        Stmt::WriteItems { items, .. } => are_linkable_written(units, unit, items.as_slice()),
        Stmt::ReadItems { items, .. } => are_linkable_taken(units, unit, items.as_slice()),
        Stmt::Halt { code } => is_linkable(units, unit, code),
        Stmt::Exit => true,
        Stmt::Unmake {
            pointer,
            destructor,
            args,
        } => {
            is_linkable(units, unit, pointer)
                && is_callable_destructor(units, unit, *destructor)
                && are_linkable(units, unit, args.as_slice())
        }
    }
}

#[cycle(statements)]
fn are_linkable_statements(units: &[Unit], unit: &Unit, statements: &[Stmt]) -> bool
    ensures { result ≡ are_linkable_statements units.now unit.now (view_stmts statements.now) }
{
    for stmt in statements {
        if !is_linkable_statement(units, unit, stmt) {
            return false;
        }
    }
    true
}

#[cycle(statements)]
fn are_linkable_arms(units: &[Unit], unit: &Unit, arms: &[Arm]) -> bool
    ensures { result ≡ are_linkable_arms units.now unit.now (view_arms arms.now) }
{
    for arm in arms {
        if !is_linkable_statement(units, unit, &arm.body) {
            return false;
        }
    }
    true
}
