//! Shifts, and the tests of a range.

ghost use Rattle.std.specs.Prelude.{◌≡◌, IfOk};
ghost use Rattle.flat_code.specs.View.{view_expr, view_list};
ghost use Rattle.flat_code.specs.Plain.{view_routine};
ghost use Rattle.flat_code.specs.Tree.{Op, If, End};
ghost use Rattle.rt_strings.specs.long_integers.Routines.{places, few_places, left_few, left_many, right_few, right_many, out_of_range, left_shift_routine, right_shift_routine, range_routine, between_routine};

use crate::long_integers::words::is_less;
use flat_code::flat_builders::{name, op, routine, set, when, word};
use flat_code::{FlatExpr, FlatList, FlatOp, FlatRoutine, FlatStmt};
use std::alloc::{AllocError, Global};

// The count, modulo 256.
fn places(alloc: Global) -> Result<FlatExpr, AllocError>
    ensures { IfOk result (λ expr. view_expr expr ≡ places) }
{
    op(alloc, FlatOp::And, word(6), FlatExpr::Number(255))
}

fn few_places(alloc: Global) -> Result<FlatExpr, AllocError>
    ensures { IfOk result (λ expr. view_expr expr ≡ few_places) }
{
    op(alloc, FlatOp::Below, word(6), FlatExpr::Number(16))
}

// Fewer than 16 places to the left: the bits that leave the lower word at the top come into the upper one.
fn left_few(alloc: Global) -> Result<FlatList, AllocError>
    ensures { IfOk result (λ list. view_list list.items ≡ left_few) }
{
    let low = op(alloc, FlatOp::Shl, word(10), word(6))?;
    let upper = op(alloc, FlatOp::Shl, word(8), word(6))?;
    let left = op(alloc, FlatOp::Sub, FlatExpr::Number(16), word(6))?;
    let moved = op(alloc, FlatOp::Shr, word(10), left)?;
    let high = op(alloc, FlatOp::Add, upper, moved)?;
    Ok(vec![in alloc; set(-4, low), set(-2, high)]?)
}

fn left_many(alloc: Global) -> Result<FlatList, AllocError>
    ensures { IfOk result (λ list. view_list list.items ≡ left_many) }
{
    let left = op(alloc, FlatOp::Sub, word(6), FlatExpr::Number(16))?;
    let high = op(alloc, FlatOp::Shl, word(10), left)?;
    Ok(vec![in alloc; set(-4, FlatExpr::Number(0)), set(-2, high)]?)
}

/// A LongInt shifted to the left.
pub fn left_shift(alloc: Global) -> Result<FlatRoutine, AllocError>
    ensures { IfOk result (λ routine. view_routine routine ≡ left_shift_routine) }
{
    let body = vec![in alloc;
        set(6, places(alloc)?),
        when(few_places(alloc)?, left_few(alloc)?, left_many(alloc)?),
    ]?;
    Ok(routine(name(b"LEFTSHIFT"), 6, 4, -4, 4, body))
}

fn right_few(alloc: Global) -> Result<FlatList, AllocError>
    ensures { IfOk result (λ list. view_list list.items ≡ right_few) }
{
    let lower = op(alloc, FlatOp::Shr, word(10), word(6))?;
    let left = op(alloc, FlatOp::Sub, FlatExpr::Number(16), word(6))?;
    let moved = op(alloc, FlatOp::Shl, word(8), left)?;
    let low = op(alloc, FlatOp::Add, lower, moved)?;
    let high = op(alloc, FlatOp::Shr, word(8), word(6))?;
    Ok(vec![in alloc; set(-4, low), set(-2, high)]?)
}

fn right_many(alloc: Global) -> Result<FlatList, AllocError>
    ensures { IfOk result (λ list. view_list list.items ≡ right_many) }
{
    let left = op(alloc, FlatOp::Sub, word(6), FlatExpr::Number(16))?;
    let low = op(alloc, FlatOp::Shr, word(8), left)?;
    Ok(vec![in alloc; set(-4, low), set(-2, FlatExpr::Number(0))]?)
}

/// A LongInt shifted to the right, with zeros from the left.
pub fn right_shift(alloc: Global) -> Result<FlatRoutine, AllocError>
    ensures { IfOk result (λ routine. view_routine routine ≡ right_shift_routine) }
{
    let body = vec![in alloc;
        set(6, places(alloc)?),
        when(few_places(alloc)?, right_few(alloc)?, right_many(alloc)?),
    ]?;
    Ok(routine(name(b"RIGHTSHIFT"), 6, 4, -4, 4, body))
}

fn out_of_range(alloc: Global) -> Result<FlatExpr, AllocError>
    ensures { IfOk result (λ expr. view_expr expr ≡ out_of_range) }
{
    let below = is_less(alloc, 16, 14, 12, 10)?;
    let above = is_less(alloc, 8, 6, 16, 14)?;
    op(alloc, FlatOp::Or, below, above)
}

/// A LongInt, or error 201 where it lies outside of a range.
pub fn range(alloc: Global) -> Result<FlatRoutine, AllocError>
    ensures { IfOk result (λ routine. view_routine routine ≡ range_routine) }
{
    let error = vec![in alloc; FlatStmt::Error(201)]?;
    let body = vec![in alloc;
        when(out_of_range(alloc)?, error, Vec::new(alloc)),
        set(-4, word(16)),
        set(-2, word(14)),
    ]?;
    Ok(routine(name(b"RANGE"), 12, 4, -4, 4, body))
}

/// Whether a LongInt lies in a range.
pub fn between(alloc: Global) -> Result<FlatRoutine, AllocError>
    ensures { IfOk result (λ routine. view_routine routine ≡ between_routine) }
{
    let outside = out_of_range(alloc)?;
    let inside = op(alloc, FlatOp::Equal, outside, FlatExpr::Number(0))?;
    let body = vec![in alloc; set(-2, inside)]?;
    Ok(routine(name(b"BETWEEN"), 12, 2, -2, 2, body))
}
