//! Routines that are straight code.

ghost use Rattle.std.specs.Prelude.{◌≡◌, IfOk};
ghost use Rattle.flat_code.specs.View.{view_expr, view_list};
ghost use Rattle.flat_code.specs.Plain.{view_routine};
ghost use Rattle.flat_code.specs.Runtime.{negation_routine};
ghost use Rattle.rt_strings.specs.long_integers.Routines.{low_word, high_word, other_low_word, other_high_word, is_less, product_routine, less_routine, sum_routine, difference_routine, equal_routine};

use flat_code::flat_builders::{name, op, routine, set, word};
use flat_code::{FlatExpr, FlatOp, FlatRoutine};
use std::alloc::{AllocError, Global};

pub fn low_word() -> FlatExpr
    ensures { view_expr result ≡ low_word }
{
    word(12)
}

pub fn high_word() -> FlatExpr
    ensures { view_expr result ≡ high_word }
{
    word(10)
}

pub fn other_low_word() -> FlatExpr
    ensures { view_expr result ≡ other_low_word }
{
    word(8)
}

pub fn other_high_word() -> FlatExpr
    ensures { view_expr result ≡ other_high_word }
{
    word(6)
}

/// The negative: the lower word's, and the upper word's less a borrow.
pub fn negation(alloc: Global) -> Result<FlatRoutine, AllocError>
    ensures { IfOk result (λ routine. view_routine routine ≡ negation_routine) }
{
    let low = op(alloc, FlatOp::Sub, FlatExpr::Number(0), word(8))?;
    let upper = op(alloc, FlatOp::Sub, FlatExpr::Number(0), word(6))?;
    let borrow = op(alloc, FlatOp::Below, FlatExpr::Number(0), word(8))?;
    let high = op(alloc, FlatOp::Sub, upper, borrow)?;
    let body = vec![in alloc; set(-4, low), set(-2, high)]?;
    Ok(routine(name(b"NEGATION"), 4, 4, -4, 4, body))
}

pub fn product(alloc: Global) -> Result<FlatRoutine, AllocError>
    ensures { IfOk result (λ routine. view_routine routine ≡ product_routine) }
{
    let low = op(alloc, FlatOp::Mul, low_word(), other_low_word())?;
    let carried = op(alloc, FlatOp::MulHigh, low_word(), other_low_word())?;
    let first = op(alloc, FlatOp::Mul, low_word(), other_high_word())?;
    let second = op(alloc, FlatOp::Mul, high_word(), other_low_word())?;
    let across = op(alloc, FlatOp::Add, first, second)?;
    let high = op(alloc, FlatOp::Add, carried, across)?;
    let body = vec![in alloc; set(-4, low), set(-2, high)]?;
    Ok(routine(name(b"PRODUCT"), 8, 4, -4, 4, body))
}

/// Whether a LongInt is less than another one, by the places of their words.
pub fn is_less(
    alloc: Global,
    low: i32,
    high: i32,
    other_low: i32,
    other_high: i32,
) -> Result<FlatExpr, AllocError>
    ensures { IfOk result (λ expr. view_expr expr ≡ is_less low high other_low other_high) }
{
    let less = op(alloc, FlatOp::Less, word(high), word(other_high))?;
    let equal = op(alloc, FlatOp::Equal, word(high), word(other_high))?;
    let below = op(alloc, FlatOp::Below, word(low), word(other_low))?;
    let later = op(alloc, FlatOp::And, equal, below)?;
    op(alloc, FlatOp::Or, less, later)
}

pub fn less(alloc: Global) -> Result<FlatRoutine, AllocError>
    ensures { IfOk result (λ routine. view_routine routine ≡ less_routine) }
{
    let body = vec![in alloc; set(-2, is_less(alloc, 12, 10, 8, 6)?)]?;
    Ok(routine(name(b"LESS"), 8, 2, -2, 2, body))
}

/// The carry out of the lower words goes into the upper ones.
pub fn sum(alloc: Global) -> Result<FlatRoutine, AllocError>
    ensures { IfOk result (λ routine. view_routine routine ≡ sum_routine) }
{
    let low = op(alloc, FlatOp::Add, low_word(), other_low_word())?;
    let upper = op(alloc, FlatOp::Add, high_word(), other_high_word())?;
    let carry = op(alloc, FlatOp::Below, word(-4), low_word())?;
    let high = op(alloc, FlatOp::Add, upper, carry)?;
    let body = vec![in alloc; set(-4, low), set(-2, high)]?;
    Ok(routine(name(b"SUM"), 8, 4, -4, 4, body))
}

/// The borrow of the lower words goes out of the upper ones.
pub fn difference(alloc: Global) -> Result<FlatRoutine, AllocError>
    ensures { IfOk result (λ routine. view_routine routine ≡ difference_routine) }
{
    let low = op(alloc, FlatOp::Sub, low_word(), other_low_word())?;
    let upper = op(alloc, FlatOp::Sub, high_word(), other_high_word())?;
    let borrow = op(alloc, FlatOp::Below, low_word(), other_low_word())?;
    let high = op(alloc, FlatOp::Sub, upper, borrow)?;
    let body = vec![in alloc; set(-4, low), set(-2, high)]?;
    Ok(routine(name(b"DIFFERENCE"), 8, 4, -4, 4, body))
}

pub fn equal(alloc: Global) -> Result<FlatRoutine, AllocError>
    ensures { IfOk result (λ routine. view_routine routine ≡ equal_routine) }
{
    let upper = op(alloc, FlatOp::Equal, high_word(), other_high_word())?;
    let lower = op(alloc, FlatOp::Equal, low_word(), other_low_word())?;
    let both = op(alloc, FlatOp::And, upper, lower)?;
    let body = vec![in alloc; set(-2, both)]?;
    Ok(routine(name(b"EQUAL"), 8, 2, -2, 2, body))
}
