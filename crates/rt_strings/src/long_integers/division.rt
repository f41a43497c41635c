//! Quotient and remainder: the magnitudes are divided in twos, in 32 rounds.

ghost use Rattle.std.specs.Prelude.{◌≡◌, IfOk};
ghost use Rattle.flat_code.specs.View.{view_expr, view_list};
ghost use Rattle.flat_code.specs.Plain.{view_routine};
ghost use Rattle.rt_strings.specs.long_integers.Division.{rest_low, rest_high, doubled, is_negative, negate, test_divisor, take_magnitude, keep_sign, begin_rounds, shift_in, rest_is_less, take_off, count_down, one_round, rounds, take_quotient, give_sign, division_code, quotient_routine, remainder_routine};

use crate::long_integers::words::{high_word, low_word, other_high_word, other_low_word};
use flat_code::flat_builders::{name, op, repeat, routine, set, then, when, word};
use flat_code::{FlatExpr, FlatList, FlatOp, FlatRoutine, FlatStmt};
use std::alloc::{AllocError, Global};

fn rest_low() -> FlatExpr
    ensures { view_expr result ≡ rest_low }
{
    word(-4)
}

fn rest_high() -> FlatExpr
    ensures { view_expr result ≡ rest_high }
{
    word(-2)
}

// Twice the upper word, and the top bit of the lower one.
fn doubled(
    alloc: Global,
    upper: FlatExpr,
    again: FlatExpr,
    lower: FlatExpr,
) -> Result<FlatExpr, AllocError>
    requires { view_expr again ≡ view_expr upper }
    ensures { IfOk result (λ expr. view_expr expr ≡ doubled (view_expr upper) (view_expr lower)) }
{
    let twice = op(alloc, FlatOp::Add, upper, again)?;
    let top = op(alloc, FlatOp::Shr, lower, FlatExpr::Number(15))?;
    op(alloc, FlatOp::Add, twice, top)
}

fn is_negative(alloc: Global, upper: FlatExpr) -> Result<FlatExpr, AllocError>
    ensures { IfOk result (λ expr. view_expr expr ≡ is_negative (view_expr upper)) }
{
    op(alloc, FlatOp::Less, upper, FlatExpr::Number(0))
}

// The negative of two words takes their place.
fn negate(alloc: Global, low: i32, high: i32) -> Result<FlatList, AllocError>
    ensures { IfOk result (λ list. view_list list.items ≡ negate low high) }
{
    let upper = op(alloc, FlatOp::Sub, FlatExpr::Number(0), word(high))?;
    let borrow = op(alloc, FlatOp::Below, FlatExpr::Number(0), word(low))?;
    let above = op(alloc, FlatOp::Sub, upper, borrow)?;
    let below = op(alloc, FlatOp::Sub, FlatExpr::Number(0), word(low))?;
    Ok(vec![in alloc; set(high, above), set(low, below)]?)
}

fn test_divisor(alloc: Global) -> Result<FlatList, AllocError>
    ensures { IfOk result (λ list. view_list list.items ≡ test_divisor) }
{
    let low = op(alloc, FlatOp::Equal, other_low_word(), FlatExpr::Number(0))?;
    let high = op(alloc, FlatOp::Equal, other_high_word(), FlatExpr::Number(0))?;
    let none = op(alloc, FlatOp::And, low, high)?;
    let error = vec![in alloc; FlatStmt::Error(200)]?;
    Ok(vec![in alloc; when(none, error, Vec::new(alloc))]?)
}

fn take_magnitude(alloc: Global, low: i32, high: i32) -> Result<FlatList, AllocError>
    ensures { IfOk result (λ list. view_list list.items ≡ take_magnitude low high) }
{
    let negative = is_negative(alloc, word(high))?;
    Ok(vec![in alloc; when(negative, negate(alloc, low, high)?, Vec::new(alloc))]?)
}

fn keep_sign(alloc: Global, sign: FlatExpr) -> Result<FlatList, AllocError>
    ensures { IfOk result (λ list. view_list list.items ≡ keep_sign (view_expr sign)) }
{
    Ok(vec![in alloc; set(-6, sign)]?)
}

fn begin_rounds(alloc: Global) -> Result<FlatList, AllocError>
    ensures { IfOk result (λ list. view_list list.items ≡ begin_rounds) }
{
    let rest = set(-4, FlatExpr::Number(0));
    let above = set(-2, FlatExpr::Number(0));
    let count = set(-8, FlatExpr::Number(32));
    Ok(vec![in alloc; rest, above, count]?)
}

// Dividend and rest move by one bit.
fn shift_in(alloc: Global) -> Result<FlatList, AllocError>
    ensures { IfOk result (λ list. view_list list.items ≡ shift_in) }
{
    let above = doubled(alloc, rest_high(), rest_high(), rest_low())?;
    let rest = doubled(alloc, rest_low(), rest_low(), high_word())?;
    let high = doubled(alloc, high_word(), high_word(), low_word())?;
    let low = op(alloc, FlatOp::Add, low_word(), low_word())?;
    Ok(vec![in alloc; set(-2, above), set(-4, rest), set(10, high), set(12, low)]?)
}

// Whether the rest is below the divisor.
fn rest_is_less(alloc: Global) -> Result<FlatExpr, AllocError>
    ensures { IfOk result (λ expr. view_expr expr ≡ rest_is_less) }
{
    let below = op(alloc, FlatOp::Below, rest_high(), other_high_word())?;
    let equal = op(alloc, FlatOp::Equal, rest_high(), other_high_word())?;
    let later = op(alloc, FlatOp::Below, rest_low(), other_low_word())?;
    let both = op(alloc, FlatOp::And, equal, later)?;
    op(alloc, FlatOp::Or, below, both)
}

// Where the divisor fits into the rest it is taken off, and the quotient gets a bit.
fn take_off(alloc: Global) -> Result<FlatList, AllocError>
    ensures { IfOk result (λ list. view_list list.items ≡ take_off) }
{
    let upper = op(alloc, FlatOp::Sub, rest_high(), other_high_word())?;
    let borrow = op(alloc, FlatOp::Below, rest_low(), other_low_word())?;
    let above = op(alloc, FlatOp::Sub, upper, borrow)?;
    let rest = op(alloc, FlatOp::Sub, rest_low(), other_low_word())?;
    let bit = op(alloc, FlatOp::Add, low_word(), FlatExpr::Number(1))?;
    let taken = vec![in alloc; set(-2, above), set(-4, rest), set(12, bit)]?;
    Ok(vec![in alloc; when(rest_is_less(alloc)?, Vec::new(alloc), taken)]?)
}

fn count_down(alloc: Global) -> Result<FlatList, AllocError>
    ensures { IfOk result (λ list. view_list list.items ≡ count_down) }
{
    let fewer = op(alloc, FlatOp::Sub, word(-8), FlatExpr::Number(1))?;
    let leave = vec![in alloc; FlatStmt::Leave { loops: 1 }]?;
    Ok(vec![in alloc; set(-8, fewer), when(word(-8), Vec::new(alloc), leave)]?)
}

fn one_round(alloc: Global) -> Result<FlatList, AllocError>
    ensures { IfOk result (λ list. view_list list.items ≡ one_round) }
{
    let off = then(take_off(alloc)?, count_down(alloc)?)?;
    then(shift_in(alloc)?, off)
}

fn rounds(alloc: Global) -> Result<FlatList, AllocError>
    ensures { IfOk result (λ list. view_list list.items ≡ rounds) }
{
    Ok(vec![in alloc; repeat(one_round(alloc)?)]?)
}

fn take_quotient(alloc: Global) -> Result<FlatList, AllocError>
    ensures { IfOk result (λ list. view_list list.items ≡ take_quotient) }
{
    Ok(vec![in alloc; set(-4, low_word()), set(-2, high_word())]?)
}

fn give_sign(alloc: Global) -> Result<FlatList, AllocError>
    ensures { IfOk result (λ list. view_list list.items ≡ give_sign) }
{
    Ok(vec![in alloc; when(word(-6), negate(alloc, -4, -2)?, Vec::new(alloc))]?)
}

// The result gets this sign, and this is done after the rounds.
fn division(alloc: Global, sign: FlatExpr, last: FlatList) -> Result<FlatList, AllocError>
    ensures { IfOk result (λ list. view_list list.items ≡ division_code (view_expr sign) (view_list last.items)) }
{
    let ending = then(last, give_sign(alloc)?)?;
    let turning = then(rounds(alloc)?, ending)?;
    let beginning = then(begin_rounds(alloc)?, turning)?;
    let second = then(take_magnitude(alloc, 8, 6)?, beginning)?;
    let first = then(take_magnitude(alloc, 12, 10)?, second)?;
    let signed = then(keep_sign(alloc, sign)?, first)?;
    then(test_divisor(alloc)?, signed)
}

/// The quotient, rounded toward zero, or error 200.
pub fn quotient(alloc: Global) -> Result<FlatRoutine, AllocError>
    ensures { IfOk result (λ routine. view_routine routine ≡ quotient_routine) }
{
    let first = is_negative(alloc, high_word())?;
    let second = is_negative(alloc, other_high_word())?;
    let sign = op(alloc, FlatOp::Xor, first, second)?;
    let body = division(alloc, sign, take_quotient(alloc)?)?;
    Ok(routine(name(b"QUOTIENT"), 8, 8, -4, 4, body))
}

/// The remainder, which has the sign of the dividend, or error 200.
pub fn remainder(alloc: Global) -> Result<FlatRoutine, AllocError>
    ensures { IfOk result (λ routine. view_routine routine ≡ remainder_routine) }
{
    let sign = is_negative(alloc, high_word())?;
    let body = division(alloc, sign, Vec::new(alloc))?;
    Ok(routine(name(b"REMAINDER"), 8, 8, -4, 4, body))
}
