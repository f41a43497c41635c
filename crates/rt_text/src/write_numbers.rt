//! The runtime's routine that writes an integer, as flat code.

ghost use Rattle.std.specs.Prelude.{◌≡◌, IfOk, ℕ};
ghost use Rattle.flat_code.specs.View.{view_expr, view_list};
ghost use Rattle.flat_code.specs.Plain.{view_routine};
ghost use Rattle.flat_code.specs.Program.{FlatProgram, Choice, UnitCode, runtime_key};
ghost use Rattle.flat_code.specs.Legal.{StackFits};
ghost use Rattle.runtime_proofs.specs.routine_proofs.Specifications.{IsHeld};
ghost use Rattle.runtime_proofs.specs.text_memory.Data.{HasText};
ghost use Rattle.rt_text.specs.write_numbers.Routines.{begin_words, begin_pointer, negate, take_magnitude, times_256, quotient_10, rest_10, store_digit, divide, is_zero, stop_at_zero, digit_round, give_sign, end_digits, make_digits, write_integer_routine};
ghost use Rattle.rt_text.specs.write_numbers.Specifications.{write_integer_number, WritesInteger};

use crate::write_text::show_text;
use flat_code::flat_builders::{name, op, repeat, set, then, when, word};
use flat_code::{FlatExpr, FlatList, FlatOp, FlatRoutine, FlatStmt};
use runtime_proofs::string_loops::{lessen, procedure, set_behind};
use runtime_proofs::text_memory::{item_offset, set_segment};
use std::alloc::{AllocError, Global};

fn begin_words(alloc: Global) -> Result<FlatList, AllocError>
    ensures { IfOk result (λ list. view_list list.items ≡ begin_words) }
{
    let negative = op(alloc, FlatOp::Less, word(8), FlatExpr::Number(0))?;
    Ok(vec![in alloc;
        set(-6, FlatExpr::Number(0)),
        set(-8, FlatExpr::Number(0)),
        set(-14, negative),
    ]?)
}

fn begin_pointer(alloc: Global) -> Result<FlatList, AllocError>
    ensures { IfOk result (λ list. view_list list.items ≡ begin_pointer) }
{
    Ok(vec![in alloc; set(-4, item_offset(507)), set_segment(-2)]?)
}

// The negative of the number takes its place.
fn negate(alloc: Global) -> Result<FlatList, AllocError>
    ensures { IfOk result (λ list. view_list list.items ≡ negate) }
{
    let upper = op(alloc, FlatOp::Sub, FlatExpr::Number(0), word(8))?;
    let borrow = op(alloc, FlatOp::Below, FlatExpr::Number(0), word(10))?;
    let high = op(alloc, FlatOp::Sub, upper, borrow)?;
    let low = op(alloc, FlatOp::Sub, FlatExpr::Number(0), word(10))?;
    Ok(vec![in alloc; set(8, high), set(10, low)]?)
}

fn take_magnitude(alloc: Global) -> Result<FlatList, AllocError>
    ensures { IfOk result (λ list. view_list list.items ≡ take_magnitude) }
{
    Ok(vec![in alloc; when(word(-14), negate(alloc)?, Vec::new(alloc))]?)
}

fn times_256(alloc: Global, upper: FlatExpr, lower: FlatExpr) -> Result<FlatExpr, AllocError>
    ensures { IfOk result (λ expr. view_expr expr ≡ times_256 (view_expr upper) (view_expr lower)) }
{
    let raised = op(alloc, FlatOp::Shl, upper, FlatExpr::Number(8))?;
    op(alloc, FlatOp::Add, raised, lower)
}

fn quotient_10(alloc: Global, e: FlatExpr) -> Result<FlatExpr, AllocError>
    ensures { IfOk result (λ expr. view_expr expr ≡ quotient_10 (view_expr e)) }
{
    op(alloc, FlatOp::DivUnsigned, e, FlatExpr::Number(10))
}

fn rest_10(alloc: Global, e: FlatExpr) -> Result<FlatExpr, AllocError>
    ensures { IfOk result (λ expr. view_expr expr ≡ rest_10 (view_expr e)) }
{
    op(alloc, FlatOp::ModUnsigned, e, FlatExpr::Number(10))
}

fn store_digit(alloc: Global) -> Result<FlatList, AllocError>
    ensures { IfOk result (λ list. view_list list.items ≡ store_digit) }
{
    let digit = op(
        alloc,
        FlatOp::Add,
        FlatExpr::Number(48),
        rest_10(alloc, word(-6))?,
    )?;
    let before = lessen(alloc, -4, FlatExpr::Number(1))?;
    Ok(vec![in alloc; set_behind(-4, 0, digit), before]?)
}

// The upper word is divided by 10, and then the lower one, byte by byte.
fn divide(alloc: Global) -> Result<FlatList, AllocError>
    ensures { IfOk result (λ list. view_list list.items ≡ divide) }
{
    let upper = op(alloc, FlatOp::Shr, word(10), FlatExpr::Number(8))?;
    let lower = op(alloc, FlatOp::ModUnsigned, word(10), FlatExpr::Number(256))?;
    let first = times_256(alloc, word(-6), upper)?;
    let second = times_256(alloc, rest_10(alloc, word(-8))?, lower)?;
    let high = quotient_10(alloc, word(-8))?;
    let low = times_256(alloc, high, quotient_10(alloc, word(-6))?)?;
    Ok(vec![in alloc;
        set(-6, rest_10(alloc, word(8))?),
        set(8, quotient_10(alloc, word(8))?),
        set(-8, first),
        set(-6, second),
        set(10, low),
    ]?)
}

fn is_zero(alloc: Global) -> Result<FlatExpr, AllocError>
    ensures { IfOk result (λ expr. view_expr expr ≡ is_zero) }
{
    let low = op(alloc, FlatOp::Equal, word(10), FlatExpr::Number(0))?;
    let high = op(alloc, FlatOp::Equal, word(8), FlatExpr::Number(0))?;
    op(alloc, FlatOp::And, low, high)
}

fn stop_at_zero(alloc: Global) -> Result<FlatList, AllocError>
    ensures { IfOk result (λ list. view_list list.items ≡ stop_at_zero) }
{
    let leave = vec![in alloc; FlatStmt::Leave { loops: 1 }]?;
    Ok(vec![in alloc; when(is_zero(alloc)?, leave, Vec::new(alloc))]?)
}

fn digit_round(alloc: Global) -> Result<FlatList, AllocError>
    ensures { IfOk result (λ list. view_list list.items ≡ digit_round) }
{
    let stored = then(store_digit(alloc)?, stop_at_zero(alloc)?)?;
    then(divide(alloc)?, stored)
}

fn give_sign(alloc: Global) -> Result<FlatList, AllocError>
    ensures { IfOk result (λ list. view_list list.items ≡ give_sign) }
{
    let minus = set_behind(-4, 0, FlatExpr::Number(45));
    let before = lessen(alloc, -4, FlatExpr::Number(1))?;
    Ok(vec![in alloc; when(word(-14), vec![in alloc; minus, before]?, Vec::new(alloc))]?)
}

fn end_digits(alloc: Global) -> Result<FlatList, AllocError>
    ensures { IfOk result (λ list. view_list list.items ≡ end_digits) }
{
    let count = op(alloc, FlatOp::Sub, item_offset(507), word(-4))?;
    Ok(vec![in alloc; set(-6, count)]?)
}

/// The text of an integer is made at the end of the item buffer: at -2 and -4 stands then a pointer to
/// the byte before it, and at -6 its length. The number's lower word stands at 10 and its upper one at 8.
pub fn make_digits(alloc: Global) -> Result<FlatList, AllocError>
    ensures { IfOk result (λ list. view_list list.items ≡ make_digits) }
{
    let ending = then(give_sign(alloc)?, end_digits(alloc)?)?;
    let digits = then(vec![in alloc; repeat(digit_round(alloc)?)]?, ending)?;
    let magnitude = then(take_magnitude(alloc)?, digits)?;
    let pointer = then(begin_pointer(alloc)?, magnitude)?;
    then(begin_words(alloc)?, pointer)
}

/// Writes an integer in a field of a width.
pub fn write_integer(alloc: Global) -> Result<FlatRoutine, AllocError>
    ensures { IfOk result (λ routine. view_routine routine ≡ write_integer_routine) }
{
    let body = then(make_digits(alloc)?, show_text(alloc)?)?;
    Ok(procedure(name(b"WRITEINTEGER"), 6, 14, body))
}

/// The law of the routine: in each program whose unit of text holds it under its number, and wherever
/// its parts lie, it does what the runtime promises. It does nothing.
pub fn number_writing_laws()
    ensures integer { (program : FlatProgram) (choice : Choice) (item ahead : ℕ) (unit : UnitCode) → StackFits program choice → HasText program choice item ahead → IsHeld program (runtime_key write_integer_number) unit write_integer_routine → WritesInteger program choice item }
{}
