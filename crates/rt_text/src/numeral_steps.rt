//! One byte of a numeral, as flat code: what Val and Read have in common.

ghost use Rattle.std.specs.Prelude.{◌≡◌, IfOk, List};
ghost use Rattle.flat_code.specs.View.{view_expr, view_list};
ghost use Rattle.flat_code.specs.Program.{Choice};
ghost use Rattle.flat_code.specs.Meaning.{Frame};
ghost use Rattle.runtime_proofs.specs.routine_proofs.Activation.{Slot};
ghost use Rattle.rt_text.specs.numeral_steps.Step.{is_number as is_number_code, is_byte as is_byte_code, begin_numeral as begin_numeral_code, stop, if_above, digit_of_byte, grown_low, grown_high, fits, take_digit, digit_step, dollar_step, numeral_step as numeral_step_code, negate, give_sign as give_sign_code};
ghost use Rattle.rt_text.specs.numeral_steps.Widening.{Widens};
ghost use Rattle.rt_text.specs.numeral_steps.Specifications.{StepsOn, Signs};

use flat_code::flat_builders::{op, set, when, word};
use flat_code::{FlatExpr, FlatList, FlatOp};
use std::alloc::{AllocError, Global};

/// Whether a word is a number.
pub fn is_number(alloc: Global, at: i32, number: u16) -> Result<FlatExpr, AllocError>
    ensures { IfOk result (λ expr. view_expr expr ≡ is_number_code at number) }
{
    op(alloc, FlatOp::Equal, word(at), FlatExpr::Number(number))
}

/// Whether the byte is this one.
pub fn is_byte(alloc: Global, byte: u8) -> Result<FlatExpr, AllocError>
    ensures { IfOk result (λ expr. view_expr expr ≡ is_byte_code byte) }
{
    is_number(alloc, -2, u16::from(byte))
}

/// The words of a numeral before its first byte.
pub fn begin_numeral(alloc: Global) -> Result<FlatList, AllocError>
    ensures { IfOk result (λ list. view_list list.items ≡ begin_numeral_code) }
{
    Ok(vec![in alloc;
        set(-2, FlatExpr::Number(0)),
        set(-4, FlatExpr::Number(0)),
        set(-6, FlatExpr::Number(0)),
        set(-8, FlatExpr::Number(10)),
        set(-10, FlatExpr::Number(0)),
        set(-12, FlatExpr::Number(0)),
        set(-14, FlatExpr::Number(0)),
    ]?)
}

// No numeral goes on so.
fn stop(alloc: Global) -> Result<FlatList, AllocError>
    ensures { IfOk result (λ list. view_list list.items ≡ stop) }
{
    Ok(vec![in alloc; set(-4, FlatExpr::Number(4))]?)
}

// So much, where the byte is above another one.
fn if_above(alloc: Global, byte: u16, number: u16) -> Result<FlatExpr, AllocError>
    ensures { IfOk result (λ expr. view_expr expr ≡ if_above byte number) }
{
    let above = op(alloc, FlatOp::Below, FlatExpr::Number(byte), word(-2))?;
    op(alloc, FlatOp::Mul, FlatExpr::Number(number), above)
}

// The byte as a digit; 16 or more where it is none.
fn digit_of_byte(alloc: Global) -> Result<FlatExpr, AllocError>
    ensures { IfOk result (λ expr. view_expr expr ≡ digit_of_byte) }
{
    let decimal = op(alloc, FlatOp::Sub, word(-2), FlatExpr::Number(48))?;
    let none_behind = op(alloc, FlatOp::Add, decimal, if_above(alloc, 57, 16)?)?;
    let upper = op(alloc, FlatOp::Sub, none_behind, if_above(alloc, 64, 23)?)?;
    op(alloc, FlatOp::Sub, upper, if_above(alloc, 96, 32)?)
}

fn grown_low(alloc: Global) -> Result<FlatExpr, AllocError>
    ensures { IfOk result (λ expr. view_expr expr ≡ grown_low) }
{
    let product = op(alloc, FlatOp::Mul, word(-12), word(-8))?;
    op(alloc, FlatOp::Add, product, word(-14))
}

fn grown_high(alloc: Global) -> Result<FlatExpr, AllocError>
    ensures { IfOk result (λ expr. view_expr expr ≡ grown_high) }
{
    let product = op(alloc, FlatOp::Mul, word(-10), word(-8))?;
    let upper = op(alloc, FlatOp::MulHigh, word(-12), word(-8))?;
    let carry = op(alloc, FlatOp::Below, grown_low(alloc)?, word(-14))?;
    op(
        alloc,
        FlatOp::Add,
        op(alloc, FlatOp::Add, product, upper)?,
        carry,
    )
}

// The magnitude lies in LongInt: with a minus there is one more.
fn fits(alloc: Global) -> Result<FlatExpr, AllocError>
    ensures { IfOk result (λ expr. view_expr expr ≡ fits) }
{
    let below = op(alloc, FlatOp::Below, word(-10), FlatExpr::Number(32768))?;
    let least = op(
        alloc,
        FlatOp::And,
        is_number(alloc, -10, 32768)?,
        is_number(alloc, -12, 0)?,
    )?;
    op(
        alloc,
        FlatOp::Or,
        below,
        op(alloc, FlatOp::And, least, word(-6))?,
    )
}

// The magnitude grows by a digit.
fn take_digit(alloc: Global) -> Result<FlatList, AllocError>
    ensures { IfOk result (λ list. view_list list.items ≡ take_digit) }
{
    let stays = vec![in alloc; set(-4, FlatExpr::Number(3))]?;
    Ok(vec![in alloc;
        set(-10, grown_high(alloc)?),
        set(-12, grown_low(alloc)?),
        when(fits(alloc)?, stays, stop(alloc)?),
    ]?)
}

// Where the upper word is above 3276 no digit may follow.
fn digit_step(alloc: Global) -> Result<FlatList, AllocError>
    ensures { IfOk result (λ list. view_list list.items ≡ digit_step) }
{
    let digit = op(alloc, FlatOp::Below, word(-14), word(-8))?;
    let room = op(alloc, FlatOp::Below, word(-10), FlatExpr::Number(3277))?;
    let test = op(alloc, FlatOp::And, digit, room)?;
    Ok(vec![in alloc;
        set(-14, digit_of_byte(alloc)?),
        when(test, take_digit(alloc)?, stop(alloc)?),
    ]?)
}

fn dollar_step(alloc: Global) -> Result<FlatList, AllocError>
    ensures { IfOk result (λ list. view_list list.items ≡ dollar_step) }
{
    let before = op(alloc, FlatOp::Below, word(-4), FlatExpr::Number(2))?;
    let test = op(alloc, FlatOp::And, before, is_byte(alloc, b'$')?)?;
    let hexadecimal = vec![in alloc; set(-4, FlatExpr::Number(2)), set(-8, FlatExpr::Number(16))]?;
    Ok(vec![in alloc; when(test, hexadecimal, digit_step(alloc)?)]?)
}

/// The numeral goes on with its byte, or its word at -4 becomes 4.
pub fn numeral_step(alloc: Global) -> Result<FlatList, AllocError>
    ensures { IfOk result (λ list. view_list list.items ≡ numeral_step_code) }
{
    let sign = op(
        alloc,
        FlatOp::Or,
        is_byte(alloc, b'+')?,
        is_byte(alloc, b'-')?,
    )?;
    let test = op(alloc, FlatOp::And, is_number(alloc, -4, 0)?, sign)?;
    let signed = vec![in alloc;
        set(-4, FlatExpr::Number(1)),
        set(-6, is_byte(alloc, b'-')?),
    ]?;
    Ok(vec![in alloc; when(test, signed, dollar_step(alloc)?)]?)
}

// The negative of the magnitude takes its place.
fn negate(alloc: Global) -> Result<FlatList, AllocError>
    ensures { IfOk result (λ list. view_list list.items ≡ negate) }
{
    let upper = op(alloc, FlatOp::Sub, FlatExpr::Number(0), word(-10))?;
    let borrow = op(alloc, FlatOp::Below, FlatExpr::Number(0), word(-12))?;
    let high = op(alloc, FlatOp::Sub, upper, borrow)?;
    let low = op(alloc, FlatOp::Sub, FlatExpr::Number(0), word(-12))?;
    Ok(vec![in alloc; set(-10, high), set(-12, low)]?)
}

/// The magnitude of a whole numeral becomes the LongInt that it stands for.
pub fn give_sign(alloc: Global) -> Result<FlatList, AllocError>
    ensures { IfOk result (λ list. view_list list.items ≡ give_sign_code) }
{
    Ok(vec![in alloc; when(word(-6), negate(alloc)?, Vec::new(alloc))]?)
}

/// The laws of a step: in each activation that has the words of a numeral among its locals, the
/// numeral goes on with its byte exactly as numerals do, and a whole one becomes its LongInt. Code that works on locals alone does the same
/// among further words. It does nothing.
pub fn numeral_laws()
    ensures widens { (choice : Choice) (own : Frame) (front back : List Slot) → Widens choice own front back }
    ensures steps { StepsOn }
    ensures signs { Signs }
{}
