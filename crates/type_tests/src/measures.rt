//! What expressions, statements and routines need and weigh.

use crate::tables::{PROCEDURE, TYPES, UNIT};
use std::alloc::{AllocError, Global};
use tree_samples::{Code, ExprSample, StmtSample, expression, table, unit};
use type_layout::{TypeId, Types};
use typed_tree::{Unit, frame_of, need_of, slot_of, slot_of_type, weight_of};

fn slot_of_operand(alloc: Global, sample: &ExprSample) -> Result<u64, AllocError> {
    let expr = expression(alloc, sample)?;
    let types = table(alloc, TYPES)?;
    Ok(slot_of(&types, &expr))
}

// The slot of the operand of a `Halt`.
fn slot(alloc: Global, sample: &StmtSample) -> Result<u64, AllocError> {
    match sample {
        StmtSample::Halt(operand) => slot_of_operand(alloc, operand),
        _ => Err(AllocError),
    }
}

fn need(unit: &Unit, routine: u32) -> u64 {
    if (routine as usize) < unit.routines.len() {
        need_of(unit, routine)
    } else {
        0
    }
}

fn frame(unit: &Unit, routine: u32) -> u64 {
    if (routine as usize) < unit.routines.len() {
        frame_of(unit, routine)
    } else {
        0
    }
}

fn weight(unit: &Unit) -> u64 {
    weight_of(unit)
}

/// Routines, the number of one of them, and what it needs and the bytes of its activation.
pub(crate) type Frame = (&'static [Code<'static>], u32, (u64, u64));

fn need_and_frame(
    alloc: Global,
    code: &[Code<'_>],
    routine: u32,
) -> Result<(u64, u64), AllocError> {
    let unit = unit(alloc, &UNIT, code)?;
    Ok((need(&unit, routine), frame(&unit, routine)))
}

/// The number of the first row with another need or activation.
pub(crate) fn first_wrong_frame(
    alloc: Global,
    rows: &[Frame],
) -> Result<Option<usize>, AllocError> {
    for number in 0..rows.len() {
        let (code, routine, wanted) = rows[number];
        if need_and_frame(alloc, code, routine)? != wanted {
            return Ok(Some(number));
        }
    }
    Ok(None)
}

/// Whether a unit of these routines has this weight.
pub(crate) fn weighs(alloc: Global, code: &[Code<'_>], wanted: u64) -> Result<bool, AllocError> {
    let unit = unit(alloc, &UNIT, code)?;
    Ok(weight(&unit) == wanted)
}

/// What a statement needs, and what it weighs beyond the procedure that it is the body of.
fn need_and_weight(alloc: Global, sample: &StmtSample) -> Result<(u64, u64), AllocError> {
    let unit = unit(alloc, &UNIT, &[(&PROCEDURE, sample)])?;
    Ok((need(&unit, 0), weight(&unit).saturating_sub(160)))
}

/// The number of the first statement with another need or weight.
pub(crate) fn first_wrong_statement(
    alloc: Global,
    rows: &[(StmtSample, (u64, u64))],
) -> Result<Option<usize>, AllocError> {
    for number in 0..rows.len() {
        let (sample, wanted) = &rows[number];
        if need_and_weight(alloc, sample)? != *wanted {
            return Ok(Some(number));
        }
    }
    Ok(None)
}

// What a `Halt` weighs more than its operand is 48.
fn measures(alloc: Global, sample: &StmtSample) -> Result<(u64, u64, u64), AllocError> {
    let (need, weight) = need_and_weight(alloc, sample)?;
    Ok((slot(alloc, sample)?, need, weight.saturating_sub(48)))
}

/// The number of the first `Halt` of which the operand's slot, the need, or the operand's weight is another.
pub(crate) fn first_wrong_operand(
    alloc: Global,
    rows: &[(StmtSample, (u64, u64, u64))],
) -> Result<Option<usize>, AllocError> {
    for number in 0..rows.len() {
        let (sample, wanted) = &rows[number];
        if measures(alloc, sample)? != *wanted {
            return Ok(Some(number));
        }
    }
    Ok(None)
}

fn slot_for(types: &Types, ty: TypeId) -> u64 {
    slot_of_type(types, ty)
}

/// The number of the first type with another slot.
pub(crate) fn first_wrong_slot(
    alloc: Global,
    rows: &[(TypeId, u64)],
) -> Result<Option<usize>, AllocError> {
    let types = table(alloc, TYPES)?;
    for number in 0..rows.len() {
        let (ty, wanted) = rows[number];
        if slot_for(&types, ty) != wanted {
            return Ok(Some(number));
        }
    }
    Ok(None)
}
