//! Statements that hold no others.

ghost use Rattle.std.specs.Prelude.{◌≡◌, ◌++◌, OnOk};
ghost use Rattle.flat_code.specs.Plain.{view_unit};
ghost use Rattle.flat_code.specs.View.{view_expr, view_exprs};
ghost use Rattle.code_templates.specs.code_references.Marked.{marked_expr, marked_args, marked_store_byte, marked_store_word, marked_store_routine, marked_taken, marked_call, marked_runtime, marked_through};

use crate::generate_expressions::{at_place, operand, push_args, push_expr, push_loads, word_load};
use crate::generate_steps::calls::{push_call, push_runtime};
use crate::generate_steps::stores::{push_store_byte, push_store_two, push_store_word, push_taken};
use code_templates::code_references::MarkedLines;
use flat_code::{Address, FlatExpr, FlatResult, FlatUnit};
use std::alloc::AllocError;
use type_layout::RoutineId;
use x86_table::{Instr, WordReg};

/// Appends what stores the lower byte of a value.
pub fn push_byte_of(
    lines: &mut MarkedLines,
    far: bool,
    to: Address,
    value: &FlatExpr,
) -> Result<(), AllocError>
    ensures { OnOk result (lines.new ≡ lines.old ++ (marked_expr far (view_expr value.now) ++ marked_store_byte far to)) }
{
    push_expr(lines, far, value)?;
    push_store_byte(lines, far, to)
}

/// Appends what stores a value.
pub fn push_word_of(
    lines: &mut MarkedLines,
    far: bool,
    to: Address,
    value: &FlatExpr,
) -> Result<(), AllocError>
    ensures { OnOk result (lines.new ≡ lines.old ++ (marked_expr far (view_expr value.now) ++ marked_store_word far to)) }
{
    push_expr(lines, far, value)?;
    push_store_word(lines, far, to)
}

/// Appends a call of a routine, its arguments before and its result behind.
pub fn push_calling(
    lines: &mut MarkedLines,
    unit: &FlatUnit,
    far: bool,
    routine: RoutineId,
    args: &[FlatExpr],
    wanted: Option<FlatResult>,
) -> Result<(), AllocError>
    ensures { OnOk result (lines.new ≡ lines.old ++ (marked_args far (view_exprs args.now) ++ (marked_call (view_unit unit.now) routine.unit routine.number ++ marked_taken far wanted))) }
{
    push_args(lines, far, args)?;
    push_call(lines, unit, routine)?;
    push_taken(lines, far, wanted)
}

/// Appends a call of an effect of the machine or of a routine of the runtime.
pub fn push_acting(
    lines: &mut MarkedLines,
    far: bool,
    number: u16,
    args: &[FlatExpr],
    wanted: Option<FlatResult>,
) -> Result<(), AllocError>
    ensures { OnOk result (lines.new ≡ lines.old ++ (marked_args far (view_exprs args.now) ++ (marked_runtime number ++ marked_taken far wanted))) }
{
    push_args(lines, far, args)?;
    push_runtime(lines, number)?;
    push_taken(lines, far, wanted)
}

fn push_through(
    lines: &mut MarkedLines,
    far: bool,
    at: Address,
    wanted: Option<FlatResult>,
) -> Result<(), AllocError>
    ensures { OnOk result (lines.new ≡ lines.old ++ marked_through far at wanted) }
{
    push_loads(lines, far, at)?;
    lines.push(at_place(at, Instr::CallFarIndirect(operand(far, at, 0))))?;
    push_taken(lines, far, wanted)
}

/// Appends a call through the far pointer at a place.
pub fn push_calling_through(
    lines: &mut MarkedLines,
    far: bool,
    at: Address,
    args: &[FlatExpr],
    wanted: Option<FlatResult>,
) -> Result<(), AllocError>
    ensures { OnOk result (lines.new ≡ lines.old ++ (marked_args far (view_exprs args.now) ++ marked_through far at wanted)) }
{
    push_args(lines, far, args)?;
    push_through(lines, far, at, wanted)
}

/// Appends what stores a far pointer to a routine, which the unit's datum of this number holds.
pub fn push_store_routine(
    lines: &mut MarkedLines,
    far: bool,
    datum: u32,
    to: Address,
) -> Result<(), AllocError>
    ensures { OnOk result (lines.new ≡ lines.old ++ marked_store_routine far datum to) }
{
    let at = Address::Global {
        unit: 0,
        number: datum,
        plus: 0,
    };
    lines.push(at_place(at, word_load(WordReg::Ax, far, at, 0)))?;
    lines.push(at_place(at, word_load(WordReg::Dx, far, at, 2)))?;
    push_store_two(lines, far, to)
}
