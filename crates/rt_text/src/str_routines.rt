//! The runtime's Str, as flat code.

ghost use Rattle.std.specs.Prelude.{◌≡◌, IfOk, ℕ};
ghost use Rattle.flat_code.specs.View.{view_list};
ghost use Rattle.flat_code.specs.Plain.{view_routine};
ghost use Rattle.flat_code.specs.Program.{FlatProgram, Choice, UnitCode, runtime_key};
ghost use Rattle.flat_code.specs.Legal.{StackFits};
ghost use Rattle.runtime_proofs.specs.routine_proofs.Specifications.{IsHeld};
ghost use Rattle.runtime_proofs.specs.text_memory.Data.{HasText};
ghost use Rattle.rt_text.specs.write_text.Showing.{set_due};
ghost use Rattle.rt_text.specs.str_routines.Routines.{no_blanks, cut_blanks, cut_text, take_room, store_length, begin_text, begin_blanks, move_blanks, move_text, fill_variable, str_routine};
ghost use Rattle.rt_text.specs.str_routines.Specifications.{str_number, MakesText};

use crate::write_numbers::make_digits;
use flat_code::flat_builders::{name, op, set, then, when, word};
use flat_code::{FlatExpr, FlatList, FlatOp, FlatRoutine};
use runtime_proofs::string_loops::{forward, limit, procedure, set_behind};
use runtime_proofs::text_memory::{item_offset, set_segment};
use std::alloc::{AllocError, Global};

// How many blanks are due before the text.
fn set_due(alloc: Global) -> Result<FlatList, AllocError>
    ensures { IfOk result (λ list. view_list list.items ≡ set_due) }
{
    let wide = op(alloc, FlatOp::Less, word(-6), word(6))?;
    let blanks = op(alloc, FlatOp::Sub, word(6), word(-6))?;
    let due = vec![in alloc; set(-8, blanks)]?;
    Ok(vec![in alloc; when(wide, due, Vec::new(alloc))]?)
}

fn no_blanks(alloc: Global) -> Result<FlatList, AllocError>
    ensures { IfOk result (λ list. view_list list.items ≡ no_blanks) }
{
    Ok(vec![in alloc; set(-8, FlatExpr::Number(0))]?)
}

fn cut_blanks(alloc: Global) -> Result<FlatList, AllocError>
    ensures { IfOk result (λ list. view_list list.items ≡ cut_blanks) }
{
    Ok(vec![in alloc; limit(alloc, -8, 12)?]?)
}

fn cut_text(alloc: Global) -> Result<FlatList, AllocError>
    ensures { IfOk result (λ list. view_list list.items ≡ cut_text) }
{
    let left = op(alloc, FlatOp::Sub, word(12), word(-8))?;
    Ok(vec![in alloc; set(-14, left), limit(alloc, -14, -6)?]?)
}

// No more blanks than the variable has room for, and behind them no more of the text.
fn take_room(alloc: Global) -> Result<FlatList, AllocError>
    ensures { IfOk result (λ list. view_list list.items ≡ take_room) }
{
    let cut = then(cut_blanks(alloc)?, cut_text(alloc)?)?;
    let due = then(set_due(alloc)?, cut)?;
    then(no_blanks(alloc)?, due)
}

fn store_length(alloc: Global) -> Result<FlatList, AllocError>
    ensures { IfOk result (λ list. view_list list.items ≡ store_length) }
{
    let length = op(alloc, FlatOp::Add, word(-8), word(-14))?;
    Ok(vec![in alloc; set_behind(14, 0, length)]?)
}

fn begin_blanks(alloc: Global) -> Result<FlatList, AllocError>
    ensures { IfOk result (λ list. view_list list.items ≡ begin_blanks) }
{
    Ok(vec![in alloc; set(-12, item_offset(0)), set_segment(-10)]?)
}

// The text goes behind the blanks.
fn begin_text(alloc: Global) -> Result<FlatList, AllocError>
    ensures { IfOk result (λ list. view_list list.items ≡ begin_text) }
{
    let behind = op(alloc, FlatOp::Add, word(14), word(-8))?;
    Ok(vec![in alloc; set(-18, behind), set(-16, word(16))]?)
}

fn move_blanks(alloc: Global) -> Result<FlatList, AllocError>
    ensures { IfOk result (λ list. view_list list.items ≡ move_blanks) }
{
    Ok(vec![in alloc; forward(alloc, 14, -12, -8)?]?)
}

fn move_text(alloc: Global) -> Result<FlatList, AllocError>
    ensures { IfOk result (λ list. view_list list.items ≡ move_text) }
{
    Ok(vec![in alloc; forward(alloc, -18, -4, -14)?]?)
}

fn fill_variable(alloc: Global) -> Result<FlatList, AllocError>
    ensures { IfOk result (λ list. view_list list.items ≡ fill_variable) }
{
    let moved = then(move_blanks(alloc)?, move_text(alloc)?)?;
    let begun = then(begin_blanks(alloc)?, moved)?;
    let pointed = then(begin_text(alloc)?, begun)?;
    then(store_length(alloc)?, pointed)
}

/// Str of an integer: its text, in a field of a width, becomes the value of a string variable of a size,
/// as far as it has room.
pub fn str_integer(alloc: Global) -> Result<FlatRoutine, AllocError>
    ensures { IfOk result (λ routine. view_routine routine ≡ str_routine) }
{
    let filled = then(take_room(alloc)?, fill_variable(alloc)?)?;
    let body = then(make_digits(alloc)?, filled)?;
    Ok(procedure(name(b"STRINTEGER"), 12, 18, body))
}

/// The law of the routine: in each program whose unit of text holds it under its number, and wherever
/// its parts lie, it does what the runtime promises. It does nothing.
pub fn str_laws()
    ensures integer { (program : FlatProgram) (choice : Choice) (item ahead : ℕ) (unit : UnitCode) → StackFits program choice → HasText program choice item ahead → IsHeld program (runtime_key str_number) unit str_routine → MakesText program choice item }
{}
