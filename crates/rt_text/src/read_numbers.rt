//! The runtime's routine that reads an integer, as flat code.

ghost use Rattle.std.specs.Prelude.{◌≡◌, IfOk, ℕ};
ghost use Rattle.flat_code.specs.View.{view_expr, view_list};
ghost use Rattle.flat_code.specs.Plain.{view_routine};
ghost use Rattle.flat_code.specs.Program.{FlatProgram, Choice, UnitCode, runtime_key};
ghost use Rattle.flat_code.specs.Legal.{StackFits};
ghost use Rattle.runtime_proofs.specs.routine_proofs.Specifications.{IsHeld};
ghost use Rattle.runtime_proofs.specs.text_memory.Data.{HasText};
ghost use Rattle.rt_text.specs.read_numbers.Routines.{is_separator, gap_round, word_step, word_round, end_word, read_word, read_number_code, read_number_routine};
ghost use Rattle.rt_text.specs.read_numbers.Specifications.{read_number_number, ReadsNumber};

use crate::numeral_steps::{begin_numeral, give_sign, is_byte, is_number, numeral_step};
use crate::read_text::{leave, peek, take};
use flat_code::flat_builders::{name, op, repeat, routine, then, when, word};
use flat_code::{FlatExpr, FlatList, FlatOp, FlatRoutine, FlatStmt};
use std::alloc::{AllocError, Global};

fn is_separator(alloc: Global) -> Result<FlatExpr, AllocError>
    ensures { IfOk result (λ expr. view_expr expr ≡ is_separator) }
{
    let gap = op(
        alloc,
        FlatOp::Or,
        is_byte(alloc, b' ')?,
        is_byte(alloc, b'\t')?,
    )?;
    let line = op(
        alloc,
        FlatOp::Or,
        is_byte(alloc, b'\r')?,
        is_byte(alloc, b'\n')?,
    )?;
    op(alloc, FlatOp::Or, gap, line)
}

// A separator is taken.
fn gap_round(alloc: Global) -> Result<FlatList, AllocError>
    ensures { IfOk result (λ list. view_list list.items ≡ gap_round) }
{
    let pass = when(is_separator(alloc)?, take(alloc)?, leave(alloc)?);
    then(peek(alloc)?, vec![in alloc; pass]?)
}

// Behind a byte by which no numeral goes on the rest of the word is taken all the same.
fn word_step(alloc: Global) -> Result<FlatList, AllocError>
    ensures { IfOk result (λ list. view_list list.items ≡ word_step) }
{
    let goes_on = op(alloc, FlatOp::Below, word(-4), FlatExpr::Number(4))?;
    Ok(vec![in alloc; when(goes_on, numeral_step(alloc)?, Vec::new(alloc))]?)
}

fn word_round(alloc: Global) -> Result<FlatList, AllocError>
    ensures { IfOk result (λ list. view_list list.items ≡ word_round) }
{
    let ends = op(alloc, FlatOp::Or, is_separator(alloc)?, is_byte(alloc, 26)?)?;
    let taken = then(word_step(alloc)?, take(alloc)?)?;
    let round = vec![in alloc; when(ends, leave(alloc)?, taken)]?;
    then(peek(alloc)?, round)
}

fn end_word(alloc: Global) -> Result<FlatList, AllocError>
    ensures { IfOk result (λ list. view_list list.items ≡ end_word) }
{
    let fails = vec![in alloc; FlatStmt::Error(106)]?;
    Ok(vec![in alloc; when(is_number(alloc, -4, 3)?, give_sign(alloc)?, fails)]?)
}

fn read_word(alloc: Global) -> Result<FlatList, AllocError>
    ensures { IfOk result (λ list. view_list list.items ≡ read_word) }
{
    then(
        vec![in alloc; repeat(word_round(alloc)?)]?,
        end_word(alloc)?,
    )
}

fn read_number_code(alloc: Global) -> Result<FlatList, AllocError>
    ensures { IfOk result (λ list. view_list list.items ≡ read_number_code) }
{
    let word = vec![in alloc; when(is_byte(alloc, 26)?, Vec::new(alloc), read_word(alloc)?)]?;
    let gap = then(vec![in alloc; repeat(gap_round(alloc)?)]?, word)?;
    then(begin_numeral(alloc)?, gap)
}

/// Reads an integer, a LongInt: the word behind blanks, tabs and line ends. Where it is no numeral,
/// the routine raises error 106.
pub fn read_number(alloc: Global) -> Result<FlatRoutine, AllocError>
    ensures { IfOk result (λ routine. view_routine routine ≡ read_number_routine) }
{
    let body = read_number_code(alloc)?;
    Ok(routine(name(b"READNUMBER"), 0, 14, -12, 4, body))
}

/// The law of the routine: in each program whose unit of text holds it under its number, and wherever
/// its parts lie, it does what the runtime promises. It does nothing.
pub fn number_reading_laws()
    ensures number { (program : FlatProgram) (choice : Choice) (item ahead : ℕ) (unit : UnitCode) → StackFits program choice → HasText program choice item ahead → IsHeld program (runtime_key read_number_number) unit read_number_routine → ReadsNumber program choice ahead }
{}
