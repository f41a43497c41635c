//! The runtime's routine that reads a string, as flat code.

ghost use Rattle.std.specs.Prelude.{◌≡◌, IfOk, ℕ};
ghost use Rattle.flat_code.specs.View.{view_list};
ghost use Rattle.flat_code.specs.Plain.{view_routine};
ghost use Rattle.flat_code.specs.Program.{FlatProgram, Choice, UnitCode, runtime_key};
ghost use Rattle.flat_code.specs.Legal.{StackFits};
ghost use Rattle.runtime_proofs.specs.routine_proofs.Specifications.{IsHeld};
ghost use Rattle.runtime_proofs.specs.text_memory.Data.{HasText};
ghost use Rattle.rt_text.specs.read_strings.Routines.{begin_text, take_byte, text_round, set_length, read_string_routine};
ghost use Rattle.rt_text.specs.read_strings.Specifications.{read_string_number, ReadsString};

use crate::read_text::{ends_text, leave, peek, take};
use flat_code::flat_builders::{name, op, repeat, set, then, when, word};
use flat_code::{FlatExpr, FlatList, FlatOp, FlatRoutine};
use runtime_proofs::string_loops::{procedure, raise, set_behind};
use std::alloc::{AllocError, Global};

fn begin_text(alloc: Global) -> Result<FlatList, AllocError>
    ensures { IfOk result (λ list. view_list list.items ≡ begin_text) }
{
    Ok(vec![in alloc;
        set(-2, FlatExpr::Number(0)),
        set(-4, word(10)),
        set(-6, word(8)),
        set(-8, FlatExpr::Number(0)),
    ]?)
}

fn take_byte(alloc: Global) -> Result<FlatList, AllocError>
    ensures { IfOk result (λ list. view_list list.items ≡ take_byte) }
{
    let stored = vec![in alloc;
        set_behind(-6, 1, word(-2)),
        raise(alloc, -6, FlatExpr::Number(1))?,
        raise(alloc, -8, FlatExpr::Number(1))?,
    ]?;
    then(stored, take(alloc)?)
}

fn text_round(alloc: Global) -> Result<FlatList, AllocError>
    ensures { IfOk result (λ list. view_list list.items ≡ text_round) }
{
    let full = op(alloc, FlatOp::Equal, word(-8), word(6))?;
    let ends = when(ends_text(alloc)?, leave(alloc)?, take_byte(alloc)?);
    let more = then(peek(alloc)?, vec![in alloc; ends]?)?;
    Ok(vec![in alloc; when(full, leave(alloc)?, more)]?)
}

fn set_length(alloc: Global) -> Result<FlatList, AllocError>
    ensures { IfOk result (λ list. view_list list.items ≡ set_length) }
{
    Ok(vec![in alloc; set_behind(8, 0, word(-8))]?)
}

/// Reads a string, up to the end of a line or the size of its variable.
pub fn read_string(alloc: Global) -> Result<FlatRoutine, AllocError>
    ensures { IfOk result (λ routine. view_routine routine ≡ read_string_routine) }
{
    let rounds = then(
        vec![in alloc; repeat(text_round(alloc)?)]?,
        set_length(alloc)?,
    )?;
    let body = then(begin_text(alloc)?, rounds)?;
    Ok(procedure(name(b"READSTRING"), 6, 8, body))
}

/// The law of the routine: in each program whose unit of text holds it under its number, and wherever
/// its parts lie, it does what the runtime promises. It does nothing.
pub fn string_reading_laws()
    ensures string { (program : FlatProgram) (choice : Choice) (item ahead : ℕ) (unit : UnitCode) → StackFits program choice → HasText program choice item ahead → IsHeld program (runtime_key read_string_number) unit read_string_routine → ReadsString program choice ahead }
{}
