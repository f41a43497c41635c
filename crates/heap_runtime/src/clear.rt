//! The runtime's clearing of bytes, as flat code.

ghost use Rattle.std.specs.Prelude.{◌≡◌, IfOk};
ghost use Rattle.flat_code.specs.View.{view_list};
ghost use Rattle.flat_code.specs.Plain.{view_routine};
ghost use Rattle.flat_code.specs.Program.{FlatProgram, Choice, UnitCode, runtime_key};
ghost use Rattle.flat_code.specs.Legal.{StackFits};
ghost use Rattle.runtime_proofs.specs.routine_proofs.Specifications.{IsHeld};
ghost use Rattle.heap_runtime.specs.clear.Routines.{clear_step, clear_round, clear_routine};
ghost use Rattle.heap_runtime.specs.clear.Specifications.{clear_number, Clears};

use flat_code::flat_builders::{name, repeat, when, word};
use flat_code::{FlatExpr, FlatList, FlatRoutine, FlatStmt};
use runtime_proofs::string_loops::{lessen, procedure, raise, set_behind};
use std::alloc::{AllocError, Global};

fn clear_step(alloc: Global) -> Result<FlatList, AllocError>
    ensures { IfOk result (λ list. view_list list.items ≡ clear_step) }
{
    Ok(vec![in alloc;
        set_behind(8, 0, FlatExpr::Number(0)),
        raise(alloc, 8, FlatExpr::Number(1))?,
        lessen(alloc, 6, FlatExpr::Number(1))?,
    ]?)
}

fn clear_round(alloc: Global) -> Result<FlatList, AllocError>
    ensures { IfOk result (λ list. view_list list.items ≡ clear_round) }
{
    let leave = vec![in alloc; FlatStmt::Leave { loops: 1 }]?;
    Ok(vec![in alloc; when(word(6), clear_step(alloc)?, leave)]?)
}

/// Makes so many bytes from a pointer on zeros: those of a new instance, whose class fields name no
/// class before its constructor has run.
pub fn clear_bytes(alloc: Global) -> Result<FlatRoutine, AllocError>
    ensures { IfOk result (λ routine. view_routine routine ≡ clear_routine) }
{
    let body = vec![in alloc; repeat(clear_round(alloc)?)]?;
    Ok(procedure(name(b"CLEAR"), 6, 0, body))
}

/// The law of the routine: in each program whose runtime holds it under its number, and wherever its parts
/// lie, it does what the runtime promises. It does nothing.
pub fn clear_law()
    ensures { (program : FlatProgram) (choice : Choice) (unit : UnitCode) → StackFits program choice → IsHeld program (runtime_key clear_number) unit clear_routine → Clears program choice }
{}
