//! The runtime's comparison of strings, as flat code.

ghost use Rattle.std.specs.Prelude.{◌≡◌, IfOk, negsuc, pos};
ghost use Rattle.flat_code.specs.View.{view_expr, view_list};
ghost use Rattle.flat_code.specs.Plain.{view_routine};
ghost use Rattle.flat_code.specs.Program.{FlatProgram, Choice, UnitCode, runtime_key};
ghost use Rattle.flat_code.specs.Legal.{StackFits};
ghost use Rattle.runtime_proofs.specs.routine_proofs.Specifications.{IsHeld};
ghost use Rattle.runtime_proofs.specs.string_loops.Pieces.{word as word_code, behind as behind_code, leave as leave_code};
ghost use Rattle.rt_strings.specs.string_compare.Routines.{order, compare_lengths, compare_step, compare_bytes, compare_round, compare_routine};
ghost use Rattle.rt_strings.specs.string_compare.Specifications.{compare_number, ComparesStrings};

use flat_code::flat_builders::{name, op, repeat, routine, set, then, when, word};
use flat_code::{FlatExpr, FlatList, FlatOp, FlatRoutine, FlatStmt};
use runtime_proofs::string_loops::{behind, lessen, limit, raise};
use std::alloc::{AllocError, Global};

// -1, 0 or 1, by the lengths.
fn order_of_lengths(alloc: Global) -> Result<FlatExpr, AllocError>
    ensures { IfOk result (λ expr. view_expr expr ≡ order (word_code (negsuc 3)) (word_code (negsuc 5))) }
{
    let above = op(alloc, FlatOp::Below, word(-6), word(-4))?;
    let below = op(alloc, FlatOp::Below, word(-4), word(-6))?;
    op(alloc, FlatOp::Sub, above, below)
}

// -1, 0 or 1, by the next bytes.
fn order_of_bytes(alloc: Global) -> Result<FlatExpr, AllocError>
    ensures { IfOk result (λ expr. view_expr expr ≡ order (behind_code (pos 10) 1) (behind_code (pos 6) 1)) }
{
    let above = op(alloc, FlatOp::Below, behind(6, 1), behind(10, 1))?;
    let below = op(alloc, FlatOp::Below, behind(10, 1), behind(6, 1))?;
    op(alloc, FlatOp::Sub, above, below)
}

fn compare_lengths(alloc: Global) -> Result<FlatList, AllocError>
    ensures { IfOk result (λ list. view_list list.items ≡ compare_lengths) }
{
    Ok(vec![in alloc;
        set(-4, behind(10, 0)),
        set(-6, behind(6, 0)),
        set(-8, word(-4)),
        limit(alloc, -8, -6)?,
    ]?)
}

fn compare_step(alloc: Global) -> Result<FlatList, AllocError>
    ensures { IfOk result (λ list. view_list list.items ≡ compare_step) }
{
    Ok(vec![in alloc;
        raise(alloc, 10, FlatExpr::Number(1))?,
        raise(alloc, 6, FlatExpr::Number(1))?,
        lessen(alloc, -8, FlatExpr::Number(1))?,
    ]?)
}

// The next byte of each: the first two that differ give the order.
fn compare_bytes(alloc: Global) -> Result<FlatList, AllocError>
    ensures { IfOk result (λ list. view_list list.items ≡ compare_bytes) }
{
    let same = op(alloc, FlatOp::Equal, behind(10, 1), behind(6, 1))?;
    let differ = vec![in alloc;
        set(-2, order_of_bytes(alloc)?),
        FlatStmt::Leave { loops: 1 },
    ]?;
    Ok(vec![in alloc; when(same, compare_step(alloc)?, differ)]?)
}

// Where no byte is left the lengths give it.
fn compare_round(alloc: Global) -> Result<FlatList, AllocError>
    ensures { IfOk result (λ list. view_list list.items ≡ compare_round) }
{
    let ended = vec![in alloc;
        set(-2, order_of_lengths(alloc)?),
        FlatStmt::Leave { loops: 1 },
    ]?;
    Ok(vec![in alloc; when(word(-8), compare_bytes(alloc)?, ended)]?)
}

/// The order of two strings, as -1, 0 or 1.
pub fn compare(alloc: Global) -> Result<FlatRoutine, AllocError>
    ensures { IfOk result (λ routine. view_routine routine ≡ compare_routine) }
{
    let rounds = vec![in alloc; repeat(compare_round(alloc)?)]?;
    let body = then(compare_lengths(alloc)?, rounds)?;
    Ok(routine(name(b"COMPARE"), 8, 8, -2, 2, body))
}

/// The law of the routine: in each program whose unit of strings holds it under its number, and wherever
/// its parts lie, it does what the runtime promises. It does nothing.
pub fn compare_laws()
    ensures { (program : FlatProgram) (choice : Choice) (unit : UnitCode) → StackFits program choice → IsHeld program (runtime_key compare_number) unit compare_routine → ComparesStrings program choice }
{}
