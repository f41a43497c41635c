//! The runtime's constructor of sets, as flat code.

ghost use Rattle.std.specs.Prelude.{◌≡◌, IfOk};
ghost use Rattle.flat_code.specs.View.{view_expr, view_list};
ghost use Rattle.flat_code.specs.Plain.{view_routine};
ghost use Rattle.flat_code.specs.Program.{FlatProgram, Choice, UnitCode, runtime_key};
ghost use Rattle.flat_code.specs.Legal.{StackFits};
ghost use Rattle.runtime_proofs.specs.routine_proofs.Specifications.{IsHeld};
ghost use Rattle.rt_strings.specs.set_constructors.Routines.{take_pointer, with_bit, add_element, range_round, include_routine};
ghost use Rattle.rt_strings.specs.set_constructors.Specifications.{include_number, Includes};

use flat_code::flat_builders::{name, op, repeat, set, then, when, word};
use flat_code::{FlatExpr, FlatList, FlatOp, FlatRoutine, FlatStmt};
use runtime_proofs::string_loops::{behind, procedure, raise, set_behind};
use std::alloc::{AllocError, Global};

fn take_pointer(alloc: Global) -> Result<FlatList, AllocError>
    ensures { IfOk result (λ list. view_list list.items ≡ take_pointer) }
{
    Ok(vec![in alloc; set(-2, word(12)), set(-4, word(10))]?)
}

// The byte with the element's bit.
fn with_bit(alloc: Global) -> Result<FlatExpr, AllocError>
    ensures { IfOk result (λ expr. view_expr expr ≡ with_bit) }
{
    let place = op(alloc, FlatOp::ModUnsigned, word(8), FlatExpr::Number(8))?;
    let bit = op(alloc, FlatOp::Shl, FlatExpr::Number(1), place)?;
    op(alloc, FlatOp::Or, behind(-4, 0), bit)
}

fn add_element(alloc: Global) -> Result<FlatList, AllocError>
    ensures { IfOk result (λ list. view_list list.items ≡ add_element) }
{
    let byte = op(alloc, FlatOp::DivUnsigned, word(8), FlatExpr::Number(8))?;
    let at = op(alloc, FlatOp::Add, word(10), byte)?;
    Ok(vec![in alloc;
        set(-4, at),
        set_behind(-4, 0, with_bit(alloc)?),
        raise(alloc, 8, FlatExpr::Number(1))?,
    ]?)
}

fn range_round(alloc: Global) -> Result<FlatList, AllocError>
    ensures { IfOk result (λ list. view_list list.items ≡ range_round) }
{
    let past = op(alloc, FlatOp::Below, word(6), word(8))?;
    let leave = vec![in alloc; FlatStmt::Leave { loops: 1 }]?;
    Ok(vec![in alloc; when(past, leave, add_element(alloc)?)]?)
}

/// A set with the elements of a range besides.
pub fn include(alloc: Global) -> Result<FlatRoutine, AllocError>
    ensures { IfOk result (λ routine. view_routine routine ≡ include_routine) }
{
    let rounds = vec![in alloc; repeat(range_round(alloc)?)]?;
    let body = then(take_pointer(alloc)?, rounds)?;
    Ok(procedure(name(b"INCLUDE"), 8, 4, body))
}

/// The law of the routine: in each program whose unit of strings holds it under its number, and wherever
/// its parts lie, it does what the runtime promises. It does nothing.
pub fn constructor_laws()
    ensures { (program : FlatProgram) (choice : Choice) (unit : UnitCode) → StackFits program choice → IsHeld program (runtime_key include_number) unit include_routine → Includes program choice }
{}
