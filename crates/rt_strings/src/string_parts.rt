//! The runtime's Copy, Delete and UpCase, as flat code.

ghost use Rattle.std.specs.Prelude.{◌≡◌, IfOk};
ghost use Rattle.flat_code.specs.View.{view_expr, view_list};
ghost use Rattle.flat_code.specs.Plain.{view_routine};
ghost use Rattle.flat_code.specs.Program.{FlatProgram, Choice, UnitCode, runtime_key};
ghost use Rattle.flat_code.specs.Legal.{StackFits};
ghost use Rattle.runtime_proofs.specs.routine_proofs.Specifications.{IsHeld};
ghost use Rattle.rt_strings.specs.string_parts.Routines.{piece, copy_start, copy_bytes, copy_routine, delete_start, delete_bytes, delete_routine, upper_code, upper_routine};
ghost use Rattle.rt_strings.specs.string_parts.Specifications.{copy_number, delete_number, upper_number, Copies, Deletes, MakesUpper};

use flat_code::flat_builders::{name, op, routine, set, then, when, word};
use flat_code::{FlatExpr, FlatList, FlatOp, FlatRoutine};
use runtime_proofs::string_loops::{
    behind, count_behind, forward, lessen, place_before, procedure, raise, set_behind,
};
use std::alloc::{AllocError, Global};

// Where a piece lies.
fn piece(alloc: Global) -> Result<FlatList, AllocError>
    ensures { IfOk result (λ list. view_list list.items ≡ piece) }
{
    let length = vec![in alloc; set(-2, behind(14, 0))]?;
    let before = then(length, place_before(alloc, -4, 12, 10, -2)?)?;
    then(before, count_behind(alloc, -6, -4, 8, 6, -2)?)
}

fn copy_start(alloc: Global) -> Result<FlatList, AllocError>
    ensures { IfOk result (λ list. view_list list.items ≡ copy_start) }
{
    Ok(vec![in alloc; set_behind(18, 0, word(-6)), raise(alloc, 14, word(-4))?]?)
}

fn copy_bytes(alloc: Global) -> Result<FlatList, AllocError>
    ensures { IfOk result (λ list. view_list list.items ≡ copy_bytes) }
{
    Ok(vec![in alloc; forward(alloc, 18, 14, -6)?]?)
}

/// Copy: a piece of a string.
pub fn copy(alloc: Global) -> Result<FlatRoutine, AllocError>
    ensures { IfOk result (λ routine. view_routine routine ≡ copy_routine) }
{
    let moved = then(copy_start(alloc)?, copy_bytes(alloc)?)?;
    let body = then(piece(alloc)?, moved)?;
    Ok(procedure(name(b"COPY"), 16, 6, body))
}

// The length that is left, and where the bytes behind the piece stand.
fn delete_start(alloc: Global) -> Result<FlatList, AllocError>
    ensures { IfOk result (λ list. view_list list.items ≡ delete_start) }
{
    let length = op(alloc, FlatOp::Sub, word(-2), word(-6))?;
    let source = op(alloc, FlatOp::Add, word(14), word(-6))?;
    let behind = op(alloc, FlatOp::Sub, word(-2), word(-4))?;
    let left = op(alloc, FlatOp::Sub, behind, word(-6))?;
    Ok(vec![in alloc;
        set_behind(14, 0, length),
        raise(alloc, 14, word(-4))?,
        set(-8, word(16)),
        set(-10, source),
        set(-12, left),
    ]?)
}

fn delete_bytes(alloc: Global) -> Result<FlatList, AllocError>
    ensures { IfOk result (λ list. view_list list.items ≡ delete_bytes) }
{
    Ok(vec![in alloc; forward(alloc, 14, -10, -12)?]?)
}

/// Delete: a string without a piece.
pub fn delete(alloc: Global) -> Result<FlatRoutine, AllocError>
    ensures { IfOk result (λ routine. view_routine routine ≡ delete_routine) }
{
    let moved = then(delete_start(alloc)?, delete_bytes(alloc)?)?;
    let body = then(piece(alloc)?, moved)?;
    Ok(procedure(name(b"DELETE"), 12, 12, body))
}

fn upper_code(alloc: Global) -> Result<FlatList, AllocError>
    ensures { IfOk result (λ list. view_list list.items ≡ upper_code) }
{
    let above = op(alloc, FlatOp::Below, FlatExpr::Number(96), word(6))?;
    let below = op(alloc, FlatOp::Below, word(6), FlatExpr::Number(123))?;
    let small = op(alloc, FlatOp::And, above, below)?;
    let raised = vec![in alloc; lessen(alloc, -2, FlatExpr::Number(32))?]?;
    Ok(vec![in alloc; set(-2, word(6)), when(small, raised, Vec::new(alloc))]?)
}

/// UpCase: a letter in upper case.
pub fn upper(alloc: Global) -> Result<FlatRoutine, AllocError>
    ensures { IfOk result (λ routine. view_routine routine ≡ upper_routine) }
{
    Ok(routine(name(b"UPCASE"), 2, 2, -2, 2, upper_code(alloc)?))
}

/// The laws of the routines: in each program whose unit of strings holds them under their numbers, and
/// wherever its parts lie, they do what the runtime promises. It does nothing.
pub fn part_laws()
    ensures copy { (program : FlatProgram) (choice : Choice) (unit : UnitCode) → StackFits program choice → IsHeld program (runtime_key copy_number) unit copy_routine → Copies program choice }
    ensures delete { (program : FlatProgram) (choice : Choice) (unit : UnitCode) → StackFits program choice → IsHeld program (runtime_key delete_number) unit delete_routine → Deletes program choice }
    ensures upper { (program : FlatProgram) (choice : Choice) (unit : UnitCode) → StackFits program choice → IsHeld program (runtime_key upper_number) unit upper_routine → MakesUpper program choice }
{}
