//! The runtime's operators on sets, as flat code.

ghost use Rattle.std.specs.Prelude.{◌≡◌, IfOk};
ghost use Rattle.flat_code.specs.View.{view_expr, view_list};
ghost use Rattle.flat_code.specs.Plain.{view_routine};
ghost use Rattle.flat_code.specs.Program.{FlatProgram, Choice, UnitCode, runtime_key};
ghost use Rattle.flat_code.specs.Legal.{StackFits};
ghost use Rattle.runtime_proofs.specs.routine_proofs.Specifications.{IsHeld};
ghost use Rattle.rt_strings.specs.sets.Routines.{combine_step, combine_round, all_bytes, combine_routine, union_byte, difference_byte, intersection_byte};
ghost use Rattle.rt_strings.specs.sets.Specifications.{union_number, difference_number, intersection_number, Unites, TakesAway, Intersects};

use flat_code::flat_builders::{name, op, repeat, set, then, when, word};
use flat_code::{FlatExpr, FlatList, FlatOp, FlatRoutine, FlatStmt};
use runtime_proofs::string_loops::{behind, lessen, procedure, raise, set_behind};
use std::alloc::{AllocError, Global};
use type_layout::Name;

fn combine_step(alloc: Global, value: FlatExpr) -> Result<FlatList, AllocError>
    ensures { IfOk result (λ list. view_list list.items ≡ combine_step (view_expr value)) }
{
    Ok(vec![in alloc;
        set_behind(14, 0, value),
        raise(alloc, 14, FlatExpr::Number(1))?,
        raise(alloc, 10, FlatExpr::Number(1))?,
        raise(alloc, 6, FlatExpr::Number(1))?,
        lessen(alloc, -2, FlatExpr::Number(1))?,
    ]?)
}

fn combine_round(alloc: Global, value: FlatExpr) -> Result<FlatList, AllocError>
    ensures { IfOk result (λ list. view_list list.items ≡ combine_round (view_expr value)) }
{
    let leave = vec![in alloc; FlatStmt::Leave { loops: 1 }]?;
    Ok(vec![in alloc; when(word(-2), combine_step(alloc, value)?, leave)]?)
}

fn all_bytes(alloc: Global) -> Result<FlatList, AllocError>
    ensures { IfOk result (λ list. view_list list.items ≡ all_bytes) }
{
    Ok(vec![in alloc; set(-2, FlatExpr::Number(32))]?)
}

// Each byte of the target is this value of two bytes.
fn combine(alloc: Global, name: Name, value: FlatExpr) -> Result<FlatRoutine, AllocError>
    ensures { IfOk result (λ routine. view_routine routine ≡ combine_routine (view_expr value)) }
{
    let rounds = vec![in alloc; repeat(combine_round(alloc, value)?)]?;
    let body = then(all_bytes(alloc)?, rounds)?;
    Ok(procedure(name, 12, 2, body))
}

/// The union of two sets.
pub fn union(alloc: Global) -> Result<FlatRoutine, AllocError>
    ensures { IfOk result (λ routine. view_routine routine ≡ combine_routine union_byte) }
{
    let either = op(alloc, FlatOp::Or, behind(10, 0), behind(6, 0))?;
    combine(alloc, name(b"UNION"), either)
}

/// The elements of the left set that the right one hasn't.
pub fn difference(alloc: Global) -> Result<FlatRoutine, AllocError>
    ensures { IfOk result (λ routine. view_routine routine ≡ combine_routine difference_byte) }
{
    let others = op(alloc, FlatOp::Xor, behind(6, 0), FlatExpr::Number(255))?;
    let left = op(alloc, FlatOp::And, behind(10, 0), others)?;
    combine(alloc, name(b"DIFFERENCE"), left)
}

/// The elements that both sets have.
pub fn intersection(alloc: Global) -> Result<FlatRoutine, AllocError>
    ensures { IfOk result (λ routine. view_routine routine ≡ combine_routine intersection_byte) }
{
    let both = op(alloc, FlatOp::And, behind(10, 0), behind(6, 0))?;
    combine(alloc, name(b"INTERSECTION"), both)
}

/// The laws of the routines: in each program whose unit of strings holds them under their numbers, and
/// wherever its parts lie, they do what the runtime promises. It does nothing.
pub fn set_laws()
    ensures union { (program : FlatProgram) (choice : Choice) (unit : UnitCode) → StackFits program choice → IsHeld program (runtime_key union_number) unit (combine_routine union_byte) → Unites program choice }
    ensures difference { (program : FlatProgram) (choice : Choice) (unit : UnitCode) → StackFits program choice → IsHeld program (runtime_key difference_number) unit (combine_routine difference_byte) → TakesAway program choice }
    ensures intersection { (program : FlatProgram) (choice : Choice) (unit : UnitCode) → StackFits program choice → IsHeld program (runtime_key intersection_number) unit (combine_routine intersection_byte) → Intersects program choice }
{}
