//! The runtime's routines on strings, as flat code.

ghost use Rattle.std.specs.Prelude.{◌≡◌, IfOk};
ghost use Rattle.flat_code.specs.Tree.{Byte, StoreByte, Do, Code};
ghost use Rattle.flat_code.specs.View.{view_expr, view_stmt, view_list};
ghost use Rattle.flat_code.specs.Plain.{view_routine};
ghost use Rattle.flat_code.specs.Program.{FlatProgram, Choice, UnitCode, runtime_key};
ghost use Rattle.flat_code.specs.Legal.{StackFits};
ghost use Rattle.runtime_proofs.specs.routine_proofs.Specifications.{IsHeld};
ghost use Rattle.rt_strings.specs.short_strings.Routines.{count, take_length, cut_length, store_length, step_on, one_byte, move_byte, assign_routine};
ghost use Rattle.rt_strings.specs.short_strings.Specifications.{assign_number, Assigns};

use flat_code::flat_builders::{name, op, repeat, set, then, when, word};
use flat_code::{Address, FlatExpr, FlatList, FlatOp, FlatRoutine, FlatStmt};
use std::alloc::{AllocError, Global};

fn count() -> FlatExpr
    ensures { view_expr result ≡ count }
{
    word(-2)
}

// The byte so far behind a pointer.
fn byte_through(slot: i32, plus: u16) -> FlatExpr
    ensures { view_expr result ≡ Byte (Address.Through slot plus) }
{
    FlatExpr::Byte(Address::Through { slot, plus })
}

fn set_byte(slot: i32, plus: u16, value: FlatExpr) -> FlatStmt
    ensures { (next : Code) → view_stmt result next ≡ Do (StoreByte (Address.Through slot plus) (view_expr value)) next }
{
    let to = Address::Through { slot, plus };
    FlatStmt::StoreByte { to, value }
}

fn take_length(alloc: Global) -> Result<FlatList, AllocError>
    ensures { IfOk result (λ list. view_list list.items ≡ take_length) }
{
    Ok(vec![in alloc; set(-2, byte_through(6, 0))]?)
}

fn cut_length(alloc: Global) -> Result<FlatList, AllocError>
    ensures { IfOk result (λ list. view_list list.items ≡ cut_length) }
{
    let longer = op(alloc, FlatOp::Below, word(10), count())?;
    let cut = vec![in alloc; set(-2, word(10))]?;
    Ok(vec![in alloc; when(longer, cut, Vec::new(alloc))]?)
}

fn store_length(alloc: Global) -> Result<FlatList, AllocError>
    ensures { IfOk result (λ list. view_list list.items ≡ store_length) }
{
    Ok(vec![in alloc; set_byte(12, 0, count())]?)
}

// One word further.
fn step_on(alloc: Global, at: i32) -> Result<FlatStmt, AllocError>
    ensures { IfOk result (λ stmt. (next : Code) → view_stmt stmt next ≡ step_on at next) }
{
    Ok(set(at, op(alloc, FlatOp::Add, word(at), FlatExpr::Number(1))?))
}

fn one_byte(alloc: Global) -> Result<FlatList, AllocError>
    ensures { IfOk result (λ list. view_list list.items ≡ one_byte) }
{
    let fewer = op(alloc, FlatOp::Sub, count(), FlatExpr::Number(1))?;
    let moved = set_byte(12, 1, byte_through(6, 1));
    Ok(vec![in alloc;
        moved,
        step_on(alloc, 12)?,
        step_on(alloc, 6)?,
        set(-2, fewer),
    ]?)
}

// A byte, or the end where none is left.
fn move_byte(alloc: Global) -> Result<FlatList, AllocError>
    ensures { IfOk result (λ list. view_list list.items ≡ move_byte) }
{
    let leave = vec![in alloc; FlatStmt::Leave { loops: 1 }]?;
    Ok(vec![in alloc; when(count(), one_byte(alloc)?, leave)]?)
}

/// The assignment of a string, cut to the size of its target.
pub fn assign(alloc: Global) -> Result<FlatRoutine, AllocError>
    ensures { IfOk result (λ routine. view_routine routine ≡ assign_routine) }
{
    let moving = vec![in alloc; repeat(move_byte(alloc)?)]?;
    let stored = then(store_length(alloc)?, moving)?;
    let cut = then(cut_length(alloc)?, stored)?;
    let body = then(take_length(alloc)?, cut)?;
    Ok(FlatRoutine {
        name: name(b"ASSIGN"),
        far: true,
        arguments: 10,
        locals: 2,
        frame: 0,
        result: None,
        body,
    })
}

/// The laws of the routines: in each program whose unit of strings holds the routine under its number,
/// and wherever its parts lie, it does what the runtime promises. It does nothing.
pub fn string_laws()
    ensures assign { (program : FlatProgram) (choice : Choice) (unit : UnitCode) → StackFits program choice → IsHeld program (runtime_key assign_number) unit assign_routine → Assigns program choice }
{}
