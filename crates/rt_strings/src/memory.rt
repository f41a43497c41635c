//! The runtime's loads through pointers and its moving of bytes, as flat code.

ghost use Rattle.std.specs.Prelude.{◌≡◌, IfOk};
ghost use Rattle.flat_code.specs.View.{view_expr, view_list};
ghost use Rattle.flat_code.specs.Plain.{view_routine};
ghost use Rattle.flat_code.specs.Program.{FlatProgram, Choice, UnitCode, runtime_key};
ghost use Rattle.flat_code.specs.Legal.{StackFits};
ghost use Rattle.runtime_proofs.specs.routine_proofs.Specifications.{IsHeld};
ghost use Rattle.rt_strings.specs.memory.Routines.{short_value, load_byte_routine, load_short_routine, load_word_routine, move_step, move_round, move_routine};
ghost use Rattle.rt_strings.specs.memory.Specifications.{load_byte_number, load_short_number, load_word_number, move_number, LoadsByte, LoadsShort, LoadsWord, MovesBytes};

use flat_code::flat_builders::{name, op, repeat, routine, set, when, word};
use flat_code::{Address, FlatExpr, FlatList, FlatOp, FlatRoutine, FlatStmt};
use runtime_proofs::string_loops::{behind, lessen, procedure, raise, set_behind};
use std::alloc::{AllocError, Global};

/// The byte that a pointer leads to, as a word.
pub fn load_byte(alloc: Global) -> Result<FlatRoutine, AllocError>
    ensures { IfOk result (λ routine. view_routine routine ≡ load_byte_routine) }
{
    let body = vec![in alloc; set(-2, behind(6, 0))]?;
    Ok(routine(name(b"LOADBYTE"), 4, 2, -2, 2, body))
}

// A byte of 128 and more is 256 less.
fn short_value(alloc: Global) -> Result<FlatExpr, AllocError>
    ensures { IfOk result (λ expr. view_expr expr ≡ short_value) }
{
    let negative = op(alloc, FlatOp::Below, FlatExpr::Number(127), behind(6, 0))?;
    let less = op(alloc, FlatOp::Mul, negative, FlatExpr::Number(256))?;
    op(alloc, FlatOp::Sub, behind(6, 0), less)
}

/// The ShortInt that a pointer leads to, as a word with its sign.
pub fn load_short(alloc: Global) -> Result<FlatRoutine, AllocError>
    ensures { IfOk result (λ routine. view_routine routine ≡ load_short_routine) }
{
    let body = vec![in alloc; set(-2, short_value(alloc)?)]?;
    Ok(routine(name(b"LOADSHORT"), 4, 2, -2, 2, body))
}

/// The word that a pointer leads to.
pub fn load_word(alloc: Global) -> Result<FlatRoutine, AllocError>
    ensures { IfOk result (λ routine. view_routine routine ≡ load_word_routine) }
{
    let value = FlatExpr::Word(Address::Through { slot: 6, plus: 0 });
    let body = vec![in alloc; set(-2, value)]?;
    Ok(routine(name(b"LOADWORD"), 4, 2, -2, 2, body))
}

fn move_step(alloc: Global) -> Result<FlatList, AllocError>
    ensures { IfOk result (λ list. view_list list.items ≡ move_step) }
{
    Ok(vec![in alloc;
        set_behind(12, 0, behind(8, 0)),
        raise(alloc, 12, FlatExpr::Number(1))?,
        raise(alloc, 8, FlatExpr::Number(1))?,
        lessen(alloc, 6, FlatExpr::Number(1))?,
    ]?)
}

fn move_round(alloc: Global) -> Result<FlatList, AllocError>
    ensures { IfOk result (λ list. view_list list.items ≡ move_round) }
{
    let leave = vec![in alloc; FlatStmt::Leave { loops: 1 }]?;
    Ok(vec![in alloc; when(word(6), move_step(alloc)?, leave)]?)
}

/// Moves so many bytes from one pointer to another, the first one first.
pub fn move_bytes(alloc: Global) -> Result<FlatRoutine, AllocError>
    ensures { IfOk result (λ routine. view_routine routine ≡ move_routine) }
{
    let body = vec![in alloc; repeat(move_round(alloc)?)]?;
    Ok(procedure(name(b"MOVE"), 10, 0, body))
}

/// The laws of the routines: in each program whose unit of strings holds them under their numbers, and
/// wherever its parts lie, they do what the runtime promises. It does nothing.
pub fn memory_laws()
    ensures byte { (program : FlatProgram) (choice : Choice) (unit : UnitCode) → StackFits program choice → IsHeld program (runtime_key load_byte_number) unit load_byte_routine → LoadsByte program choice }
    ensures short { (program : FlatProgram) (choice : Choice) (unit : UnitCode) → StackFits program choice → IsHeld program (runtime_key load_short_number) unit load_short_routine → LoadsShort program choice }
    ensures word { (program : FlatProgram) (choice : Choice) (unit : UnitCode) → StackFits program choice → IsHeld program (runtime_key load_word_number) unit load_word_routine → LoadsWord program choice }
    ensures moves { (program : FlatProgram) (choice : Choice) (unit : UnitCode) → StackFits program choice → IsHeld program (runtime_key move_number) unit move_routine → MovesBytes program choice }
{}
