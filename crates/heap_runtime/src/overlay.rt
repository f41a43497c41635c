//! The runtime's OvrInit, OvrSetBuf and OvrClearBuf, as flat code.

ghost use Rattle.std.specs.Prelude.{◌≡◌, IfOk, ℕ, negsuc};
ghost use Rattle.flat_code.specs.Tree.{Code};
ghost use Rattle.flat_code.specs.View.{view_expr, view_stmt, view_list};
ghost use Rattle.flat_code.specs.Plain.{view_routine};
ghost use Rattle.flat_code.specs.Program.{FlatProgram, Choice, UnitCode, runtime_key};
ghost use Rattle.flat_code.specs.Legal.{StackFits};
ghost use Rattle.runtime_proofs.specs.routine_proofs.Specifications.{IsHeld};
ghost use Rattle.runtime_proofs.specs.string_loops.Pieces.{word as word_code, leave as leave_code};
ghost use Rattle.heap_runtime.specs.overlay.Data.{HasOverlay};
ghost use Rattle.heap_runtime.specs.overlay.Routines.{name_length, set_result as set_result_code, clear_buffer as clear_buffer_code, set_flag as set_flag_code, begin_names, capital, next_letters, letters_round, end_names, init_routine, set_buffer_routine, clear_buffer_routine};
ghost use Rattle.heap_runtime.specs.overlay.Specifications.{init_number, set_buffer_number, clear_buffer_number, Installs, SetsBuffer, ClearsBuffer};

use flat_code::flat_builders::{name, op, repeat, set, then, when, word};
use flat_code::{Address, FlatExpr, FlatList, FlatOp, FlatRoutine, FlatStmt};
use runtime_proofs::string_loops::{behind, lessen, procedure, raise};
use std::alloc::{AllocError, Global};

// The unit's data: OvrResult, and the name of the program's overlay file.
const RESULT: Address = Address::Global {
    unit: 0,
    number: 0,
    plus: 0,
};

const NAME: Address = Address::Global {
    unit: 0,
    number: 3,
    plus: 0,
};

// The value of OvrResult that tells that there is no such file: -2.
const NOT_FOUND: u16 = 65534;

fn name_length() -> FlatExpr
    ensures { view_expr result ≡ name_length }
{
    FlatExpr::Byte(NAME)
}

fn set_result(number: u16) -> FlatStmt
    ensures { (next : Code) → view_stmt result next ≡ set_result_code number next }
{
    let to = RESULT;
    let value = FlatExpr::Number(number);
    FlatStmt::StoreWord { to, value }
}

// An effect of the machine without arguments: 3 clears the overlay buffer, and 4 sets the installed flag.
fn clear_buffer_act(alloc: Global) -> Result<FlatList, AllocError>
    ensures { IfOk result (λ list. view_list list.items ≡ clear_buffer_code) }
{
    let args = Vec::new(alloc);
    Ok(vec![in alloc;
        FlatStmt::Runtime {
            number: 3,
            args,
            result: None,
        },
    ]?)
}

fn set_flag(alloc: Global) -> Result<FlatList, AllocError>
    ensures { IfOk result (λ list. view_list list.items ≡ set_flag_code) }
{
    let args = Vec::new(alloc);
    Ok(vec![in alloc;
        FlatStmt::Runtime {
            number: 4,
            args,
            result: None,
        },
    ]?)
}

// ---- OvrInit

// Names of other lengths differ from the start, and an empty name is none.
fn begin_names(alloc: Global) -> Result<FlatList, AllocError>
    ensures { IfOk result (λ list. view_list list.items ≡ begin_names) }
{
    let long = op(alloc, FlatOp::Equal, behind(6, 0), name_length())?;
    let some = op(alloc, FlatOp::Below, FlatExpr::Number(0), name_length())?;
    let same = op(alloc, FlatOp::And, long, some)?;
    Ok(vec![in alloc;
        set(-2, FlatExpr::SegmentOf(NAME)),
        set(-4, FlatExpr::AddressOf(NAME)),
        set(-6, name_length()),
        set(-8, same),
        set(-10, FlatExpr::Number(0)),
    ]?)
}

// The next byte of the string as an upper-case letter, where it is one.
fn capital_letter(alloc: Global) -> Result<FlatExpr, AllocError>
    ensures { IfOk result (λ expr. view_expr expr ≡ capital (word_code (negsuc 9))) }
{
    let above = op(alloc, FlatOp::Below, FlatExpr::Number(96), word(-10))?;
    let below = op(alloc, FlatOp::Below, word(-10), FlatExpr::Number(123))?;
    let small = op(alloc, FlatOp::And, above, below)?;
    let less = op(alloc, FlatOp::Mul, FlatExpr::Number(32), small)?;
    op(alloc, FlatOp::Sub, word(-10), less)
}

fn next_letters(alloc: Global) -> Result<FlatList, AllocError>
    ensures { IfOk result (λ list. view_list list.items ≡ next_letters) }
{
    let same = op(alloc, FlatOp::Equal, behind(-4, 1), capital_letter(alloc)?)?;
    Ok(vec![in alloc;
        set(-10, behind(6, 1)),
        set(-8, same),
        raise(alloc, 6, FlatExpr::Number(1))?,
        raise(alloc, -4, FlatExpr::Number(1))?,
        lessen(alloc, -6, FlatExpr::Number(1))?,
    ]?)
}

fn leave(alloc: Global) -> Result<FlatList, AllocError>
    ensures { IfOk result (λ list. view_list list.items ≡ leave_code) }
{
    Ok(vec![in alloc; FlatStmt::Leave { loops: 1 }]?)
}

// Up to the end, or the first two letters that differ.
fn letters_round(alloc: Global) -> Result<FlatList, AllocError>
    ensures { IfOk result (λ list. view_list list.items ≡ letters_round) }
{
    let next = when(word(-6), next_letters(alloc)?, leave(alloc)?);
    Ok(vec![in alloc; when(word(-8), vec![in alloc; next]?, leave(alloc)?)]?)
}

fn end_names(alloc: Global) -> Result<FlatList, AllocError>
    ensures { IfOk result (λ list. view_list list.items ≡ end_names) }
{
    let found = then(vec![in alloc; set_result(0)]?, set_flag(alloc)?)?;
    let none = vec![in alloc; set_result(NOT_FOUND)]?;
    Ok(vec![in alloc; when(word(-8), found, none)]?)
}

/// OvrInit: where the string names the program's overlay file, whatever the case of its letters, the
/// overlays are installed and OvrResult becomes 0; else OvrResult becomes -2.
pub fn init(alloc: Global) -> Result<FlatRoutine, AllocError>
    ensures { IfOk result (λ routine. view_routine routine ≡ init_routine) }
{
    let rounds = vec![in alloc; repeat(letters_round(alloc)?)]?;
    let compared = then(rounds, end_names(alloc)?)?;
    let body = then(begin_names(alloc)?, compared)?;
    Ok(procedure(name(b"OVRINIT"), 4, 10, body))
}

// ---- OvrSetBuf and OvrClearBuf

/// OvrSetBuf: OvrResult becomes 0. The size of the buffer is not the program's to choose.
pub fn set_buffer(alloc: Global) -> Result<FlatRoutine, AllocError>
    ensures { IfOk result (λ routine. view_routine routine ≡ set_buffer_routine) }
{
    let body = vec![in alloc; set_result(0)]?;
    Ok(procedure(name(b"OVRSETBUF"), 4, 0, body))
}

/// OvrClearBuf: all overlays go out, and OvrResult becomes 0.
pub fn clear_buffer(alloc: Global) -> Result<FlatRoutine, AllocError>
    ensures { IfOk result (λ routine. view_routine routine ≡ clear_buffer_routine) }
{
    let body = then(clear_buffer_act(alloc)?, vec![in alloc; set_result(0)]?)?;
    Ok(procedure(name(b"OVRCLEARBUF"), 0, 0, body))
}

/// The laws of the routines: in each program whose runtime holds them under their numbers, and wherever
/// its parts lie, they do what the runtime promises. It does nothing.
pub fn overlay_laws()
    ensures init { (program : FlatProgram) (choice : Choice) (at file : ℕ) (unit : UnitCode) → StackFits program choice → HasOverlay program choice at file → IsHeld program (runtime_key init_number) unit init_routine → Installs program choice at file }
    ensures set_buffer { (program : FlatProgram) (choice : Choice) (at file : ℕ) (unit : UnitCode) → StackFits program choice → HasOverlay program choice at file → IsHeld program (runtime_key set_buffer_number) unit set_buffer_routine → SetsBuffer program choice at }
    ensures clear_buffer { (program : FlatProgram) (choice : Choice) (at file : ℕ) (unit : UnitCode) → StackFits program choice → HasOverlay program choice at file → IsHeld program (runtime_key clear_buffer_number) unit clear_buffer_routine → ClearsBuffer program choice at }
{}
