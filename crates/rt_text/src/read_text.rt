//! The runtime's routines that look at the input and read characters and lines, as flat code.

ghost use Rattle.std.specs.Prelude.{◌≡◌, IfOk, ℕ};
ghost use Rattle.flat_code.specs.Tree.{Code};
ghost use Rattle.flat_code.specs.View.{view_expr, view_stmt, view_list};
ghost use Rattle.flat_code.specs.Plain.{view_routine};
ghost use Rattle.flat_code.specs.Program.{FlatProgram, Choice, UnitCode, runtime_key};
ghost use Rattle.flat_code.specs.Legal.{StackFits};
ghost use Rattle.runtime_proofs.specs.routine_proofs.Specifications.{IsHeld};
ghost use Rattle.runtime_proofs.specs.string_loops.Pieces.{leave as leave_code};
ghost use Rattle.runtime_proofs.specs.text_memory.Data.{HasText};
ghost use Rattle.rt_text.specs.read_text.Ahead.{set_ahead, read_ahead, fill, peek as peek_code, take as take_code};
ghost use Rattle.rt_text.specs.read_text.Routines.{function_of, is_byte as is_byte_code, ends_text as ends_text_code, eof_routine, eoln_routine, take_char, read_char_routine, after_return, after_byte, line_round, read_line_routine};
ghost use Rattle.rt_text.specs.read_text.Specifications.{eof_number, eoln_number, read_char_number, read_line_number, TellsEof, TellsEoln, ReadsChar, ReadsLine};

use flat_code::flat_builders::{name, op, repeat, routine, set, then, when, word};
use flat_code::{FlatExpr, FlatList, FlatOp, FlatRoutine, FlatStmt};
use runtime_proofs::string_loops::procedure;
use runtime_proofs::text_memory::{ahead_at, fetch};
use std::alloc::{AllocError, Global};
use type_layout::Name;

fn set_ahead(value: FlatExpr) -> FlatStmt
    ensures { (next : Code) → view_stmt result next ≡ set_ahead (view_expr value) next }
{
    let to = ahead_at();
    FlatStmt::StoreWord { to, value }
}

fn read_ahead(alloc: Global) -> Result<FlatList, AllocError>
    ensures { IfOk result (λ list. view_list list.items ≡ read_ahead) }
{
    let end = op(alloc, FlatOp::Equal, word(-2), FlatExpr::Number(0xffff))?;
    let taken = vec![in alloc; set(-2, FlatExpr::Number(26))]?;
    Ok(vec![in alloc;
        fetch(alloc, -2),
        when(end, taken, Vec::new(alloc)),
        set_ahead(word(-2)),
    ]?)
}

fn fill(alloc: Global) -> Result<FlatList, AllocError>
    ensures { IfOk result (λ list. view_list list.items ≡ fill) }
{
    let none = op(
        alloc,
        FlatOp::Equal,
        FlatExpr::Word(ahead_at()),
        FlatExpr::Number(256),
    )?;
    Ok(vec![in alloc; when(none, read_ahead(alloc)?, Vec::new(alloc))]?)
}

/// The word at -2 becomes the next byte of the input, or 26 at its end. Nothing is taken.
pub fn peek(alloc: Global) -> Result<FlatList, AllocError>
    ensures { IfOk result (λ list. view_list list.items ≡ peek_code) }
{
    then(
        fill(alloc)?,
        vec![in alloc; set(-2, FlatExpr::Word(ahead_at()))]?,
    )
}

/// The byte ahead is taken.
pub fn take(alloc: Global) -> Result<FlatList, AllocError>
    ensures { IfOk result (λ list. view_list list.items ≡ take_code) }
{
    Ok(vec![in alloc; set_ahead(FlatExpr::Number(256))]?)
}

/// Whether the byte ahead is this one.
pub fn is_byte(alloc: Global, byte: u16) -> Result<FlatExpr, AllocError>
    ensures { IfOk result (λ expr. view_expr expr ≡ is_byte_code byte) }
{
    op(alloc, FlatOp::Equal, word(-2), FlatExpr::Number(byte))
}

/// Whether the byte ahead ends a line or the input.
pub fn ends_text(alloc: Global) -> Result<FlatExpr, AllocError>
    ensures { IfOk result (λ expr. view_expr expr ≡ ends_text_code) }
{
    let line = op(alloc, FlatOp::Or, is_byte(alloc, 13)?, is_byte(alloc, 10)?)?;
    op(alloc, FlatOp::Or, line, is_byte(alloc, 26)?)
}

/// Leaves the loop.
pub fn leave(alloc: Global) -> Result<FlatList, AllocError>
    ensures { IfOk result (λ list. view_list list.items ≡ leave_code) }
{
    Ok(vec![in alloc; FlatStmt::Leave { loops: 1 }]?)
}

fn function(name: Name, body: FlatList) -> FlatRoutine
    ensures { view_routine result ≡ function_of (view_list body.items) }
{
    routine(name, 0, 2, -2, 2, body)
}

/// Eof: whether the input has ended.
pub fn eof(alloc: Global) -> Result<FlatRoutine, AllocError>
    ensures { IfOk result (λ routine. view_routine routine ≡ eof_routine) }
{
    let body = then(peek(alloc)?, vec![in alloc; set(-2, is_byte(alloc, 26)?)]?)?;
    Ok(function(name(b"EOF"), body))
}

/// Eoln: whether a line has ended, or the input.
pub fn eoln(alloc: Global) -> Result<FlatRoutine, AllocError>
    ensures { IfOk result (λ routine. view_routine routine ≡ eoln_routine) }
{
    let body = then(peek(alloc)?, vec![in alloc; set(-2, ends_text(alloc)?)]?)?;
    Ok(function(name(b"EOLN"), body))
}

fn take_char(alloc: Global) -> Result<FlatList, AllocError>
    ensures { IfOk result (λ list. view_list list.items ≡ take_char) }
{
    Ok(vec![in alloc; when(is_byte(alloc, 26)?, Vec::new(alloc), take(alloc)?)]?)
}

/// Reads a character: byte 26 where the input has ended.
pub fn read_char(alloc: Global) -> Result<FlatRoutine, AllocError>
    ensures { IfOk result (λ routine. view_routine routine ≡ read_char_routine) }
{
    let body = then(peek(alloc)?, take_char(alloc)?)?;
    Ok(function(name(b"READCHAR"), body))
}

fn after_return(alloc: Global) -> Result<FlatList, AllocError>
    ensures { IfOk result (λ list. view_list list.items ≡ after_return) }
{
    let feed = when(is_byte(alloc, 10)?, take(alloc)?, Vec::new(alloc));
    let rest = then(vec![in alloc; feed]?, leave(alloc)?)?;
    then(peek(alloc)?, rest)
}

fn after_byte(alloc: Global) -> Result<FlatList, AllocError>
    ensures { IfOk result (λ list. view_list list.items ≡ after_byte) }
{
    let feed = when(is_byte(alloc, 10)?, leave(alloc)?, Vec::new(alloc));
    let other = vec![in alloc; feed]?;
    Ok(vec![in alloc; when(is_byte(alloc, 13)?, after_return(alloc)?, other)]?)
}

fn line_round(alloc: Global) -> Result<FlatList, AllocError>
    ensures { IfOk result (λ list. view_list list.items ≡ line_round) }
{
    let taken = then(take(alloc)?, after_byte(alloc)?)?;
    let rest = vec![in alloc; when(is_byte(alloc, 26)?, leave(alloc)?, taken)]?;
    then(peek(alloc)?, rest)
}

/// Reads the rest of a line, with its end.
pub fn read_line(alloc: Global) -> Result<FlatRoutine, AllocError>
    ensures { IfOk result (λ routine. view_routine routine ≡ read_line_routine) }
{
    let body = vec![in alloc; repeat(line_round(alloc)?)]?;
    Ok(procedure(name(b"READLINE"), 0, 2, body))
}

/// The laws of the routines: in each program whose unit of text holds them under their numbers, and
/// wherever its parts lie, they do what the runtime promises. It does nothing.
pub fn read_laws()
    ensures eof { (program : FlatProgram) (choice : Choice) (item ahead : ℕ) (unit : UnitCode) → StackFits program choice → HasText program choice item ahead → IsHeld program (runtime_key eof_number) unit eof_routine → TellsEof program choice ahead }
    ensures eoln { (program : FlatProgram) (choice : Choice) (item ahead : ℕ) (unit : UnitCode) → StackFits program choice → HasText program choice item ahead → IsHeld program (runtime_key eoln_number) unit eoln_routine → TellsEoln program choice ahead }
    ensures char { (program : FlatProgram) (choice : Choice) (item ahead : ℕ) (unit : UnitCode) → StackFits program choice → HasText program choice item ahead → IsHeld program (runtime_key read_char_number) unit read_char_routine → ReadsChar program choice ahead }
    ensures line { (program : FlatProgram) (choice : Choice) (item ahead : ℕ) (unit : UnitCode) → StackFits program choice → HasText program choice item ahead → IsHeld program (runtime_key read_line_number) unit read_line_routine → ReadsLine program choice ahead }
{}
