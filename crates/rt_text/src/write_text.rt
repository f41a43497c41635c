//! The runtime's routines that write strings, characters, Booleans and ends of lines, as flat code.

ghost use Rattle.std.specs.Prelude.{◌≡◌, IfOk, ℕ, codes};
ghost use Rattle.flat_code.specs.Tree.{Number, Code};
ghost use Rattle.flat_code.specs.View.{view_expr, view_stmt, view_list};
ghost use Rattle.flat_code.specs.Plain.{view_routine};
ghost use Rattle.flat_code.specs.Program.{FlatProgram, Choice, UnitCode, runtime_key};
ghost use Rattle.flat_code.specs.Legal.{StackFits};
ghost use Rattle.runtime_proofs.specs.routine_proofs.Specifications.{IsHeld};
ghost use Rattle.runtime_proofs.specs.text_memory.Data.{HasText};
ghost use Rattle.rt_text.specs.write_text.Routines.{begin_string, write_string_routine, set_item, set_items, begin_made, make_char, write_char_routine, make_boolean, write_boolean_routine, write_line_code, write_line_routine};
ghost use Rattle.rt_text.specs.write_text.Specifications.{write_string_number, write_char_number, write_boolean_number, write_line_number, WritesString, WritesChar, WritesBoolean, WritesLine};

mod showing;

use flat_code::flat_builders::{name, set, then, when, word};
use flat_code::{FlatExpr, FlatList, FlatRoutine, FlatStmt};
use runtime_proofs::string_loops::{behind, procedure};
use runtime_proofs::text_memory::{item_at, item_offset, item_segment, print, set_segment};
pub use showing::show_text;
use std::alloc::{AllocError, Global};

fn begin_string(alloc: Global) -> Result<FlatList, AllocError>
    ensures { IfOk result (λ list. view_list list.items ≡ begin_string) }
{
    Ok(vec![in alloc; set(-2, word(10)), set(-4, word(8)), set(-6, behind(-4, 0))]?)
}

/// Writes a string in a field of a width.
pub fn write_string(alloc: Global) -> Result<FlatRoutine, AllocError>
    ensures { IfOk result (λ routine. view_routine routine ≡ write_string_routine) }
{
    let body = then(begin_string(alloc)?, show_text(alloc)?)?;
    Ok(procedure(name(b"WRITESTRING"), 6, 14, body))
}

// A byte of the item buffer becomes the lower byte of a value.
fn set_item(plus: u16, value: FlatExpr) -> FlatStmt
    ensures { (next : Code) → view_stmt result next ≡ set_item plus (view_expr value) next }
{
    let to = item_at(plus);
    FlatStmt::StoreByte { to, value }
}

// A text of so many bytes was made at the end of the item buffer.
fn begin_made(alloc: Global, count: u16) -> Result<FlatList, AllocError>
    ensures { IfOk result (λ list. view_list list.items ≡ begin_made count) }
{
    Ok(vec![in alloc;
        set(-6, FlatExpr::Number(count)),
        set(-4, item_offset(496)),
        set_segment(-2),
    ]?)
}

fn make_char(alloc: Global) -> Result<FlatList, AllocError>
    ensures { IfOk result (λ list. view_list list.items ≡ make_char) }
{
    then(
        vec![in alloc; set_item(497, word(8))]?,
        begin_made(alloc, 1)?,
    )
}

/// Writes a character in a field of a width.
pub fn write_char(alloc: Global) -> Result<FlatRoutine, AllocError>
    ensures { IfOk result (λ routine. view_routine routine ≡ write_char_routine) }
{
    let body = then(make_char(alloc)?, show_text(alloc)?)?;
    Ok(procedure(name(b"WRITECHAR"), 4, 14, body))
}

fn letter(plus: u16, byte: u8) -> FlatStmt
    ensures { (next : Code) → view_stmt result next ≡ set_item plus (Number byte) next }
{
    set_item(plus, FlatExpr::Number(u16::from(byte)))
}

fn make_true(alloc: Global) -> Result<FlatList, AllocError>
    ensures { IfOk result (λ list. view_list list.items ≡ set_items 497 (codes "TRUE") (begin_made 4)) }
{
    let text = vec![in alloc;
        letter(497, b'T'),
        letter(498, b'R'),
        letter(499, b'U'),
        letter(500, b'E'),
    ]?;
    then(text, begin_made(alloc, 4)?)
}

fn make_false(alloc: Global) -> Result<FlatList, AllocError>
    ensures { IfOk result (λ list. view_list list.items ≡ set_items 497 (codes "FALSE") (begin_made 5)) }
{
    let text = vec![in alloc;
        letter(497, b'F'),
        letter(498, b'A'),
        letter(499, b'L'),
        letter(500, b'S'),
        letter(501, b'E'),
    ]?;
    then(text, begin_made(alloc, 5)?)
}

fn make_boolean(alloc: Global) -> Result<FlatList, AllocError>
    ensures { IfOk result (λ list. view_list list.items ≡ make_boolean) }
{
    Ok(vec![in alloc; when(word(8), make_true(alloc)?, make_false(alloc)?)]?)
}

/// Writes a Boolean in a field of a width: TRUE where its word isn't 0.
pub fn write_boolean(alloc: Global) -> Result<FlatRoutine, AllocError>
    ensures { IfOk result (λ routine. view_routine routine ≡ write_boolean_routine) }
{
    let body = then(make_boolean(alloc)?, show_text(alloc)?)?;
    Ok(procedure(name(b"WRITEBOOLEAN"), 4, 14, body))
}

/// Writes the end of a line.
pub fn write_line(alloc: Global) -> Result<FlatRoutine, AllocError>
    ensures { IfOk result (λ routine. view_routine routine ≡ write_line_routine) }
{
    let printed = print(alloc, item_segment(), item_offset(497), FlatExpr::Number(2))?;
    let body = vec![in alloc; letter(497, 13), letter(498, 10), printed]?;
    Ok(procedure(name(b"WRITELINE"), 0, 0, body))
}

/// The laws of the routines: in each program whose unit of text holds them under their numbers, and
/// wherever its parts lie, they do what the runtime promises. It does nothing.
pub fn write_laws()
    ensures string { (program : FlatProgram) (choice : Choice) (item ahead : ℕ) (unit : UnitCode) → StackFits program choice → HasText program choice item ahead → IsHeld program (runtime_key write_string_number) unit write_string_routine → WritesString program choice item }
    ensures char { (program : FlatProgram) (choice : Choice) (item ahead : ℕ) (unit : UnitCode) → StackFits program choice → HasText program choice item ahead → IsHeld program (runtime_key write_char_number) unit write_char_routine → WritesChar program choice item }
    ensures boolean { (program : FlatProgram) (choice : Choice) (item ahead : ℕ) (unit : UnitCode) → StackFits program choice → HasText program choice item ahead → IsHeld program (runtime_key write_boolean_number) unit write_boolean_routine → WritesBoolean program choice item }
    ensures line { (program : FlatProgram) (choice : Choice) (item ahead : ℕ) (unit : UnitCode) → StackFits program choice → HasText program choice item ahead → IsHeld program (runtime_key write_line_number) unit write_line_routine → WritesLine program choice item }
{}
