//! What the statements of a program of literals say, as far as there is room for it.

ghost use Rattle.std.specs.Prelude.{◌≡◌, ◌+◌, ◌≤◌, ◌<◌, ◌↔◌, [], IsTrue, map, length, slice_get, vec_len};
ghost use Rattle.std.specs.Option.{option_map};
ghost use Rattle.typed_tree.specs.Expressions.{view_boxed, view_expr};
ghost use Rattle.typed_tree.specs.Statements.{view_stmt, view_stmts, view_written};
ghost use Rattle.literal_programs.specs.literal_code.LiteralProgram.{statements_of, IsFull};
ghost use Rattle.literal_programs.specs.literal_code.Statement.{halt, write};
ghost use Rattle.literal_programs.specs.Literals.{item_text, text_in};
ghost use Rattle.literal_programs.specs.Reading.{Adds, with_end, with_items, with_line, with_one, with_statement, with_statements, with_text};

use crate::items::{constant, end_code, is_char, is_string};
use crate::literal_code::LiteralProgram;
use std::alloc::AllocError;
use type_layout::{TypeId, Types};
use typed_tree::{Stmt, Value, WriteItem};

/// The most bytes that all texts may have.
const MOST_BYTES: usize = 8192;

/// The most things to do.
const MOST_ACTS: usize = 4096;

/// Why a program was not read.
#[derive(Clone, Copy, Debug, PartialEq, Eq)]
pub enum Unread {
    /// It is no program of literals, or too large.
    Other,
    /// Memory ran out.
    NoMemory,
}

impl From<AllocError> for Unread {
    ghost use Rattle.std.specs.Prelude.{◌≡◌};
    ghost use Rattle.literal_programs.specs.declared.reading.Unread.TheVariants.{NoMemory};

    ghost from_gives = { λ _ e. e ≡ NoMemory };

    fn from(_error: AllocError) -> Unread {
        Unread::NoMemory
    }
}

fn has_room(program: &LiteralProgram, bytes: usize) -> bool
    ensures { IsTrue result ↔ (vec_len program.now.pool + bytes ≤ 8192) × (vec_len program.now.acts < 4096) }
{
    program.acts.len() < MOST_ACTS && bytes <= MOST_BYTES - program.pool.len()
}

fn add_text(program: &mut LiteralProgram, bytes: &[u8]) -> Result<(), Unread>
    requires { IsFull program.old }
    ensures { Adds result program.new (with_one (write bytes.now) (statements_of program.old)) }
{
    if !has_room(program, bytes.len()) {
        return Err(Unread::Other);
    }
    program.write(bytes)?;
    Ok(())
}

fn add_halt(program: &mut LiteralProgram, code: u8) -> Result<(), Unread>
    requires { IsFull program.old }
    ensures { Adds result program.new (with_one (halt code) (statements_of program.old)) }
{
    if !has_room(program, 0) {
        return Err(Unread::Other);
    }
    program.halt(code)?;
    Ok(())
}

/// Adds the text of a constant of a type.
fn add_constant(
    program: &mut LiteralProgram,
    types: &Types,
    ty: TypeId,
    value: &Value,
) -> Result<(), Unread>
    requires { IsFull program.old }
    ensures { Adds result program.new (with_text (text_in (slice_get types.now.types ty.0) value.now) (statements_of program.old)) }
{
    match value {
        Value::Chars(bytes) if is_string(types, ty) => add_text(program, bytes.as_slice()),
        Value::Number(number) if is_char(types, ty) && 0 <= *number && *number < 256 => add_text(
            program,
            &[*number as u8],
        ),
        _ => Err(Unread::Other),
    }
}

fn add_item(program: &mut LiteralProgram, types: &Types, item: &WriteItem) -> Result<(), Unread>
    requires { IsFull program.old }
    ensures { Adds result program.new (with_text (item_text types.now.types (view_expr item.now.value.value) (option_map view_boxed item.now.width)) (statements_of program.old)) }
{
    match (&item.width, constant(&item.value)) {
        (None, Some((ty, value))) => add_constant(program, types, ty, value),
        _ => Err(Unread::Other),
    }
}

fn add_items(program: &mut LiteralProgram, types: &Types, items: &[WriteItem]) -> Result<(), Unread>
    requires { IsFull program.old }
    ensures { Adds result program.new (with_items types.now.types (map view_written items.now) (statements_of program.old)) }
{
    for item in items {
        add_item(program, types, item)?;
    }
    Ok(())
}

fn add_line(program: &mut LiteralProgram, line: bool) -> Result<(), Unread>
    requires { IsFull program.old }
    ensures { Adds result program.new (with_line line (statements_of program.old)) }
{
    if line {
        add_text(program, b"\r\n")
    } else {
        Ok(())
    }
}

/// Adds what a statement says.
#[cycle(statements)]
pub fn add_statement(
    program: &mut LiteralProgram,
    types: &Types,
    statement: &Stmt,
) -> Result<(), Unread>
    requires { IsFull program.old }
    ensures { Adds result program.new (with_statement types.now.types (view_stmt statement.now) (statements_of program.old)) }
{
    match statement {
        Stmt::Block { statements } => add_statements(program, types, statements.as_slice()),
        Stmt::WriteItems { items, line } => {
            add_items(program, types, items.as_slice())?;
            add_line(program, *line)
        }
        Stmt::Halt { code } => add_halt(program, end_code(code).ok_or(Unread::Other)?),
        _ => Err(Unread::Other),
    }
}

#[cycle(statements)]
fn add_statements(
    program: &mut LiteralProgram,
    types: &Types,
    statements: &[Stmt],
) -> Result<(), Unread>
    requires { IsFull program.old }
    ensures { Adds result program.new (with_statements types.now.types (view_stmts statements.now) (statements_of program.old)) }
{
    for statement in statements {
        add_statement(program, types, statement)?;
    }
    Ok(())
}
