//! Values that are stored, and results that are taken or given.

ghost use Rattle.std.specs.Prelude.{◌≡◌, ◌++◌, OnOk};
ghost use Rattle.code_templates.specs.code_references.Marked.{byte_put, word_put, marked_store_byte, marked_store_word, marked_store_two, marked_taken, marked_given_by, marked_given};

use crate::generate_expressions::{at_place, byte_load, operand, push_loads, word_load};
use code_templates::code_references::MarkedLines;
use flat_code::{Address, FlatResult};
use std::alloc::AllocError;
use x86_table::{ByteOperand, ByteReg, Instr, Pair, WordOperand, WordReg};

// AL goes to a place that is loaded.
fn byte_put(far: bool, at: Address) -> Instr
    ensures { result ≡ byte_put far at }
{
    Instr::Mov(Pair::RmByte(ByteOperand::Mem(operand(far, at, 0)), ByteReg::Al))
}

// A register goes to so many bytes behind a place that is loaded.
fn word_put(far: bool, at: Address, more: u16, register: WordReg) -> Instr
    ensures { result ≡ word_put far at more register }
{
    Instr::Mov(Pair::RmWord(WordOperand::Mem(operand(far, at, more)), register))
}

/// Appends what stores AL at a place.
pub(crate) fn push_store_byte(
    lines: &mut MarkedLines,
    far: bool,
    at: Address,
) -> Result<(), AllocError>
    ensures { OnOk result (lines.new ≡ lines.old ++ marked_store_byte far at) }
{
    push_loads(lines, far, at)?;
    lines.push(at_place(at, byte_put(far, at)))
}

/// Appends what stores AX at a place.
pub(crate) fn push_store_word(
    lines: &mut MarkedLines,
    far: bool,
    at: Address,
) -> Result<(), AllocError>
    ensures { OnOk result (lines.new ≡ lines.old ++ marked_store_word far at) }
{
    push_loads(lines, far, at)?;
    lines.push(at_place(at, word_put(far, at, 0, WordReg::Ax)))
}

/// Appends what stores DX:AX at a place.
pub(crate) fn push_store_two(
    lines: &mut MarkedLines,
    far: bool,
    at: Address,
) -> Result<(), AllocError>
    ensures { OnOk result (lines.new ≡ lines.old ++ marked_store_two far at) }
{
    push_loads(lines, far, at)?;
    lines.push(at_place(at, word_put(far, at, 0, WordReg::Ax)))?;
    lines.push(at_place(at, word_put(far, at, 2, WordReg::Dx)))
}

/// Appends what takes a result from AL, AX or DX:AX to where it is wanted.
pub(crate) fn push_taken(
    lines: &mut MarkedLines,
    far: bool,
    wanted: Option<FlatResult>,
) -> Result<(), AllocError>
    ensures { OnOk result (lines.new ≡ lines.old ++ marked_taken far wanted) }
{
    match wanted {
        None => Ok(()),
        Some(wanted) => match wanted.bytes {
            1 => push_store_byte(lines, far, wanted.at),
            2 => push_store_word(lines, far, wanted.at),
            _ => push_store_two(lines, far, wanted.at),
        },
    }
}

fn push_given_byte(lines: &mut MarkedLines, far: bool, at: Address) -> Result<(), AllocError>
    ensures { OnOk result (lines.new ≡ lines.old ++ marked_given_by 1 far at) }
{
    push_loads(lines, far, at)?;
    lines.push(at_place(at, byte_load(far, at)))
}

fn push_given_word(lines: &mut MarkedLines, far: bool, at: Address) -> Result<(), AllocError>
    ensures { OnOk result (lines.new ≡ lines.old ++ marked_given_by 2 far at) }
{
    push_loads(lines, far, at)?;
    lines.push(at_place(at, word_load(WordReg::Ax, far, at, 0)))
}

fn push_given_two(lines: &mut MarkedLines, far: bool, at: Address) -> Result<(), AllocError>
    ensures { OnOk result (lines.new ≡ lines.old ++ marked_given_by 4 far at) }
{
    push_loads(lines, far, at)?;
    lines.push(at_place(at, word_load(WordReg::Ax, far, at, 0)))?;
    lines.push(at_place(at, word_load(WordReg::Dx, far, at, 2)))
}

/// Appends what gives a routine's result in AL, AX or DX:AX.
pub fn push_given(
    lines: &mut MarkedLines,
    far: bool,
    place: Option<FlatResult>,
) -> Result<(), AllocError>
    ensures { OnOk result (lines.new ≡ lines.old ++ marked_given far place) }
{
    match place {
        None => Ok(()),
        Some(place) => match place.bytes {
            1 => push_given_byte(lines, far, place.at),
            2 => push_given_word(lines, far, place.at),
            _ => push_given_two(lines, far, place.at),
        },
    }
}
