//! The error routine, and its text.

ghost use Rattle.std.specs.Prelude.{◌≡◌, ◌++◌, IfOk, OnOk};
ghost use Rattle.kernel_code.specs.Errors.{move_word, apply, to_digits, next_digit, say_start, say_digits, end_with, ones, error_lines, error_bytes, error_of};

use crate::lines::{assembled, known_name, reference, routine};
use object_file::object_unit::{Code8086, RefKind, Refs};
use std::alloc::{AllocError, Global};
use type_layout::{Bytes, Name};
use x86_table::{
    AluOp, ByteOperand, ByteReg, Cond, Immediate, IndirectBase, Instr, Line, LineList, Memory,
    Pair, Place, Target, UnaryOp, WordOperand, WordReg,
};

/// The text with five zeros where the digits come, and a line end.
pub(crate) fn error_bytes(alloc: Global) -> Result<Bytes, AllocError>
    ensures { IfOk result (λ bytes. bytes ≡ error_bytes) }
{
    Bytes::from_slice(alloc, b"Runtime error 00000\r\n")
}

fn move_word(to: WordReg, from: WordReg) -> Instr
    ensures { result ≡ move_word to from }
{
    Instr::Mov(Pair::WordRm(to, WordOperand::Reg(from)))
}

fn apply(op: AluOp, to: WordReg, from: WordReg) -> Instr
    ensures { result ≡ apply op to from }
{
    Instr::Alu(op, Pair::WordRm(to, WordOperand::Reg(from)))
}

/// SI keeps the code, and DI leads behind the digits.
fn to_digits() -> [Instr; 2]
    ensures { result ≡ to_digits }
{
    [
        move_word(WordReg::Si, WordReg::Ax),
        Instr::MovWord(WordReg::Di, 19),
    ]
}

/// The next place downwards, DX:AX by 10, and the remainder's digit; whether there are more.
fn next_digit() -> [Instr; 7]
    ensures { result ≡ next_digit }
{
    let digit = ByteOperand::Mem(Memory {
        segment: None,
        place: Place::Indirect(IndirectBase::Di),
    });
    [
        Instr::Dec(WordReg::Di),
        Instr::MovWord(WordReg::Dx, 0),
        Instr::MovWord(WordReg::Cx, 10),
        Instr::Unary(UnaryOp::Div, Target::Word(WordOperand::Reg(WordReg::Cx))),
        Instr::AluImmediate(
            AluOp::Add,
            Immediate::Word(WordOperand::Reg(WordReg::Dx), 48),
        ),
        Instr::Mov(Pair::RmByte(digit, ByteReg::Dl)),
        apply(AluOp::Or, WordReg::Ax, WordReg::Ax),
    ]
}

/// The words before the digits go to the errors.
fn say_start() -> [Instr; 5]
    ensures { result ≡ say_start }
{
    [
        Instr::MovWord(WordReg::Bx, 2),
        Instr::MovWord(WordReg::Cx, 14),
        Instr::MovWord(WordReg::Dx, 0),
        Instr::MovByte(ByteReg::Ah, 0x40),
        Instr::Int(0x21),
    ]
}

/// So do the digits and the line end.
fn say_digits() -> [Instr; 5]
    ensures { result ≡ say_digits }
{
    [
        move_word(WordReg::Dx, WordReg::Di),
        Instr::MovWord(WordReg::Cx, 21),
        apply(AluOp::Sub, WordReg::Cx, WordReg::Di),
        Instr::MovByte(ByteReg::Ah, 0x40),
        Instr::Int(0x21),
    ]
}

/// The run ends with the code.
fn end_with() -> [Instr; 3]
    ensures { result ≡ end_with }
{
    [
        move_word(WordReg::Ax, WordReg::Si),
        Instr::MovByte(ByteReg::Ah, 0x4C),
        Instr::Int(0x21),
    ]
}

fn push_ones(lines: &mut LineList, code: &[Instr]) -> Result<(), AllocError>
    ensures { OnOk result (lines.new ≡ lines.old ++ ones code.now) }
{
    for instr in code {
        lines.push(Line::One(*instr))?;
    }
    Ok(())
}

fn error_lines(alloc: Global) -> Result<LineList, AllocError>
    ensures { IfOk result (λ lines. lines ≡ error_lines) }
{
    let mut lines = LineList::new(alloc);
    push_ones(&mut lines, &to_digits())?;
    lines.push(Line::Label(0))?;
    push_ones(&mut lines, &next_digit())?;
    lines.push(Line::JumpShort(Cond::NotEqual, 0))?;
    push_ones(&mut lines, &say_start())?;
    push_ones(&mut lines, &say_digits())?;
    push_ones(&mut lines, &end_with())?;
    Ok(lines)
}

/// The error routine: it is entered by a far jump with an error's code in AX, writes the error's text, the kernel's first
/// datum, and ends the run.
pub(crate) fn error_routine(alloc: Global, kernel: &Name) -> Result<Code8086, AllocError>
    ensures { IfOk result (λ code. code ≡ error_of kernel.now) }
{
    let lines = error_lines(alloc)?;
    let mut refs = Refs::new(alloc);
    refs.push(reference(3, RefKind::DataOffset, kernel, 0))?;
    refs.push(reference(31, RefKind::DataOffset, kernel, 0))?;
    refs.push(reference(40, RefKind::DataOffset, kernel, 0))?;
    let code = assembled(alloc, lines.as_slice())?;
    Ok(routine(known_name(b"ERROR"), code, refs))
}
