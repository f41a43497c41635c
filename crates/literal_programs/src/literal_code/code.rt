//! The code of acts.

ghost use Rattle.std.specs.Prelude.{◌≡◌, ◌++◌, ◌≤◌, OnOk, IfOk, length};
ghost use Rattle.literal_programs.specs.literal_code.Act.{end_of};
ghost use Rattle.literal_programs.specs.literal_code.Code.{start_code, write_code, halt_code, error_code, act_code, acts_code, acts_size, spelled};

use crate::literal_code::act::Act;
use crate::literal_code::program::LiteralProgram;
use std::alloc::{AllocError, Global};
use type_layout::Bytes;
use x86_table::{ByteReg, DataSeg, Instr, WordOperand, WordReg, encode};

/// The DOS services.
const DOS: u8 = 0x21;

fn start_code(segment: u16) -> [Instr; 3]
    ensures { result ≡ start_code segment }
{
    [
        Instr::MovWord(WordReg::Ax, segment),
        Instr::MovToSeg(DataSeg::Ds, WordOperand::Reg(WordReg::Ax)),
        Instr::MovWord(WordReg::Bx, 1),
    ]
}

fn write_code(offset: u16, count: u16) -> [Instr; 4]
    ensures { result ≡ write_code offset count }
{
    [
        Instr::MovWord(WordReg::Cx, count),
        Instr::MovWord(WordReg::Dx, offset),
        Instr::MovByte(ByteReg::Ah, 0x40),
        Instr::Int(DOS),
    ]
}

fn halt_code(code: u8) -> [Instr; 2]
    ensures { result ≡ halt_code code }
{
    [
        Instr::MovWord(WordReg::Ax, 0x4C00 + code as u16),
        Instr::Int(DOS),
    ]
}

fn error_code() -> [Instr; 2]
    ensures { result ≡ error_code }
{
    [Instr::MovByte(ByteReg::Ah, 0x4C), Instr::Int(DOS)]
}

fn push_all(bytes: &mut Bytes, code: &[Instr]) -> Result<(), AllocError>
    ensures { OnOk result (bytes.new ≡ bytes.old ++ spelled code.now) }
{
    for instr in code {
        bytes.extend_from_slice(encode(instr).as_slice())?;
    }
    Ok(())
}

/// Appends the code that sets DS to the data segment and BX to standard output.
pub fn push_start(bytes: &mut Bytes, segment: u16) -> Result<(), AllocError>
    ensures { OnOk result (bytes.new ≡ bytes.old ++ spelled (start_code segment)) }
{
    push_all(bytes, &start_code(segment))
}

/// Appends the error routine.
pub fn push_error_routine(bytes: &mut Bytes) -> Result<(), AllocError>
    ensures { OnOk result (bytes.new ≡ bytes.old ++ spelled error_code) }
{
    push_all(bytes, &error_code())
}

fn push_act(bytes: &mut Bytes, act: Act) -> Result<(), AllocError>
    requires { end_of act ≤ 8192 }
    ensures { OnOk result (bytes.new ≡ bytes.old ++ spelled (act_code act)) }
{
    match act {
        Act::Write { from, length } => push_all(bytes, &write_code(from as u16, length as u16)),
        Act::Halt { code } => push_all(bytes, &halt_code(code)),
    }
}

/// The code of acts, one after another, and of the end with code 0.
pub fn acts_code(alloc: Global, program: &LiteralProgram) -> Result<Bytes, AllocError>
    ensures code { IfOk result (λ bytes. bytes ≡ spelled (acts_code program.now.acts.items)) }
    ensures size { IfOk result (λ bytes. length bytes ≡ acts_size program.now.acts.items) }
    ensures short { IfOk result (λ bytes. length bytes ≤ 40965) }
{
    let mut bytes = Bytes::new(alloc);
    for act in &program.acts {
        push_act(&mut bytes, *act)?;
    }
    push_all(&mut bytes, &halt_code(0))?;
    Ok(bytes)
}
