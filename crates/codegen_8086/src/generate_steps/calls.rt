//! Calls and effects of the machine, behind their arguments.

ghost use Rattle.std.specs.Prelude.{◌≡◌, ◌++◌, OnOk};
ghost use Rattle.flat_code.specs.Plain.{view_unit};
ghost use Rattle.code_templates.specs.code_lines.Lines.{write_code, read_code, end_code};
ghost use Rattle.code_templates.specs.code_references.Marked.{marked_far, marked_own, marked_call, marked_runtime};

use crate::generate_expressions::{apply, marked, move_word, push_plain};
use code_templates::code_references::{MarkedLines, Target};
use flat_code::FlatUnit;
use std::alloc::AllocError;
use type_layout::RoutineId;
use x86_table::{AluOp, ByteReg, DataSeg, Instr, SegReg, WordOperand, WordReg};

fn push_call_far(lines: &mut MarkedLines, target: Target) -> Result<(), AllocError>
    ensures { OnOk result (lines.new ≡ lines.old ++ marked_far target) }
{
    lines.push(marked(Instr::CallFar(0, 0), target))
}

// A routine of the same unit is called by its distance.
fn push_call_own(lines: &mut MarkedLines, far: bool, number: u32) -> Result<(), AllocError>
    ensures { OnOk result (lines.new ≡ lines.old ++ marked_own far number) }
{
    if far {
        push_plain(lines, &[Instr::PushSeg(SegReg::Cs)])?;
    }
    lines.push(marked(Instr::CallNear(0), Target::OwnRoutine(number)))
}

/// Appends the call of a routine, near or far.
pub(crate) fn push_call(
    lines: &mut MarkedLines,
    unit: &FlatUnit,
    routine: RoutineId,
) -> Result<(), AllocError>
    ensures { OnOk result (lines.new ≡ lines.old ++ marked_call (view_unit unit.now) routine.unit routine.number) }
{
    let RoutineId {
        unit: place,
        number,
    } = routine;
    if place > 0 {
        return push_call_far(
            lines,
            Target::Routine {
                unit: place,
                number,
            },
        );
    }
    match unit.routines.as_slice().get(number as usize) {
        None => push_call_far(lines, Target::Routine { unit: 0, number }),
        Some(called) => push_call_own(lines, called.far, number),
    }
}

fn write_code() -> [Instr; 9]
    ensures { result ≡ write_code }
{
    [
        Instr::Pop(WordReg::Cx),
        Instr::Pop(WordReg::Dx),
        Instr::Pop(WordReg::Ax),
        Instr::Pop(WordReg::Bx),
        Instr::PushSeg(SegReg::Ds),
        Instr::MovToSeg(DataSeg::Ds, WordOperand::Reg(WordReg::Ax)),
        Instr::MovByte(ByteReg::Ah, 0x40),
        Instr::Int(0x21),
        Instr::PopSeg(DataSeg::Ds),
    ]
}

fn read_code() -> [Instr; 14]
    ensures { result ≡ read_code }
{
    [
        Instr::MovWord(WordReg::Ax, 0),
        Instr::Push(WordReg::Ax),
        move_word(WordReg::Dx, WordReg::Sp),
        Instr::PushSeg(SegReg::Ds),
        Instr::PushSeg(SegReg::Ss),
        Instr::PopSeg(DataSeg::Ds),
        Instr::MovWord(WordReg::Bx, 0),
        Instr::MovWord(WordReg::Cx, 1),
        Instr::MovByte(ByteReg::Ah, 0x3F),
        Instr::Int(0x21),
        Instr::PopSeg(DataSeg::Ds),
        Instr::Pop(WordReg::Cx),
        Instr::Dec(WordReg::Ax),
        apply(AluOp::Or, WordReg::Ax, WordReg::Cx),
    ]
}

fn end_code() -> [Instr; 3]
    ensures { result ≡ end_code }
{
    [
        Instr::Pop(WordReg::Ax),
        Instr::MovByte(ByteReg::Ah, 0x4C),
        Instr::Int(0x21),
    ]
}

/// Appends an effect of the machine, or the far call of a routine of the runtime.
pub(crate) fn push_runtime(lines: &mut MarkedLines, number: u16) -> Result<(), AllocError>
    ensures { OnOk result (lines.new ≡ lines.old ++ marked_runtime number) }
{
    match number {
        0 => push_plain(lines, &write_code()),
        1 => push_plain(lines, &read_code()),
        2 => push_plain(lines, &end_code()),
        3 => push_call_far(lines, Target::ClearRoutine),
        4 => push_call_far(lines, Target::FlagRoutine),
        _ => push_call_far(lines, Target::Runtime(number)),
    }
}
