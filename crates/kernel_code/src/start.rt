//! The start of a program.

ghost use Rattle.std.specs.Prelude.{◌≡◌, ◌++◌, IfOk, OnOk};
ghost use Rattle.kernel_code.specs.Parts.{encoded};
ghost use Rattle.kernel_code.specs.Start.{start_code, finish_code, call_codes, call_refs, start_of};

use crate::initial::Initial;
use crate::lines::{encoded, known_name, reference, routine};
use object_file::object_unit::{Code8086, RefKind, Refs};
use std::alloc::{AllocError, Global};
use type_layout::{Bytes, Name};
use x86_table::{DataSeg, Instr, WordOperand, WordReg};

/// DS becomes the data segment, BP ends the chain of frames, and DF is clear; SS and SP come from the header.
fn start_code(alloc: Global) -> Result<Bytes, AllocError>
    ensures { IfOk result (λ bytes. bytes ≡ encoded start_code) }
{
    encoded(
        alloc,
        &[
            Instr::MovWord(WordReg::Ax, 0),
            Instr::MovToSeg(DataSeg::Ds, WordOperand::Reg(WordReg::Ax)),
            Instr::MovWord(WordReg::Bp, 0),
            Instr::Cld,
        ],
    )
}

/// The run ends with code 0.
fn finish_code(alloc: Global) -> Result<Bytes, AllocError>
    ensures { IfOk result (λ bytes. bytes ≡ encoded finish_code) }
{
    encoded(
        alloc,
        &[Instr::MovWord(WordReg::Ax, 0x4C00), Instr::Int(0x21)],
    )
}

/// Appends a far call for each routine.
fn push_calls(alloc: Global, code: &mut Bytes, initials: &[Initial]) -> Result<(), AllocError>
    ensures { OnOk result (code.new ≡ code.old ++ call_codes initials.now) }
{
    for _part in initials {
        let call = encoded(alloc, &[Instr::CallFar(0, 0)])?;
        code.extend_from_slice(call.as_slice())?;
    }
    Ok(())
}

/// Appends what these calls refer to.
fn push_call_refs(refs: &mut Refs, initials: &[Initial]) -> Result<(), AllocError>
    ensures { OnOk result (refs.new ≡ refs.old ++ call_refs 10 initials.now) }
{
    let mut offset: u32 = 10;
    for part in initials {
        let unit = &part.unit;
        refs.push(reference(offset, RefKind::FarRoutine, unit, part.number))?;
        offset = offset.checked_add(5).ok_or(AllocError)?;
    }
    Ok(())
}

/// The first lines of a program, a far call of each of these routines, and the end with code 0.
pub(crate) fn start_routine(
    alloc: Global,
    kernel: &Name,
    initials: &[Initial],
) -> Result<Code8086, AllocError>
    ensures { IfOk result (λ code. code ≡ start_of kernel.now initials.now) }
{
    let mut code = start_code(alloc)?;
    push_calls(alloc, &mut code, initials)?;
    let end = finish_code(alloc)?;
    code.extend_from_slice(end.as_slice())?;
    let mut refs = Refs::new(alloc);
    refs.push(reference(1, RefKind::DataSegment, kernel, 0))?;
    push_call_refs(&mut refs, initials)?;
    Ok(routine(known_name(b"START"), code, refs))
}
