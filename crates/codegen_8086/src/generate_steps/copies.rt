//! Bytes that are copied.

ghost use Rattle.std.specs.Prelude.{◌≡◌, ◌++◌, OnOk};
ghost use Rattle.code_templates.specs.code_lines.Lines.{add_to};
ghost use Rattle.code_templates.specs.code_references.Marked.{destination_in, marked_destination, moved_by, marked_moved};

use crate::generate_expressions::{
    address_load, at_place, frame_memory, low_word, push_loads, push_plain,
};
use code_templates::code_references::MarkedLines;
use flat_code::Address;
use std::alloc::AllocError;
use x86_table::{AluOp, DataSeg, Immediate, Instr, SegReg, WordOperand, WordReg};

fn add_to(register: WordReg, number: u16) -> Instr
    ensures { result ≡ add_to register number }
{
    Instr::AluImmediate(
        AluOp::Add,
        Immediate::Word(WordOperand::Reg(register), number),
    )
}

// ES:DI leads to a place in a segment.
fn push_destination_in(
    lines: &mut MarkedLines,
    segment: SegReg,
    far: bool,
    to: Address,
) -> Result<(), AllocError>
    ensures { OnOk result (lines.new ≡ lines.old ++ destination_in segment far to) }
{
    push_loads(lines, far, to)?;
    lines.push(at_place(to, address_load(WordReg::Di, far, to)))?;
    push_plain(
        lines,
        &[Instr::PushSeg(segment), Instr::PopSeg(DataSeg::Es)],
    )
}

// ES:DI leads to the place.
fn push_destination(lines: &mut MarkedLines, far: bool, to: Address) -> Result<(), AllocError>
    ensures { OnOk result (lines.new ≡ lines.old ++ marked_destination far to) }
{
    match to {
        Address::Global { .. } => push_destination_in(lines, SegReg::Ds, far, to),
        Address::Local(_) => push_destination_in(lines, SegReg::Ss, far, to),
        Address::Outer { .. } => push_destination_in(lines, SegReg::Ss, far, to),
        Address::Through { slot, plus } => push_plain(
            lines,
            &[
                Instr::Les(WordReg::Di, frame_memory(low_word(slot))),
                add_to(WordReg::Di, plus),
            ],
        ),
    }
}

// Bytes are moved from a place in a segment.
fn push_moved_by(
    lines: &mut MarkedLines,
    segment: Option<SegReg>,
    far: bool,
    from: Address,
    bytes: u16,
) -> Result<(), AllocError>
    ensures { OnOk result (lines.new ≡ lines.old ++ moved_by segment far from bytes) }
{
    push_loads(lines, far, from)?;
    lines.push(at_place(from, address_load(WordReg::Si, far, from)))?;
    push_plain(
        lines,
        &[Instr::MovWord(WordReg::Cx, bytes), Instr::RepMovsb(segment)],
    )
}

// Bytes are moved from the place.
fn push_moved(
    lines: &mut MarkedLines,
    far: bool,
    from: Address,
    bytes: u16,
) -> Result<(), AllocError>
    ensures { OnOk result (lines.new ≡ lines.old ++ marked_moved far from bytes) }
{
    match from {
        Address::Global { .. } => push_moved_by(lines, None, far, from, bytes),
        Address::Local(_) => push_moved_by(lines, Some(SegReg::Ss), far, from, bytes),
        Address::Outer { .. } => push_moved_by(lines, Some(SegReg::Ss), far, from, bytes),
        Address::Through { slot, plus } => push_plain(
            lines,
            &[
                Instr::PushSeg(SegReg::Ds),
                Instr::Lds(WordReg::Si, frame_memory(low_word(slot))),
                add_to(WordReg::Si, plus),
                Instr::MovWord(WordReg::Cx, bytes),
                Instr::RepMovsb(None),
                Instr::PopSeg(DataSeg::Ds),
            ],
        ),
    }
}

/// Appends what copies bytes from a place to another.
pub fn push_copy(
    lines: &mut MarkedLines,
    far: bool,
    to: Address,
    from: Address,
    bytes: u16,
) -> Result<(), AllocError>
    ensures { OnOk result (lines.new ≡ lines.old ++ (marked_destination far to ++ marked_moved far from bytes)) }
{
    push_destination(lines, far, to)?;
    push_moved(lines, far, from, bytes)
}
