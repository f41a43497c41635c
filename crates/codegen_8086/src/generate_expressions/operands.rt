//! The places of flat code as operands.

ghost use Rattle.std.specs.Prelude.{◌≡◌, ◌++◌, OnOk, Bool};
ghost use Rattle.common_values.specs.integers.Words.{w16, word_of};
ghost use Rattle.flat_code.specs.Calls.{link_bytes};
ghost use Rattle.code_templates.specs.code_lines.Operands.{displaced, frame_memory, load, hop, hops, links, outer_place, operand_place, operand};
ghost use Rattle.code_templates.specs.code_references.Marks.{plain};
ghost use Rattle.code_templates.specs.code_references.Marked.{marked_loads, word_load, address_load};
ghost use Rattle.code_templates.specs.code_references.Unplaced.{in_frame};

use crate::generate_expressions::sink::push_plain;
use code_templates::code_references::MarkedLines;
use flat_code::Address;
use std::alloc::AllocError;
use x86_table::{Base, IndirectBase, Instr, Memory, Pair, Place, SegReg, WordOperand, WordReg};

/// The lower word of a distance.
pub fn low_word(distance: i32) -> u16
    ensures { result ≡ word_of w16 distance }
{
    (distance.cast_unsigned() % 0x1_0000) as u16
}

// So far from a register, by one byte where that is enough.
#[tactic(auto, unfolding(code_templates::specs::code_lines::Operands::displaced))]
fn displaced(base: Base, distance: u16) -> Place
    ensures { result ≡ displaced base distance }
{
    if distance < 128 {
        Place::ByteDisplacement(base, distance as u8)
    } else if distance < 65_408 {
        Place::WordDisplacement(base, distance)
    } else {
        Place::ByteDisplacement(base, (distance % 256) as u8)
    }
}

/// Bytes of the routine's own frame, so far from BP.
pub fn frame_memory(distance: u16) -> Memory
    ensures { result ≡ frame_memory distance }
{
    Memory {
        segment: None,
        place: displaced(Base::Bp, distance),
    }
}

/// MOV of a word from memory.
pub fn load(register: WordReg, memory: Memory) -> Instr
    ensures { result ≡ load register memory }
{
    Instr::Mov(Pair::WordRm(register, WordOperand::Mem(memory)))
}

/// The bytes of a return address and of the caller's BP.
pub fn link_bytes(far: bool) -> u16
    ensures { result ≡ link_bytes far }
{
    if far { 6 } else { 4 }
}

// BX goes up a static link.
fn hop() -> Instr
    ensures { result ≡ hop }
{
    load(
        WordReg::Bx,
        Memory {
            segment: Some(SegReg::Ss),
            place: Place::Indirect(IndirectBase::Bx),
        },
    )
}

fn push_hops(lines: &mut MarkedLines, count: u8) -> Result<(), AllocError>
    ensures { OnOk result (lines.new ≡ lines.old ++ plain (hops count)) }
{
    if count == 0 {
        return Ok(());
    }
    push_plain(lines, &[hop()])?;
    push_hops(lines, count - 1)
}

// BX leads to the link word so many links up.
fn push_links(lines: &mut MarkedLines, far: bool, levels: u8) -> Result<(), AllocError>
    ensures { OnOk result (lines.new ≡ lines.old ++ plain (links (in_frame far) levels)) }
{
    if levels == 0 {
        return Ok(());
    }
    push_plain(lines, &[load(WordReg::Bx, frame_memory(link_bytes(far)))])?;
    push_hops(lines, levels - 1)
}

/// Appends what has to be loaded before an operand at a place.
pub fn push_loads(lines: &mut MarkedLines, far: bool, at: Address) -> Result<(), AllocError>
    ensures { OnOk result (lines.new ≡ lines.old ++ marked_loads far at) }
{
    match at {
        Address::Global { .. } | Address::Local(_) => Ok(()),
        Address::Outer { levels, .. } => push_links(lines, far, levels),
        Address::Through { slot, .. } => push_plain(
            lines,
            &[Instr::Les(WordReg::Bx, frame_memory(low_word(slot)))],
        ),
    }
}

fn outer_place(far: bool, levels: u8, distance: u16) -> Place
    ensures { result ≡ outer_place (in_frame far) levels distance }
{
    if levels == 0 {
        displaced(Base::Bp, link_bytes(far).wrapping_add(distance))
    } else {
        displaced(Base::Bx, distance)
    }
}

/// Where the bytes lie that stand so many behind a place.
pub fn operand_place(far: bool, at: Address, more: u16) -> Place
    ensures { result ≡ operand_place (in_frame far) at more }
{
    match at {
        Address::Global { plus, .. } => Place::Direct(plus.wrapping_add(more)),
        Address::Local(at) => displaced(Base::Bp, low_word(at).wrapping_add(more)),
        Address::Outer { levels, at } => outer_place(far, levels, low_word(at).wrapping_add(more)),
        Address::Through { plus, .. } => displaced(Base::Bx, plus.wrapping_add(more)),
    }
}

// The segment override of an operand.
fn override_of(at: Address) -> Option<SegReg>
    ensures { (far : Bool) → result ≡ (operand (in_frame far) at 0).segment }
{
    match at {
        Address::Global { .. } | Address::Local(_) => None,
        Address::Outer { levels, .. } => { if levels == 0 { None } else { Some(SegReg::Ss) } }
        Address::Through { .. } => Some(SegReg::Es),
    }
}

/// The operand at so many bytes behind a place, once it is loaded.
pub fn operand(far: bool, at: Address, more: u16) -> Memory
    ensures { result ≡ operand (in_frame far) at more }
{
    Memory {
        segment: override_of(at),
        place: operand_place(far, at, more),
    }
}

/// MOV of a word at so many bytes behind a place that is loaded.
pub fn word_load(register: WordReg, far: bool, at: Address, more: u16) -> Instr
    ensures { result ≡ word_load register far at more }
{
    load(register, operand(far, at, more))
}

/// LEA of a place that is loaded.
pub fn address_load(register: WordReg, far: bool, at: Address) -> Instr
    ensures { result ≡ address_load register far at }
{
    Instr::Lea(
        register,
        Memory {
            segment: None,
            place: operand_place(far, at, 0),
        },
    )
}
