//! The bytes of an instruction.

ghost use Rattle.std.specs.Prelude.{◌≡◌, ◌+◌, ◌*◌, ◌<◌, ◌≤◌, ◌++◌, ◌∷◌, []};
ghost use Rattle.arrayvec.specs.ArrayVec.{array_vec_len};
ghost use Rattle.x86_table.specs.Opcode.{opcode};
ghost use Rattle.x86_table.specs.Spelling.{word_bytes, prefix, place_code, displacement, memory_modrm, byte_modrm, word_modrm, pair_form, pair_body, pair_override, immediate_width, immediate_body, immediate_override, target_width, target_body, target_override, byte_override, word_override, row_of_instr, segment_override, body, spelling};

use crate::codes::{
    alu_op_code, base_code, byte_reg_code, cond_opcode, data_seg_code, form_code,
    indirect_base_code, seg_reg_code, shift_op_code, short_op_code, unary_op_code, word_reg_code,
};
use crate::instr::{Count, Form, Immediate, Instr, Pair, Target, Width};
use crate::operand::{ByteOperand, Memory, Place, SegReg, WordOperand};
use crate::row::Row;
use arrayvec::ArrayVec;

/// The opcode of a row.
fn opcode(row: Row) -> u8
    ensures { result ≡ opcode row }
{
    match row {
        Row::Mov(form) => 0x88 + form_code(form),
        Row::MovImmediate(Width::Byte) => 0xc6,
        Row::MovImmediate(Width::Word) => 0xc7,
        Row::MovByte(register) => 0xb0 + byte_reg_code(register),
        Row::MovWord(register) => 0xb8 + word_reg_code(register),
        Row::MovFromSeg => 0x8c,
        Row::MovToSeg => 0x8e,
        Row::Push(register) => 0x50 + word_reg_code(register),
        Row::Pop(register) => 0x58 + word_reg_code(register),
        Row::PushSeg(register) => 0x06 + 8 * seg_reg_code(register),
        Row::PopSeg(register) => 0x07 + 8 * data_seg_code(register),
        Row::Alu(op, form) => 8 * alu_op_code(op) + form_code(form),
        Row::AluImmediate(Width::Byte) => 0x80,
        Row::AluImmediate(Width::Word) => 0x81,
        Row::AluShort => 0x83,
        Row::Unary(Width::Byte) => 0xf6,
        Row::Unary(Width::Word) => 0xf7,
        Row::Inc(register) => 0x40 + word_reg_code(register),
        Row::Dec(register) => 0x48 + word_reg_code(register),
        Row::Shift(Count::One, Width::Byte) => 0xd0,
        Row::Shift(Count::One, Width::Word) => 0xd1,
        Row::Shift(Count::Cl, Width::Byte) => 0xd2,
        Row::Shift(Count::Cl, Width::Word) => 0xd3,
        Row::Cbw => 0x98,
        Row::Cwd => 0x99,
        Row::Lea => 0x8d,
        Row::Les => 0xc4,
        Row::Lds => 0xc5,
        Row::Xchg => 0x87,
        Row::JumpShort(cond) => cond_opcode(cond),
        Row::JumpNear => 0xe9,
        Row::JumpFar => 0xea,
        Row::CallNear => 0xe8,
        Row::CallFar => 0x9a,
        Row::IndirectCall => 0xff,
        Row::Ret => 0xc3,
        Row::RetDrop => 0xc2,
        Row::RetFar => 0xcb,
        Row::RetFarDrop => 0xca,
        Row::Int => 0xcd,
        Row::Cld => 0xfc,
        Row::Movsb => 0xa4,
        Row::RepPrefix => 0xf3,
    }
}

/// The segment override of r/m8.
fn byte_override(operand: ByteOperand) -> Option<SegReg>
    ensures { result ≡ byte_override operand }
{
    match operand {
        ByteOperand::Reg(_) => None,
        ByteOperand::Mem(memory) => memory.segment,
    }
}

/// The segment override of r/m16.
fn word_override(operand: WordOperand) -> Option<SegReg>
    ensures { result ≡ word_override operand }
{
    match operand {
        WordOperand::Reg(_) => None,
        WordOperand::Mem(memory) => memory.segment,
    }
}

/// Which of the four r/m forms these operands are of.
#[tactic(auto, unfolding(crate::specs::Spelling::pair_form))]
fn pair_form(pair: Pair) -> Form
    ensures { result ≡ pair_form pair }
{
    match pair {
        Pair::RmByte(_, _) => Form::RmByte,
        Pair::RmWord(_, _) => Form::RmWord,
        Pair::ByteRm(_, _) => Form::ByteRm,
        Pair::WordRm(_, _) => Form::WordRm,
    }
}

/// The segment override of these operands.
#[tactic(auto, unfolding(crate::specs::Spelling::pair_override))]
fn pair_override(pair: Pair) -> Option<SegReg>
    ensures { result ≡ pair_override pair }
{
    match pair {
        Pair::RmByte(operand, _) | Pair::ByteRm(_, operand) => byte_override(operand),
        Pair::RmWord(operand, _) | Pair::WordRm(_, operand) => word_override(operand),
    }
}

/// The width of an immediate.
#[tactic(auto, unfolding(crate::specs::Spelling::immediate_width))]
fn immediate_width(immediate: Immediate) -> Width
    ensures { result ≡ immediate_width immediate }
{
    match immediate {
        Immediate::Byte(_, _) => Width::Byte,
        Immediate::Word(_, _) => Width::Word,
    }
}

/// The segment override of the destination.
#[tactic(auto, unfolding(crate::specs::Spelling::immediate_override))]
fn immediate_override(immediate: Immediate) -> Option<SegReg>
    ensures { result ≡ immediate_override immediate }
{
    match immediate {
        Immediate::Byte(operand, _) => byte_override(operand),
        Immediate::Word(operand, _) => word_override(operand),
    }
}

/// The width of an operand.
#[tactic(auto, unfolding(crate::specs::Spelling::target_width))]
fn target_width(target: Target) -> Width
    ensures { result ≡ target_width target }
{
    match target {
        Target::Byte(_) => Width::Byte,
        Target::Word(_) => Width::Word,
    }
}

/// The segment override of an operand.
#[tactic(auto, unfolding(crate::specs::Spelling::target_override))]
fn target_override(target: Target) -> Option<SegReg>
    ensures { result ≡ target_override target }
{
    match target {
        Target::Byte(operand) => byte_override(operand),
        Target::Word(operand) => word_override(operand),
    }
}

/// The row of an instruction.
fn row_of_instr(instr: Instr) -> Row
    ensures { result ≡ row_of_instr instr }
{
    match instr {
        Instr::Mov(pair) => Row::Mov(pair_form(pair)),
        Instr::MovImmediate(immediate) => Row::MovImmediate(immediate_width(immediate)),
        Instr::MovByte(register, _) => Row::MovByte(register),
        Instr::MovWord(register, _) => Row::MovWord(register),
        Instr::MovFromSeg(_, _) => Row::MovFromSeg,
        Instr::MovToSeg(_, _) => Row::MovToSeg,
        Instr::Push(register) => Row::Push(register),
        Instr::Pop(register) => Row::Pop(register),
        Instr::PushSeg(register) => Row::PushSeg(register),
        Instr::PopSeg(register) => Row::PopSeg(register),
        Instr::Alu(op, pair) => Row::Alu(op, pair_form(pair)),
        Instr::AluImmediate(_, immediate) => Row::AluImmediate(immediate_width(immediate)),
        Instr::AluShort(_, _, _) => Row::AluShort,
        Instr::Unary(_, target) => Row::Unary(target_width(target)),
        Instr::Inc(register) => Row::Inc(register),
        Instr::Dec(register) => Row::Dec(register),
        Instr::Shift(_, count, target) => Row::Shift(count, target_width(target)),
        Instr::Cbw => Row::Cbw,
        Instr::Cwd => Row::Cwd,
        Instr::Lea(_, _) => Row::Lea,
        Instr::Les(_, _) => Row::Les,
        Instr::Lds(_, _) => Row::Lds,
        Instr::Xchg(_, _) => Row::Xchg,
        Instr::JumpShort(cond, _) => Row::JumpShort(cond),
        Instr::JumpNear(_) => Row::JumpNear,
        Instr::JumpFar(_, _) => Row::JumpFar,
        Instr::CallNear(_) => Row::CallNear,
        Instr::CallFar(_, _) => Row::CallFar,
        Instr::CallIndirect(_) | Instr::CallFarIndirect(_) => Row::IndirectCall,
        Instr::Ret => Row::Ret,
        Instr::RetDrop(_) => Row::RetDrop,
        Instr::RetFar => Row::RetFar,
        Instr::RetFarDrop(_) => Row::RetFarDrop,
        Instr::Int(_) => Row::Int,
        Instr::Cld => Row::Cld,
        Instr::Movsb(_) => Row::Movsb,
        Instr::RepMovsb(_) => Row::RepPrefix,
    }
}

/// The override of an instruction.
fn segment_override(instr: Instr) -> Option<SegReg>
    ensures { result ≡ segment_override instr }
{
    match instr {
        Instr::Mov(pair) | Instr::Alu(_, pair) => pair_override(pair),
        Instr::MovImmediate(immediate) | Instr::AluImmediate(_, immediate) => immediate_override(
            immediate,
        ),
        Instr::MovFromSeg(operand, _)
        | Instr::MovToSeg(_, operand)
        | Instr::AluShort(_, operand, _)
        | Instr::Xchg(operand, _)
        | Instr::CallIndirect(operand) => word_override(operand),
        Instr::Unary(_, target) | Instr::Shift(_, _, target) => target_override(target),
        Instr::Lea(_, memory)
        | Instr::Les(_, memory)
        | Instr::Lds(_, memory)
        | Instr::CallFarIndirect(memory) => memory.segment,
        Instr::Movsb(segment) | Instr::RepMovsb(segment) => segment,
        _ => None,
    }
}

/// Appends a word, low byte first.
#[tactic(auto, unfolding(crate::specs::Spelling::word_bytes))]
fn push_word(out: &mut ArrayVec<u8, 8>, word: u16)
    requires { array_vec_len out.old ≤ 6 }
    ensures items { out.new.items ≡ out.old.items ++ word_bytes word }
    ensures len { array_vec_len out.new ≡ array_vec_len out.old + 2 }
{
    out.push((word % 256) as u8);
    out.push((word / 256) as u8);
}

/// The mod and r/m fields of an address.
fn place_code(place: Place) -> u8
    ensures value { result ≡ place_code place }
    ensures bound { result < 136 }
{
    match place {
        Place::Direct(_) => 6,
        Place::Indirect(base) => indirect_base_code(base),
        Place::ByteDisplacement(base, _) => 64 + base_code(base),
        Place::WordDisplacement(base, _) => 128 + base_code(base),
    }
}

/// Appends the direct offset or the displacement.
fn push_displacement(out: &mut ArrayVec<u8, 8>, place: Place)
    requires { array_vec_len out.old ≤ 6 }
    ensures items { out.new.items ≡ out.old.items ++ displacement place }
    ensures len { array_vec_len out.new ≤ array_vec_len out.old + 2 }
{
    match place {
        Place::Direct(word) | Place::WordDisplacement(_, word) => push_word(out, word),
        Place::Indirect(_) => {}
        Place::ByteDisplacement(_, byte) => out.push(byte),
    }
}

/// Appends the ModR/M byte and the displacement, with a number in the reg field.
#[tactic(auto, unfolding(crate::specs::Spelling::memory_modrm))]
fn push_memory(out: &mut ArrayVec<u8, 8>, field: u8, memory: Memory)
    requires room { array_vec_len out.old ≤ 5 }
    requires field { field < 8 }
    ensures items { out.new.items ≡ out.old.items ++ memory_modrm field memory }
    ensures len { array_vec_len out.new ≤ array_vec_len out.old + 3 }
{
    out.push(place_code(memory.place) + 8 * field);
    push_displacement(out, memory.place);
}

/// Appends what encodes r/m16, with a number in the reg field.
#[tactic(auto, unfolding(crate::specs::Spelling::word_modrm))]
fn push_word_operand(out: &mut ArrayVec<u8, 8>, field: u8, operand: WordOperand)
    requires room { array_vec_len out.old ≤ 5 }
    requires field { field < 8 }
    ensures items { out.new.items ≡ out.old.items ++ word_modrm field operand }
    ensures len { array_vec_len out.new ≤ array_vec_len out.old + 3 }
{
    match operand {
        WordOperand::Reg(register) => out.push(192 + word_reg_code(register) + 8 * field),
        WordOperand::Mem(memory) => push_memory(out, field, memory),
    }
}

/// Appends what encodes r/m8, with a number in the reg field.
#[tactic(auto, unfolding(crate::specs::Spelling::byte_modrm))]
fn push_byte_operand(out: &mut ArrayVec<u8, 8>, field: u8, operand: ByteOperand)
    requires room { array_vec_len out.old ≤ 5 }
    requires field { field < 8 }
    ensures items { out.new.items ≡ out.old.items ++ byte_modrm field operand }
    ensures len { array_vec_len out.new ≤ array_vec_len out.old + 3 }
{
    match operand {
        ByteOperand::Reg(register) => out.push(192 + byte_reg_code(register) + 8 * field),
        ByteOperand::Mem(memory) => push_memory(out, field, memory),
    }
}

/// Appends what encodes a register and r/m.
#[tactic(auto, unfolding(crate::specs::Spelling::pair_body))]
fn push_pair(out: &mut ArrayVec<u8, 8>, pair: Pair)
    requires { array_vec_len out.old ≤ 5 }
    ensures { out.new.items ≡ out.old.items ++ pair_body pair }
{
    match pair {
        Pair::RmByte(operand, register) | Pair::ByteRm(register, operand) => {
            push_byte_operand(out, byte_reg_code(register), operand);
        }
        Pair::RmWord(operand, register) | Pair::WordRm(register, operand) => {
            push_word_operand(out, word_reg_code(register), operand);
        }
    }
}

/// Appends what encodes a destination and its immediate.
#[tactic(auto, unfolding(crate::specs::Spelling::immediate_body))]
fn push_immediate(out: &mut ArrayVec<u8, 8>, field: u8, immediate: Immediate)
    requires room { array_vec_len out.old ≤ 3 }
    requires field { field < 8 }
    ensures { out.new.items ≡ out.old.items ++ immediate_body field immediate }
{
    match immediate {
        Immediate::Byte(operand, number) => {
            push_byte_operand(out, field, operand);
            out.push(number);
        }
        Immediate::Word(operand, number) => {
            push_word_operand(out, field, operand);
            push_word(out, number);
        }
    }
}

/// Appends what encodes one operand.
#[tactic(auto, unfolding(crate::specs::Spelling::target_body))]
fn push_target(out: &mut ArrayVec<u8, 8>, field: u8, target: Target)
    requires room { array_vec_len out.old ≤ 5 }
    requires field { field < 8 }
    ensures { out.new.items ≡ out.old.items ++ target_body field target }
{
    match target {
        Target::Byte(operand) => push_byte_operand(out, field, operand),
        Target::Word(operand) => push_word_operand(out, field, operand),
    }
}

/// Appends what follows the opcode.
fn push_body(out: &mut ArrayVec<u8, 8>, instr: Instr)
    requires { array_vec_len out.old ≤ 2 }
    ensures { out.new.items ≡ out.old.items ++ body instr }
{
    match instr {
        Instr::Mov(pair) | Instr::Alu(_, pair) => push_pair(out, pair),
        Instr::MovImmediate(immediate) => push_immediate(out, 0, immediate),
        Instr::MovByte(_, number) | Instr::Int(number) | Instr::JumpShort(_, number) => {
            out.push(number);
        }
        Instr::MovWord(_, number)
        | Instr::JumpNear(number)
        | Instr::CallNear(number)
        | Instr::RetDrop(number)
        | Instr::RetFarDrop(number) => push_word(out, number),
        Instr::MovFromSeg(operand, register) => {
            push_word_operand(out, seg_reg_code(register), operand);
        }
        Instr::MovToSeg(register, operand) => {
            push_word_operand(out, data_seg_code(register), operand);
        }
        Instr::AluImmediate(op, immediate) => push_immediate(out, alu_op_code(op), immediate),
        Instr::AluShort(op, operand, number) => {
            push_word_operand(out, short_op_code(op), operand);
            out.push(number);
        }
        Instr::Unary(op, target) => push_target(out, unary_op_code(op), target),
        Instr::Shift(op, _, target) => push_target(out, shift_op_code(op), target),
        Instr::Lea(register, memory)
        | Instr::Les(register, memory)
        | Instr::Lds(register, memory) => push_memory(out, word_reg_code(register), memory),
        Instr::Xchg(operand, register) => push_word_operand(out, word_reg_code(register), operand),
        Instr::JumpFar(offset, segment) | Instr::CallFar(offset, segment) => {
            push_word(out, offset);
            push_word(out, segment);
        }
        Instr::CallIndirect(operand) => push_word_operand(out, 2, operand),
        Instr::CallFarIndirect(memory) => push_word_operand(out, 3, WordOperand::Mem(memory)),
        Instr::RepMovsb(_) => out.push(0xa4),
        Instr::Push(_)
        | Instr::Pop(_)
        | Instr::PushSeg(_)
        | Instr::PopSeg(_)
        | Instr::Inc(_)
        | Instr::Dec(_)
        | Instr::Cbw
        | Instr::Cwd
        | Instr::Ret
        | Instr::RetFar
        | Instr::Cld
        | Instr::Movsb(_) => {}
    }
}

/// The bytes of an instruction.
pub fn encode(instr: &Instr) -> ArrayVec<u8, 8>
    ensures { result.items ≡ spelling instr.now }
{
    let mut out = ArrayVec::new();
    if let Some(segment) = segment_override(*instr) {
        out.push(0x26 + 8 * seg_reg_code(segment));
    }
    out.push(opcode(row_of_instr(*instr)));
    push_body(&mut out, *instr);
    out
}
