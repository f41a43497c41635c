//! The numbers by which an instruction's bytes name registers, address forms, operators and conditions.

ghost use Rattle.std.specs.Prelude.{◌≡◌, ◌<◌};
ghost use Rattle.x86_table.specs.Codes.{word_reg_code, byte_reg_code, seg_reg_code, data_seg_code, form_code, alu_op_code, short_op_code, unary_op_code, shift_op_code, cond_opcode, base_code, indirect_base_code};

use crate::instr::{AluOp, Cond, Form, ShiftOp, ShortOp, UnaryOp};
use crate::operand::{Base, ByteReg, DataSeg, IndirectBase, SegReg, WordReg};

/// The number of a word register.
pub fn word_reg_code(value: WordReg) -> u8
    ensures value { result ≡ word_reg_code value }
    ensures bound { result < 8 }
{
    match value {
        WordReg::Ax => 0,
        WordReg::Cx => 1,
        WordReg::Dx => 2,
        WordReg::Bx => 3,
        WordReg::Sp => 4,
        WordReg::Bp => 5,
        WordReg::Si => 6,
        WordReg::Di => 7,
    }
}

/// The number of a byte register.
pub fn byte_reg_code(value: ByteReg) -> u8
    ensures value { result ≡ byte_reg_code value }
    ensures bound { result < 8 }
{
    match value {
        ByteReg::Al => 0,
        ByteReg::Cl => 1,
        ByteReg::Dl => 2,
        ByteReg::Bl => 3,
        ByteReg::Ah => 4,
        ByteReg::Ch => 5,
        ByteReg::Dh => 6,
        ByteReg::Bh => 7,
    }
}

/// The number of a segment register.
pub fn seg_reg_code(value: SegReg) -> u8
    ensures value { result ≡ seg_reg_code value }
    ensures bound { result < 8 }
{
    match value {
        SegReg::Es => 0,
        SegReg::Cs => 1,
        SegReg::Ss => 2,
        SegReg::Ds => 3,
    }
}

/// The number of a segment register that may be loaded.
pub fn data_seg_code(value: DataSeg) -> u8
    ensures value { result ≡ data_seg_code value }
    ensures bound { result < 8 }
{
    match value {
        DataSeg::Es => 0,
        DataSeg::Ss => 2,
        DataSeg::Ds => 3,
    }
}

/// The two low bits of an opcode with the four r/m forms.
pub fn form_code(value: Form) -> u8
    ensures value { result ≡ form_code value }
    ensures bound { result < 4 }
{
    match value {
        Form::RmByte => 0,
        Form::RmWord => 1,
        Form::ByteRm => 2,
        Form::WordRm => 3,
    }
}

/// The number of an operator of the arithmetic group.
pub fn alu_op_code(value: AluOp) -> u8
    ensures value { result ≡ alu_op_code value }
    ensures bound { result < 8 }
{
    match value {
        AluOp::Add => 0,
        AluOp::Or => 1,
        AluOp::Adc => 2,
        AluOp::Sbb => 3,
        AluOp::And => 4,
        AluOp::Sub => 5,
        AluOp::Xor => 6,
        AluOp::Cmp => 7,
    }
}

/// The reg field of an operator under 83.
pub fn short_op_code(value: ShortOp) -> u8
    ensures value { result ≡ short_op_code value }
    ensures bound { result < 8 }
{
    match value {
        ShortOp::Add => 0,
        ShortOp::Adc => 2,
        ShortOp::Sbb => 3,
        ShortOp::Sub => 5,
        ShortOp::Cmp => 7,
    }
}

/// The reg field of an operator under F6 and F7.
pub fn unary_op_code(value: UnaryOp) -> u8
    ensures value { result ≡ unary_op_code value }
    ensures bound { result < 8 }
{
    match value {
        UnaryOp::Not => 2,
        UnaryOp::Neg => 3,
        UnaryOp::Mul => 4,
        UnaryOp::Imul => 5,
        UnaryOp::Div => 6,
    }
}

/// The reg field of a shift under D0 to D3.
pub fn shift_op_code(value: ShiftOp) -> u8
    ensures value { result ≡ shift_op_code value }
    ensures bound { result < 8 }
{
    match value {
        ShiftOp::Rcl => 2,
        ShiftOp::Rcr => 3,
        ShiftOp::Shl => 4,
        ShiftOp::Shr => 5,
        ShiftOp::Sar => 7,
    }
}

/// The opcode of a short jump.
pub fn cond_opcode(value: Cond) -> u8
    ensures { result ≡ cond_opcode value }
{
    match value {
        Cond::Overflow => 0x70,
        Cond::NoOverflow => 0x71,
        Cond::Below => 0x72,
        Cond::AboveOrEqual => 0x73,
        Cond::Equal => 0x74,
        Cond::NotEqual => 0x75,
        Cond::BelowOrEqual => 0x76,
        Cond::Above => 0x77,
        Cond::Sign => 0x78,
        Cond::NoSign => 0x79,
        Cond::Less => 0x7c,
        Cond::GreaterOrEqual => 0x7d,
        Cond::LessOrEqual => 0x7e,
        Cond::Greater => 0x7f,
        Cond::Always => 0xeb,
    }
}

/// The r/m field of an address with a displacement.
pub fn base_code(value: Base) -> u8
    ensures value { result ≡ base_code value }
    ensures bound { result < 8 }
{
    match value {
        Base::BxSi => 0,
        Base::BxDi => 1,
        Base::BpSi => 2,
        Base::BpDi => 3,
        Base::Si => 4,
        Base::Di => 5,
        Base::Bp => 6,
        Base::Bx => 7,
    }
}

/// The r/m field of an address without one.
pub fn indirect_base_code(value: IndirectBase) -> u8
    ensures value { result ≡ indirect_base_code value }
    ensures bound { result < 8 }
{
    match value {
        IndirectBase::BxSi => 0,
        IndirectBase::BxDi => 1,
        IndirectBase::BpSi => 2,
        IndirectBase::BpDi => 3,
        IndirectBase::Si => 4,
        IndirectBase::Di => 5,
        IndirectBase::Bx => 7,
    }
}
