//! Instructions: one variant for each row of the table, with its operands.
//!
//! Opcodes are in hexadecimal, `/n` stands for the digit n in the reg field of the ModR/M byte, `ib` for an immediate
//! byte and `iw` for an immediate word. Each value of `Instr` has a spelling, so what can't be encoded can't be
//! written: CS is no `DataSeg`, LEA takes no register as its source, and 83 has five operators.

use crate::operand::{ByteOperand, ByteReg, DataSeg, Memory, SegReg, WordOperand, WordReg};

/// The size of an operand, the low bit of most opcodes.
#[derive(Clone, Copy, PartialEq, Eq, Debug)]
pub enum Width {
    /// 8 bits, 0.
    Byte,
    /// 16 bits, 1.
    Word,
}

/// Which of the four r/m forms an opcode has, its two low bits; the destination is named first.
#[derive(Clone, Copy, PartialEq, Eq, Debug)]
pub enum Form {
    /// r/m8, r8: 0.
    RmByte,
    /// r/m16, r16: 1.
    RmWord,
    /// r8, r/m8: 2.
    ByteRm,
    /// r16, r/m16: 3.
    WordRm,
}

/// The operands of the four r/m forms, destination first.
#[derive(Clone, Copy, PartialEq, Eq, Debug)]
pub enum Pair {
    /// r/m8, r8.
    RmByte(ByteOperand, ByteReg),
    /// r/m16, r16.
    RmWord(WordOperand, WordReg),
    /// r8, r/m8.
    ByteRm(ByteReg, ByteOperand),
    /// r16, r/m16.
    WordRm(WordReg, WordOperand),
}

/// A destination and an immediate of its width.
#[derive(Clone, Copy, PartialEq, Eq, Debug)]
pub enum Immediate {
    /// r/m8, imm8.
    Byte(ByteOperand, u8),
    /// r/m16, imm16.
    Word(WordOperand, u16),
}

/// The one operand of an instruction that has a byte and a word form.
#[derive(Clone, Copy, PartialEq, Eq, Debug)]
pub enum Target {
    /// r/m8.
    Byte(ByteOperand),
    /// r/m16.
    Word(WordOperand),
}

/// An operator of the arithmetic group, in the order of its number, 0 to 7.
#[derive(Clone, Copy, PartialEq, Eq, Debug)]
pub enum AluOp {
    /// Add.
    Add,
    /// Inclusive or.
    Or,
    /// Add with carry.
    Adc,
    /// Subtract with borrow.
    Sbb,
    /// And.
    And,
    /// Subtract.
    Sub,
    /// Exclusive or.
    Xor,
    /// Compare: subtract, and keep the flags alone.
    Cmp,
}

/// An operator that takes a sign-extended immediate byte to a word (opcode 83).
#[derive(Clone, Copy, PartialEq, Eq, Debug)]
pub enum ShortOp {
    /// Add, /0.
    Add,
    /// Add with carry, /2.
    Adc,
    /// Subtract with borrow, /3.
    Sbb,
    /// Subtract, /5.
    Sub,
    /// Compare, /7.
    Cmp,
}

/// An operator on one operand (opcodes F6 and F7).
#[derive(Clone, Copy, PartialEq, Eq, Debug)]
pub enum UnaryOp {
    /// One's complement, /2.
    Not,
    /// Two's complement, /3.
    Neg,
    /// Unsigned multiply of the accumulator, /4.
    Mul,
    /// Signed multiply of the accumulator, /5.
    Imul,
    /// Unsigned divide of the extended accumulator, /6.
    Div,
}

/// A shift or a rotate (opcodes D0 to D3).
#[derive(Clone, Copy, PartialEq, Eq, Debug)]
pub enum ShiftOp {
    /// Rotate left through the carry, /2.
    Rcl,
    /// Rotate right through the carry, /3.
    Rcr,
    /// Shift left, /4.
    Shl,
    /// Shift right, zeros from the left, /5.
    Shr,
    /// Shift right, copies of the sign from the left, /7.
    Sar,
}

/// How many places a shift goes.
#[derive(Clone, Copy, PartialEq, Eq, Debug)]
pub enum Count {
    /// By one (D0, D1).
    One,
    /// By CL, unmasked (D2, D3).
    Cl,
}

/// When a short jump is taken.
#[derive(Clone, Copy, PartialEq, Eq, Debug)]
pub enum Cond {
    /// JO, 70: OF is set.
    Overflow,
    /// JNO, 71: OF is clear.
    NoOverflow,
    /// JB, 72: CF is set.
    Below,
    /// JAE, 73: CF is clear.
    AboveOrEqual,
    /// JE, 74: ZF is set.
    Equal,
    /// JNE, 75: ZF is clear.
    NotEqual,
    /// JBE, 76: CF or ZF is set.
    BelowOrEqual,
    /// JA, 77: CF and ZF are clear.
    Above,
    /// JS, 78: SF is set.
    Sign,
    /// JNS, 79: SF is clear.
    NoSign,
    /// JL, 7C: SF differs from OF.
    Less,
    /// JGE, 7D: SF is OF.
    GreaterOrEqual,
    /// JLE, 7E: ZF is set or SF differs from OF.
    LessOrEqual,
    /// JG, 7F: ZF is clear and SF is OF.
    Greater,
    /// JMP SHORT, EB: in any case.
    Always,
}

/// An instruction of the 8086 subset.
#[derive(Clone, Copy, PartialEq, Eq, Debug)]
pub enum Instr {
    /// MOV between a register and r/m: 88 to 8B.
    Mov(Pair),
    /// MOV of an immediate to r/m: C6 /0 ib, C7 /0 iw.
    MovImmediate(Immediate),
    /// MOV r8, imm8: B0 to B7 ib.
    MovByte(ByteReg, u8),
    /// MOV r16, imm16: B8 to BF iw.
    MovWord(WordReg, u16),
    /// MOV r/m16, segment register: 8C /0 to /3.
    MovFromSeg(WordOperand, SegReg),
    /// MOV segment register, r/m16: 8E /0, /2, /3.
    MovToSeg(DataSeg, WordOperand),
    /// PUSH r16: 50 to 57.
    Push(WordReg),
    /// POP r16: 58 to 5F.
    Pop(WordReg),
    /// PUSH of a segment register: 06, 0E, 16, 1E.
    PushSeg(SegReg),
    /// POP of a segment register: 07, 17, 1F.
    PopSeg(DataSeg),
    /// ADD, OR, ADC, SBB, AND, SUB, XOR or CMP between a register and r/m: 8n to 8n+3 for the operator n.
    Alu(AluOp, Pair),
    /// The same with an immediate: 80 /n ib, 81 /n iw.
    AluImmediate(AluOp, Immediate),
    /// ADD, ADC, SBB, SUB or CMP of a sign-extended byte to r/m16: 83 /n ib.
    AluShort(ShortOp, WordOperand, u8),
    /// NOT, NEG, MUL, IMUL or DIV: F6 /2 to /6 for a byte, F7 /2 to /6 for a word.
    Unary(UnaryOp, Target),
    /// INC r16: 40 to 47.
    Inc(WordReg),
    /// DEC r16: 48 to 4F.
    Dec(WordReg),
    /// RCL, RCR, SHL, SHR or SAR: D0 (byte) and D1 (word) by one, D2 and D3 by CL, /2 to /5 and /7.
    Shift(ShiftOp, Count, Target),
    /// CBW, AL sign extended to AX: 98.
    Cbw,
    /// CWD, AX sign extended to DX:AX: 99.
    Cwd,
    /// LEA r16, effective address: 8D /r.
    Lea(WordReg, Memory),
    /// LES r16, far pointer in memory: C4 /r.
    Les(WordReg, Memory),
    /// LDS r16, far pointer in memory: C5 /r.
    Lds(WordReg, Memory),
    /// XCHG r/m16, r16: 87 /r.
    Xchg(WordOperand, WordReg),
    /// A jump by an 8-bit distance from the next instruction, two's complement: 70 to 79, 7C to 7F, EB.
    JumpShort(Cond, u8),
    /// JMP near, a 16-bit distance from the next instruction, two's complement: E9.
    JumpNear(u16),
    /// JMP far to an offset and a segment, in this order: EA.
    JumpFar(u16, u16),
    /// CALL near, a 16-bit distance from the next instruction, two's complement: E8.
    CallNear(u16),
    /// CALL far to an offset and a segment, in this order: 9A.
    CallFar(u16, u16),
    /// CALL near to the offset in r/m16: FF /2.
    CallIndirect(WordOperand),
    /// CALL far to the pointer in memory: FF /3.
    CallFarIndirect(Memory),
    /// RET near: C3.
    Ret,
    /// RET near that drops bytes of arguments: C2 iw.
    RetDrop(u16),
    /// RETF: CB.
    RetFar,
    /// RETF that drops bytes of arguments: CA iw.
    RetFarDrop(u16),
    /// INT of a vector's number: CD ib.
    Int(u8),
    /// CLD, clear the direction flag: FC.
    Cld,
    /// MOVSB from SI in DS, or in the segment of the override, to ES:DI: A4.
    Movsb(Option<SegReg>),
    /// REP MOVSB, CX times; an override stands before the F3: F3 A4.
    RepMovsb(Option<SegReg>),
}
