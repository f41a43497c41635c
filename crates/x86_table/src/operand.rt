//! Registers, memory operands, and what an r/m field names.

ghost use Rattle.std.specs.Prelude.{◌≡◌, ◌<◌};
ghost use Rattle.x86_table.specs.Codes.{word_reg_code, byte_reg_code};

/// A word register, in the order of its register number, 0 to 7.
#[derive(Clone, Copy, PartialEq, Eq, Debug)]
pub enum WordReg {
    /// Accumulator, number 0.
    Ax,
    /// Count, number 1.
    Cx,
    /// Data, number 2.
    Dx,
    /// Base, number 3.
    Bx,
    /// Stack pointer, number 4.
    Sp,
    /// Base pointer, number 5.
    Bp,
    /// Source index, number 6.
    Si,
    /// Destination index, number 7.
    Di,
}

/// A byte register, in the order of its register number, 0 to 7.
#[derive(Clone, Copy, PartialEq, Eq, Debug)]
pub enum ByteReg {
    /// The low byte of AX, number 0.
    Al,
    /// The low byte of CX, number 1.
    Cl,
    /// The low byte of DX, number 2.
    Dl,
    /// The low byte of BX, number 3.
    Bl,
    /// The high byte of AX, number 4.
    Ah,
    /// The high byte of CX, number 5.
    Ch,
    /// The high byte of DX, number 6.
    Dh,
    /// The high byte of BX, number 7.
    Bh,
}

/// A segment register, in the order of its number, 0 to 3.
#[derive(Clone, Copy, PartialEq, Eq, Debug)]
pub enum SegReg {
    /// Extra segment, number 0; its override prefix is 26.
    Es,
    /// Code segment, number 1; its override prefix is 2E.
    Cs,
    /// Stack segment, number 2; its override prefix is 36.
    Ss,
    /// Data segment, number 3; its override prefix is 3E.
    Ds,
}

/// A segment register that MOV or POP may load: each but CS.
#[derive(Clone, Copy, PartialEq, Eq, Debug)]
pub enum DataSeg {
    /// Extra segment, number 0.
    Es,
    /// Stack segment, number 2.
    Ss,
    /// Data segment, number 3.
    Ds,
}

/// The registers whose sum, with a displacement, is the effective address; in the order of the r/m field.
#[derive(Clone, Copy, PartialEq, Eq, Debug)]
pub enum Base {
    /// [BX+SI+displacement], r/m 0, in DS.
    BxSi,
    /// [BX+DI+displacement], r/m 1, in DS.
    BxDi,
    /// [BP+SI+displacement], r/m 2, in SS.
    BpSi,
    /// [BP+DI+displacement], r/m 3, in SS.
    BpDi,
    /// [SI+displacement], r/m 4, in DS.
    Si,
    /// [DI+displacement], r/m 5, in DS.
    Di,
    /// [BP+displacement], r/m 6, in SS.
    Bp,
    /// [BX+displacement], r/m 7, in DS.
    Bx,
}

/// The registers whose sum alone is the effective address. BP alone has no such form: mod 0 with r/m 6 is a
/// direct offset.
#[derive(Clone, Copy, PartialEq, Eq, Debug)]
pub enum IndirectBase {
    /// [BX+SI], r/m 0, in DS.
    BxSi,
    /// [BX+DI], r/m 1, in DS.
    BxDi,
    /// [BP+SI], r/m 2, in SS.
    BpSi,
    /// [BP+DI], r/m 3, in SS.
    BpDi,
    /// [SI], r/m 4, in DS.
    Si,
    /// [DI], r/m 5, in DS.
    Di,
    /// [BX], r/m 7, in DS.
    Bx,
}

/// Where an operand lies within its segment: the address forms of mod 0, 1 and 2.
#[derive(Clone, Copy, PartialEq, Eq, Debug)]
pub enum Place {
    /// Mod 0 with r/m 6: a direct offset, in DS.
    Direct(u16),
    /// Mod 0: registers without a displacement.
    Indirect(IndirectBase),
    /// Mod 1: registers and a displacement of 8 bits, sign extended (80 to FF hex stand for -128 to -1).
    ByteDisplacement(Base, u8),
    /// Mod 2: registers and a displacement of 16 bits.
    WordDisplacement(Base, u16),
}

/// A memory operand: where it lies, and its segment override where the instruction has one.
#[derive(Clone, Copy, PartialEq, Eq, Debug)]
pub struct Memory {
    /// The segment register of the override prefix; `None` means the default, SS where BP takes part, else DS.
    pub segment: Option<SegReg>,
    /// The offset within the segment.
    pub place: Place,
}

/// What r/m8 names.
#[derive(Clone, Copy, PartialEq, Eq, Debug)]
pub enum ByteOperand {
    /// Mod 3: a byte register.
    Reg(ByteReg),
    /// Mod 0 to 2: a byte of memory.
    Mem(Memory),
}

/// What r/m16 names.
#[derive(Clone, Copy, PartialEq, Eq, Debug)]
pub enum WordOperand {
    /// Mod 3: a word register.
    Reg(WordReg),
    /// Mod 0 to 2: a word of memory.
    Mem(Memory),
}

/// The word register of a number.
pub fn word_reg(code: u8) -> WordReg
    requires { code < 8 }
    ensures { word_reg_code result ≡ code }
{
    match code {
        0 => WordReg::Ax,
        1 => WordReg::Cx,
        2 => WordReg::Dx,
        3 => WordReg::Bx,
        4 => WordReg::Sp,
        5 => WordReg::Bp,
        6 => WordReg::Si,
        _ => WordReg::Di,
    }
}

/// The byte register of a number.
pub fn byte_reg(code: u8) -> ByteReg
    requires { code < 8 }
    ensures { byte_reg_code result ≡ code }
{
    match code {
        0 => ByteReg::Al,
        1 => ByteReg::Cl,
        2 => ByteReg::Dl,
        3 => ByteReg::Bl,
        4 => ByteReg::Ah,
        5 => ByteReg::Ch,
        6 => ByteReg::Dh,
        _ => ByteReg::Bh,
    }
}
