//! Operands: registers and memory.

ghost use Rattle.std.specs.Prelude.{◌≡◌, ◌+◌, ◌<◌};
ghost use Rattle.cpu_8086.specs.Arithmetic.{size};
ghost use Rattle.cpu_8086.specs.Effect.{width_of};
ghost use Rattle.cpu_8086.specs.Operand.{word_reg, with_word_reg, byte_reg, with_low, with_high, with_byte_reg, with_data_seg, base_sum, base_segment, plain_base, offset_of, usual_segment};
ghost use Rattle.cpu_8086.specs.Direct.{chosen, segment_of, seg_reg, byte_value, word_value, with_byte, with_word, target_value, with_target};

use crate::arithmetic::sign_extend;
use crate::hardware::Hardware;
use crate::registers::Registers;
use x86_table::{
    Base, ByteOperand, ByteReg, DataSeg, IndirectBase, Memory, Place, SegReg, Target, Width,
    WordOperand, WordReg,
};

/// The width of an operand that may have either.
pub fn width_of(target: &Target) -> Width
    ensures { result ≡ width_of target.now }
{
    match target {
        Target::Byte(_) => Width::Byte,
        Target::Word(_) => Width::Word,
    }
}

fn with_low(word: u16, byte: u8) -> u16
    ensures { result ≡ with_low word byte }
{
    256 * (word / 256) + u16::from(byte)
}

fn with_high(word: u16, byte: u8) -> u16
    ensures { result ≡ with_high word byte }
{
    256 * u16::from(byte) + word % 256
}

fn plain_base(base: IndirectBase) -> Base
    ensures { result ≡ plain_base base }
{
    match base {
        IndirectBase::BxSi => Base::BxSi,
        IndirectBase::BxDi => Base::BxDi,
        IndirectBase::BpSi => Base::BpSi,
        IndirectBase::BpDi => Base::BpDi,
        IndirectBase::Si => Base::Si,
        IndirectBase::Di => Base::Di,
        IndirectBase::Bx => Base::Bx,
    }
}

impl Registers {
    pub(crate) fn word_reg(&self, register: WordReg) -> u16
        ensures { result ≡ word_reg self.now register }
    {
        match register {
            WordReg::Ax => self.ax,
            WordReg::Cx => self.cx,
            WordReg::Dx => self.dx,
            WordReg::Bx => self.bx,
            WordReg::Sp => self.sp,
            WordReg::Bp => self.bp,
            WordReg::Si => self.si,
            WordReg::Di => self.di,
        }
    }

    pub(crate) fn set_word_reg(&mut self, register: WordReg, value: u16)
        ensures { self.new ≡ with_word_reg self.old register value }
    {
        match register {
            WordReg::Ax => self.ax = value,
            WordReg::Cx => self.cx = value,
            WordReg::Dx => self.dx = value,
            WordReg::Bx => self.bx = value,
            WordReg::Sp => self.sp = value,
            WordReg::Bp => self.bp = value,
            WordReg::Si => self.si = value,
            WordReg::Di => self.di = value,
        }
    }

    pub(crate) fn byte_reg(&self, register: ByteReg) -> u8
        ensures { result ≡ byte_reg self.now register }
    {
        match register {
            ByteReg::Al => (self.ax % 256) as u8,
            ByteReg::Cl => (self.cx % 256) as u8,
            ByteReg::Dl => (self.dx % 256) as u8,
            ByteReg::Bl => (self.bx % 256) as u8,
            ByteReg::Ah => (self.ax / 256) as u8,
            ByteReg::Ch => (self.cx / 256) as u8,
            ByteReg::Dh => (self.dx / 256) as u8,
            ByteReg::Bh => (self.bx / 256) as u8,
        }
    }

    pub(crate) fn set_byte_reg(&mut self, register: ByteReg, value: u8)
        ensures { self.new ≡ with_byte_reg self.old register value }
    {
        match register {
            ByteReg::Al => self.ax = with_low(self.ax, value),
            ByteReg::Cl => self.cx = with_low(self.cx, value),
            ByteReg::Dl => self.dx = with_low(self.dx, value),
            ByteReg::Bl => self.bx = with_low(self.bx, value),
            ByteReg::Ah => self.ax = with_high(self.ax, value),
            ByteReg::Ch => self.cx = with_high(self.cx, value),
            ByteReg::Dh => self.dx = with_high(self.dx, value),
            ByteReg::Bh => self.bx = with_high(self.bx, value),
        }
    }

    pub(crate) fn set_data_seg(&mut self, register: DataSeg, value: u16)
        ensures { self.new ≡ with_data_seg self.old register value }
    {
        match register {
            DataSeg::Es => self.es = value,
            DataSeg::Ss => self.ss = value,
            DataSeg::Ds => self.ds = value,
        }
    }

    #[inline(always)]
    fn base_sum(&self, base: Base) -> u32
        ensures value { result ≡ base_sum self.now base }
        ensures bound { result < 131072 }
    {
        match base {
            Base::BxSi => u32::from(self.bx) + u32::from(self.si),
            Base::BxDi => u32::from(self.bx) + u32::from(self.di),
            Base::BpSi => u32::from(self.bp) + u32::from(self.si),
            Base::BpDi => u32::from(self.bp) + u32::from(self.di),
            Base::Si => u32::from(self.si),
            Base::Di => u32::from(self.di),
            Base::Bp => u32::from(self.bp),
            Base::Bx => u32::from(self.bx),
        }
    }

    #[inline(always)]
    fn base_segment(&self, base: Base) -> u16
        ensures { result ≡ base_segment self.now base }
    {
        match base {
            Base::BpSi | Base::BpDi | Base::Bp => self.ss,
            Base::BxSi | Base::BxDi | Base::Si | Base::Di | Base::Bx => self.ds,
        }
    }

    /// The effective address.
    #[tactic(auto, unfolding(crate::specs::Operand::offset_of))]
    #[inline(always)]
    pub(crate) fn offset_of(&self, place: &Place) -> u16
        ensures { result ≡ offset_of self.now place.now }
    {
        match place {
            Place::Direct(offset) => *offset,
            Place::Indirect(base) => (self.base_sum(plain_base(*base)) % 0x1_0000) as u16,
            Place::ByteDisplacement(base, distance) => {
                ((self.base_sum(*base) + u32::from(sign_extend(*distance))) % 0x1_0000) as u16
            }
            Place::WordDisplacement(base, distance) => {
                ((self.base_sum(*base) + u32::from(*distance)) % 0x1_0000) as u16
            }
        }
    }

    /// The segment that serves where there is no override.
    #[tactic(auto, unfolding(crate::specs::Operand::usual_segment))]
    #[inline(always)]
    pub(crate) fn usual_segment(&self, place: &Place) -> u16
        ensures { result ≡ usual_segment self.now place.now }
    {
        match place {
            Place::Direct(_) => self.ds,
            Place::Indirect(base) => self.base_segment(plain_base(*base)),
            Place::ByteDisplacement(base, _) => self.base_segment(*base),
            Place::WordDisplacement(base, _) => self.base_segment(*base),
        }
    }
}

impl Hardware {
    pub(crate) fn seg_reg(&self, register: SegReg) -> u16
        ensures { result ≡ seg_reg self.now register }
    {
        match register {
            SegReg::Es => self.registers.es,
            SegReg::Cs => self.cs,
            SegReg::Ss => self.registers.ss,
            SegReg::Ds => self.registers.ds,
        }
    }

    /// The segment of an override, or the one that serves without.
    #[tactic(auto, unfolding(crate::specs::Direct::chosen))]
    #[inline(always)]
    pub(crate) fn chosen(&self, usual: u16, segment: Option<SegReg>) -> u16
        ensures { result ≡ chosen self.now.registers self.now.cs usual segment }
    {
        match segment {
            Some(register) => self.seg_reg(register),
            None => usual,
        }
    }

    #[inline(always)]
    pub(crate) fn segment_of(&self, memory: &Memory) -> u16
        ensures { result ≡ segment_of self.now memory.now }
    {
        self.chosen(self.registers.usual_segment(&memory.place), memory.segment)
    }

    #[tactic(auto, unfolding(crate::specs::Direct::byte_value))]
    pub(crate) fn byte_value(&self, operand: &ByteOperand) -> u8
        ensures { result ≡ byte_value self.now operand.now }
    {
        match operand {
            ByteOperand::Reg(register) => self.registers.byte_reg(*register),
            ByteOperand::Mem(memory) => {
                self.load_byte(
                    self.segment_of(memory),
                    self.registers.offset_of(&memory.place),
                )
            }
        }
    }

    #[tactic(auto, unfolding(crate::specs::Direct::word_value))]
    #[inline(always)]
    pub(crate) fn word_value(&self, operand: &WordOperand) -> u16
        ensures { result ≡ word_value self.now operand.now }
    {
        match operand {
            WordOperand::Reg(register) => self.registers.word_reg(*register),
            WordOperand::Mem(memory) => {
                self.load_word(
                    self.segment_of(memory),
                    self.registers.offset_of(&memory.place),
                )
            }
        }
    }

    #[tactic(auto, unfolding(crate::specs::Direct::with_byte))]
    pub(crate) fn set_byte_value(&mut self, operand: &ByteOperand, value: u8)
        ensures { self.new ≡ with_byte self.old operand.now value }
    {
        match operand {
            ByteOperand::Reg(register) => self.registers.set_byte_reg(*register, value),
            ByteOperand::Mem(memory) => {
                let segment = self.segment_of(memory);
                let offset = self.registers.offset_of(&memory.place);
                self.store_byte(segment, offset, value);
            }
        }
    }

    #[tactic(auto, unfolding(crate::specs::Direct::with_word))]
    #[inline(always)]
    pub(crate) fn set_word_value(&mut self, operand: &WordOperand, value: u16)
        ensures { self.new ≡ with_word self.old operand.now value }
    {
        match operand {
            WordOperand::Reg(register) => self.registers.set_word_reg(*register, value),
            WordOperand::Mem(memory) => {
                let segment = self.segment_of(memory);
                let offset = self.registers.offset_of(&memory.place);
                self.store_word(segment, offset, value);
            }
        }
    }

    #[tactic(auto, unfolding(crate::specs::Direct::target_value))]
    pub(crate) fn target_value(&self, target: &Target) -> u16
        ensures value { result ≡ target_value self.now target.now }
        ensures fits { result < size (width_of target.now) }
    {
        match target {
            Target::Byte(operand) => u16::from(self.byte_value(operand)),
            Target::Word(operand) => self.word_value(operand),
        }
    }

    #[tactic(auto, unfolding(crate::specs::Direct::with_target))]
    pub(crate) fn set_target(&mut self, target: &Target, value: u16)
        requires { value < size (width_of target.now) }
        ensures { self.new ≡ with_target self.old target.now value }
    {
        match target {
            Target::Byte(operand) => self.set_byte_value(operand, value as u8),
            Target::Word(operand) => self.set_word_value(operand, value),
        }
    }
}
