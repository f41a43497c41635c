//! Moves, the stack, calls and returns.

ghost use Rattle.std.specs.Prelude.{◌≡◌};
ghost use Rattle.cpu_8086.specs.Access.{lowered, raised};
ghost use Rattle.cpu_8086.specs.Effect.{index_after, indices_after};
ghost use Rattle.cpu_8086.specs.Operand.{with_word_reg, with_data_seg, offset_of};
ghost use Rattle.cpu_8086.specs.Direct.{with_registers, seg_reg, word_value, with_word, moved_pair, moved_immediate, pushed, pushed_register, top_word, popped_register, popped_segment, first_word, second_word, exchanged, called, called_far, returned, returned_far, moved_byte, moved_bytes, moved_from};

use crate::hardware::Hardware;
use crate::registers::Registers;
use x86_table::{DataSeg, Immediate, Memory, Pair, SegReg, WordOperand, WordReg};

impl Registers {
    /// SP after a word was pushed.
    fn lower(&mut self)
        ensures { self.new ≡ lowered self.old }
    {
        self.sp = self.sp.wrapping_sub(2);
    }

    /// SP after so many bytes were dropped.
    fn raise(&mut self, count: u16)
        ensures { self.new ≡ raised self.old count }
    {
        self.sp = self.sp.wrapping_add(count);
    }

    /// An index after a byte.
    fn index_after(&self, index: u16) -> u16
        ensures { result ≡ index_after self.now index }
    {
        if self.direction {
            index.wrapping_sub(1)
        } else {
            index.wrapping_add(1)
        }
    }

    fn advance(&mut self)
        ensures { self.new ≡ indices_after self.old }
    {
        let source = self.index_after(self.si);
        let destination = self.index_after(self.di);
        self.si = source;
        self.di = destination;
    }

    /// The effective address of an operand goes to a register.
    pub(crate) fn load_offset(&mut self, register: WordReg, memory: &Memory)
        ensures { self.new ≡ with_word_reg self.old register (offset_of self.old memory.now.place) }
    {
        let offset = self.offset_of(&memory.place);
        self.set_word_reg(register, offset);
    }
}

impl Hardware {
    #[tactic(auto, unfolding(crate::specs::Direct::moved_pair))]
    pub(crate) fn move_pair(&mut self, pair: &Pair)
        ensures { self.new ≡ moved_pair self.old pair.now }
    {
        match pair {
            Pair::RmByte(operand, register) => {
                let value = self.registers.byte_reg(*register);
                self.set_byte_value(operand, value);
            }
            Pair::RmWord(operand, register) => {
                let value = self.registers.word_reg(*register);
                self.set_word_value(operand, value);
            }
            Pair::ByteRm(register, operand) => {
                let value = self.byte_value(operand);
                self.registers.set_byte_reg(*register, value);
            }
            Pair::WordRm(register, operand) => {
                let value = self.word_value(operand);
                self.registers.set_word_reg(*register, value);
            }
        }
    }

    #[tactic(auto, unfolding(crate::specs::Direct::moved_immediate))]
    pub(crate) fn move_immediate(&mut self, immediate: &Immediate)
        ensures { self.new ≡ moved_immediate self.old immediate.now }
    {
        match immediate {
            Immediate::Byte(operand, value) => self.set_byte_value(operand, *value),
            Immediate::Word(operand, value) => self.set_word_value(operand, *value),
        }
    }

    pub(crate) fn store_seg_reg(&mut self, operand: &WordOperand, register: SegReg)
        ensures { self.new ≡ with_word self.old operand.now (seg_reg self.old register) }
    {
        let value = self.seg_reg(register);
        self.set_word_value(operand, value);
    }

    pub(crate) fn load_data_seg(&mut self, register: DataSeg, operand: &WordOperand)
        ensures { self.new ≡ with_registers self.old (with_data_seg self.old.registers register (word_value self.old operand.now)) }
    {
        let value = self.word_value(operand);
        self.registers.set_data_seg(register, value);
    }

    #[tactic(auto, unfolding(crate::specs::Direct::pushed))]
    #[inline(always)]
    fn push(&mut self, value: u16)
        ensures { self.new ≡ pushed self.old value }
    {
        self.registers.lower();
        let segment = self.registers.ss;
        let offset = self.registers.sp;
        self.store_word(segment, offset, value);
    }

    /// SP itself is pushed as it is after the decrement.
    #[tactic(auto, unfolding(crate::specs::Direct::pushed_register, crate::specs::Direct::pushed))]
    #[inline(always)]
    pub(crate) fn push_register(&mut self, register: WordReg)
        ensures { self.new ≡ pushed_register self.old register }
    {
        self.registers.lower();
        let segment = self.registers.ss;
        let offset = self.registers.sp;
        let word = self.registers.word_reg(register);
        self.store_word(segment, offset, word);
    }

    pub(crate) fn push_segment(&mut self, register: SegReg)
        ensures { self.new ≡ pushed self.old (seg_reg self.old register) }
    {
        let value = self.seg_reg(register);
        self.push(value);
    }

    /// The word at the top of the stack.
    #[inline(always)]
    fn top_word(&self) -> u16
        ensures { result ≡ top_word self.now }
    {
        self.load_word(self.registers.ss, self.registers.sp)
    }

    #[tactic(auto, unfolding(crate::specs::Direct::popped_register))]
    #[inline(always)]
    pub(crate) fn pop_register(&mut self, register: WordReg)
        ensures { self.new ≡ popped_register self.old register }
    {
        let value = self.top_word();
        self.registers.raise(2);
        self.registers.set_word_reg(register, value);
    }

    #[tactic(auto, unfolding(crate::specs::Direct::popped_segment))]
    pub(crate) fn pop_segment(&mut self, register: DataSeg)
        ensures { self.new ≡ popped_segment self.old register }
    {
        let value = self.top_word();
        self.registers.raise(2);
        self.registers.set_data_seg(register, value);
    }

    /// The word of a memory operand.
    pub(crate) fn first_word(&self, memory: &Memory) -> u16
        ensures { result ≡ first_word self.now memory.now }
    {
        self.load_word(
            self.segment_of(memory),
            self.registers.offset_of(&memory.place),
        )
    }

    /// The word behind that of a memory operand.
    pub(crate) fn second_word(&self, memory: &Memory) -> u16
        ensures { result ≡ second_word self.now memory.now }
    {
        let offset = self.registers.offset_of(&memory.place).wrapping_add(2);
        self.load_word(self.segment_of(memory), offset)
    }

    #[tactic(auto, unfolding(crate::specs::Direct::exchanged))]
    pub(crate) fn exchange(&mut self, operand: &WordOperand, register: WordReg)
        ensures { self.new ≡ exchanged self.old operand.now register }
    {
        let value = self.word_value(operand);
        let other = self.registers.word_reg(register);
        self.set_word_value(operand, other);
        self.registers.set_word_reg(register, value);
    }

    #[tactic(auto, unfolding(crate::specs::Direct::called))]
    #[inline(always)]
    pub(crate) fn call(&mut self, offset: u16)
        ensures { self.new ≡ called self.old offset }
    {
        let ip = self.registers.ip;
        self.push(ip);
        self.registers.ip = offset;
    }

    /// Calls the offset that a word holds.
    pub(crate) fn call_indirect(&mut self, operand: &WordOperand)
        ensures { self.new ≡ called self.old (word_value self.old operand.now) }
    {
        let offset = self.word_value(operand);
        self.call(offset);
    }

    /// CS is pushed, then IP.
    #[tactic(auto, unfolding(crate::specs::Direct::called_far, crate::specs::Direct::pushed))]
    pub(crate) fn call_far(&mut self, segment: u16, offset: u16)
        ensures { self.new ≡ called_far self.old segment offset }
    {
        let cs = self.cs;
        let ip = self.registers.ip;
        self.push(cs);
        self.push(ip);
        self.cs = segment;
        self.registers.ip = offset;
    }

    /// IP is popped, and so many bytes are dropped.
    #[tactic(auto, unfolding(crate::specs::Direct::returned))]
    #[inline(always)]
    pub(crate) fn return_near(&mut self, count: u16)
        ensures { self.new ≡ returned self.old count }
    {
        let offset = self.top_word();
        self.registers.ip = offset;
        self.registers.sp = self.registers.sp.wrapping_add(2).wrapping_add(count);
    }

    /// IP is popped, then CS, and so many bytes are dropped.
    #[tactic(auto, unfolding(crate::specs::Direct::returned_far))]
    pub(crate) fn return_far(&mut self, count: u16)
        ensures { self.new ≡ returned_far self.old count }
    {
        let offset = self.top_word();
        let segment = self.load_word(self.registers.ss, self.registers.sp.wrapping_add(2));
        self.registers.ip = offset;
        self.cs = segment;
        self.registers.sp = self.registers.sp.wrapping_add(4).wrapping_add(count);
    }

    /// A byte goes from a segment and SI to ES and DI.
    #[tactic(auto, unfolding(crate::specs::Direct::moved_byte))]
    fn move_byte(&mut self, segment: u16)
        ensures { self.new ≡ moved_byte segment self.old }
    {
        let value = self.load_byte(segment, self.registers.si);
        let target = self.registers.es;
        let offset = self.registers.di;
        self.store_byte(target, offset, value);
        self.registers.advance();
    }

    fn move_bytes(&mut self, segment: u16, count: u16)
        ensures { self.new ≡ moved_bytes segment count self.old }
    {
        for _byte in 0..count {
            self.move_byte(segment);
        }
    }

    /// So many bytes go from DS, or the override, and SI to ES and DI.
    #[tactic(auto, unfolding(crate::specs::Direct::moved_from))]
    pub(crate) fn move_from(&mut self, segment: Option<SegReg>, count: u16)
        ensures { self.new ≡ moved_from self.old segment count }
    {
        let source = self.chosen(self.registers.ds, segment);
        self.move_bytes(source, count);
    }
}
