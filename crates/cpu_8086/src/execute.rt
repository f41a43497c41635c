//! The table: what each instruction does, IP standing past it.

ghost use Rattle.std.specs.Prelude.{◌≡◌};
ghost use Rattle.cpu_8086.specs.Direct.{direct};

use crate::arithmetic::{add, sign_extend, subtract, top};
use crate::hardware::Hardware;
use crate::machine::Event;
use x86_table::{Instr, Width};

impl Hardware {
    /// Does what an instruction does. IP is already that of the next one. A step inlines this, and a hint to inline a
    /// very large function is dropped: so of the kinds only the short ones that programs are full of are inlined here,
    /// and the others are functions.
    #[tactic(auto, unfolding(crate::specs::Direct::direct))]
    #[inline(always)]
    pub(crate) fn execute(&mut self, instr: &Instr) -> Event
        ensures state { self.new ≡ (direct self.old instr.now).0 }
        ensures event { result ≡ (direct self.old instr.now).1 }
    {
        match instr {
            Instr::Mov(pair) => self.move_pair(pair),
            Instr::MovImmediate(immediate) => self.move_immediate(immediate),
            Instr::MovByte(register, value) => self.registers.set_byte_reg(*register, *value),
            Instr::MovWord(register, value) => self.registers.set_word_reg(*register, *value),
            Instr::MovFromSeg(operand, register) => self.store_seg_reg(operand, *register),
            Instr::MovToSeg(register, operand) => self.load_data_seg(*register, operand),
            Instr::Push(register) => self.push_register(*register),
            Instr::Pop(register) => self.pop_register(*register),
            Instr::PushSeg(register) => self.push_segment(*register),
            Instr::PopSeg(register) => self.pop_segment(*register),
            Instr::Alu(op, pair) => self.alu_pair(*op, pair),
            Instr::AluImmediate(op, immediate) => self.alu_immediate(*op, immediate),
            Instr::AluShort(op, operand, number) => self.alu_short(*op, operand, *number),
            Instr::Unary(op, target) => {
                let value = self.target_value(target);
                return self.unary(*op, target, value);
            }
            Instr::Inc(register) => {
                let outcome = add(Width::Word, self.registers.word_reg(*register), 1, false);
                self.registers.count(*register, outcome);
            }
            Instr::Dec(register) => {
                let outcome = subtract(Width::Word, self.registers.word_reg(*register), 1, false);
                self.registers.count(*register, outcome);
            }
            Instr::Shift(op, count, target) => {
                let count = self.registers.count_of(*count);
                self.shift(*op, count, target);
            }
            Instr::Cbw => self.registers.ax = sign_extend((self.registers.ax % 256) as u8),
            Instr::Cwd => {
                let sign = top(Width::Word, self.registers.ax);
                self.registers.dx = if sign { 0xffff } else { 0 };
            }
            Instr::Lea(register, memory) => self.registers.load_offset(*register, memory),
            Instr::Les(register, memory) => {
                let offset = self.first_word(memory);
                self.registers.es = self.second_word(memory);
                self.registers.set_word_reg(*register, offset);
            }
            Instr::Lds(register, memory) => {
                let offset = self.first_word(memory);
                self.registers.ds = self.second_word(memory);
                self.registers.set_word_reg(*register, offset);
            }
            Instr::Xchg(operand, register) => self.exchange(operand, *register),
            Instr::JumpShort(cond, distance) => self.registers.jump_if(*cond, *distance),
            Instr::JumpNear(distance) => self.registers.jump_by(*distance),
            Instr::JumpFar(offset, segment) => {
                self.cs = *segment;
                self.registers.ip = *offset;
            }
            Instr::CallNear(distance) => {
                let offset = self.registers.ip.wrapping_add(*distance);
                self.call(offset);
            }
            Instr::CallFar(offset, segment) => self.call_far(*segment, *offset),
            Instr::CallIndirect(operand) => self.call_indirect(operand),
            Instr::CallFarIndirect(memory) => {
                let offset = self.first_word(memory);
                let segment = self.second_word(memory);
                self.call_far(segment, offset);
            }
            Instr::Ret => self.return_near(0),
            Instr::RetDrop(count) => self.return_near(*count),
            Instr::RetFar => self.return_far(0),
            Instr::RetFarDrop(count) => self.return_far(*count),
            Instr::Int(number) => return Event::Service(*number),
            Instr::Cld => self.registers.direction = false,
            Instr::Movsb(segment) => self.move_from(*segment, 1),
            Instr::RepMovsb(segment) => {
                let count = self.registers.cx;
                self.move_from(*segment, count);
                self.registers.cx = 0;
            }
        }
        Event::Ran
    }
}
