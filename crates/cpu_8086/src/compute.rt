//! Arithmetic, shifts and conditions: what they make of operands and flags.

ghost use Rattle.std.specs.Prelude.{◌≡◌, ◌<◌, ◌*◌};
ghost use Rattle.cpu_8086.specs.Arithmetic.{size, sign_extend};
ghost use Rattle.cpu_8086.specs.Effect.{with_flags, alu_op, counted, width_of, accumulator, dividend, with_halves, with_product, multiplied, multiplied_signed, count_of, zero_and_sign, with_shift_flags, holds, jump_by, jump_if};
ghost use Rattle.cpu_8086.specs.Direct.{with_result_byte, with_result_word, alu_on_byte, alu_on_word, alu_on_pair, alu_on_immediate, negated, divided_by, unary_on, shifted_to, shifted_by};

use crate::arithmetic::{
    Outcome, Shifted, alu, shift, shift_overflow, sign_extend, signed_product, size, subtract, top,
};
use crate::hardware::Hardware;
use crate::machine::Event;
use crate::operand::width_of;
use crate::registers::Registers;
use x86_table::{
    AluOp, ByteOperand, Cond, Count, Immediate, Pair, ShiftOp, ShortOp, Target, UnaryOp, Width,
    WordOperand, WordReg,
};

/// The operator of an instruction that takes a sign-extended byte.
fn alu_op(op: ShortOp) -> AluOp
    ensures { result ≡ alu_op op }
{
    match op {
        ShortOp::Add => AluOp::Add,
        ShortOp::Adc => AluOp::Adc,
        ShortOp::Sbb => AluOp::Sbb,
        ShortOp::Sub => AluOp::Sub,
        ShortOp::Cmp => AluOp::Cmp,
    }
}

impl Registers {
    #[inline(always)]
    fn set_flags(&mut self, width: Width, outcome: Outcome)
        ensures { self.new ≡ with_flags self.old width outcome }
    {
        self.carry = outcome.carry;
        self.zeroed = outcome.value == 0;
        self.sign = top(width, outcome.value);
        self.overflow = outcome.overflow;
    }

    /// One more or less, leaving the carry.
    #[inline(always)]
    pub(crate) fn count(&mut self, register: WordReg, outcome: Outcome)
        ensures { self.new ≡ counted self.old register outcome }
    {
        let carry = self.carry;
        self.set_flags(
            Width::Word,
            Outcome {
                value: outcome.value,
                carry,
                overflow: outcome.overflow,
            },
        );
        self.set_word_reg(register, outcome.value);
    }

    /// AL or AX.
    fn accumulator(&self, width: Width) -> u16
        ensures value { result ≡ accumulator self.now width }
        ensures fits { result < size width }
    {
        let word = self.ax;
        match width {
            Width::Byte => word % 256,
            Width::Word => word,
        }
    }

    /// AX or DX:AX.
    fn dividend(&self, width: Width) -> u32
        ensures { result ≡ dividend self.now width }
    {
        match width {
            Width::Byte => u32::from(self.ax),
            Width::Word => u32::from(self.ax) + 0x1_0000 * u32::from(self.dx),
        }
    }

    fn set_halves(&mut self, width: Width, upper: u16, lower: u16)
        requires upper { upper < size width }
        requires lower { lower < size width }
        ensures { self.new ≡ with_halves self.old width upper lower }
    {
        match width {
            Width::Byte => self.ax = lower + 256 * upper,
            Width::Word => {
                self.ax = lower;
                self.dx = upper;
            }
        }
    }

    fn set_product(&mut self, width: Width, product: u32, excess: bool)
        requires { product < size width * size width }
        ensures { self.new ≡ with_product self.old width product excess }
    {
        let upper = (product / size(width)) as u16;
        let lower = (product % size(width)) as u16;
        self.set_halves(width, upper, lower);
        self.carry = excess;
        self.overflow = excess;
    }

    fn multiply(&mut self, width: Width, value: u16)
        requires { value < size width }
        ensures { self.new ≡ multiplied self.old width value }
    {
        let product = u32::from(self.accumulator(width)) * u32::from(value);
        self.set_product(width, product, size(width) <= product);
    }

    fn multiply_signed(&mut self, width: Width, value: u16)
        requires { value < size width }
        ensures { self.new ≡ multiplied_signed self.old width value }
    {
        let (product, excess) = signed_product(width, self.accumulator(width), value);
        self.set_product(width, product, excess);
    }

    pub(crate) fn count_of(&self, count: Count) -> u8
        ensures { result ≡ count_of self.now count }
    {
        match count {
            Count::One => 1,
            Count::Cl => (self.cx % 256) as u8,
        }
    }

    fn set_zero_and_sign(&mut self, op: ShiftOp, width: Width, value: u16)
        ensures { self.new ≡ zero_and_sign self.old op width value }
    {
        match op {
            ShiftOp::Rcl | ShiftOp::Rcr => {}
            ShiftOp::Shl | ShiftOp::Shr | ShiftOp::Sar => {
                self.zeroed = value == 0;
                self.sign = top(width, value);
            }
        }
    }

    fn set_shift_flags(&mut self, op: ShiftOp, width: Width, count: u8, before: u16, after: Shifted)
        ensures { self.new ≡ with_shift_flags self.old op width count before after }
    {
        self.set_zero_and_sign(op, width, after.value);
        self.carry = after.carry;
        if count == 1 {
            self.overflow = shift_overflow(op, width, before, after);
        }
    }

    /// Whether a jump is taken.
    #[inline(always)]
    fn holds(&self, cond: Cond) -> bool
        ensures { result ≡ holds self.now cond }
    {
        match cond {
            Cond::Overflow => self.overflow,
            Cond::NoOverflow => !self.overflow,
            Cond::Below => self.carry,
            Cond::AboveOrEqual => !self.carry,
            Cond::Equal => self.zeroed,
            Cond::NotEqual => !self.zeroed,
            Cond::BelowOrEqual => self.carry || self.zeroed,
            Cond::Above => !(self.carry || self.zeroed),
            Cond::Sign => self.sign,
            Cond::NoSign => !self.sign,
            Cond::Less => self.sign != self.overflow,
            Cond::GreaterOrEqual => self.sign == self.overflow,
            Cond::LessOrEqual => self.zeroed || self.sign != self.overflow,
            Cond::Greater => !(self.zeroed || self.sign != self.overflow),
            Cond::Always => true,
        }
    }

    pub(crate) fn jump_by(&mut self, distance: u16)
        ensures { self.new ≡ jump_by self.old distance }
    {
        self.ip = self.ip.wrapping_add(distance);
    }

    #[inline(always)]
    pub(crate) fn jump_if(&mut self, cond: Cond, distance: u8)
        ensures { self.new ≡ jump_if self.old cond distance }
    {
        if self.holds(cond) {
            self.jump_by(sign_extend(distance));
        }
    }
}

impl Hardware {
    #[tactic(auto, unfolding(crate::specs::Direct::with_result_byte))]
    fn set_result_byte(&mut self, op: AluOp, operand: &ByteOperand, value: u8)
        ensures { self.new ≡ with_result_byte op self.old operand.now value }
    {
        match op {
            AluOp::Cmp => {}
            _ => self.set_byte_value(operand, value),
        }
    }

    #[tactic(auto, unfolding(crate::specs::Direct::with_result_word))]
    #[inline(always)]
    fn set_result_word(&mut self, op: AluOp, operand: &WordOperand, value: u16)
        ensures { self.new ≡ with_result_word op self.old operand.now value }
    {
        match op {
            AluOp::Cmp => {}
            _ => self.set_word_value(operand, value),
        }
    }

    #[tactic(auto, unfolding(crate::specs::Direct::alu_on_byte))]
    fn alu_byte(&mut self, op: AluOp, operand: &ByteOperand, number: u8)
        ensures { self.new ≡ alu_on_byte self.old op operand.now number }
    {
        let value = self.byte_value(operand);
        let carry = self.registers.carry;
        let outcome = alu(op, Width::Byte, u16::from(value), u16::from(number), carry);
        self.registers.set_flags(Width::Byte, outcome);
        self.set_result_byte(op, operand, outcome.value as u8);
    }

    #[tactic(auto, unfolding(crate::specs::Direct::alu_on_word))]
    #[inline(always)]
    fn alu_word(&mut self, op: AluOp, operand: &WordOperand, number: u16)
        ensures { self.new ≡ alu_on_word self.old op operand.now number }
    {
        let value = self.word_value(operand);
        let carry = self.registers.carry;
        let outcome = alu(op, Width::Word, value, number, carry);
        self.registers.set_flags(Width::Word, outcome);
        self.set_result_word(op, operand, outcome.value);
    }

    #[tactic(auto, unfolding(crate::specs::Direct::alu_on_pair))]
    pub(crate) fn alu_pair(&mut self, op: AluOp, pair: &Pair)
        ensures { self.new ≡ alu_on_pair self.old op pair.now }
    {
        match pair {
            Pair::RmByte(operand, register) => {
                let number = self.registers.byte_reg(*register);
                self.alu_byte(op, operand, number);
            }
            Pair::RmWord(operand, register) => {
                let number = self.registers.word_reg(*register);
                self.alu_word(op, operand, number);
            }
            Pair::ByteRm(register, operand) => {
                let number = self.byte_value(operand);
                self.alu_byte(op, &ByteOperand::Reg(*register), number);
            }
            Pair::WordRm(register, operand) => {
                let number = self.word_value(operand);
                self.alu_word(op, &WordOperand::Reg(*register), number);
            }
        }
    }

    #[tactic(auto, unfolding(crate::specs::Direct::alu_on_immediate))]
    pub(crate) fn alu_immediate(&mut self, op: AluOp, immediate: &Immediate)
        ensures { self.new ≡ alu_on_immediate self.old op immediate.now }
    {
        match immediate {
            Immediate::Byte(operand, number) => self.alu_byte(op, operand, *number),
            Immediate::Word(operand, number) => self.alu_word(op, operand, *number),
        }
    }

    /// An operator of a word and a sign-extended byte.
    pub(crate) fn alu_short(&mut self, op: ShortOp, operand: &WordOperand, number: u8)
        ensures { self.new ≡ alu_on_word self.old (alu_op op) operand.now (sign_extend number) }
    {
        self.alu_word(alu_op(op), operand, sign_extend(number));
    }

    #[tactic(auto, unfolding(crate::specs::Direct::negated))]
    fn negate(&mut self, target: &Target, value: u16)
        requires { value < size (width_of target.now) }
        ensures { self.new ≡ negated self.old target.now value }
    {
        let width = width_of(target);
        let outcome = subtract(width, 0, value, false);
        self.registers.set_flags(width, outcome);
        self.set_target(target, outcome.value);
    }

    /// The quotient and the remainder, where the quotient fits.
    #[tactic(auto, unfolding(crate::specs::Direct::divided_by))]
    fn divide(&mut self, width: Width, value: u16) -> Event
        requires { value < size width }
        ensures state { self.new ≡ (divided_by self.old width value).0 }
        ensures event { result ≡ (divided_by self.old width value).1 }
    {
        if value == 0 {
            return Event::Divide;
        }
        let dividend = self.registers.dividend(width);
        let quotient = dividend / u32::from(value);
        if size(width) <= quotient {
            return Event::Divide;
        }
        let remainder = (dividend % u32::from(value)) as u16;
        self.registers.set_halves(width, remainder, quotient as u16);
        Event::Ran
    }

    #[tactic(auto, unfolding(crate::specs::Direct::unary_on))]
    pub(crate) fn unary(&mut self, op: UnaryOp, target: &Target, value: u16) -> Event
        requires { value < size (width_of target.now) }
        ensures state { self.new ≡ (unary_on self.old op target.now value).0 }
        ensures event { result ≡ (unary_on self.old op target.now value).1 }
    {
        let width = width_of(target);
        match op {
            UnaryOp::Not => self.set_target(target, (size(width) - 1 - u32::from(value)) as u16),
            UnaryOp::Neg => self.negate(target, value),
            UnaryOp::Mul => self.registers.multiply(width, value),
            UnaryOp::Imul => self.registers.multiply_signed(width, value),
            UnaryOp::Div => return self.divide(width, value),
        }
        Event::Ran
    }

    #[tactic(auto, unfolding(crate::specs::Direct::shifted_to))]
    fn shift_to(&mut self, op: ShiftOp, count: u8, target: &Target, before: u16, after: Shifted)
        requires { after.value < size (width_of target.now) }
        ensures { self.new ≡ shifted_to self.old op count target.now before after }
    {
        self.registers
            .set_shift_flags(op, width_of(target), count, before, after);
        self.set_target(target, after.value);
    }

    /// A shift by no place changes nothing.
    #[tactic(auto, unfolding(crate::specs::Direct::shifted_by))]
    pub(crate) fn shift(&mut self, op: ShiftOp, count: u8, target: &Target)
        ensures { self.new ≡ shifted_by self.old op count target.now }
    {
        if count != 0 {
            let before = self.target_value(target);
            let carry = self.registers.carry;
            let after = shift(op, width_of(target), before, carry, count);
            self.shift_to(op, count, target, before, after);
        }
    }
}
