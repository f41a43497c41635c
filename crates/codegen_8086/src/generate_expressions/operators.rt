//! What operators do to AX and CX.

ghost use Rattle.std.specs.Prelude.{◌≡◌, ◌++◌, OnOk, [], ◌∷◌};
ghost use Rattle.x86_table.specs.declared.instr.Instr.TheVariants as instr;
ghost use Rattle.x86_table.specs.declared.instr.Cond.TheVariants as cond;
ghost use Rattle.x86_table.specs.declared.instr.UnaryOp.TheVariants as unary;
ghost use Rattle.x86_table.specs.declared.operand.WordReg.TheVariants as word;
ghost use Rattle.code_templates.specs.code_lines.Expressions.{move, apply, compare_with, on_word, truth_unless, shifted_by, negative, magnitudes, signed_by};
ghost use Rattle.code_templates.specs.code_references.Marks.{plain};
ghost use Rattle.code_templates.specs.code_references.Marked.{marked_fail, marked_tested, divided, marked_op};

use crate::generate_expressions::sink::{marked, push_plain};
use code_templates::code_references::{MarkedLines, Target};
use flat_code::FlatOp;
use std::alloc::AllocError;
use x86_table::{
    AluOp, Cond, Count, Instr, Pair, ShiftOp, ShortOp, Target as Divisor, UnaryOp, WordOperand,
    WordReg,
};

/// MOV between word registers.
pub fn move_word(to: WordReg, from: WordReg) -> Instr
    ensures { result ≡ move to from }
{
    Instr::Mov(Pair::WordRm(to, WordOperand::Reg(from)))
}

/// An operator between word registers.
pub fn apply(op: AluOp, to: WordReg, from: WordReg) -> Instr
    ensures { result ≡ apply op to from }
{
    Instr::Alu(op, Pair::WordRm(to, WordOperand::Reg(from)))
}

fn compare_with(register: WordReg, number: u8) -> Instr
    ensures { result ≡ compare_with register number }
{
    Instr::AluShort(ShortOp::Cmp, WordOperand::Reg(register), number)
}

fn on_word(op: UnaryOp, register: WordReg) -> Instr
    ensures { result ≡ on_word op register }
{
    Instr::Unary(op, Divisor::Word(WordOperand::Reg(register)))
}

/// Appends a runtime error: its code goes to AX, and the run to the error routine.
pub fn push_fail(lines: &mut MarkedLines, code: u16) -> Result<(), AllocError>
    ensures { OnOk result (lines.new ≡ lines.old ++ marked_fail code) }
{
    push_plain(lines, &[Instr::MovWord(WordReg::Ax, code)])?;
    lines.push(marked(Instr::JumpFar(0, 0), Target::ErrorRoutine))
}

fn truth_unless(cond: Cond) -> [Instr; 4]
    ensures { result ≡ truth_unless cond }
{
    [
        apply(AluOp::Cmp, WordReg::Ax, WordReg::Cx),
        Instr::MovWord(WordReg::Ax, 0),
        Instr::JumpShort(cond, 1),
        Instr::Inc(WordReg::Ax),
    ]
}

// An error where the divisor in CX is 0.
fn push_tested(lines: &mut MarkedLines) -> Result<(), AllocError>
    ensures { OnOk result (lines.new ≡ lines.old ++ marked_tested) }
{
    push_plain(
        lines,
        &[
            compare_with(WordReg::Cx, 0),
            Instr::JumpShort(Cond::NotEqual, 8),
        ],
    )?;
    push_fail(lines, 200)
}

// BX keeps the sign of the quotient.
fn signed_quotient() -> [Instr; 11]
    ensures { result ≡ instr.JumpShort cond.NoSign 4 ∷ on_word unary.Neg word.Cx ∷ on_word unary.Not word.Bx ∷ (magnitudes ++ signed_by) }
{
    [
        Instr::JumpShort(Cond::NoSign, 4),
        on_word(UnaryOp::Neg, WordReg::Cx),
        on_word(UnaryOp::Not, WordReg::Bx),
        compare_with(WordReg::Ax, 0),
        Instr::JumpShort(Cond::NoSign, 2),
        on_word(UnaryOp::Neg, WordReg::Ax),
        Instr::MovWord(WordReg::Dx, 0),
        on_word(UnaryOp::Div, WordReg::Cx),
        compare_with(WordReg::Bx, 0),
        Instr::JumpShort(Cond::NoSign, 2),
        on_word(UnaryOp::Neg, WordReg::Ax),
    ]
}

// BX keeps the sign of the dividend.
fn signed_remainder() -> [Instr; 11]
    ensures { result ≡ negative word.Cx ++ (magnitudes ++ (move word.Ax word.Dx ∷ signed_by)) }
{
    [
        Instr::JumpShort(Cond::NoSign, 2),
        on_word(UnaryOp::Neg, WordReg::Cx),
        compare_with(WordReg::Ax, 0),
        Instr::JumpShort(Cond::NoSign, 2),
        on_word(UnaryOp::Neg, WordReg::Ax),
        Instr::MovWord(WordReg::Dx, 0),
        on_word(UnaryOp::Div, WordReg::Cx),
        move_word(WordReg::Ax, WordReg::Dx),
        compare_with(WordReg::Bx, 0),
        Instr::JumpShort(Cond::NoSign, 2),
        on_word(UnaryOp::Neg, WordReg::Ax),
    ]
}

// AX by CX, without signs.
fn divided() -> [Instr; 2]
    ensures { result ≡ divided }
{
    [
        Instr::MovWord(WordReg::Dx, 0),
        on_word(UnaryOp::Div, WordReg::Cx),
    ]
}

fn shifted_by(op: ShiftOp) -> Instr
    ensures { result ∷ [] ≡ shifted_by op }
{
    Instr::Shift(op, Count::Cl, Divisor::Word(WordOperand::Reg(WordReg::Ax)))
}

fn with_cx(op: AluOp) -> Instr
    ensures { result ≡ apply op word.Ax word.Cx }
{
    apply(op, WordReg::Ax, WordReg::Cx)
}

// Signed and unsigned quotients and remainders.
fn push_division(lines: &mut MarkedLines, first: &[Instr], rest: &[Instr]) -> Result<(), AllocError>
    ensures { OnOk result (lines.new ≡ lines.old ++ (plain first.now ++ (marked_tested ++ plain rest.now))) }
{
    push_plain(lines, first)?;
    push_tested(lines)?;
    push_plain(lines, rest)
}

/// Appends what an operator does, the left operand in AX and the right one in CX.
pub fn push_op(lines: &mut MarkedLines, op: FlatOp) -> Result<(), AllocError>
    ensures { OnOk result (lines.new ≡ lines.old ++ marked_op op) }
{
    match op {
        FlatOp::Add => push_plain(lines, &[with_cx(AluOp::Add)]),
        FlatOp::Sub => push_plain(lines, &[with_cx(AluOp::Sub)]),
        FlatOp::Mul => push_plain(lines, &[on_word(UnaryOp::Mul, WordReg::Cx)]),
        FlatOp::MulHigh => push_plain(
            lines,
            &[
                on_word(UnaryOp::Mul, WordReg::Cx),
                move_word(WordReg::Ax, WordReg::Dx),
            ],
        ),
        FlatOp::Div => push_division(
            lines,
            &[move_word(WordReg::Bx, WordReg::Ax)],
            &signed_quotient(),
        ),
        FlatOp::Mod => push_division(
            lines,
            &[move_word(WordReg::Bx, WordReg::Ax)],
            &signed_remainder(),
        ),
        FlatOp::DivUnsigned => push_division(lines, &[], &divided()),
        FlatOp::ModUnsigned => push_division(
            lines,
            &[],
            &[
                Instr::MovWord(WordReg::Dx, 0),
                on_word(UnaryOp::Div, WordReg::Cx),
                move_word(WordReg::Ax, WordReg::Dx),
            ],
        ),
        FlatOp::And => push_plain(lines, &[with_cx(AluOp::And)]),
        FlatOp::Or => push_plain(lines, &[with_cx(AluOp::Or)]),
        FlatOp::Xor => push_plain(lines, &[with_cx(AluOp::Xor)]),
        FlatOp::Shl => push_plain(lines, &[shifted_by(ShiftOp::Shl)]),
        FlatOp::Shr => push_plain(lines, &[shifted_by(ShiftOp::Shr)]),
        FlatOp::Equal => push_plain(lines, &truth_unless(Cond::NotEqual)),
        FlatOp::Less => push_plain(lines, &truth_unless(Cond::GreaterOrEqual)),
        FlatOp::Below => push_plain(lines, &truth_unless(Cond::AboveOrEqual)),
    }
}
