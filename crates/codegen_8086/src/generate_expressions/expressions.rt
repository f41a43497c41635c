//! The code of expressions, whose values come to AX.

ghost use Rattle.std.specs.Prelude.{◌≡◌, ◌++◌, [], ◌∷◌, OnOk};
ghost use Rattle.flat_code.specs.View.{view_expr, view_exprs};
ghost use Rattle.code_templates.specs.code_lines.Expressions.{segment_code};
ghost use Rattle.code_templates.specs.code_references.Marked.{byte_load, marked_expr, marked_args};

use crate::generate_expressions::operands::{address_load, operand, push_loads, word_load};
use crate::generate_expressions::operators::{move_word, push_op};
use crate::generate_expressions::sink::{at_place, marked, push_plain};
use code_templates::code_references::{MarkedLines, Target};
use flat_code::{Address, FlatExpr};
use std::alloc::AllocError;
use x86_table::{ByteOperand, ByteReg, Instr, Pair, SegReg, WordOperand, WordReg};

// MOV AX from the register that has the segment of a place.
fn segment_code(at: Address) -> Instr
    ensures { result ∷ [] ≡ segment_code at }
{
    let register = match at {
        Address::Global { .. } => SegReg::Ds,
        Address::Local(_) | Address::Outer { .. } => SegReg::Ss,
        Address::Through { .. } => SegReg::Es,
    };
    Instr::MovFromSeg(WordOperand::Reg(WordReg::Ax), register)
}

/// MOV AL from a place that is loaded.
pub fn byte_load(far: bool, at: Address) -> Instr
    ensures { result ≡ byte_load far at }
{
    Instr::Mov(Pair::ByteRm(ByteReg::Al, ByteOperand::Mem(operand(far, at, 0))))
}

/// Appends the code of an expression.
pub fn push_expr(lines: &mut MarkedLines, far: bool, expr: &FlatExpr) -> Result<(), AllocError>
    ensures { OnOk result (lines.new ≡ lines.old ++ marked_expr far (view_expr expr.now)) }
{
    match expr {
        FlatExpr::Number(n) => push_plain(lines, &[Instr::MovWord(WordReg::Ax, *n)]),
        FlatExpr::Byte(at) => {
            push_loads(lines, far, *at)?;
            lines.push(at_place(*at, byte_load(far, *at)))?;
            push_plain(lines, &[Instr::MovByte(ByteReg::Ah, 0)])
        }
        FlatExpr::Word(at) => {
            push_loads(lines, far, *at)?;
            lines.push(at_place(*at, word_load(WordReg::Ax, far, *at, 0)))
        }
        FlatExpr::AddressOf(at) => {
            push_loads(lines, far, *at)?;
            lines.push(at_place(*at, address_load(WordReg::Ax, far, *at)))
        }
        FlatExpr::SegmentOf(at) => {
            push_loads(lines, far, *at)?;
            push_plain(lines, &[segment_code(*at)])
        }
        FlatExpr::VmtOf { unit, number } => lines.push(marked(
            Instr::MovWord(WordReg::Ax, 0),
            Target::Table {
                unit: *unit,
                number: *number,
            },
        )),
        FlatExpr::Op { op, a, b } => {
            push_expr(lines, far, a)?;
            push_plain(lines, &[Instr::Push(WordReg::Ax)])?;
            push_expr(lines, far, b)?;
            push_plain(
                lines,
                &[move_word(WordReg::Cx, WordReg::Ax), Instr::Pop(WordReg::Ax)],
            )?;
            push_op(lines, *op)
        }
    }
}

/// Appends the code of arguments, each of which is pushed.
pub fn push_args(lines: &mut MarkedLines, far: bool, args: &[FlatExpr]) -> Result<(), AllocError>
    ensures { OnOk result (lines.new ≡ lines.old ++ marked_args far (view_exprs args.now)) }
{
    for arg in args {
        push_expr(lines, far, arg)?;
        push_plain(lines, &[Instr::Push(WordReg::Ax)])?;
    }
    Ok(())
}
