//! Routines: what comes before a body and behind it.

ghost use Rattle.std.specs.Prelude.{◌≡◌, ◌+◌, ◌%◌, ◌++◌, ◌<◌, [], ◌∷◌, length, min, OnOk};
ghost use Rattle.x86_table.specs.declared.instr.AluOp.TheVariants as alu;
ghost use Rattle.x86_table.specs.declared.instr.Immediate.TheVariants as immediate;
ghost use Rattle.x86_table.specs.declared.instr.Instr.TheVariants as instr;
ghost use Rattle.x86_table.specs.declared.operand.WordOperand.TheVariants as word_rm;
ghost use Rattle.x86_table.specs.declared.operand.WordReg.TheVariants as word;
ghost use Rattle.flat_code.specs.Plain.{view_routine, view_unit};
ghost use Rattle.code_templates.specs.code_lines.Lines.{enter_frame, leave_frame, return_code};
ghost use Rattle.code_templates.specs.code_references.Marks.{plain};
ghost use Rattle.code_templates.specs.code_references.Marked.{stored, compare_sp, marked_stack_test, marked_prologue, marked_epilogue, marked_routine};

use crate::generate_code::{Numbers, push_body};
use crate::generate_expressions::{move_word, push_fail, push_plain};
use crate::generate_steps::push_given;
use code_templates::code_references::MarkedLines;
use flat_code::{FlatRoutine, FlatUnit};
use std::alloc::AllocError;
use x86_table::{AluOp, Cond, Immediate, Instr, WordOperand, WordReg};

fn on_sp(op: AluOp, number: u16) -> Instr
    ensures { result ≡ instr.AluImmediate op (immediate.Word (word_rm.Reg word.Sp) number) }
{
    Instr::AluImmediate(op, Immediate::Word(WordOperand::Reg(WordReg::Sp), number))
}

// The least SP that leaves room for the locals and 512 bytes below.
fn least_sp(locals: u32) -> u16
    ensures { result ≡ min (512 + locals) 65535 }
{
    locals.saturating_add(512).min(65_535) as u16
}

fn compare_sp(routine: &FlatRoutine) -> Instr
    ensures { result ≡ compare_sp (view_routine routine.now) }
{
    on_sp(AluOp::Cmp, least_sp(routine.locals))
}

// A lower SP is error 202. A routine of the runtime tests nothing.
fn push_stack_test(lines: &mut MarkedLines, routine: &FlatRoutine) -> Result<(), AllocError>
    ensures { OnOk result (lines.new ≡ lines.old ++ marked_stack_test (view_routine routine.now) routine.now.frame) }
{
    if routine.frame == 0 {
        return Ok(());
    }
    push_plain(
        lines,
        &[compare_sp(routine), Instr::JumpShort(Cond::AboveOrEqual, 8)],
    )?;
    push_fail(lines, 202)
}

fn make_room(locals: u32) -> Instr
    ensures { result ≡ instr.AluImmediate alu.Sub (immediate.Word (word_rm.Reg word.Sp) (locals % 65536)) }
{
    on_sp(AluOp::Sub, (locals % 0x1_0000) as u16)
}

// The caller's BP is kept, with 1 more in a far routine, and BP leads to it.
fn push_enter_frame(lines: &mut MarkedLines, far: bool) -> Result<(), AllocError>
    ensures { OnOk result (lines.new ≡ lines.old ++ plain (enter_frame far)) }
{
    let push = Instr::Push(WordReg::Bp);
    let set = move_word(WordReg::Bp, WordReg::Sp);
    if far {
        push_plain(lines, &[Instr::Inc(WordReg::Bp), push, set])
    } else {
        push_plain(lines, &[push, set])
    }
}

fn push_prologue(lines: &mut MarkedLines, routine: &FlatRoutine) -> Result<(), AllocError>
    ensures { OnOk result (lines.new ≡ lines.old ++ marked_prologue (view_routine routine.now)) }
{
    push_enter_frame(lines, routine.far)?;
    push_stack_test(lines, routine)?;
    push_plain(lines, &[make_room(routine.locals)])
}

// The arguments are removed.
fn return_code(far: bool, arguments: u16) -> Instr
    ensures { result ≡ return_code far arguments }
{
    if arguments == 0 {
        if far { Instr::RetFar } else { Instr::Ret }
    } else if far {
        Instr::RetFarDrop(arguments)
    } else {
        Instr::RetDrop(arguments)
    }
}

// SP and BP are the caller's again, and the run goes back to it.
fn push_leave_frame(lines: &mut MarkedLines, far: bool, arguments: u16) -> Result<(), AllocError>
    ensures { OnOk result (lines.new ≡ lines.old ++ plain (leave_frame far ++ (return_code far arguments ∷ []))) }
{
    let set = move_word(WordReg::Sp, WordReg::Bp);
    let pop = Instr::Pop(WordReg::Bp);
    let back = return_code(far, arguments);
    if far {
        push_plain(lines, &[set, pop, Instr::Dec(WordReg::Bp), back])
    } else {
        push_plain(lines, &[set, pop, back])
    }
}

fn push_epilogue(lines: &mut MarkedLines, routine: &FlatRoutine) -> Result<(), AllocError>
    ensures { routine.now.arguments < 65536 → OnOk result (lines.new ≡ lines.old ++ marked_epilogue (view_routine routine.now)) }
{
    push_given(lines, routine.far, routine.result)?;
    let arguments = (routine.arguments % 0x1_0000) as u16;
    push_leave_frame(lines, routine.far, arguments)
}

/// Appends the lines of a routine of a unit, whose arguments have fewer than 65,536 bytes, where the numbers are those of the
/// unit's routines. Numbers that pass 32 bits are answered as out of memory.
pub fn push_routine(
    lines: &mut MarkedLines,
    numbers: &mut Numbers,
    unit: &FlatUnit,
    routine: &FlatRoutine,
) -> Result<(), AllocError>
    ensures lines { numbers.old.around.home ≡ length unit.now.routines → routine.now.arguments < 65536 → OnOk result (lines.new ≡ lines.old ++ marked_routine (view_unit unit.now) (length numbers.old.stored) (view_routine routine.now)) }
    ensures home { OnOk result (numbers.new.around.home ≡ numbers.old.around.home) }
    ensures stored { OnOk result (numbers.new.stored ≡ numbers.old.stored ++ stored (view_routine routine.now).body) }
{
    push_prologue(lines, routine)?;
    push_body(lines, numbers, unit, routine.far, routine.body.as_slice())?;
    push_epilogue(lines, routine)
}
