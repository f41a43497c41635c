//! The code of statements and of lists of them.

ghost use Rattle.std.specs.Prelude.{◌≡◌, ◌+◌, ◌<◌, ◌^◌, ◌++◌, [], ◌∷◌, length, IfOk, OnOk};
ghost use Rattle.x86_table.specs.declared.line.Line.TheVariants.{Label, JumpNear};
ghost use Rattle.flat_code.specs.Plain.{view_unit};
ghost use Rattle.flat_code.specs.Tree.{End, Loop};
ghost use Rattle.flat_code.specs.View.{view_expr, view_stmt, view_list};
ghost use Rattle.code_templates.specs.code_lines.Lines.{leave, tested, labels};
ghost use Rattle.code_templates.specs.code_references.Marks.{bare};
ghost use Rattle.code_templates.specs.code_references.Marked.{marked_expr, marked_code, marked_store_routine, pointer_datum, stored};
ghost use Rattle.codegen_8086.specs.generate_code.Numbering.{begun, past, with_stored};

use crate::generate_code::numbers::Numbers;
use crate::generate_expressions::{apply, push_bare, push_expr, push_fail};
use crate::generate_steps::{
    push_acting, push_byte_of, push_calling, push_calling_through, push_copy, push_store_routine,
    push_word_of,
};
use code_templates::code_references::MarkedLines;
use flat_code::{Address, FlatExpr, FlatStmt, FlatUnit};
use std::alloc::AllocError;
use type_layout::RoutineId;
use x86_table::{AluOp, Cond, Instr, Line, WordReg};

fn push_leave(lines: &mut MarkedLines, numbers: &Numbers, loops: u16) -> Result<(), AllocError>
    ensures { OnOk result (lines.new ≡ lines.old ++ bare (leave numbers.now.around loops)) }
{
    if loops == 0 {
        return Ok(());
    }
    push_bare(lines, &[Line::JumpNear(numbers.end_of(loops - 1))])
}

// On to the first label where AX is not 0, else to the second one.
fn test_lines(yes: u32, no: u32) -> [Line; 4]
    ensures { result ≡ tested yes ++ (JumpNear no ∷ Label yes ∷ []) }
{
    [
        Line::One(apply(AluOp::Or, WordReg::Ax, WordReg::Ax)),
        Line::JumpShort(Cond::NotEqual, yes),
        Line::JumpNear(no),
        Line::Label(yes),
    ]
}

// Takes the three labels of a statement with two branches, and answers the first of them: where the test holds, the code
// comes to it, else to the second one.
fn push_test(
    lines: &mut MarkedLines,
    numbers: &mut Numbers,
    far: bool,
    test: &FlatExpr,
) -> Result<u32, AllocError>
    ensures first { IfOk result (λ first. first ≡ numbers.old.label) }
    ensures lines { IfOk result (λ first. lines.new ≡ lines.old ++ (marked_expr far (view_expr test.now) ++ bare (tested first ++ (JumpNear (first + 1) ∷ Label first ∷ [])))) }
    ensures past { OnOk result (numbers.new ≡ past numbers.old 3) }
    ensures room { OnOk result (numbers.old.label + 3 < 2 ^ 32) }
{
    let first = numbers.next(3)?;
    push_expr(lines, far, test)?;
    push_bare(lines, &test_lines(first, first + 1))?;
    Ok(first)
}

fn push_stored(
    lines: &mut MarkedLines,
    numbers: &mut Numbers,
    unit: &FlatUnit,
    far: bool,
    to: Address,
    routine: RoutineId,
) -> Result<(), AllocError>
    ensures lines { OnOk result (lines.new ≡ lines.old ++ marked_store_routine far (pointer_datum (view_unit unit.now) (length numbers.old.stored)) to) }
    ensures numbers { OnOk result (numbers.new ≡ with_stored numbers.old routine) }
{
    let datum = numbers.store(unit.globals.as_slice().len(), routine)?;
    push_store_routine(lines, far, datum, to)
}

#[cycle(code)]
fn push_loop(
    lines: &mut MarkedLines,
    numbers: &mut Numbers,
    unit: &FlatUnit,
    far: bool,
    body: &[FlatStmt],
) -> Result<(), AllocError>
    ensures lines { OnOk result (lines.new ≡ lines.old ++ marked_code (view_unit unit.now) far numbers.old.around numbers.old.label (length numbers.old.stored) (Loop (view_list body.now) End)) }
    ensures around { OnOk result (numbers.new.around ≡ numbers.old.around) }
    ensures label { OnOk result (numbers.new.label ≡ numbers.old.label + labels (Loop (view_list body.now) End)) }
    ensures stored { OnOk result (numbers.new.stored ≡ numbers.old.stored ++ stored (Loop (view_list body.now) End)) }
{
    let first = numbers.next(2)?;
    push_bare(lines, &[Line::Label(first), Line::One(Instr::Cld)])?;
    numbers.enter_loop(first + 1)?;
    push_list(lines, numbers, unit, far, body)?;
    numbers.leave_loop();
    push_bare(lines, &[Line::JumpNear(first), Line::Label(first + 1)])
}

#[cycle(code)]
fn push_stmt(
    lines: &mut MarkedLines,
    numbers: &mut Numbers,
    unit: &FlatUnit,
    far: bool,
    stmt: &FlatStmt,
) -> Result<(), AllocError>
    ensures lines { OnOk result (lines.new ≡ lines.old ++ marked_code (view_unit unit.now) far numbers.old.around numbers.old.label (length numbers.old.stored) (view_stmt stmt.now End)) }
    ensures around { OnOk result (numbers.new.around ≡ numbers.old.around) }
    ensures label { OnOk result (numbers.new.label ≡ numbers.old.label + labels (view_stmt stmt.now End)) }
    ensures stored { OnOk result (numbers.new.stored ≡ numbers.old.stored ++ stored (view_stmt stmt.now End)) }
{
    match stmt {
        FlatStmt::StoreByte { to, value } => push_byte_of(lines, far, *to, value),
        FlatStmt::StoreWord { to, value } => push_word_of(lines, far, *to, value),
        FlatStmt::Copy { to, from, bytes } => push_copy(lines, far, *to, *from, *bytes),
        FlatStmt::If { test, yes, no } => {
            let first = push_test(lines, numbers, far, test)?;
            push_list(lines, numbers, unit, far, yes.as_slice())?;
            push_bare(lines, &[Line::JumpNear(first + 2), Line::Label(first + 1)])?;
            push_list(lines, numbers, unit, far, no.as_slice())?;
            push_bare(lines, &[Line::Label(first + 2)])
        }
        FlatStmt::Loop(body) => push_loop(lines, numbers, unit, far, body.as_slice()),
        FlatStmt::Leave { loops } => push_leave(lines, numbers, *loops),
        FlatStmt::Call {
            routine,
            args,
            result: wanted,
        } => push_calling(lines, unit, far, *routine, args.as_slice(), *wanted),
        FlatStmt::CallThrough {
            pointer,
            args,
            result: wanted,
        } => push_calling_through(lines, far, *pointer, args.as_slice(), *wanted),
        FlatStmt::Runtime {
            number,
            args,
            result: wanted,
        } => push_acting(lines, far, *number, args.as_slice(), *wanted),
        FlatStmt::StoreRoutine { to, routine } => {
            push_stored(lines, numbers, unit, far, *to, *routine)
        }
        FlatStmt::Return => push_bare(lines, &[Line::JumpNear(numbers.home())]),
        FlatStmt::Error(code) => push_fail(lines, *code),
    }
}

#[cycle(code)]
fn push_list(
    lines: &mut MarkedLines,
    numbers: &mut Numbers,
    unit: &FlatUnit,
    far: bool,
    list: &[FlatStmt],
) -> Result<(), AllocError>
    ensures lines { OnOk result (lines.new ≡ lines.old ++ marked_code (view_unit unit.now) far numbers.old.around numbers.old.label (length numbers.old.stored) (view_list list.now)) }
    ensures around { OnOk result (numbers.new.around ≡ numbers.old.around) }
    ensures label { OnOk result (numbers.new.label ≡ numbers.old.label + labels (view_list list.now)) }
    ensures stored { OnOk result (numbers.new.stored ≡ numbers.old.stored ++ stored (view_list list.now)) }
{
    for stmt in list {
        push_stmt(lines, numbers, unit, far, stmt)?;
    }
    Ok(())
}

/// Appends the code of a body and the label of its end, which is the number of the unit's routines; its other labels follow.
/// Each far pointer that is stored gets the next datum. Numbers that pass 32 bits are answered as out of memory.
pub fn push_body(
    lines: &mut MarkedLines,
    numbers: &mut Numbers,
    unit: &FlatUnit,
    far: bool,
    body: &[FlatStmt],
) -> Result<(), AllocError>
    ensures lines { OnOk result (lines.new ≡ lines.old ++ (marked_code (view_unit unit.now) far (begun numbers.old.around.home []).around (numbers.old.around.home + 1) (length numbers.old.stored) (view_list body.now) ++ bare (Label numbers.old.around.home ∷ []))) }
    ensures home { OnOk result (numbers.new.around.home ≡ numbers.old.around.home) }
    ensures stored { OnOk result (numbers.new.stored ≡ numbers.old.stored ++ stored (view_list body.now)) }
{
    numbers.begin()?;
    push_list(lines, numbers, unit, far, body)?;
    push_bare(lines, &[Line::Label(numbers.home())])
}
