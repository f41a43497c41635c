//! The lines of a routine laid out: near jumps made short, bytes, and references.

ghost use Rattle.std.specs.Prelude.{◌≡◌, ◌+◌, ◌++◌, ◌<◌, ◌≤◌, length, IfOk, IfErr, OnOk};
ghost use Rattle.x86_table.specs.Lines.{line_size, code_size};
ghost use Rattle.flat_code.specs.Plain.{view_routine, view_unit};
ghost use Rattle.code_templates.specs.code_references.Marks.{lines_of};
ghost use Rattle.code_templates.specs.code_references.Marked.{marked_routine, stored};
ghost use Rattle.codegen_8086.specs.declared.error.GenError.TheVariants.{NoMemory};
ghost use Rattle.codegen_8086.specs.object_code.Objects.{IsLaidOut, code_of};

use crate::error::GenError;
use crate::generate_code::Numbers;
use crate::generate_routines::push_routine;
use crate::references::refs_at;
use code_templates::code_references::{MarkedLine, MarkedLines};
use flat_code::{FlatRoutine, FlatUnit};
use object_file::object_unit::Code8086;
use std::alloc::{AllocError, Global};
use type_layout::{Bytes, Name};
use x86_table::{Line, LineList, assemble, encode, is_small, relax};

/// The lines of a routine, beside what they refer to, and the same with near jumps made short.
#[derive(Drop)]
pub(crate) struct Layout {
    pub(crate) marked: MarkedLines,
    pub(crate) lines: LineList,
}

fn lines_of(alloc: Global, marked: &[MarkedLine]) -> Result<LineList, AllocError>
    ensures { IfOk result (λ lines. lines ≡ lines_of marked.now) }
{
    let mut lines = LineList::new(alloc);
    for line in marked {
        lines.push(line.line)?;
    }
    Ok(lines)
}

/// The lines of a routine of a unit, whose arguments have fewer than 65,536 bytes, laid out.
pub(crate) fn lay_out(
    alloc: Global,
    numbers: &mut Numbers,
    unit: &FlatUnit,
    routine: &FlatRoutine,
) -> Result<Layout, AllocError>
    requires home { numbers.now.around.home ≡ length unit.now.routines }
    requires arguments { routine.now.arguments < 65536 }
    ensures marked { IfOk result (λ layout. layout.marked ≡ marked_routine (view_unit unit.now) (length numbers.old.stored) (view_routine routine.now)) }
    ensures laid { IfOk result (λ layout. IsLaidOut layout.marked layout.lines) }
    ensures home { OnOk result (numbers.new.around.home ≡ numbers.old.around.home) }
    ensures stored { OnOk result (numbers.new.stored ≡ numbers.old.stored ++ stored (view_routine routine.now).body) }
{
    let mut marked = MarkedLines::new(alloc);
    push_routine(&mut marked, numbers, unit, routine)?;
    let near = lines_of(alloc, marked.as_slice())?;
    let lines = relax(alloc, near.as_slice())?;
    Ok(Layout { marked, lines })
}

fn line_size(line: Line) -> u64
    ensures { result ≡ line_size line }
{
    match line {
        Line::One(instr) => encode(&instr).len() as u64,
        Line::Label(_) => 0,
        Line::JumpShort(..) => 2,
        Line::JumpNear(_) | Line::CallNear(_) => 3,
    }
}

/// The bytes of lines and of others before, where 64 bits count them.
pub(crate) fn size_with(before: u64, lines: &[Line]) -> Result<u64, AllocError>
    ensures { IfOk result (λ size. size ≡ before + code_size lines.now) }
{
    let mut size = before;
    for line in lines {
        size = size.checked_add(line_size(*line)).ok_or(AllocError)?;
    }
    Ok(size)
}

/// The code of a routine that is laid out and has at most 65,520 bytes.
pub(crate) fn assembled(
    alloc: Global,
    names: &[Name],
    routine: &FlatRoutine,
    layout: &Layout,
) -> Result<Code8086, GenError>
    requires named { 0 < length names.now }
    requires laid { IsLaidOut layout.now.marked layout.now.lines }
    requires small { code_size layout.now.lines ≤ 65520 }
    ensures ok { IfOk result (λ code. code ≡ code_of names.now routine.now layout.now.marked layout.now.lines) }
    ensures err { IfErr result (λ e. e ≡ NoMemory) }
{
    let lines = layout.lines.as_slice();
    if !is_small(lines) {
        return Err(GenError::NoMemory);
    }
    match assemble(alloc, lines) {
        Ok(code) => Ok(Code8086 {
            name: routine.name.clone()?,
            far: routine.far,
            frame: routine.frame,
            refs: refs_at(
                alloc,
                names,
                code.places.as_slice(),
                layout.marked.as_slice(),
            )?,
            code: Bytes::from_vec(code.bytes.into_vec()),
        }),
        // Each short jump of lines that are laid out reaches, so that memory alone is wanting.
        Err(_) => Err(GenError::NoMemory),
    }
}
