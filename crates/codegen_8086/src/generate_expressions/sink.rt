//! Instructions and lines that refer to nothing.

ghost use Rattle.std.specs.Prelude.{◌≡◌, ◌++◌, OnOk};
ghost use Rattle.code_templates.specs.code_references.Marks.{bare, plain, marked};
ghost use Rattle.code_templates.specs.code_references.Marked.{at_place, target_of};

use code_templates::code_references::{MarkedLine, MarkedLines, Target};
use flat_code::Address;
use std::alloc::AllocError;
use x86_table::{Instr, Line};

/// Appends instructions as they stand.
pub fn push_plain(lines: &mut MarkedLines, code: &[Instr]) -> Result<(), AllocError>
    ensures { OnOk result (lines.new ≡ lines.old ++ plain code.now) }
{
    for instr in code {
        lines.push(MarkedLine {
            line: Line::One(*instr),
            target: None,
        })?;
    }
    Ok(())
}

/// Appends lines as they stand.
pub fn push_bare(lines: &mut MarkedLines, code: &[Line]) -> Result<(), AllocError>
    ensures { OnOk result (lines.new ≡ lines.old ++ bare code.now) }
{
    for line in code {
        lines.push(MarkedLine {
            line: *line,
            target: None,
        })?;
    }
    Ok(())
}

/// An instruction that refers to something.
pub fn marked(instr: Instr, target: Target) -> MarkedLine
    ensures { result ≡ marked instr target }
{
    MarkedLine {
        line: Line::One(instr),
        target: Some(target),
    }
}

fn target_of(at: Address) -> Option<Target>
    ensures { result ≡ target_of at }
{
    match at {
        Address::Global { unit, number, .. } => Some(Target::Datum { unit, number }),
        Address::Local(_) | Address::Outer { .. } | Address::Through { .. } => None,
    }
}

/// An instruction with an operand at a place that is loaded.
pub fn at_place(at: Address, instr: Instr) -> MarkedLine
    ensures { result ≡ at_place at instr }
{
    MarkedLine {
        line: Line::One(instr),
        target: target_of(at),
    }
}
