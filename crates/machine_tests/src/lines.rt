//! Lines, and jumps at the ends of their reach.

use std::alloc::Global;
use test_rows::{Line, bytes_in, number, part, put, put_bytes, put_numbered, put_told, repeated};
use x86_table::{AsmError, Code, Cond, Line as CodeLine, assemble, decode, is_small, relax};

fn condition(name: &str) -> Option<Cond> {
    match name {
        "always" => Some(Cond::Always),
        "not-equal" => Some(Cond::NotEqual),
        _ => None,
    }
}

// `label N`, `jump CONDITION N`, `near N`, `call N`, or the bytes of an instruction.
fn line_of(alloc: Global, text: &str) -> Option<CodeLine> {
    let (verb, rest) = text.split_once(' ').unwrap_or((text, ""));
    match verb {
        "label" => Some(CodeLine::Label(number(rest).ok()?)),
        "near" => Some(CodeLine::JumpNear(number(rest).ok()?)),
        "call" => Some(CodeLine::CallNear(number(rest).ok()?)),
        "jump" => {
            let (name, label) = rest.split_once(' ')?;
            Some(CodeLine::JumpShort(condition(name)?, number(label).ok()?))
        }
        _ => {
            let bytes = bytes_in(alloc, text).ok()?;
            let (instr, _) = decode(bytes.as_slice())?;
            Some(CodeLine::One(instr))
        }
    }
}

fn lines_of(alloc: Global, row: &str) -> Option<Vec<CodeLine>> {
    let whole = repeated(alloc, row).ok()?;
    let mut lines = Vec::new(alloc);
    for text in whole.as_str().split("; ") {
        lines.push(line_of(alloc, text)?).ok()?;
    }
    Some(lines)
}

fn put_code(out: &mut Line, code: &Code) {
    put_bytes(out, code.bytes.as_slice());
    put(out, " at");
    for place in code.places.as_slice() {
        put_numbered(out, " ", u64::from(*place));
    }
}

/// Writes how many bytes lines have that are more than some, else the bytes and the places of the lines, or the error.
pub(crate) fn put_assembled(alloc: Global, out: &mut Line, row: &str) -> Option<()> {
    let lines = lines_of(alloc, row)?;
    if !is_small(lines.as_slice()) {
        return None;
    }
    match assemble(alloc, lines.as_slice()) {
        Ok(code) if 64 < code.bytes.as_slice().len() => {
            put_numbered(out, "bytes: ", code.bytes.as_slice().len() as u64);
        }
        Ok(code) => put_code(out, &code),
        Err(error) => put_told(out, &error),
    }
    Some(())
}

// Instructions that stand one after another, by their number.
fn put_ones(out: &mut Line, ones: u64) {
    if ones != 0 {
        part(out, "; ");
        put_numbered(out, "instructions: ", ones);
    }
}

fn put_line(out: &mut Line, line: &CodeLine) {
    part(out, "; ");
    match line {
        CodeLine::JumpShort(Cond::Always, label) => {
            put_numbered(out, "jump always ", u64::from(*label));
        }
        CodeLine::JumpNear(label) => put_numbered(out, "near ", u64::from(*label)),
        CodeLine::Label(label) => put_numbered(out, "label ", u64::from(*label)),
        _ => put(out, "another line"),
    }
}

/// Writes the lines whose near jumps are short where they reach.
pub(crate) fn put_relaxed(alloc: Global, out: &mut Line, row: &str) -> Option<()> {
    let lines = lines_of(alloc, row)?;
    let list = relax(alloc, lines.as_slice()).ok()?;
    let mut ones: u64 = 0;
    for line in list.as_slice() {
        if let CodeLine::One(_) = line {
            ones = ones.wrapping_add(1);
        } else {
            put_ones(out, ones);
            ones = 0;
            put_line(out, line);
        }
    }
    put_ones(out, ones);
    Some(())
}

/// Writes an error in words.
pub(crate) fn put_error(out: &mut Line, row: &str) -> Option<()> {
    let (line, distance) = row.split_once(' ').unwrap_or((row, ""));
    if line == "memory" {
        put_told(out, &AsmError::NoMemory);
    } else {
        let error = AsmError::JumpTooFar {
            line: line.parse::<u32>().ok()?,
            distance: distance.parse::<i32>().ok()?,
        };
        put_told(out, &error);
    }
    Some(())
}
