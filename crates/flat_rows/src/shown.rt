//! What programs show.

use crate::program::Program;
use flat_run::{MeanEnd, Meaning, fits, flat_mean};
use std::alloc::{AllocError, Global};
use test_rows::{Line, part, put, put_number, put_numbered, put_runs};

/// What some bytes of an output are.
#[derive(Clone, Copy, Debug)]
pub enum Shown {
    Word,
    Long,
    /// A string, 256 bytes with its length.
    Text,
    /// So many bytes.
    Bytes(u16),
}

impl Shown {
    /// How many bytes it takes.
    pub(crate) fn size(self) -> u16 {
        match self {
            Shown::Word => 2,
            Shown::Long => 4,
            Shown::Text => 256,
            Shown::Bytes(count) => count,
        }
    }
}

fn put_word(line: &mut Line, bytes: &[u8]) {
    if let [low, high] = bytes {
        put_number(line, i64::from(u16::from_le_bytes([*low, *high])));
    }
}

fn put_long(line: &mut Line, bytes: &[u8]) {
    if let [first, second, third, fourth] = bytes {
        let number = i32::from_le_bytes([*first, *second, *third, *fourth]);
        put_number(line, i64::from(number));
    }
}

fn put_string(line: &mut Line, bytes: &[u8]) {
    if let [length, text @ ..] = bytes {
        put(line, "'");
        put_runs(line, text.get(..usize::from(*length)).unwrap_or(text));
        put(line, "'");
    }
}

fn put_one(line: &mut Line, shown: Shown, bytes: &[u8]) {
    part(line, " ");
    match shown {
        Shown::Word => put_word(line, bytes),
        Shown::Long => put_long(line, bytes),
        Shown::Text => put_string(line, bytes),
        Shown::Bytes(_) => put_runs(line, bytes),
    }
}

/// Writes an output, of which this is shown first.
pub fn put_output(line: &mut Line, shown: &[Shown], out: &[u8]) {
    let mut rest = out;
    for one in shown {
        let size = usize::from(one.size());
        match (rest.get(..size), rest.get(size..)) {
            (Some(first), Some(others)) => {
                put_one(line, *one, first);
                rest = others;
            }
            _ => break,
        }
    }
    if !rest.is_empty() {
        part(line, " ");
        put_runs(line, rest);
    }
}

/// Writes how a run ended, if not with code 0, or if nothing was written so far.
pub fn put_end(line: &mut Line, end: MeanEnd) {
    match end {
        MeanEnd::Ended(0) => {
            if line.as_str().is_empty() {
                put(line, "ends");
            }
        }
        MeanEnd::Ended(code) => {
            part(line, " ");
            put_numbered(line, "ends ", u64::from(code));
        }
        MeanEnd::Going => {
            part(line, " ");
            put(line, "goes on");
        }
        MeanEnd::Undefined(act) => {
            part(line, " ");
            put_numbered(line, "undefined ", u64::from(act));
        }
    }
}

/// What a program means, if it can be run.
pub fn meaning_of(alloc: Global, program: &Program) -> Result<Option<Meaning>, AllocError> {
    if program.is_wrong || 65_520 < program.stack || 196_608 < program.heap {
        return Ok(None);
    }
    if !fits(program.units.as_slice()) {
        return Ok(None);
    }
    let meaning = flat_mean(
        alloc,
        program.units.as_slice(),
        program.overlaid.as_slice(),
        program.stack,
        program.heap,
        program.input.as_slice(),
        program.turns,
    )?;
    Ok(Some(meaning))
}

/// Writes what a program means: its output, how it ends, and the line of an error.
pub fn put_meaning(line: &mut Line, program: &Program, meaning: &Meaning) {
    put_output(line, program.shown.as_slice(), meaning.out.as_slice());
    put_end(line, meaning.end);
    if !meaning.err.is_empty() {
        put(line, " ");
        put_runs(line, meaning.err.as_slice());
    }
}
