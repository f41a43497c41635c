//! Code that runs under DOS.

use crate::machines::{put_code, put_word, put_words};
use cpu_8086::{Machine, Reg};
use dos_runner::run;
use std::alloc::Global;
use test_rows::{Line, bytes_in, number, put, put_shown, put_text};
use tp_outside::{MemorySink, MemorySource};

// A machine that stands before code at 0070:0000. Its data segment is 0100, where the text `Hi` lies at offset 0010.
fn machine_with(alloc: Global, code: &[u8]) -> Option<Machine> {
    let mut machine = Machine::new(alloc).ok()?;
    put_code(&mut machine, 0x70, code);
    put_code(&mut machine, 0x101, b"Hi");
    machine.set_reg(Reg::Cs, 0x70);
    machine.set_reg(Reg::Ds, 0x100);
    Some(machine)
}

/// Writes how code ends, what it wrote, IP, and three words of its data: the limit of instructions, the input, the room for output, and
/// the code.
pub(crate) fn put_run(alloc: Global, out: &mut Line, row: &str) -> Option<()> {
    let (limit, rest) = row.split_once(" | ")?;
    let (input, rest) = rest.split_once(" | ")?;
    let (room, code) = rest.split_once(" | ")?;
    let limit = u64::from(number(limit).ok()?);
    let code = bytes_in(alloc, code).ok()?;
    let mut machine = machine_with(alloc, code.as_slice())?;
    let mut source = MemorySource::new(alloc, input.as_bytes(), &[]).ok()?;
    let mut output = MemorySink::new(alloc, number(room).ok()? as usize, &[]).ok()?;
    let mut errors = MemorySink::new(alloc, 10, &[]).ok()?;
    let end = run(&mut machine, &mut source, &mut output, &mut errors, limit);
    put_shown(out, &end);
    put(out, " '");
    put_text(out, output.bytes());
    put(out, "' '");
    put_text(out, errors.bytes());
    put(out, "'");
    put_word(out, machine.reg(Reg::Ip));
    put_words(out, &machine, 0x100, &[0x20, 0x22, 0x24]);
    Some(())
}
