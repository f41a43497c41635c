//! Machines that rows change and look at.

use cpu_8086::{Machine, Reg};
use std::fmt::Debug;
use test_rows::{Line, part, put, put_numbered, put_shown};

/// Hexadecimal digits as a word.
pub(crate) fn hex(text: &str) -> Option<u16> {
    u16::from_str_radix(text, 16).ok()
}

/// A segment, a colon and an offset.
pub(crate) fn place(text: &str) -> Option<(u16, u16)> {
    let (segment, offset) = text.split_once(':')?;
    Some((hex(segment)?, hex(offset)?))
}

fn register(name: &str) -> Option<Reg> {
    match name {
        "ax" => Some(Reg::Ax),
        "bp" => Some(Reg::Bp),
        "cs" => Some(Reg::Cs),
        "ip" => Some(Reg::Ip),
        _ => None,
    }
}

fn digit(value: u16) -> &'static str {
    const DIGITS: [&str; 16] = [
        "0", "1", "2", "3", "4", "5", "6", "7", "8", "9", "a", "b", "c", "d", "e", "f",
    ];
    DIGITS[usize::from(value % 16)]
}

/// Writes a word as four hexadecimal digits.
pub(crate) fn put_word(out: &mut Line, word: u16) {
    part(out, " ");
    for power in [0x1000, 0x100, 0x10, 1] {
        put(out, digit(word / power));
    }
}

/// Puts bytes at the beginning of a segment.
pub(crate) fn put_code(machine: &mut Machine, segment: u16, code: &[u8]) {
    let mut at = 0u16;
    for byte in code {
        machine.store_byte(segment, at, *byte);
        at = at.wrapping_add(1);
    }
}

/// Writes the words at a place.
pub(crate) fn put_words(out: &mut Line, machine: &Machine, segment: u16, offsets: &[u16]) {
    for offset in offsets {
        put_word(out, machine.load_word(segment, *offset));
    }
}

/// Runs a step that sets a register, stores a byte or a word, or looks at a word; nothing if it is no such step.
pub(crate) fn run_step(machine: &mut Machine, out: &mut Line, step: &str) -> Option<()> {
    let (verb, rest) = step.split_once(' ')?;
    let (at, value) = rest.split_once(' ').unwrap_or((rest, ""));
    match verb {
        "set" => machine.set_reg(register(at)?, hex(value)?),
        "byte" => {
            let (segment, offset) = place(at)?;
            machine.store_byte(segment, offset, (hex(value)? % 256) as u8);
        }
        "word" => {
            let (segment, offset) = place(at)?;
            machine.store_word(segment, offset, hex(value)?);
        }
        "see" => {
            let (segment, offset) = place(at)?;
            put_words(out, machine, segment, &[offset]);
        }
        _ => return None,
    }
    Some(())
}

/// Writes a count, or why there is none.
pub(crate) fn put_count<E: Debug>(out: &mut Line, count: &Result<u32, E>) {
    part(out, " ");
    match count {
        Ok(count) => put_numbered(out, "", u64::from(*count)),
        Err(error) => put_shown(out, error),
    }
}

/// Writes that something is done, or why it is not.
pub(crate) fn put_done<E: Debug>(out: &mut Line, done: &Result<(), E>) {
    part(out, " ");
    match done {
        Ok(()) => put(out, "done"),
        Err(error) => put_shown(out, error),
    }
}
