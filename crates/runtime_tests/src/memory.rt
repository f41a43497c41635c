//! Addresses, and memory with what can't be reached.

use flat_code::{Cell, Place, Trap};
use flat_run::Memory;
use std::alloc::{AllocError, Global};
use test_rows::{Line, bytes_in, number, part, put, put_number, put_numbered, put_shown, word};

// A segment, a colon and an offset, both hexadecimal.
fn place_of(text: &str) -> Option<Place> {
    let (segment, offset) = text.split_once(':')?;
    Some(Place {
        segment: u16::from_str_radix(segment, 16).ok()?,
        offset: u16::from_str_radix(offset, 16).ok()?,
    })
}

// A place, ` + ` and a number of bytes.
fn place_and_bytes(text: &str) -> Option<(Place, u16)> {
    let (place, bytes) = text.split_once(" + ")?;
    Some((place_of(place)?, word(bytes).ok()?))
}

/// Writes the address of the byte that lies so many bytes behind a place, and the address of the place so many bytes on.
pub(crate) fn put_address(out: &mut Line, row: &str) {
    match place_and_bytes(row) {
        Some((place, bytes)) => {
            put_numbered(out, "", place.address(bytes) as u64);
            put_numbered(out, " ", place.after(bytes).address(0) as u64);
        }
        None => put(out, "no place"),
    }
}

fn put_done(out: &mut Line, done: Result<(), Trap>) {
    match done {
        Ok(()) => put(out, "done"),
        Err(trap) => put_shown(out, &trap),
    }
}

fn cell_of(text: &str) -> Option<Cell> {
    if text == "unset" {
        Some(Cell::Unset)
    } else {
        Some(Cell::Known((number(text).ok()? % 256) as u8))
    }
}

// From a place on so many bytes, and what they become.
fn fill(memory: &mut Memory, place: Place, text: &str) -> Option<()> {
    let (bytes, cell) = text.split_once(' ')?;
    let bytes = number(bytes).ok()?;
    let cell = cell_of(cell)?;
    let first = 16 * u32::from(place.segment) + u32::from(place.offset);
    if 0x10_0000 < first || 0x10_0000 - first < bytes {
        return None;
    }
    memory.fill(place.segment, u32::from(place.offset), bytes, cell);
    Some(())
}

fn copy(memory: &mut Memory, out: &mut Line, to: Place, text: &str) -> Option<()> {
    let (from, bytes) = text.split_once(' ')?;
    let from = place_of(from)?;
    let bytes = word(bytes).ok()?;
    put_done(out, memory.copy(to, from, bytes));
    Some(())
}

fn put_byte(out: &mut Line, byte: Result<u8, Trap>) {
    match byte {
        Ok(byte) => put_number(out, i64::from(byte)),
        Err(trap) => put_shown(out, &trap),
    }
}

fn put_word(out: &mut Line, word: Result<u16, Trap>) {
    match word {
        Ok(word) => put_number(out, i64::from(word)),
        Err(trap) => put_shown(out, &trap),
    }
}

fn store(
    alloc: Global,
    memory: &mut Memory,
    out: &mut Line,
    place: Place,
    text: &str,
) -> Option<()> {
    let bytes = bytes_in(alloc, text).ok()?;
    if 255 < bytes.len() {
        return None;
    }
    put_done(out, memory.store(place, 0, bytes.as_slice()));
    Some(())
}

// A verb, a place, and what else the verb asks for.
fn run_step(alloc: Global, memory: &mut Memory, out: &mut Line, step: &str) -> Option<()> {
    let (verb, rest) = step.split_once(' ')?;
    let (place, others) = rest.split_once(' ').unwrap_or((rest, ""));
    let place = place_of(place)?;
    if verb == "fill" {
        return fill(memory, place, others);
    }
    part(out, " ");
    match verb {
        "byte" => put_byte(out, memory.byte(place, word(others).ok()?)),
        "word" => put_word(out, memory.word(place)),
        "store" => return store(alloc, memory, out, place, others),
        "copy" => return copy(memory, out, place, others),
        _ => return None,
    }
    Some(())
}

/// Writes what the steps of a row find in a memory of which nothing can be reached at first.
pub(crate) fn put_memory(alloc: Global, out: &mut Line, row: &str) -> Result<(), AllocError> {
    let mut memory = Memory::new(alloc)?;
    for step in row.split("; ") {
        if run_step(alloc, &mut memory, out, step).is_none() {
            put(out, "no step");
        }
    }
    Ok(())
}
