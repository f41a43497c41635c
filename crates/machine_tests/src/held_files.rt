//! Files that rows name, and what comes of their prefixes.

use crate::{executables, objects, opening, overlays};
use std::alloc::Global;
use test_rows::{Line, bytes_in, empty_line, number, part, put, put_numbered};

// The bytes of all lines that have this name.
fn held_by(alloc: Global, held: &str, name: &str) -> Option<Vec<u8>> {
    let mut bytes = Vec::new(alloc);
    for line in held.lines() {
        if let Some((told, digits)) = line.split_once(' ') {
            if told == name {
                let more = bytes_in(alloc, digits).ok()?;
                bytes.extend_from_slice(more.as_slice()).ok()?;
            }
        }
    }
    Some(bytes)
}

// `+BYTES` behind them, `first=COUNT` of them alone, or `PLACE=BYTE`.
fn change(alloc: Global, bytes: &mut Vec<u8>, word: &str) -> Option<()> {
    if let Some(digits) = word.strip_prefix("+") {
        let more = bytes_in(alloc, digits).ok()?;
        return bytes.extend_from_slice(more.as_slice()).ok();
    }
    let (place, value) = word.split_once('=')?;
    if place == "first" {
        bytes.truncate(number(value).ok()? as usize);
    } else {
        let place = number(place).ok()? as usize;
        let byte = u8::from_str_radix(value, 16).ok()?;
        *bytes.as_mut_slice().get_mut(place)? = byte;
    }
    Some(())
}

/// The bytes of a file by its name, with the changes that stand behind it.
pub(crate) fn bytes_of(alloc: Global, held: &str, text: &str) -> Option<Vec<u8>> {
    let (name, changes) = text.split_once(' ').unwrap_or((text, ""));
    let mut bytes = held_by(alloc, held, name)?;
    for word in changes.split_whitespace() {
        change(alloc, &mut bytes, word)?;
    }
    Some(bytes)
}

/// Writes the place of damage among so many bytes.
pub(crate) fn put_place(out: &mut Line, place: u64, length: usize) {
    if place == length as u64 {
        put(out, "damaged at its end");
    } else {
        put_numbered(out, "damaged at ", place);
    }
}

// What comes of the bytes of a kind of file.
fn put_outcome(alloc: Global, out: &mut Line, kind: &str, held: &str, bytes: &[u8]) -> Option<()> {
    match kind {
        "executable" => executables::put_cause(out, bytes),
        "object" => objects::put_outcome(alloc, out, (0, 0), bytes),
        "overlays" => overlays::put_outcome(alloc, out, bytes),
        "program" => {
            let overlays = held_by(alloc, held, "calls-ovr")?;
            opening::put_outcome(alloc, out, bytes, overlays.as_slice());
        }
        "overlays of a program" => {
            let exe = held_by(alloc, held, "calls")?;
            opening::put_outcome(alloc, out, exe.as_slice(), bytes);
        }
        _ => return None,
    }
    Some(())
}

fn put_times(out: &mut Line, times: u64, outcome: &str) {
    if times != 0 {
        part(out, ", ");
        put_numbered(out, "", times);
        put(out, " times ");
        put(out, outcome);
    }
}

/// Writes what comes of each prefix of a file: how often the same one after another.
pub(crate) fn put_prefixes(alloc: Global, out: &mut Line, held: &str, row: &str) -> Option<()> {
    let (kind, name) = row.split_once(" | ")?;
    let bytes = bytes_of(alloc, held, name)?;
    let mut last = empty_line(alloc);
    let mut times: u64 = 0;
    for length in 0..bytes.len() {
        let prefix = bytes.as_slice().get(..length)?;
        let mut next = empty_line(alloc);
        put_outcome(alloc, &mut next, kind, held, prefix)?;
        if next.as_str() != last.as_str() {
            put_times(out, times, last.as_str());
            times = 0;
        }
        times = times.wrapping_add(1);
        last = next;
    }
    put_times(out, times, last.as_str());
    Some(())
}
