//! Overlay files and stubs.

ghost use Rattle.std.specs.Prelude.{◌∷◌, [], IfOk};
ghost use Rattle.overlay_file.specs.Format.{AreOverlays};

use crate::held_files::{bytes_of, put_place};
use crate::machines::{hex, put_code};
use cpu_8086::Machine;
use overlay_file::{Offsets, OverlayCode8086, OvrError, read_ovr, stub, write_ovr};
use std::alloc::{AllocError, Global};
use test_rows::{Line, part, put, put_bytes, put_numbered, put_shown, put_text};
use type_layout::{Bytes, Name};

/// Writes the place of damage, or that bytes are an overlay file.
pub(crate) fn put_outcome(alloc: Global, out: &mut Line, bytes: &[u8]) {
    match read_ovr(alloc, bytes) {
        Ok(_) => put(out, "read"),
        Err(OvrError::Damaged { at }) => put_place(out, at, bytes.len()),
        Err(_) => put(out, "no memory"),
    }
}

/// Writes the place of damage of a file, or that it is an overlay file.
pub(crate) fn put_damage(alloc: Global, out: &mut Line, held: &str, row: &str) -> Option<()> {
    let bytes = bytes_of(alloc, held, row)?;
    put_outcome(alloc, out, bytes.as_slice());
    Some(())
}

/// Writes the overlays of a file: each one's name, place, size and number of fixups.
pub(crate) fn put_read(alloc: Global, out: &mut Line, held: &str, row: &str) -> Option<()> {
    let bytes = bytes_of(alloc, held, row)?;
    let index = read_ovr(alloc, bytes.as_slice()).ok()?;
    for entry in index.as_slice() {
        part(out, ", ");
        put_text(out, entry.name.as_bytes());
        put_numbered(out, " ", u64::from(entry.place));
        put_numbered(out, " ", u64::from(entry.size));
        put_numbered(out, " ", u64::from(entry.fixups));
    }
    Some(())
}

/// The overlay A with one byte of code.
fn one(alloc: Global) -> Result<OverlayCode8086, AllocError>
    ensures { IfOk result (λ overlay. AreOverlays (overlay ∷ [])) }
{
    let name = Name::new(b"A").ok_or(AllocError)?;
    Ok(OverlayCode8086 {
        name,
        code: Bytes::from_slice(alloc, &[0xCB])?,
        fixups: Offsets::new(alloc),
    })
}

/// Writes whether the overlay A with the code CB is written as a file.
pub(crate) fn put_written(alloc: Global, out: &mut Line, held: &str, row: &str) -> Option<()> {
    let bytes = bytes_of(alloc, held, row)?;
    let written = write_ovr(alloc, &[one(alloc).ok()?]).ok()?;
    if written.as_slice() == bytes.as_slice() {
        put(out, "the same");
    } else {
        put_bytes(out, written.as_slice());
    }
    Some(())
}

/// Writes the stub at a segment, where a file's bytes stand at segment 20h.
pub(crate) fn put_stub(alloc: Global, out: &mut Line, held: &str, row: &str) -> Option<()> {
    let (segment, file) = row.split_once(" | ")?;
    let bytes = bytes_of(alloc, held, file)?;
    let mut machine = Machine::new(alloc).ok()?;
    put_code(&mut machine, 0x20, bytes.as_slice());
    match stub(&machine, hex(segment)?) {
        Some(found) => put_shown(out, &found),
        None => put(out, "none"),
    }
    Some(())
}
