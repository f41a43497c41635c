//! Loads of an overlay.

use crate::held_files::bytes_of;
use crate::machines::{put_done, put_words};
use crate::outside::numbers_of;
use cpu_8086::Machine;
use overlay_file::OvrEntry;
use overlay_manager::load_overlay;
use std::alloc::Global;
use test_rows::Line;
use tp_outside::MemoryFiles;
use type_layout::Name;

/// Where the file has the overlay A.
fn entry() -> Option<OvrEntry> {
    let name = Name::new(b"A")?;
    Some(OvrEntry {
        name,
        place: 14,
        size: 6,
        fixups: 1,
    })
}

/// Loads the overlay A to segment 9000h twice, from a file whose calls fail that are listed, and writes what comes of it and four
/// words there.
pub(crate) fn put_loads(alloc: Global, out: &mut Line, held: &str, row: &str) -> Option<()> {
    let (failing, file) = row.split_once(" | ")?;
    let failing = numbers_of(alloc, failing)?;
    let bytes = bytes_of(alloc, held, file)?;
    let mut files = MemoryFiles::new(alloc, failing.as_slice()).ok()?;
    files.put("a.ovr", bytes.as_slice()).ok()?;
    let entry = entry()?;
    let mut machine = Machine::new(alloc).ok()?;
    let mut block = [0; 512];
    for _ in 0..2 {
        let loaded = load_overlay(
            &mut machine,
            &mut files,
            "a.ovr",
            &entry,
            0x9000,
            &mut block,
        );
        put_done(out, &loaded);
    }
    put_words(out, &machine, 0x9000, &[0, 2, 4, 6]);
    Some(())
}
