//! Programs that are opened, or refused.

use crate::held_files::{bytes_of, put_place};
use crate::machines::put_word;
use crate::outside::numbers_of;
use cpu_8086::Reg;
use dos_runner::opened_program::{OpenError, Opened, open_program};
use std::alloc::Global;
use test_rows::{Line, put, put_numbered, word};
use tp_outside::MemoryFiles;
use type_layout::FileName;

/// Writes a refusal.
pub(crate) fn put_refusal(out: &mut Line, error: &OpenError) {
    match error {
        OpenError::NotExecutable { .. } => put(out, "not executable"),
        OpenError::MissingFile { .. } => put(out, "missing file"),
        OpenError::OverlayFileDamaged { at } => {
            put_numbered(out, "overlay file damaged at ", *at);
        }
        OpenError::OverlayMismatch { overlay } => {
            put_numbered(out, "mismatch of overlay ", u64::from(*overlay));
        }
        OpenError::BufferTooSmall { need, .. } => {
            put_numbered(out, "buffer too small: ", u64::from(*need));
        }
        OpenError::MemoryTooSmall { need } => {
            put_numbered(out, "memory too small: ", u64::from(*need));
        }
        OpenError::FilesFault => put(out, "files fault"),
        OpenError::NoMemory => put(out, "no memory"),
    }
}

// Where the machine stands, its stack, and the load segment of the stub at the begin of the image.
fn put_program(out: &mut Line, program: &Opened) {
    put(out, "opened");
    for reg in [Reg::Cs, Reg::Ip, Reg::Ss] {
        put_word(out, program.machine.reg(reg));
    }
    put_word(out, program.machine.load_word(0x70, 14));
}

/// Writes whether a program is opened or refused, with the place of damage of its overlay file.
pub(crate) fn put_outcome(alloc: Global, out: &mut Line, exe: &[u8], overlays: &[u8]) {
    let found = opened(alloc, exe, Some(overlays), &[], None);
    match &found {
        Some(Ok(_)) => put(out, "opened"),
        Some(Err(OpenError::OverlayFileDamaged { at })) => put_place(out, *at, overlays.len()),
        Some(Err(error)) => put_refusal(out, error),
        None => put(out, "no memory"),
    }
}

// An executable, over a folder with an overlay file or without one, in which the calls fail that are listed.
fn opened(
    alloc: Global,
    exe: &[u8],
    overlays: Option<&[u8]>,
    failing: &[u64],
    buffer: Option<u16>,
) -> Option<Result<Opened, OpenError>> {
    let mut files = MemoryFiles::new(alloc, failing).ok()?;
    if let Some(bytes) = overlays {
        files.put("a.ovr", bytes).ok()?;
    }
    let name = FileName::new("a.ovr")?;
    Some(open_program(alloc, exe, &name, &mut files, buffer))
}

fn put_result(out: &mut Line, result_there: &Result<Opened, OpenError>) {
    match result_there {
        Ok(program) => put_program(out, program),
        Err(error) => put_refusal(out, error),
    }
}

/// Writes what comes of an executable, an overlay file or `none`, the calls of files that fail, and the buffer's paragraphs or `-`.
pub(crate) fn put_opened(alloc: Global, out: &mut Line, held: &str, row: &str) -> Option<()> {
    let (exe, rest) = row.split_once(" | ")?;
    let (overlays, rest) = rest.split_once(" | ")?;
    let (failing, buffer) = rest.split_once(" | ")?;
    let exe = bytes_of(alloc, held, exe)?;
    let failing = numbers_of(alloc, failing)?;
    let buffer = word(buffer).ok();
    let there = bytes_of(alloc, held, overlays)?;
    let found = if overlays == "none" {
        opened(alloc, exe.as_slice(), None, failing.as_slice(), buffer)?
    } else {
        let bytes = Some(there.as_slice());
        opened(alloc, exe.as_slice(), bytes, failing.as_slice(), buffer)?
    };
    put_result(out, &found);
    Some(())
}
