//! Executables by the offsets of their format.

ghost use Rattle.std.specs.Prelude.{IfOk};
ghost use Rattle.mz_file.specs.Spelling.{IsWritable};

use crate::held_files::bytes_of;
use crate::machines::{put_done, put_word};
use cpu_8086::{Far, Machine, Reg};
use mz_file::{Block, Exe, FarList, Segments, check_exe, load, read_exe, write_exe};
use std::alloc::{AllocError, Global};
use test_rows::{Line, put, put_bytes, put_numbered, put_shown, put_truth, word};
use type_layout::Bytes;

/// Writes that bytes are an executable, or why not.
pub(crate) fn put_cause(out: &mut Line, bytes: &[u8]) {
    match check_exe(bytes) {
        Ok(()) => put(out, "executable"),
        Err(cause) => put_shown(out, &cause),
    }
}

/// Writes that a file is an executable, or why not.
pub(crate) fn put_checked(alloc: Global, out: &mut Line, held: &str, row: &str) -> Option<()> {
    let bytes = bytes_of(alloc, held, row)?;
    put_cause(out, bytes.as_slice());
    Some(())
}

fn put_far(out: &mut Line, at: Far) {
    put_word(out, at.segment);
    put_word(out, at.offset);
}

// The table of the overlay manager.
fn put_block(out: &mut Line, block: &Block) {
    put(out, "; stubs");
    for stub in block.stubs.as_slice() {
        put_word(out, *stub);
    }
    put_numbered(out, "; largest ", u64::from(block.largest));
    put(out, "; error routine");
    put_far(out, block.error_routine);
    put(out, "; flag");
    put_far(out, block.installed);
    put_numbered(out, "; stack ", u64::from(block.stack));
    put_numbered(out, "; heap ", u64::from(block.heap));
    put_numbered(out, "; data ", u64::from(block.data_bytes));
    put(out, " at");
    put_word(out, block.data_segment);
    put(out, "; marked ");
    put_truth(out, block.marked);
}

/// Writes what an executable says.
pub(crate) fn put_read(alloc: Global, out: &mut Line, held: &str, row: &str) -> Option<()> {
    let bytes = bytes_of(alloc, held, row)?;
    let exe = read_exe(alloc, bytes.as_slice()).ok()?;
    put_bytes(out, exe.image.as_slice());
    put(out, "; relocations");
    for one in exe.relocations.as_slice() {
        put_far(out, *one);
    }
    put(out, "; entry");
    put_far(out, exe.entry);
    put(out, "; stack");
    put_far(out, exe.stack);
    put_numbered(out, "; extra ", u64::from(exe.extra));
    put_block(out, &exe.block);
    Some(())
}

/// What the executable of the rows stands for.
fn example(alloc: Global, marked: bool) -> Result<Exe, AllocError>
    ensures { IfOk result IsWritable }
{
    let mut relocations = FarList::new(alloc);
    relocations.push(Far {
        offset: 1,
        segment: 0,
    })?;
    let mut stubs = Segments::new(alloc);
    stubs.push(5)?;
    Ok(Exe {
        image: Bytes::from_slice(alloc, &[0xB8, 0x01, 0x00, 0x90])?,
        relocations,
        entry: Far {
            offset: 3,
            segment: 0,
        },
        stack: Far {
            offset: 0x100,
            segment: 2,
        },
        extra: 0x20,
        block: Block {
            stubs,
            largest: 3,
            error_routine: Far {
                offset: 0x10,
                segment: 1,
            },
            installed: Far {
                offset: 0x22,
                segment: 2,
            },
            stack: 1024,
            heap: 65543,
            data_segment: 9,
            data_bytes: 12,
            marked,
        },
    })
}

/// Writes whether the example is written as a file, with frames that are marked or not.
pub(crate) fn put_written(alloc: Global, out: &mut Line, held: &str, row: &str) -> Option<()> {
    let (marked, file) = row.split_once(" | ")?;
    let bytes = bytes_of(alloc, held, file)?;
    let exe = example(alloc, marked == "marked").ok()?;
    let written = write_exe(alloc, &exe).ok()?;
    if written.as_slice() == bytes.as_slice() {
        put(out, "the same");
    } else {
        put_bytes(out, written.as_slice());
    }
    Some(())
}

// Loads an executable with so many extra paragraphs, and writes what comes of it.
fn load_with(
    alloc: Global,
    machine: &mut Machine,
    out: &mut Line,
    bytes: &[u8],
    extra: u16,
) -> Option<()> {
    match read_exe(alloc, bytes) {
        Ok(mut exe) => {
            exe.extra = extra;
            put_done(out, &load(&exe, machine));
            Some(())
        }
        Err(_) => None,
    }
}

/// Loads an executable with so many extra paragraphs, and writes the first word of its image and CS, IP, SS and DS.
pub(crate) fn put_loaded(alloc: Global, out: &mut Line, held: &str, row: &str) -> Option<()> {
    let (extra, file) = row.split_once(" | ")?;
    let bytes = bytes_of(alloc, held, file)?;
    let extra = word(extra).ok()?;
    let mut machine = Machine::new(alloc).ok()?;
    load_with(alloc, &mut machine, out, bytes.as_slice(), extra)?;
    put_word(out, machine.load_word(0x70, 0));
    for reg in [Reg::Cs, Reg::Ip, Reg::Ss, Reg::Ds] {
        put_word(out, machine.reg(reg));
    }
    Some(())
}
