//! Machines that run programs with overlays.

ghost use Rattle.std.specs.Prelude.{◌≡◌, ◌<◌, ◌≤◌, IsTrue};
ghost use Rattle.std.specs.List.{All};
ghost use Rattle.overlay_manager.specs.Manager.{paragraphs_of};

use crate::machines::put_code;
use cpu_8086::{Far, Machine, Reg};
use mz_file::{Block, Segments};
use overlay_file::{OvrEntry, read_ovr};
use overlay_manager::Ovr;
use std::alloc::Global;
use tp_outside::MemoryFiles;
use type_layout::FileName;

/// A machine that runs a program, with its overlays and their file.
#[derive(Drop)]
pub(crate) struct Scene {
    pub(crate) machine: Machine,
    pub(crate) ovr: Ovr,
    pub(crate) files: MemoryFiles,
}

/// What the executable says: its stubs, the flag at 0150h:0000h and the error routine at 0150h:0010h.
fn block_of(alloc: Global, stubs: &[u16], marked: bool) -> Option<Block> {
    let mut segments = Segments::new(alloc);
    for stub in stubs {
        segments.push(stub.wrapping_sub(0x70)).ok()?;
    }
    Some(Block {
        stubs: segments,
        largest: 2,
        error_routine: Far {
            offset: 0x10,
            segment: 0xE0,
        },
        installed: Far {
            offset: 0,
            segment: 0xE0,
        },
        stack: 1024,
        heap: 0,
        data_segment: 0xE0,
        data_bytes: 12,
        marked,
    })
}

/// The size of an overlay in paragraphs.
fn paragraphs_of(entry: &OvrEntry) -> u16
    ensures { result ≡ paragraphs_of entry.now }
{
    let size = entry.size;
    ((u32::from(size) + 15) / 16) as u16
}

/// Whether each overlay fits a buffer.
fn all_fit(index: &[OvrEntry], room: u16) -> bool
    ensures { IsTrue result → All (λ entry. (0 < paragraphs_of entry) × (paragraphs_of entry ≤ room)) index.now }
{
    for entry in index {
        let paragraphs = paragraphs_of(entry);
        if paragraphs == 0 || paragraphs > room {
            return false;
        }
    }
    true
}

/// The manager of the overlays of a file, whose stubs stand at these segments, with a buffer of so many paragraphs.
pub(crate) fn manager(
    alloc: Global,
    bytes: &[u8],
    stubs: &[u16],
    room: u16,
    marked: bool,
) -> Option<Ovr> {
    let index = read_ovr(alloc, bytes).ok()?;
    let block = block_of(alloc, stubs, marked)?;
    let name = FileName::new("a.ovr")?;
    if index.len() != block.stubs.len() || index.len() > 256 || room > 40848 {
        return None;
    }
    if !all_fit(index.as_slice(), room) {
        return None;
    }
    Ovr::new(alloc, name, &index, &block, room).ok()
}

/// A machine at the begin of code at segment 0100h, with stubs of one entry each, a stack, and the flag set.
pub(crate) fn machine_with(alloc: Global, code: &[u8], stubs: &[u16]) -> Option<Machine> {
    let mut machine = Machine::new(alloc).ok()?;
    put_code(&mut machine, 0x0100, code);
    for stub in stubs {
        machine.store_word(*stub, 0, 0x3FCD);
        machine.store_word(*stub, 12, 1);
        machine.store_word(*stub, 32, 0x3FCD);
    }
    machine.store_byte(0x0150, 0, 1);
    machine.set_reg(Reg::Cs, 0x0100);
    machine.set_reg(Reg::Ss, 0x1000);
    machine.set_reg(Reg::Sp, 0x0200);
    machine.set_reg(Reg::Ax, 3);
    machine.set_reg(Reg::Dx, 0x1234);
    Some(machine)
}

/// A folder with an overlay file, in which the calls that are listed fail.
pub(crate) fn folder(alloc: Global, failing: &[u64], bytes: &[u8]) -> Option<MemoryFiles> {
    let mut files = MemoryFiles::new(alloc, failing).ok()?;
    files.put("a.ovr", bytes).ok()?;
    Some(files)
}
