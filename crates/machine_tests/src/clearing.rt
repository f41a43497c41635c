//! A clear of the buffer of a program without overlays.

ghost use Rattle.std.specs.Prelude.{◌≡◌, []};

use crate::machines::{put_done, put_words};
use cpu_8086::{Far, Machine, Reg};
use mz_file::{Block, Segments};
use overlay_file::OvrIndex;
use overlay_manager::{Ovr, clear_buffer};
use std::alloc::Global;
use test_rows::Line;
use type_layout::FileName;

/// The block of a program without overlays.
fn no_overlays(alloc: Global) -> Block
    ensures { result.stubs ≡ [] }
{
    Block {
        stubs: Segments::new(alloc),
        largest: 0,
        error_routine: Far {
            offset: 0x10,
            segment: 1,
        },
        installed: Far {
            offset: 0x22,
            segment: 2,
        },
        stack: 1024,
        heap: 0,
        data_segment: 9,
        data_bytes: 12,
        marked: false,
    }
}

/// Clears the buffer where BP leads to a link that does not rise, and writes what comes of it and that link.
pub(crate) fn put_clear(alloc: Global, out: &mut Line) -> Option<()> {
    let name = FileName::new("a.ovr")?;
    let block = no_overlays(alloc);
    let mut ovr = Ovr::new(alloc, name, &OvrIndex::new(alloc), &block, 8).ok()?;
    ovr.set_retry(3);
    let mut machine = Machine::new(alloc).ok()?;
    machine.set_reg(Reg::Bp, 0x0110);
    machine.store_word(0, 0x0110, 0x0108);
    put_done(out, &clear_buffer(&mut machine, &mut ovr));
    put_words(out, &machine, 0, &[0x0110]);
    Some(())
}
