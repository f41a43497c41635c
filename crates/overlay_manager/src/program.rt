//! What a program's files say of its overlays.

ghost use Rattle.std.specs.Prelude.{◌≡◌, IfOk, map};
ghost use Rattle.mz_file.specs.Load.{loaded_segment};
ghost use Rattle.overlay_manager.specs.Manager.{paragraphs_of};

use overlay_file::{OvrEntry, OvrIndex};
use std::alloc::{AllocError, Global};
use type_layout::FileName;

/// The overlay file with its index, the segments of the stubs, one for each overlay, and whether frames are marked.
#[derive(Drop)]
pub struct Program {
    pub name: FileName,
    pub entries: OvrIndex,
    pub stubs: Vec<u16>,
    pub marked: bool,
}

/// The size of an overlay in paragraphs.
pub fn paragraphs_of(entry: &OvrEntry) -> u16
    ensures { result ≡ paragraphs_of entry.now }
{
    let size = entry.size;
    ((u32::from(size) + 15) / 16) as u16
}

/// The sizes of the overlays in paragraphs.
pub fn sizes(alloc: Global, index: &[OvrEntry]) -> Result<Vec<u16>, AllocError>
    ensures { IfOk result (λ sizes. sizes.items ≡ map paragraphs_of index.now) }
{
    let mut sizes = Vec::new(alloc);
    for entry in index {
        sizes.push(paragraphs_of(entry))?;
    }
    Ok(sizes)
}

/// A copy of an index.
pub fn copied(alloc: Global, index: &[OvrEntry]) -> Result<OvrIndex, AllocError>
    ensures { IfOk result (λ copy. copy ≡ index.now) }
{
    let mut copy = OvrIndex::new(alloc);
    for entry in index {
        copy.push(OvrEntry {
            name: entry.name.copied(),
            place: entry.place,
            size: entry.size,
            fixups: entry.fixups,
        })?;
    }
    Ok(copy)
}

/// The segments of the stubs as they are loaded.
pub fn loaded_stubs(alloc: Global, stubs: &[u16]) -> Result<Vec<u16>, AllocError>
    ensures { IfOk result (λ loaded. loaded.items ≡ map loaded_segment stubs.now) }
{
    let mut loaded = Vec::new(alloc);
    for stub in stubs {
        loaded.push(stub.wrapping_add(0x70))?;
    }
    Ok(loaded)
}
