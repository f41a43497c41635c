//! The stubs of a program.

use crate::filling::Placed;
use link_layout::{index_of, push_stub};
use overlay_file::OverlayCode8086;
use std::alloc::{AllocError, Global};
use type_layout::Bytes;

/// The bytes of a paragraph.
const PARAGRAPH: usize = 16;

/// Appends zeros up to the next paragraph.
pub(crate) fn pad(bytes: &mut Vec<u8>) -> Result<(), AllocError> {
    let over = bytes.len() % PARAGRAPH;
    if over > 0 {
        let size = bytes.len().checked_add(PARAGRAPH - over).ok_or(AllocError)?;
        bytes.resize(size, 0)?;
    }
    Ok(())
}

impl<'a> Placed<'a> {
    /// Where the routines begin that have entries in the stub of a unit.
    fn entry_offsets(&self, alloc: Global, unit: usize) -> Result<Vec<u16>, AllocError> {
        let mut offsets = Vec::new(alloc);
        let Some(marks) = self.places.marks.get(unit) else {
            return Ok(offsets);
        };
        let Some(sums) = self.places.measured.units.as_slice().get(unit) else {
            return Ok(offsets);
        };
        let routines = self.parts.unit(unit).object.routines.as_slice().iter();
        let places = sums.code.places.as_slice().iter();
        for ((routine, is_reached), place) in routines.zip(marks.routines.iter()).zip(places) {
            if *is_reached && routine.far {
                offsets.push((*place % 0x1_0000) as u16)?;
            }
        }
        Ok(offsets)
    }

    /// Appends the stubs of these overlays, each on a paragraph.
    pub(crate) fn push_stubs(
        &self,
        alloc: Global,
        image: &mut Vec<u8>,
        overlays: &[OverlayCode8086],
    ) -> Result<(), AllocError> {
        let index = index_of(alloc, overlays)?;
        let mut entries = index.as_slice().iter();
        for place in 0..self.parts.count() {
            if self.parts.unit(place).overlaid {
                let entry = entries.next().ok_or(AllocError)?;
                let offsets = self.entry_offsets(alloc, place)?;
                if offsets.len() > 0xFFFF {
                    return Err(AllocError);
                }
                let mut stub = Bytes::new(alloc);
                push_stub(&mut stub, entry, offsets.as_slice())?;
                image.extend_from_slice(stub.as_slice())?;
                pad(image)?;
            }
        }
        Ok(())
    }
}
