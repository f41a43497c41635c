//! The image of a program, and which of its words are segments.

ghost use Rattle.std.specs.Prelude.{IfErr};
ghost use Rattle.smart_linker.specs.Refused.{IsLaterCause};

use crate::data_segment::DataSegment;
use crate::error::LinkError;
use crate::filling::Placed;
use crate::stubs::pad;
use cpu_8086::Far;
use mz_file::FarList;
use overlay_file::{Offsets, OverlayCode8086};
use std::alloc::{AllocError, Global};

/// An image, and the words of it that are segments.
#[derive(Drop)]
pub(crate) struct Image {
    pub(crate) bytes: Vec<u8>,
    pub(crate) relocations: FarList,
}

/// Appends words of a segment.
fn push_relocations(
    relocations: &mut FarList,
    segment: u16,
    words: &Offsets,
) -> Result<(), AllocError> {
    for offset in words.as_slice() {
        relocations.push(Far {
            offset: (*offset % 0x1_0000) as u16,
            segment,
        })?;
    }
    Ok(())
}

impl<'a> Placed<'a> {
    /// The code of the resident units, each on a paragraph.
    fn resident_code(&self, alloc: Global) -> Result<Image, LinkError>
        ensures { IfErr result IsLaterCause }
    {
        let mut bytes = Vec::new(alloc);
        let mut relocations = FarList::new(alloc);
        for place in 0..self.parts.count() {
            if !self.parts.unit(place).overlaid {
                let mut words = Offsets::new(alloc);
                self.push_unit_code(&mut bytes, &mut words, place)?;
                push_relocations(&mut relocations, self.places.segment(place), &words)?;
                pad(&mut bytes)?;
            }
        }
        Ok(Image { bytes, relocations })
    }

    /// The image: code, stubs and the data segment.
    pub(crate) fn image(
        &self,
        alloc: Global,
        overlays: &[OverlayCode8086],
        data: &DataSegment,
    ) -> Result<Image, LinkError>
        ensures { IfErr result IsLaterCause }
    {
        let mut image = self.resident_code(alloc)?;
        self.push_stubs(alloc, &mut image.bytes, overlays)?;
        image.bytes.extend_from_slice(data.bytes.as_slice())?;
        pad(&mut image.bytes)?;
        let segment = self.places.layout.data_segment;
        push_relocations(&mut image.relocations, segment, &data.words)?;
        Ok(image)
    }
}
