//! The code of units, and of overlays.

ghost use Rattle.std.specs.Prelude.{◌≡◌, ◌<◌, length, IfOk, IfErr};
ghost use Rattle.smart_linker.specs.Names.{overlaid_names, names_of};
ghost use Rattle.smart_linker.specs.Refused.{IsLaterCause};

use crate::error::LinkError;
use crate::filling::Placed;
use crate::sizes::segment_word;
use crate::unit::Overlays;
use object_file::object_unit::Ref;
use overlay_file::{Offsets, OverlayCode8086};
use std::alloc::{AllocError, Global};
use type_layout::{Bytes, Name};

/// RETF, the code of an overlay of which nothing is reached.
const RETURN_FAR: u8 = 0xCB;

/// Appends where words of bytes are segments that begin at an offset.
pub(crate) fn push_segment_words(
    words: &mut Offsets,
    begin: u16,
    refs: &[Ref],
) -> Result<(), AllocError> {
    for one in refs {
        if let Some(word) = segment_word(one) {
            let at = u64::from(begin).checked_add(word).ok_or(AllocError)?;
            if at > 0xFFFF_FFFF {
                return Err(AllocError);
            }
            words.push(at as u32)?;
        }
    }
    Ok(())
}

impl<'a> Placed<'a> {
    /// Appends the code of a unit, and where words of it are segments.
    pub(crate) fn push_unit_code(
        &self,
        code: &mut Vec<u8>,
        words: &mut Offsets,
        unit: usize,
    ) -> Result<(), LinkError>
        ensures { IfErr result IsLaterCause }
    {
        let Some(marks) = self.places.marks.get(unit) else {
            return Ok(());
        };
        let Some(sums) = self.places.measured.units.as_slice().get(unit) else {
            return Ok(());
        };
        let routines = self.parts.unit(unit).object.routines.as_slice().iter();
        let places = sums.code.places.as_slice().iter();
        for ((routine, is_reached), place) in routines.zip(marks.routines.iter()).zip(places) {
            if *is_reached {
                let begin = (*place % 0x1_0000) as u16;
                let refs = routine.refs.as_slice();
                self.push_resolved(code, unit, begin, routine.code.as_slice(), refs)?;
                push_segment_words(words, begin, refs)?;
            }
        }
        Ok(())
    }

    /// The overlay of the unit at a place, which has this name.
    fn overlay(&self, alloc: Global, unit: usize, name: &Name) -> Result<OverlayCode8086, LinkError>
        ensures name { IfOk result (λ overlay. overlay.name ≡ name.now) }
        ensures some { IfOk result (λ overlay. 0 < length overlay.code) }
        ensures cause { IfErr result IsLaterCause }
    {
        let mut code = Vec::new(alloc);
        let mut fixups = Offsets::new(alloc);
        self.push_unit_code(&mut code, &mut fixups, unit)?;
        if code.is_empty() {
            code.extend_from_slice(&[RETURN_FAR])?;
        }
        Ok(OverlayCode8086 {
            name: name.copied(),
            code: Bytes::from_vec(code),
            fixups,
        })
    }

    /// The overlays of a program, one for each overlaid unit, in the order of its units.
    #[tactic(auto, using(crate::proofs::Names::names_behind))]
    pub(crate) fn overlays(&self, alloc: Global) -> Result<Overlays, LinkError>
        ensures names { IfOk result (λ overlays. names_of overlays ≡ overlaid_names self.now.parts.units.now) }
        ensures cause { IfErr result IsLaterCause }
    {
        let mut overlays = Overlays::new(alloc);
        for (place, unit) in self.parts.units.iter().enumerate() {
            if unit.overlaid {
                overlays.push(self.overlay(alloc, place, &unit.name)?)?;
            }
        }
        Ok(overlays)
    }
}

/// How many paragraphs the largest overlay has.
pub(crate) fn largest(overlays: &[OverlayCode8086]) -> u16 {
    let mut most: u16 = 0;
    for overlay in overlays {
        let bytes = overlay.code.len().min(0xFFFF);
        most = most.max(((bytes + 15) / 16) as u16);
    }
    most
}
