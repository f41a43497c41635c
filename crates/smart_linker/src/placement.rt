//! Where the parts of a program lie.

ghost use Rattle.std.specs.Prelude.{◌≡◌};
ghost use Rattle.smart_linker.specs.Addresses.{word_at, near_of, entry_of, segment_of, far_of, offset_of};

use crate::part::{Kind, Part};
use crate::parts::Parts;
use crate::reached::UnitMarks;
use crate::sizes::Measured;
use cpu_8086::Far;
use link_layout::{Layout, Numbers};

/// Where the parts of a program lie, each segment counted from the image's start.
#[derive(Drop)]
pub(crate) struct Placement {
    pub(crate) marks: Vec<UnitMarks>,
    pub(crate) measured: Measured,
    pub(crate) layout: Layout,
    /// For each unit the segment of its code, or of its stub where it is overlaid.
    pub(crate) segments: Vec<u16>,
}

/// The word that stands at a place of a list of numbers; 0 behind the list.
pub(crate) fn word_at(numbers: &Numbers, place: usize) -> u16
    ensures { result ≡ word_at numbers.now place }
{
    match numbers.as_slice().get(place) {
        Some(number) => (*number % 0x1_0000) as u16,
        None => 0,
    }
}

impl Placement {
    /// The segment of a unit's code, or of its stub where it is overlaid.
    pub(crate) fn segment(&self, unit: usize) -> u16
        ensures { result ≡ segment_of self.now unit }
    {
        match self.segments.get(unit) {
            Some(segment) => *segment,
            None => 0,
        }
    }

    /// The offset of a routine in the code of its unit.
    pub(crate) fn near(&self, part: Part) -> u16
        ensures { result ≡ near_of self.now part }
    {
        match self.measured.units.as_slice().get(part.unit) {
            Some(unit) => word_at(&unit.code.places, part.number),
            None => 0,
        }
    }

    /// The offset of the entry of a routine in the stub of its overlaid unit.
    fn entry(&self, part: Part) -> u16
        ensures { result ≡ entry_of self.now part }
    {
        match self.measured.units.as_slice().get(part.unit) {
            Some(unit) => word_at(&unit.entries.places, part.number)
                .wrapping_mul(5)
                .wrapping_add(32),
            None => 0,
        }
    }

    /// The far pointer to a routine: to its entry in a stub where its unit is overlaid, else to itself.
    pub(crate) fn far(&self, parts: Parts, part: Part) -> Far
        ensures { result ≡ far_of parts.entry.units.now parts.entry.kernel.now self.now part }
    {
        let offset = if parts.unit(part.unit).overlaid {
            self.entry(part)
        } else {
            self.near(part)
        };
        Far {
            offset,
            segment: self.segment(part.unit),
        }
    }

    /// The offset of a datum or a virtual method table in the data segment.
    pub(crate) fn offset(&self, part: Part) -> u16
        ensures { result ≡ offset_of self.now part }
    {
        match self.measured.units.as_slice().get(part.unit) {
            Some(unit) => match part.kind {
                Kind::Routine => word_at(&unit.globals, part.number),
                Kind::Datum => word_at(&unit.globals, part.number),
                Kind::Vmt => word_at(&unit.vmts, part.number),
            },
            None => 0,
        }
    }
}
