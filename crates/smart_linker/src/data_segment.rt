//! The data segment of a program as it starts.

ghost use Rattle.std.specs.Prelude.{IfErr};
ghost use Rattle.smart_linker.specs.Refused.{IsLaterCause};

use crate::error::LinkError;
use crate::filling::{Placed, set_word};
use crate::overlays::push_segment_words;
use crate::part::{Kind, Part};
use crate::unit::Setting;
use link_layout::even;
use object_file::object_unit::Datum;
use overlay_file::Offsets;
use std::alloc::{AllocError, Global};
use type_layout::Bytes;

/// The numbers of the runtime's data that a program gets as it starts, in the last of the runtime's units.
const HEAP_SEGMENT: usize = 1;

const HEAP_BYTES: usize = 2;

const OVR_NAME: usize = 3;

/// The bytes of the data segment, and where words of it are segments.
#[derive(Drop)]
pub(crate) struct DataSegment {
    pub(crate) bytes: Vec<u8>,
    pub(crate) words: Offsets,
}

/// Puts bytes in the place of others.
fn put(bytes: &mut Vec<u8>, at: usize, given: &[u8]) {
    for (number, byte) in given.iter().enumerate() {
        let place = at.saturating_add(number);
        if place < bytes.len() {
            bytes[place] = *byte;
        }
    }
}

impl DataSegment {
    /// Appends a datum of a unit, with its references filled and zeros up to its size, made even.
    fn push(&mut self, placed: Placed, unit: usize, datum: &Datum) -> Result<(), LinkError>
        ensures { IfErr result IsLaterCause }
    {
        let base = self.bytes.len();
        let begin = (base % 0x1_0000) as u16;
        let refs = datum.refs.as_slice();
        placed.push_resolved(&mut self.bytes, unit, begin, datum.first.as_slice(), refs)?;
        push_segment_words(&mut self.words, begin, refs)?;
        let end = base
            .checked_add(even(datum.size) as usize)
            .ok_or(AllocError)?;
        self.bytes.resize(end, 0)?;
        Ok(())
    }

    /// Appends those data of a unit that are reached.
    fn push_all(
        &mut self,
        placed: Placed,
        unit: usize,
        data: &[Datum],
        marks: &[bool],
    ) -> Result<(), LinkError>
        ensures { IfErr result IsLaterCause }
    {
        for (datum, is_reached) in data.iter().zip(marks.iter()) {
            if *is_reached {
                self.push(placed, unit, datum)?;
            }
        }
        Ok(())
    }
}

impl<'a> Placed<'a> {
    /// The data that are reached, with zeros up to their sizes.
    fn plain_data(&self, alloc: Global) -> Result<DataSegment, LinkError>
        ensures { IfErr result IsLaterCause }
    {
        let mut data = DataSegment {
            bytes: Vec::new(alloc),
            words: Offsets::new(alloc),
        };
        for (unit, marks) in self.places.marks.iter().enumerate() {
            let object = &self.parts.unit(unit).object;
            data.push_all(
                *self,
                unit,
                object.globals.as_slice(),
                marks.globals.as_slice(),
            )?;
            data.push_all(*self, unit, object.vmts.as_slice(), marks.vmts.as_slice())?;
        }
        Ok(data)
    }

    /// The offset of a datum of the last unit of the runtime.
    fn runtime_datum(&self, number: usize) -> u16 {
        self.places.offset(Part {
            kind: Kind::Datum,
            unit: self.parts.units.len().saturating_sub(1),
            number,
        })
    }

    /// The data segment: the data that are reached, and in those of the runtime the heap's segment and bytes and, if the
    /// program has overlays, the name of their file.
    pub(crate) fn data_segment(
        &self,
        alloc: Global,
        setting: &Setting,
        has_overlays: bool,
    ) -> Result<DataSegment, LinkError>
        ensures { IfErr result IsLaterCause }
    {
        let mut data = self.plain_data(alloc)?;
        let segment = self.runtime_datum(HEAP_SEGMENT);
        set_word(
            &mut data.bytes,
            usize::from(segment),
            self.places.layout.heap_segment,
        );
        data.words.push(u32::from(segment))?;
        let heap = usize::from(self.runtime_datum(HEAP_BYTES));
        put(&mut data.bytes, heap, &setting.heap.to_le_bytes());
        if has_overlays {
            let name = usize::from(self.runtime_datum(OVR_NAME));
            let text = setting.file.as_bytes();
            let mut string = Bytes::new(alloc);
            string.push(text.len() as u8)?;
            string.extend_from_slice(text)?;
            put(&mut data.bytes, name, string.as_slice());
        }
        Ok(data)
    }
}
