//! Bytes with their references filled.

ghost use Rattle.std.specs.Prelude.{◌≡◌, ◌+◌, ◌-◌, ◌%◌, ◌<◌, ◌^◌, ◌++◌, slice_index_or, IfOk, OnOk, IfErr};
ghost use Rattle.smart_linker.specs.Filled.{with_byte, with_word, with_filling, word_in, filling_by, filled, resolved};
ghost use Rattle.smart_linker.specs.Refused.{IsLaterCause};

use crate::error::LinkError;
use crate::part::Part;
use crate::parts::Parts;
use crate::placement::Placement;
use cpu_8086::Far;
use object_file::object_unit::{Ref, RefKind};
use std::alloc::Global;

/// What stands at a reference.
#[derive(Clone, Copy)]
pub(crate) enum Filling {
    Word(u16),
    Pointer(Far),
}

/// The parts of a program and where they lie.
#[derive(Clone, Copy)]
pub(crate) struct Placed<'a> {
    pub(crate) alloc: Global,
    pub(crate) parts: Parts<'a>,
    pub(crate) places: &'a Placement,
}

/// The byte at a place; 0 where there is none.
fn byte_at(bytes: &[u8], at: usize) -> u16
    ensures value { result ≡ slice_index_or bytes.now at 0 }
    ensures small { result < 256 }
{
    match bytes.get(at) {
        Some(byte) => u16::from(*byte),
        None => 0,
    }
}

/// The word at a place of bytes.
fn word_at(bytes: &[u8], at: u32) -> u16
    ensures { result ≡ word_in bytes.now at }
{
    let place = at as usize;
    byte_at(bytes, place) + 256 * byte_at(bytes, place + 1)
}

/// Sets a byte, where there is one at the place.
fn set_byte(bytes: &mut Vec<u8>, at: usize, byte: u8)
    ensures { bytes.new.items ≡ with_byte bytes.old.items at byte }
{
    if at < bytes.len() {
        bytes[at] = byte;
    }
}

/// Sets the word at a place of bytes.
pub(crate) fn set_word(bytes: &mut Vec<u8>, at: usize, word: u16)
    requires { at + 1 < 2 ^ 64 }
    ensures { bytes.new.items ≡ with_word bytes.old.items at word }
{
    set_byte(bytes, at, (word % 256) as u8);
    set_byte(bytes, at + 1, (word / 256) as u8);
}

fn set_filling(bytes: &mut Vec<u8>, at: u32, filling: Filling)
    ensures { bytes.new.items ≡ with_filling bytes.old.items at filling }
{
    let place = at as usize;
    match filling {
        Filling::Word(word) => set_word(bytes, place, word),
        Filling::Pointer(far) => {
            set_word(bytes, place, far.offset);
            set_word(bytes, place + 2, far.segment);
        }
    }
}

/// The distance from the end of a word at an offset of bytes that begin at another to a target, as two's complement.
fn distance(begin: u16, offset: u32, target: u16) -> u16
    ensures { result ≡ (target + 65536 - (begin + offset + 2)) % 65536 }
{
    let end = u64::from(begin) + u64::from(offset) + 2;
    let target = u64::from(target) + 0x1_0000;
    (target.saturating_sub(end) % 0x1_0000) as u16
}

impl<'a> Placed<'a> {
    /// What comes to stand at a reference to a part, whose bytes begin at an offset, where this word stood.
    fn filling_by(&self, begin: u16, one: &Ref, part: Part, there: u16) -> Filling
        ensures { result ≡ filling_by self.now.parts.units.now self.now.parts.kernel.now self.now.places.now begin one.now.offset part there one.now.kind }
    {
        match one.kind {
            RefKind::FarRoutine => Filling::Pointer(self.places.far(self.parts, part)),
            RefKind::Runtime => Filling::Pointer(self.places.far(self.parts, part)),
            RefKind::NearRoutine => {
                Filling::Word(distance(begin, one.offset, self.places.near(part)))
            }
            RefKind::DataOffset => {
                let sum = u32::from(self.places.offset(part)) + u32::from(there);
                Filling::Word((sum % 0x1_0000) as u16)
            }
            RefKind::Vmt => Filling::Word(self.places.offset(part)),
            RefKind::DataSegment => Filling::Word(self.places.layout.data_segment),
        }
    }

    /// Fills a reference of bytes of a unit that begin at an offset of their segment.
    fn fill(&self, bytes: &mut Vec<u8>, own: usize, begin: u16, one: &Ref) -> Result<(), LinkError>
        ensures filled { OnOk result (bytes.new.items ≡ filled self.now.parts.units.now self.now.parts.kernel.now self.now.places.now own begin bytes.old.items one.now) }
        ensures cause { IfErr result IsLaterCause }
    {
        let filling = match self.parts.target(own, one)? {
            Some(part) => {
                let there = word_at(bytes.as_slice(), one.offset);
                self.filling_by(begin, one, part, there)
            }
            None => Filling::Word(self.places.layout.data_segment),
        };
        set_filling(bytes, one.offset, filling);
        Ok(())
    }

    /// Bytes of a unit that begin at an offset of their segment, with their references filled.
    fn resolved(
        &self,
        own: usize,
        begin: u16,
        given: &[u8],
        refs: &[Ref],
    ) -> Result<Vec<u8>, LinkError>
        ensures resolved { IfOk result (λ bytes. bytes.items ≡ resolved self.now.parts.units.now self.now.parts.kernel.now self.now.places.now own begin given.now refs.now) }
        ensures cause { IfErr result IsLaterCause }
    {
        let mut bytes = Vec::from_slice(self.alloc, given)?;
        let mut least = 0;
        for one in refs {
            let offset = u64::from(one.offset);
            let end = offset + u64::from(one.kind.width());
            if offset < least || end > given.len() as u64 {
                return Err(self.parts.misfit(own, one));
            }
            self.fill(&mut bytes, own, begin, one)?;
            least = end;
        }
        Ok(bytes)
    }

    /// Appends bytes of a unit that begin at an offset of their segment, with their references filled.
    pub(crate) fn push_resolved(
        &self,
        bytes: &mut Vec<u8>,
        own: usize,
        begin: u16,
        given: &[u8],
        refs: &[Ref],
    ) -> Result<(), LinkError>
        ensures resolved { OnOk result (bytes.new.items ≡ bytes.old.items ++ resolved self.now.parts.units.now self.now.parts.kernel.now self.now.places.now own begin given.now refs.now) }
        ensures cause { IfErr result IsLaterCause }
    {
        let code = self.resolved(own, begin, given, refs)?;
        bytes.extend_from_slice(code.as_slice())?;
        Ok(())
    }
}
