//! The units of a program, and which part of them a reference names.

ghost use Rattle.std.specs.Prelude.{◌≡◌, ◌+◌, IfOk, IfErr, None, length, slice_get};
ghost use Rattle.smart_linker.specs.Naming.{unit_at, is_hidden, known_from, place_of, kernel_routine, runtime_distance, runtime_part, named_part, named_by, is_there, is_far, fits, named, datum_refs, refs_of};
ghost use Rattle.smart_linker.specs.Refused.{IsLaterCause};

use crate::error::LinkError;
use crate::part::{Kind, Part};
use crate::unit::{LinkUnit, RUNTIME_UNITS};
use object_file::object_unit::{Datum, Ref, RefKind};
use type_layout::Name;

/// The units of a program, the runtime's three the last of them, and behind them the kernel.
#[derive(Clone, Copy)]
pub(crate) struct Parts<'a> {
    pub(crate) units: &'a [LinkUnit],
    pub(crate) kernel: &'a LinkUnit,
}

/// Where the kernel has the routine of such a number: the error routine, and those of two effects of the machine.
fn kernel_routine(number: u32) -> Option<usize>
    ensures { result ≡ kernel_routine number }
{
    match number {
        0 => Some(1),
        3 => Some(2),
        4 => Some(3),
        _ => None,
    }
}

/// How far from the last of the runtime's units the one is that has the routines of such a number.
fn runtime_distance(number: u32) -> usize
    ensures { result ≡ runtime_distance number }
{
    match number / 256 {
        1 => 2,
        2 => 1,
        _ => 0,
    }
}

/// Whether the unit at a place is known by name to no other: the first two of the runtime's three, which are the last.
fn is_hidden(count: usize, place: usize) -> bool
    ensures { result ≡ is_hidden count place }
{
    let runtime = count.saturating_sub(RUNTIME_UNITS);
    runtime <= place && place - runtime < RUNTIME_UNITS - 1
}

/// The first unit from a place on, among so many, that others know by a name.
fn known_from(count: usize, place: usize, units: &[LinkUnit], name: &Name) -> Option<usize>
    requires { place + length units.now ≡ count }
    ensures { result ≡ known_from count place units.now name.now }
{
    match units {
        [] => None,
        [unit, rest @ ..] => {
            if !is_hidden(count, place) && unit.name == *name {
                Some(place)
            } else {
                known_from(count, place + 1, rest, name)
            }
        }
    }
}

/// The references of the datum of a number.
fn datum_refs(list: &[Datum], number: usize) -> &[Ref]
    ensures { result.now ≡ datum_refs (slice_get list.now number) }
{
    match list.get(number) {
        Some(datum) => datum.refs.as_slice(),
        None => &[],
    }
}

impl<'a> Parts<'a> {
    /// How many units there are, with the kernel.
    pub(crate) fn count(&self) -> usize {
        self.units.len().saturating_add(1)
    }

    /// The unit at a place; the kernel is the last one.
    pub(crate) fn unit(&self, place: usize) -> &'a LinkUnit
        ensures { result.now ≡ unit_at self.now.units.now self.now.kernel.now place }
    {
        match self.units.get(place) {
            Some(unit) => unit,
            None => self.kernel,
        }
    }

    /// The place of the unit that the one at a place knows by a name: of itself, or of the first unit that others know by it.
    fn place_of(&self, own: usize, name: &Name) -> Option<usize>
        ensures { result ≡ place_of self.now.units.now self.now.kernel.now own name.now }
    {
        if self.unit(own).name == *name {
            return Some(own);
        }
        known_from(self.units.len(), 0, self.units, name)
    }

    /// The routine of the runtime, or of the kernel, that a number names.
    fn runtime_part(&self, number: u32) -> Option<Part>
        ensures { result ≡ runtime_part self.now.units.now number }
    {
        let kind = Kind::Routine;
        let count = self.units.len();
        if let Some(routine) = kernel_routine(number) {
            return Some(Part {
                kind,
                unit: count,
                number: routine,
            });
        }
        let distance = runtime_distance(number);
        if count <= distance {
            return None;
        }
        Some(Part {
            kind,
            unit: count - 1 - distance,
            number: number as usize % 256,
        })
    }

    /// A part of this kind of the unit that is known by a name.
    fn named_part(&self, own: usize, one: &Ref, kind: Kind) -> Option<Part>
        ensures { result ≡ named_part self.now.units.now self.now.kernel.now own one.now kind }
    {
        let unit = self.place_of(own, &one.unit)?;
        Some(Part {
            kind,
            unit,
            number: one.number as usize,
        })
    }

    /// Whether a part is there.
    fn is_there(&self, part: Part) -> bool
        ensures { result ≡ is_there self.now.units.now self.now.kernel.now part }
    {
        let object = &self.unit(part.unit).object;
        match part.kind {
            Kind::Routine => part.number < object.routines.len(),
            Kind::Datum => part.number < object.globals.len(),
            Kind::Vmt => part.number < object.vmts.len(),
        }
    }

    /// Whether a routine is there and far.
    fn is_far(&self, part: Part) -> bool
        ensures { result ≡ is_far self.now.units.now self.now.kernel.now part }
    {
        let object = &self.unit(part.unit).object;
        match object.routines.as_slice().get(part.number) {
            Some(routine) => routine.far,
            None => false,
        }
    }

    /// The part that a reference of this kind would name.
    fn named_by(&self, own: usize, one: &Ref) -> Option<Part>
        ensures { result ≡ named_by self.now.units.now self.now.kernel.now own one.now one.now.kind }
    {
        match one.kind {
            RefKind::FarRoutine => self.named_part(own, one, Kind::Routine),
            RefKind::NearRoutine => self.named_part(own, one, Kind::Routine),
            RefKind::DataOffset => self.named_part(own, one, Kind::Datum),
            RefKind::Vmt => self.named_part(own, one, Kind::Vmt),
            RefKind::Runtime => self.runtime_part(one.number),
            RefKind::DataSegment => None,
        }
    }

    /// Whether a part can be named by a reference of this kind.
    fn fits(&self, own: usize, kind: RefKind, part: Part) -> bool
        ensures { result ≡ fits self.now.units.now self.now.kernel.now own kind part }
    {
        match kind {
            RefKind::FarRoutine => self.is_far(part),
            RefKind::Runtime => self.is_far(part),
            RefKind::NearRoutine => part.unit == own && self.is_there(part),
            RefKind::DataOffset => self.is_there(part),
            RefKind::Vmt => self.is_there(part),
            RefKind::DataSegment => self.is_there(part),
        }
    }

    /// The part that a reference of the unit at a place names, if it can be named so.
    fn named(&self, own: usize, one: &Ref) -> Option<Part>
        ensures { result ≡ named self.now.units.now self.now.kernel.now own one.now }
    {
        let part = self.named_by(own, one)?;
        if self.fits(own, one.kind, part) {
            Some(part)
        } else {
            None
        }
    }

    /// The refusal of a reference of the unit at a place.
    pub(crate) fn misfit(&self, own: usize, one: &Ref) -> LinkError
        ensures { IsLaterCause result }
    {
        LinkError::Misfit {
            unit: self.unit(own).name.copied(),
            named: one.unit.copied(),
            number: one.number,
        }
    }

    /// The part that a reference of the unit at a place names; the data segment is none.
    pub(crate) fn target(&self, own: usize, one: &Ref) -> Result<Option<Part>, LinkError>
        ensures part { IfOk result (λ part. part ≡ named self.now.units.now self.now.kernel.now own one.now) }
        ensures cause { IfErr result IsLaterCause }
    {
        if one.kind == RefKind::DataSegment {
            return Ok(None);
        }
        match self.named(own, one) {
            Some(part) => Ok(Some(part)),
            None => Err(self.misfit(own, one)),
        }
    }

    /// The references of a part.
    pub(crate) fn refs_of(&self, part: Part) -> &'a [Ref]
        ensures { result.now ≡ refs_of self.now.units.now self.now.kernel.now part }
    {
        let object = &self.unit(part.unit).object;
        match part.kind {
            Kind::Routine => match object.routines.as_slice().get(part.number) {
                Some(routine) => routine.refs.as_slice(),
                None => &[],
            },
            Kind::Datum => datum_refs(object.globals.as_slice(), part.number),
            Kind::Vmt => datum_refs(object.vmts.as_slice(), part.number),
        }
    }
}
