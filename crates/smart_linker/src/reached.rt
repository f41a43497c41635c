//! Which parts of a program are reached from its start.

ghost use Rattle.std.specs.Prelude.{IfErr};
ghost use Rattle.smart_linker.specs.Refused.{IsLaterCause};

use crate::error::LinkError;
use crate::part::{Kind, Part};
use crate::parts::Parts;
use crate::unit::RUNTIME_UNITS;
use std::alloc::{AllocError, Global};

/// Which parts of a unit are reached, by their numbers.
#[derive(Drop)]
pub(crate) struct UnitMarks {
    pub(crate) routines: Vec<bool>,
    pub(crate) globals: Vec<bool>,
    pub(crate) vmts: Vec<bool>,
}

/// Which parts of each unit are reached so far, and which of them are still to be followed.
#[derive(Drop)]
struct Reached {
    units: Vec<UnitMarks>,
    pending: Vec<Part>,
}

/// So many parts, none of them reached.
fn unmarked(alloc: Global, count: usize) -> Result<Vec<bool>, AllocError> {
    let mut marks = Vec::new(alloc);
    marks.resize(count, false)?;
    Ok(marks)
}

fn unit_marks(alloc: Global, parts: Parts, place: usize) -> Result<UnitMarks, AllocError> {
    let object = &parts.unit(place).object;
    Ok(UnitMarks {
        routines: unmarked(alloc, object.routines.len())?,
        globals: unmarked(alloc, object.globals.len())?,
        vmts: unmarked(alloc, object.vmts.len())?,
    })
}

/// Marks an entry, and tells whether it wasn't marked.
fn set_mark(marks: &mut Vec<bool>, number: usize) -> bool {
    if number < marks.len() && !marks[number] {
        marks[number] = true;
        true
    } else {
        false
    }
}

/// Marks a part of a unit, and tells whether it wasn't marked.
fn set_part(marks: &mut UnitMarks, kind: Kind, number: usize) -> bool {
    match kind {
        Kind::Routine => set_mark(&mut marks.routines, number),
        Kind::Datum => set_mark(&mut marks.globals, number),
        Kind::Vmt => set_mark(&mut marks.vmts, number),
    }
}

impl Reached {
    /// No part of the units is reached.
    fn new(alloc: Global, parts: Parts) -> Result<Reached, AllocError> {
        let mut units = Vec::new(alloc);
        for place in 0..parts.count() {
            units.push(unit_marks(alloc, parts, place)?)?;
        }
        Ok(Reached {
            units,
            pending: Vec::new(alloc),
        })
    }

    /// Adds a part, which is followed later.
    fn reach(&mut self, part: Part) -> Result<(), AllocError> {
        if part.unit >= self.units.len() {
            return Ok(());
        }
        let is_new = set_part(&mut self.units[part.unit], part.kind, part.number);
        if is_new {
            self.pending.push(part)?;
        }
        Ok(())
    }

    /// Adds what a part refers to.
    fn follow(&mut self, parts: Parts, part: Part) -> Result<(), LinkError>
        ensures { IfErr result IsLaterCause }
    {
        for one in parts.refs_of(part) {
            if let Some(named) = parts.target(part.unit, one)? {
                self.reach(named)?;
            }
        }
        Ok(())
    }

    /// Adds the first parts of this kind of a unit.
    fn reach_first(&mut self, kind: Kind, unit: usize, count: usize) -> Result<(), AllocError> {
        for number in 0..count {
            self.reach(Part { kind, unit, number })?;
        }
        Ok(())
    }

    /// Adds the kernel's routines and all data of the runtime.
    fn begin(&mut self, parts: Parts) -> Result<(), AllocError> {
        let kernel = parts.units.len();
        let routines = parts.unit(kernel).object.routines.len();
        self.reach_first(Kind::Routine, kernel, routines)?;
        for place in kernel.saturating_sub(RUNTIME_UNITS)..kernel {
            let globals = parts.unit(place).object.globals.len();
            self.reach_first(Kind::Datum, place, globals)?;
        }
        Ok(())
    }
}

/// How many parts there are.
fn count_of(parts: Parts) -> Result<usize, AllocError> {
    let mut count: usize = 0;
    for place in 0..parts.count() {
        let object = &parts.unit(place).object;
        for more in [
            object.routines.len(),
            object.globals.len(),
            object.vmts.len(),
        ] {
            count = count.checked_add(more).ok_or(AllocError)?;
        }
    }
    Ok(count)
}

/// What the kernel's routines and all data of the runtime lead to, by references of what is reached: each part once.
pub(crate) fn reached_parts(alloc: Global, parts: Parts) -> Result<Vec<UnitMarks>, LinkError>
    ensures { IfErr result IsLaterCause }
{
    let mut reached = Reached::new(alloc, parts)?;
    reached.begin(parts)?;
    // Each part is followed once, so that none is left.
    for _ in 0..count_of(parts)? {
        match reached.pending.pop() {
            Some(part) => reached.follow(parts, part)?,
            None => return Ok(reached.units),
        }
    }
    if !reached.pending.is_empty() {
        return Err(LinkError::NoMemory);
    }
    Ok(reached.units)
}
