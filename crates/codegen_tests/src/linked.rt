//! Object units in a machine: each unit's code in a segment of its own, the data of all in one.

use cpu_8086::{Machine, Reg};
use flat_code::FlatUnit;
use object_file::object_unit::{Code8086, Datum, ObjectUnit, Ref, RefKind};
use std::alloc::Global;
use type_layout::Name;

const START: u16 = 0x0100;

const ERRORS: u16 = 0x0200;

const DATA: u16 = 0x1000;

const STACK: u16 = 0x2000;

const CODE: u16 = 0x4000;

/// The interrupt that stands at the error routine's place.
pub(crate) const ERROR: u8 = 0x61;

/// Units, and the object unit of each.
#[derive(Clone, Copy)]
pub(crate) struct Linked<'a> {
    pub(crate) units: &'a [FlatUnit],
    pub(crate) objects: &'a [ObjectUnit],
}

// The place behind data that lie one after another at even places, the first so many of them.
fn behind_data(first: u16, data: &[Datum], count: usize) -> u16 {
    let mut place = first;
    for datum in data.iter().take(count) {
        place = place.wrapping_add((datum.size % 0x1_0000) as u16);
        place = place.wrapping_add(place % 2);
    }
    place
}

// The place behind the first so many routines.
fn behind_code(routines: &[Code8086], count: usize) -> u16 {
    let mut place: u16 = 0;
    for routine in routines.iter().take(count) {
        place = place.wrapping_add((routine.code.as_slice().len() % 0x1_0000) as u16);
    }
    place
}

// Where the data of a unit begin.
fn data_of(objects: &[ObjectUnit], number: usize) -> u16 {
    let mut place = 0;
    for object in objects.iter().take(number) {
        place = behind_data(place, object.globals.as_slice(), usize::MAX);
        place = behind_data(place, object.vmts.as_slice(), usize::MAX);
    }
    place
}

fn segment_of(number: usize) -> u16 {
    CODE.wrapping_add(((number % 16) as u16).wrapping_mul(0x1000))
}

// The place of a unit among the units.
fn named(units: &[FlatUnit], name: &Name) -> usize {
    let mut number: usize = 0;
    for unit in units {
        if let Some(first) = unit.names.as_slice().first() {
            if first.is(name) {
                return number;
            }
        }
        number = number.wrapping_add(1);
    }
    number
}

impl<'a> Linked<'a> {
    fn routine(&self, unit: usize, number: u32) -> Option<u16> {
        let object = self.objects.get(unit)?;
        Some(behind_code(object.routines.as_slice(), number as usize))
    }

    fn global(&self, unit: usize, number: u32) -> Option<u16> {
        let object = self.objects.get(unit)?;
        let first = data_of(self.objects, unit);
        Some(behind_data(first, object.globals.as_slice(), number as usize))
    }

    fn vmt(&self, unit: usize, number: u32) -> Option<u16> {
        let object = self.objects.get(unit)?;
        let first = data_of(self.objects, unit);
        let first = behind_data(first, object.globals.as_slice(), usize::MAX);
        Some(behind_data(first, object.vmts.as_slice(), number as usize))
    }

    // The first word of a reference, where `there` stands and the bytes begin at an offset of their segment; and the segment that follows
    // it, if one does.
    fn value_of(&self, begin: u16, one: &Ref, there: u16) -> Option<(u16, Option<u16>)> {
        let unit = named(self.units, &one.unit);
        match one.kind {
            RefKind::FarRoutine => {
                Some((self.routine(unit, one.number)?, Some(segment_of(unit))))
            }
            RefKind::NearRoutine => {
                let at = begin.wrapping_add((one.offset % 0x1_0000) as u16);
                let target = self.routine(unit, one.number)?;
                Some((target.wrapping_sub(at.wrapping_add(2)), None))
            }
            RefKind::DataOffset => {
                Some((self.global(unit, one.number)?.wrapping_add(there), None))
            }
            RefKind::DataSegment => Some((DATA, None)),
            RefKind::Vmt => Some((self.vmt(unit, one.number)?, None)),
            RefKind::Runtime if one.number == 0 => Some((0, Some(ERRORS))),
            RefKind::Runtime => None,
        }
    }

    // Puts bytes at a place, with their references filled.
    fn put(
        &self,
        machine: &mut Machine,
        segment: u16,
        begin: u16,
        bytes: &[u8],
        refs: &[Ref],
    ) -> Option<()> {
        put_bytes(machine, segment, begin, bytes);
        for one in refs {
            let at = begin.wrapping_add((one.offset % 0x1_0000) as u16);
            let there = machine.load_word(segment, at);
            let (word, behind) = self.value_of(begin, one, there)?;
            machine.store_word(segment, at, word);
            if let Some(word) = behind {
                machine.store_word(segment, at.wrapping_add(2), word);
            }
        }
        Some(())
    }

    fn put_data(&self, machine: &mut Machine, first: u16, data: &[Datum]) -> Option<()> {
        let mut number: usize = 0;
        for datum in data {
            let place = behind_data(first, data, number);
            let bytes = datum.first.as_slice();
            self.put(machine, DATA, place, bytes, datum.refs.as_slice())?;
            number = number.wrapping_add(1);
        }
        Some(())
    }

    fn put_unit(&self, machine: &mut Machine, unit: usize, object: &ObjectUnit) -> Option<()> {
        let mut number: usize = 0;
        for routine in object.routines.as_slice() {
            let place = behind_code(object.routines.as_slice(), number);
            let bytes = routine.code.as_slice();
            self.put(
                machine,
                segment_of(unit),
                place,
                bytes,
                routine.refs.as_slice(),
            )?;
            number = number.wrapping_add(1);
        }
        let globals = object.globals.as_slice();
        let first = data_of(self.objects, unit);
        self.put_data(machine, first, globals)?;
        let first = behind_data(first, globals, usize::MAX);
        self.put_data(machine, first, object.vmts.as_slice())
    }

    // Far calls of the first routines, one after another, and the end of the run: MOV AX,4C00; INT 21.
    fn put_start(&self, machine: &mut Machine) -> Option<()> {
        let mut at: u16 = 0;
        let mut number: usize = 0;
        for unit in self.units {
            if let Some(initial) = unit.initial {
                put_bytes(machine, START, at, &[0x9a]);
                let routine = self.routine(number, initial)?;
                machine.store_word(START, at.wrapping_add(1), routine);
                machine.store_word(START, at.wrapping_add(3), segment_of(number));
                at = at.wrapping_add(5);
            }
            number = number.wrapping_add(1);
        }
        put_bytes(machine, START, at, &[0xb8, 0x00, 0x4c, 0xcd, 0x21]);
        Some(())
    }

    /// A machine with the units in it, at the beginning of a run with a stack of so many bytes.
    pub(crate) fn loaded(&self, alloc: Global, stack: u16) -> Option<Machine> {
        let mut machine = Machine::new(alloc).ok()?;
        let mut number: usize = 0;
        for object in self.objects {
            self.put_unit(&mut machine, number, object)?;
            number = number.wrapping_add(1);
        }
        self.put_start(&mut machine)?;
        put_bytes(&mut machine, ERRORS, 0, &[0xcd, ERROR]);
        machine.set_reg(Reg::Cs, START);
        machine.set_reg(Reg::Ds, DATA);
        machine.set_reg(Reg::Ss, STACK);
        machine.set_reg(Reg::Sp, stack);
        Some(machine)
    }
}

fn put_bytes(machine: &mut Machine, segment: u16, offset: u16, bytes: &[u8]) {
    let mut at = offset;
    for byte in bytes {
        machine.store_byte(segment, at, *byte);
        at = at.wrapping_add(1);
    }
}
