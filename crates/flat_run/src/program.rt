//! The program that a list of units makes, and where its parts lie.

ghost use Rattle.std.specs.Prelude.{◌≡◌, ◌↔◌, IsTrue, MatchOption, ℕ, ◌+◌, ◌*◌, ◌^◌, ◌<◌, ◌≤◌, List, map, length, slice_get};
ghost use Rattle.std.specs.Option.{option_map, option_and_then};
ghost use Rattle.std.specs.Borrow.{Bor};
ghost use Rattle.flat_code.specs.declared.unit.FlatRoutine.{FlatRoutine};
ghost use Rattle.flat_code.specs.declared.unit.FlatUnit.{FlatUnit};
ghost use Rattle.flat_code.specs.Program.{Routine, runtime_key};
ghost use Rattle.flat_code.specs.Plain.{view_unit, view_routine, view_datum, view_vmt, name_at, data_size, vmts_size, unit_size, units_size, datum_from, vmt_from, datum_of, vmt_of, even, vmt_size, far_of, far_if, unit_from, key_if, callee_of, choice_of};
ghost use Rattle.flat_run.specs.Views.{view_callee};

use flat_code::{FlatDatum, FlatRoutine, FlatUnit, FlatVmt, Place};

/// What a unit is called that stands at a place of the list: the first three are the runtime's.
pub fn name_at(at: usize, unit: &FlatUnit) -> &[u8]
    ensures value { result.now ≡ name_at at (view_unit unit.now) }
    ensures short { length result.now ≤ 63 }
{
    match at {
        0 => b".TEXT",
        1 => b".STRINGS",
        2 => b"OVERLAY",
        _ => match unit.names.as_slice() {
            [] => b"",
            [name, ..] => name.as_bytes(),
        },
    }
}

fn even(size: u32) -> u32
    requires { size + 1 < 2 ^ 32 }
    ensures { result ≡ even size }
{
    size + size % 2
}

fn vmt_size(vmt: &FlatVmt) -> u32
    requires { vmt_size (view_vmt vmt.now) < 65536 }
    ensures { result ≡ vmt_size (view_vmt vmt.now) }
{
    4 + 4 * vmt.slots.len() as u32
}

// The offset of a datum of a list that begins at `start`.
fn datum_from(start: u32, list: &[FlatDatum], number: usize) -> Option<u16>
    requires { start + data_size (map view_datum list.now) < 65536 }
    ensures { result ≡ datum_from start (map view_datum list.now) number }
{
    match list {
        [] => None,
        [datum, rest @ ..] => {
            if number == 0 {
                Some(start as u16)
            } else {
                datum_from(start + even(datum.size), rest, number - 1)
            }
        }
    }
}

// The offset of a virtual method table of a list that begins at `start`.
fn vmt_from(start: u32, list: &[FlatVmt], number: usize) -> Option<u16>
    requires { start + vmts_size (map view_vmt list.now) < 65536 }
    ensures { result ≡ vmt_from start (map view_vmt list.now) number }
{
    match list {
        [] => None,
        [vmt, rest @ ..] => {
            if number == 0 {
                Some(start as u16)
            } else {
                vmt_from(start + vmt_size(vmt), rest, number - 1)
            }
        }
    }
}

fn data_size(list: &[FlatDatum]) -> u32
    requires { data_size (map view_datum list.now) < 65536 }
    ensures { result ≡ data_size (map view_datum list.now) }
{
    match list {
        [] => 0,
        [datum, rest @ ..] => even(datum.size) + data_size(rest),
    }
}

fn vmts_size(list: &[FlatVmt]) -> u32
    requires { vmts_size (map view_vmt list.now) < 65536 }
    ensures { result ≡ vmts_size (map view_vmt list.now) }
{
    match list {
        [] => 0,
        [vmt, rest @ ..] => vmt_size(vmt) + vmts_size(rest),
    }
}

fn unit_size(unit: &FlatUnit) -> u32
    requires { unit_size (view_unit unit.now) < 65536 }
    ensures { result ≡ unit_size (view_unit unit.now) }
{
    data_size(unit.globals.as_slice()) + vmts_size(unit.vmts.as_slice())
}

// What is left of some room after data, each rounded up to even.
fn room_after_data(room: u32, list: &[FlatDatum]) -> Option<u32>
    ensures { MatchOption result (room < data_size (map view_datum list.now)) (λ left. left + data_size (map view_datum list.now) ≡ room) }
{
    match list {
        [] => Some(room),
        [datum, rest @ ..] => {
            let odd = datum.size % 2;
            if room < odd || room - odd < datum.size {
                return None;
            }
            room_after_data(room - odd - datum.size, rest)
        }
    }
}

// What is left of some room after virtual method tables.
fn room_after_vmts(room: u32, list: &[FlatVmt]) -> Option<u32>
    ensures { MatchOption result (room < vmts_size (map view_vmt list.now)) (λ left. left + vmts_size (map view_vmt list.now) ≡ room) }
{
    match list {
        [] => Some(room),
        [vmt, rest @ ..] => {
            let slots = vmt.slots.len();
            if (room / 4) as usize <= slots {
                return None;
            }
            room_after_vmts(room - 4 - 4 * slots as u32, rest)
        }
    }
}

fn room_after_units(room: u32, units: &[FlatUnit]) -> Option<u32>
    ensures { MatchOption result (room < units_size (map view_unit units.now)) (λ left. left + units_size (map view_unit units.now) ≡ room) }
{
    match units {
        [] => Some(room),
        [unit, rest @ ..] => {
            let room = room_after_data(room, unit.globals.as_slice())?;
            let room = room_after_vmts(room, unit.vmts.as_slice())?;
            room_after_units(room, rest)
        }
    }
}

/// Whether there are at most 4,096 units, and their data and virtual method tables take at most
/// 65,520 bytes.
pub fn fits(units: &[FlatUnit]) -> bool
    ensures { IsTrue result ↔ (length units.now ≤ 4096) × (units_size (map view_unit units.now) ≤ 65520) }
{
    units.len() <= 4096 && room_after_units(65520, units).is_some()
}

/// The offset of a datum, by its unit's name and its number there.
pub fn datum_of(
    at: usize,
    start: u32,
    units: &[FlatUnit],
    name: &[u8],
    number: usize,
) -> Option<u16>
    requires few { at + length units.now < 65536 }
    requires small { start + units_size (map view_unit units.now) < 65536 }
    ensures { result ≡ datum_of at start (map view_unit units.now) name.now number }
{
    match units {
        [] => None,
        [unit, rest @ ..] => {
            if name_at(at, unit) == name {
                datum_from(start, unit.globals.as_slice(), number)
            } else {
                datum_of(at + 1, start + unit_size(unit), rest, name, number)
            }
        }
    }
}

/// The offset of a virtual method table, by its unit's name and its number there.
pub fn vmt_of(at: usize, start: u32, units: &[FlatUnit], name: &[u8], number: usize) -> Option<u16>
    requires few { at + length units.now < 65536 }
    requires small { start + units_size (map view_unit units.now) < 65536 }
    ensures { result ≡ vmt_of at start (map view_unit units.now) name.now number }
{
    match units {
        [] => None,
        [unit, rest @ ..] => {
            if name_at(at, unit) == name {
                let first = start + data_size(unit.globals.as_slice());
                vmt_from(first, unit.vmts.as_slice(), number)
            } else {
                vmt_of(at + 1, start + unit_size(unit), rest, name, number)
            }
        }
    }
}

// The far pointer of a routine of the unit at a place of the list.
fn far_in(at: u16, routines: &[FlatRoutine], number: u32) -> Option<Place>
    requires { at < 4096 }
    ensures { result ≡ option_and_then (λ (r : Routine). far_if r.far at number) (slice_get (map view_routine routines.now) number) }
{
    let routine = routines.get(number as usize)?;
    if routine.far && number < 0x1_0000 {
        Some(Place {
            segment: 0xf000 + at,
            offset: number as u16,
        })
    } else {
        None
    }
}

/// The far pointer of a far routine, by its unit's name and its number there.
pub fn far_of(at: u16, units: &[FlatUnit], name: &[u8], number: u32) -> Option<Place>
    requires { at + length units.now ≤ 4096 }
    ensures { result ≡ far_of at (map view_unit units.now) name.now number }
{
    match units {
        [] => None,
        [unit, rest @ ..] => {
            if name_at(usize::from(at), unit) == name {
                far_in(at, unit.routines.as_slice(), number)
            } else {
                far_of(at + 1, rest, name, number)
            }
        }
    }
}

/// The unit of a name.
pub fn unit_of<'a>(at: usize, units: &'a [FlatUnit], name: &[u8]) -> Option<&'a FlatUnit>
    requires { at + length units.now ≤ 4096 }
    ensures { option_map (λ (unit : Bor FlatUnit). view_unit unit.now) result ≡ unit_from at (map view_unit units.now) name.now }
{
    match units {
        [] => None,
        [unit, rest @ ..] => {
            if name_at(at, unit) == name {
                Some(unit)
            } else {
                unit_of(at + 1, rest, name)
            }
        }
    }
}

/// The routine with a number in a unit.
pub fn routine_of(unit: &FlatUnit, number: u32) -> Option<&FlatRoutine>
    ensures { option_map (λ (routine : Bor FlatRoutine). view_routine routine.now) result ≡ slice_get (map view_routine unit.now.routines) number }
{
    unit.routines.as_slice().get(number as usize)
}

/// A routine, by its unit's name and its number there.
#[derive(Clone, Copy)]
pub struct Callee<'a> {
    pub name: &'a [u8],
    pub number: u32,
}

// The far routine with this number of the unit at a place of the list.
fn callee_in(at: usize, unit: &FlatUnit, number: u16) -> Option<Callee<'_>>
    ensures { option_map view_callee result ≡ option_and_then (λ (r : Routine). key_if r.far (name_at at (view_unit unit.now)) number) (slice_get (map view_routine unit.now.routines) number) }
{
    let routine = unit.routines.as_slice().get(usize::from(number))?;
    if routine.far {
        Some(Callee {
            name: name_at(at, unit),
            number: u32::from(number),
        })
    } else {
        None
    }
}

fn callee_from(at: usize, units: &[FlatUnit], distance: u16, number: u16) -> Option<Callee<'_>>
    requires { at + length units.now ≤ 4096 }
    ensures { option_map view_callee result ≡ callee_of at (map view_unit units.now) distance number }
{
    match units {
        [] => None,
        [unit, rest @ ..] => {
            if distance == 0 {
                callee_in(at, unit, number)
            } else {
                callee_from(at + 1, rest, distance - 1, number)
            }
        }
    }
}

/// The routine that a far pointer names.
pub fn callee_of(units: &[FlatUnit], pointer: Place) -> Option<Callee<'_>>
    requires { length units.now ≤ 4096 }
    ensures { option_map view_callee result ≡ (choice_of (map view_unit units.now)).callee pointer }
{
    if pointer.segment < 0xf000 {
        return None;
    }
    callee_from(0, units, pointer.segment - 0xf000, pointer.offset)
}

/// The routine of a runtime number above those of the acts.
pub fn runtime_callee(number: u16) -> Callee<'static>
    ensures { view_callee result ≡ runtime_key number }
{
    let name: &[u8] = match number / 0x100 {
        1 => b".TEXT",
        2 => b".STRINGS",
        _ => b"OVERLAY",
    };
    Callee {
        name,
        number: u32::from(number % 0x100),
    }
}
