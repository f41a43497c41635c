//! What the names and numbers of a unit lead to: units, routines, literals and virtual method tables.

ghost use Rattle.std.specs.Prelude.{◌≡◌, ◌+◌, ◌++◌, ◌<◌, ◌≤◌, ◌^◌, ℕ, Some, None, IfOk, List, OnOk, OnErr, codes, length, position, slice_get};
ghost use Rattle.std.specs.Option.{option_map, option_map_or, option_copied};
ghost use Rattle.type_layout.specs.Words.{same_bytes};
ghost use Rattle.tp_meaning.specs.Programs.{is_overlay};
ghost use Rattle.lower_places.specs.Data.{flat_names, overlay_place, literal_number};
ghost use Rattle.lower_places.specs.Scenes.{view_scene, view_sort, unit_among, routine_in, outer_of, routine_around};
ghost use Rattle.lower_places.specs.Reaches.{scratch_address, literal_address, is_overlay_place, class_of, outer_number, links_within, links_to, link_of_outer, link_for};

use crate::scene::{Scene, UnitGlobals};
use crate::sorts::Sort;
use flat_code::Address;
use std::alloc::{AllocError, Global};
use type_layout::{Name, Names, RoutineId};
use typed_tree::{Routine, Unit};

// The datum of 8 bytes, among those of the runtime's unit of overlays and the heap, for what a routine gives before it is stored.
const SCRATCH: u32 = 5;

// How many routines a chain of static links leads through at most, so that their number has room in a node.
const MOST_LEVELS: u32 = 256;

fn append_names(names: &mut Names, more: &[Name]) -> Result<(), AllocError>
    ensures { OnOk result (names.new ≡ names.old ++ more.now) }
{
    for name in more {
        names.push(name.copied())?;
    }
    Ok(())
}

/// The names of a unit's flat code: those of the unit, with itself first, the units that its types name, and the runtime's
/// unit of overlays and the heap.
pub fn flat_names(alloc: Global, unit: &Unit) -> Result<Names, AllocError>
    ensures { IfOk result (λ names. names ≡ flat_names unit.now) }
{
    let mut names = Names::new(alloc);
    append_names(&mut names, unit.names.as_slice())?;
    append_names(&mut names, unit.types.units())?;
    names.push(overlay_name())?;
    Ok(names)
}

fn overlay_name() -> Name
    ensures { result ≡ codes "OVERLAY" }
{
    match Name::new(b"OVERLAY") {
        Some(name) => name,
        None => unreachable!(),
    }
}

fn is_overlay_name(name: &Name) -> bool
    ensures { result ≡ is_overlay name.now }
{
    name.as_bytes() == b"OVERLAY".as_slice()
}

fn place_among(names: &[Name], name: &Name) -> Option<usize>
    ensures { result ≡ position (same_bytes name.now) names.now }
{
    names.iter().position(|known| *name == *known)
}

// A number of 32 bits.
fn narrow(number: usize) -> Result<u32, AllocError>
    ensures value { IfOk result (λ narrow. narrow ≡ number) }
    ensures cause { OnErr result (2 ^ 32 ≤ number) }
{
    u32::try_from(number).map_err(|_| AllocError)
}

// The unit of a name, with its globals.
pub(crate) fn unit_among<'a>(
    units: &'a [UnitGlobals<'a>],
    name: &Name,
) -> Result<&'a UnitGlobals<'a>, AllocError>
    ensures value { IfOk result (λ one. unit_among units.now name.now ≡ Some one.now.unit.now) }
    ensures cause { OnErr result (unit_among units.now name.now ≡ None) }
{
    match units {
        [] => Err(AllocError),
        [one, rest @ ..] => {
            if *name == one.unit.name {
                Ok(one)
            } else {
                unit_among(rest, name)
            }
        }
    }
}

impl<'a> Scene<'a> {
    /// The place of the runtime's unit of overlays and the heap among the names of the flat unit.
    pub fn overlay(&self) -> Result<u32, AllocError>
        ensures value { IfOk result (λ place. place ≡ overlay_place self.now.unit.now) }
        ensures cause { OnErr result (2 ^ 32 ≤ overlay_place self.now.unit.now) }
    {
        let own = self.unit.names.len();
        let before = own.checked_add(self.unit.types.units().len());
        narrow(before.ok_or(AllocError)?)
    }

    /// Whether a place among the unit's names is that of the unit Overlay.
    pub fn is_overlay(&self, unit: u32) -> bool
        ensures { result ≡ is_overlay_place self.now.unit.now unit }
    {
        match self.unit.names.as_slice().get(unit as usize) {
            Some(name) => is_overlay_name(name),
            None => false,
        }
    }

    /// The 8 bytes for what a routine of the runtime gives before it is stored, from one of them on.
    pub fn scratch(&self, plus: u16) -> Result<Address, AllocError>
        ensures value { IfOk result (λ address. address ≡ scratch_address self.now.unit.now plus) }
        ensures cause { OnErr result (2 ^ 32 ≤ overlay_place self.now.unit.now) }
    {
        let unit = self.overlay()?;
        Ok(Address::Global {
            unit,
            number: SCRATCH,
            plus,
        })
    }

    /// The literal that so many others of the unit stand before.
    pub fn literal(&self, before: u32) -> Result<Address, AllocError>
        ensures value { IfOk result (λ address. address ≡ literal_address self.now.unit.now before) }
        ensures cause { OnErr result (2 ^ 32 ≤ literal_number self.now.unit.now before) }
    {
        let globals = narrow(self.unit.globals.len())?;
        let number = globals.checked_add(before).ok_or(AllocError)?;
        Ok(Address::Global {
            unit: 0,
            number,
            plus: 0,
        })
    }

    // The place of a unit among the names of the flat unit.
    #[tactic(auto, using(crate::proofs::NamePlaces::place_first, crate::proofs::NamePlaces::place_second))]
    fn place_of(&self, name: &Name) -> Result<u32, AllocError>
        ensures { IfOk result (λ place. position (same_bytes name.now) (flat_names self.now.unit.now) ≡ Some place) }
    {
        match place_among(self.unit.names.as_slice(), name) {
            Some(place) => narrow(place),
            None => match place_among(self.unit.types.units(), name) {
                Some(place) => narrow(self.unit.names.len().checked_add(place).ok_or(AllocError)?),
                None => Err(AllocError),
            },
        }
    }

    // The unit at a place among those of a table, and a number in it.
    #[tactic(auto, using(crate::proofs::NamePlaces::class_found))]
    fn class_in(&self, units: &[Name], origin: (u32, u32)) -> Result<(u32, u32), AllocError>
        ensures { IfOk result (λ class. (name : List ℕ) × (slice_get units.now origin.0 ≡ Some name) × (position (same_bytes name) (flat_names self.now.unit.now) ≡ Some class.0) × (class.1 ≡ origin.1)) }
    {
        match units.get(origin.0 as usize) {
            Some(name) => Ok((self.place_of(name)?, origin.1)),
            None => Err(AllocError),
        }
    }

    /// The unit that declares a type, by its place among the names of the flat unit, and the type's number there, which is
    /// that of its virtual method table.
    #[tactic(auto, using(crate::proofs::NamePlaces::class_found))]
    pub fn class_of(&self, sort: &Sort) -> Result<(u32, u32), AllocError>
        ensures { IfOk result (λ class. class_of self.now.unit.now (view_sort sort.now) ≡ Some class) }
    {
        match sort {
            Sort::Of { types, ty, .. } => {
                if ty.0 >= types.count() {
                    return Err(AllocError);
                }
                self.class_in(types.units(), types.origin(*ty))
            }
            Sort::Char | Sort::Integer => Err(AllocError),
        }
    }

    /// The unit at a place among the unit's names, with its globals.
    pub fn globals_of(&self, unit: u32) -> Result<&'a UnitGlobals<'a>, AllocError>
        ensures { IfOk result (λ one. (name : List ℕ) × (slice_get self.now.unit.now.names unit ≡ Some name) × (unit_among self.now.globals.now name ≡ Some one.now.unit.now)) }
    {
        match self.unit.names.as_slice().get(unit as usize) {
            Some(name) => unit_among(self.globals, name),
            None => Err(AllocError),
        }
    }

    /// The routine with a number in the unit.
    pub fn routine_at(&self, number: u32) -> Result<&'a Routine, AllocError>
        ensures value { IfOk result (λ routine. routine_in self.now.unit.now number ≡ Some routine.now) }
        ensures cause { OnErr result (routine_in self.now.unit.now number ≡ None) }
    {
        match self.unit.routines.as_slice().get(number as usize) {
            Some(routine) => Ok(routine),
            None => Err(AllocError),
        }
    }

    // The routine round one.
    fn outer_of(&self, routine: &Routine) -> Result<&'a Routine, AllocError>
        ensures { IfOk result (λ outer. outer_of self.now.unit.now routine.now ≡ Some outer.now) }
    {
        match routine.outer {
            Some(outer) => self.routine_at(outer),
            None => Err(AllocError),
        }
    }

    /// The routine that so many static links lead to.
    #[tactic(auto, using(crate::proofs::NamePlaces::around_more))]
    pub fn routine_around(&self, links: u32) -> Result<&'a Routine, AllocError>
        ensures { IfOk result (λ around. routine_around self.now.unit.now self.now.routine.now links ≡ Some around.now) }
    {
        if links == 0 {
            return Ok(self.routine);
        }
        if links >= MOST_LEVELS {
            return Err(AllocError);
        }
        self.outer_of(self.routine_around(links - 1)?)
    }

    // How many static links lead from one routine to another, where they are fewer than so many.
    #[tactic(auto, using(crate::proofs::NamePlaces::links_more))]
    fn links_within(&self, to: u32, most: u32, from: u32) -> Result<u32, AllocError>
        ensures value { IfOk result (λ links. links_within self.now.unit.now to most (Some from) ≡ Some links) }
        ensures few { IfOk result (λ links. links < most) }
    {
        if most == 0 {
            return Err(AllocError);
        }
        if from == to {
            return Ok(0);
        }
        match self.routine_at(from)?.outer {
            Some(outer) => {
                let links = self.links_within(to, most - 1, outer)?;
                Ok(links + 1)
            }
            None => Err(AllocError),
        }
    }

    /// How many static links lead to the activation of a routine.
    pub fn links_to(&self, number: u32) -> Result<u8, AllocError>
        ensures { IfOk result (λ links. links_to (view_scene self.now) number ≡ Some links) }
    {
        let links = self.links_within(number, MOST_LEVELS, self.number)?;
        Ok(links as u8)
    }

    // The static link that a routine is handed inside another.
    fn link_to(&self, outer: Option<u32>) -> Result<Option<Address>, AllocError>
        ensures { IfOk result (λ link. link ≡ link_of_outer (view_scene self.now) outer) }
    {
        match outer {
            None => Ok(None),
            Some(outer) => {
                let levels = self.links_to(outer)?;
                Ok(Some(Address::Outer { levels, at: 0 }))
            }
        }
    }

    /// The static link that a routine is handed, if it is one inside another: the place of the link word of the activation
    /// round it.
    #[tactic(auto, using(crate::proofs::NamePlaces::outer_found))]
    pub fn link_for(&self, routine: RoutineId) -> Result<Option<Address>, AllocError>
        ensures { IfOk result (λ link. link ≡ link_for (view_scene self.now) routine) }
    {
        if routine.unit != 0 {
            return Ok(None);
        }
        let outer = self.routine_at(routine.number)?.outer;
        self.link_to(outer)
    }
}
