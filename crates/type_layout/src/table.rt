//! The table of types.

ghost use Rattle.std.specs.Prelude.{All, IsTrue, ◌≡◌, ◌+◌, ◌-◌, ◌^◌, ◌<◌, ◌≤◌, ◌∷◌, [], ◌++◌, ◌↔◌, ℕ, min, Some, Err, IfOk, IfSome, OnOk, OnErr, IsOk, length, slice_get, position, vec_len, vec_capacity, IfErr};
ghost use Rattle.type_layout.specs.Words.{same_bytes};
ghost use Rattle.type_layout.specs.Layouts.{layouts_of, size_over, HasFieldsOf, IsMeasured};
ghost use Rattle.type_layout.specs.Table.{IsWellFormed, IsAddable, place_of, with_unit, with_type};

use crate::layout::{Layout, layout_over, size_over};
use crate::wanted::{has_methods_of, is_defined_over};
use crate::{Name, Origin, TypeDef, TypeId};
use std::alloc::{AllocError, Global};
use std::marker::Model;

/// The bytes of the largest type.
pub const TYPE_LIMIT: u32 = 65_520;

// How many types and how many units a table has at most, so that their places are numbers of 32 bits.
const MOST: usize = 0xffff_ffff;

/// Why a type is not added to a table.
#[derive(Clone, Copy, Debug, PartialEq, Eq)]
pub enum TypeError {
    /// The size of the type, or the greatest u64 where it passes that, is above the limit.
    TooLarge { bytes: u64 },
    /// There is no memory, or the table has 2^32 - 1 types or units.
    NoMemory,
}

impl From<AllocError> for TypeError {
    ghost use Rattle.std.specs.Prelude.{◌≡◌};
    ghost use Rattle.type_layout.specs.declared.table.TypeError.TheVariants.{NoMemory};

    ghost from_gives = { λ _ error. error ≡ NoMemory };

    fn from(_error: AllocError) -> TypeError {
        TypeError::NoMemory
    }
}

/// Types with ids from 0 on, in the order of adding.
#[derive(Debug, Drop)]
pub struct Types {
    types: Vec<TypeDef>,
    origins: Vec<Origin>,
    layouts: Vec<Layout>,
    units: Vec<Name>,
}

impl Model for Types {
    ghost use Rattle.type_layout.specs.Table.{Table, IsKept};

    ghost Value = { Table };

    ghost view = { λ t. record { types = t.types.items; origins = t.origins.items; units = t.units.items } };

    ghost invariant = { λ t. IsKept (record { types = t.types.items; origins = t.origins.items; units = t.units.items }) t.layouts.items };
}

// Appends to a vector that has room.
fn push_within<T: Drop>(items: &mut Vec<T>, item: T)
    requires { vec_len items.old < vec_capacity items.old }
    ensures { items.new.items ≡ items.old.items ++ item ∷ [] }
{
    if items.push(item).is_err() {
        unreachable!()
    }
}

// The place of a unit among the units.
fn place_among(units: &[Name], unit: &Name) -> Option<usize>
    ensures { result ≡ position (same_bytes unit.now) units.now }
{
    units.iter().position(|known| *unit == *known)
}

// Puts a unit at the end of the units.
fn add_new(units: &mut Vec<Name>, unit: Name) -> Result<(), TypeError>
    ensures ok { OnOk result (units.new.items ≡ units.old.items ++ unit ∷ []) }
    ensures err { OnErr result (units.new.items ≡ units.old.items) }
    ensures cause { IfErr result (λ error. error ≡ TypeError.NoMemory) }
{
    match units.push(unit) {
        Ok(()) => Ok(()),
        Err(_) => Err(TypeError::NoMemory),
    }
}

// The place of a unit among the units, to which it is added where it is new.
fn find_or_add(units: &mut Vec<Name>, unit: Name) -> Result<u32, TypeError>
    requires { length units.old.items < 2 ^ 32 }
    ensures ok { IfOk result (λ place. (place ≡ place_of units.old.items unit) × (units.new.items ≡ with_unit units.old.items unit)) }
    ensures few { OnOk result (length units.new.items < 2 ^ 32) }
    ensures err { OnErr result (units.new.items ≡ units.old.items) }
    ensures cause { IfErr result (λ error. error ≡ TypeError.NoMemory) }
{
    match place_among(units.as_slice(), &unit) {
        Some(place) => Ok(place as u32),
        None => {
            let place = units.len();
            if place >= MOST {
                return Err(TypeError::NoMemory);
            }
            add_new(units, unit)?;
            Ok(place as u32)
        }
    }
}

impl Types {
    /// An empty table.
    pub fn new(alloc: Global) -> Types
        ensures { result ≡ record { types = []; origins = []; units = [] } }
    {
        Types {
            types: Vec::new(alloc),
            origins: Vec::new(alloc),
            layouts: Vec::new(alloc),
            units: Vec::new(alloc),
        }
    }

    /// Whether the table takes this type, if its size is no hindrance: its parts by value have smaller ids and
    /// are of the right kind, and the routines of its methods are of the unit that is its origin.
    pub fn takes(&self, origin: &Name, one: &TypeDef) -> bool
        ensures { IsTrue result ↔ IsAddable self.now origin.now one.now }
    {
        let unit = self.unit_place(origin).unwrap_or(self.units.len());
        is_defined_over(self.types.as_slice(), one) && has_methods_of(unit, one)
    }

    /// Adds a type with its origin: the unit that declares it, and a number in that unit.
    pub fn add(&mut self, origin: Name, number: u32, one: TypeDef) -> Result<TypeId, TypeError>
        requires { IsAddable self.old origin one }
        ensures ok { IfOk result (λ id. (id.0 ≡ length self.old.types) × (self.new ≡ with_type self.old origin number one)) }
        ensures err { OnErr result (self.new ≡ self.old) }

        ensures too_large { (bytes : ℕ) → (result ≡ Err (TypeError.TooLarge bytes))
            ↔ ((TYPE_LIMIT < size_over self.old.types one) × (bytes ≡ min (size_over self.old.types one) u64.MAX)) }
    {
        let size = size_over(self.types.as_slice(), self.layouts.as_slice(), &one);
        if size > u64::from(TYPE_LIMIT) {
            return Err(TypeError::TooLarge { bytes: size });
        }
        let place = self.types.len();
        if place >= MOST {
            return Err(TypeError::NoMemory);
        }
        let layout = layout_over(
            self.types.as_slice(),
            self.layouts.as_slice(),
            &one,
            size as u32,
        );
        self.types.reserve(1)?;
        self.origins.reserve(1)?;
        self.layouts.reserve(1)?;
        let unit = find_or_add(&mut self.units, origin)?;
        push_within(&mut self.types, one);
        push_within(&mut self.origins, Origin { unit, number });
        push_within(&mut self.layouts, layout);
        Ok(TypeId(place as u32))
    }

    /// The number of types.
    pub fn count(&self) -> u32
        ensures value { result ≡ length self.now.types }
        ensures well_formed { IsWellFormed self.now }
        ensures measured { IsMeasured self.now.types }
    {
        self.types.len() as u32
    }

    /// The type with this id.
    pub fn get(&self, id: TypeId) -> &TypeDef
        requires { id.0 < length self.now.types }
        ensures { slice_get self.now.types id.0 ≡ Some result.now }
    {
        &self.types[id.0 as usize]
    }

    // The type with this id, and how its fields lie in it.
    pub(crate) fn get_laid(&self, id: TypeId) -> &TypeDef
        requires { id.0 < length self.now.types }
        ensures is { slice_get self.now.types id.0 ≡ Some result.now }
        ensures fields { HasFieldsOf self.now.types id result.now }
    {
        &self.types[id.0 as usize]
    }

    /// The origin of the type with this id: the place of its unit in `units`, and its number there.
    pub fn origin(&self, id: TypeId) -> (u32, u32)
        requires { id.0 < length self.now.types }
        ensures { slice_get self.now.origins id.0 ≡ Some (record { unit = result.0; number = result.1 }) }
    {
        let origin = self.origins[id.0 as usize];
        (origin.unit, origin.number)
    }

    /// The units of the origins, in order of their first use.
    pub fn units(&self) -> &[Name]
        ensures { result.now ≡ self.now.units }
    {
        self.units.as_slice()
    }

    /// The place of a unit among the units of the origins.
    pub fn unit_place(&self, unit: &Name) -> Option<usize>
        ensures { result ≡ position (same_bytes unit.now) self.now.units }
    {
        place_among(self.units.as_slice(), unit)
    }

    /// The sizes and class fields of the types.
    pub(crate) fn layouts(&self) -> &[Layout]
        ensures value { result.now ≡ layouts_of self.now.types }
        ensures count { length result.now ≡ length self.now.types }
        ensures fits { All (λ layout. layout.size ≤ TYPE_LIMIT) result.now }
    {
        self.layouts.as_slice()
    }
}
