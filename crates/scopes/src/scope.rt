//! Scopes.

ghost use Rattle.std.specs.Prelude.{◌≡◌, ◌↔◌, ◌<◌, ℕ, IsTrue, min, Some, Err, not, cond, IfOk, IfSome, OnOk, OnErr, length, position, ◌^◌, option_map, option_copied};
ghost use Rattle.type_layout.specs.Words.{same_bytes};
ghost use Rattle.type_layout.specs.Table.{IsAddable, place_of, with_unit, with_type};
ghost use Rattle.type_layout.specs.Layouts.{size_over};
ghost use Rattle.scopes.specs.Environment.{shown, find, has_innermost, with_used, with_name, with_block, without_block, block_count, kind_of, own_symbols, found_in};
ghost use Rattle.scopes.specs.Predeclared.{first};

use crate::copies::{Tables, copied_blocks, copied_names, copied_tables, copied_types};
use crate::predeclared::{predeclared_names, type_table};
use crate::searches::{OpenBlock, in_blocks, in_symbols, in_units};
use crate::{BlockKind, Entry, Found, Symbols};
use std::alloc::{AllocError, Global};
use std::marker::Model;
use type_layout::{Name, Names, TYPE_LIMIT, TypeDef, TypeError, TypeId, Types};

// How many blocks and how many units a scope has at most, so that their numbers are numbers of 32 bits.
const MOST: usize = 0xffff_ffff;

/// A table of types, the names of units with the unit itself first, and the names that are known: those that are
/// predeclared, those of the used units, and those of the open blocks.
#[derive(Drop)]
pub struct Scope {
    types: Types,
    units: Names,
    predeclared: Symbols,
    used: Tables,
    seen: u32,
    blocks: Vec<OpenBlock>,
}

impl Model for Scope {
    ghost use Rattle.scopes.specs.Environment.{Environment, IsKept};

    ghost Value = { Environment };

    ghost view = { λ s. record { types = s.types; units = s.units; predeclared = s.predeclared; used = s.used; seen = s.seen; blocks = s.blocks.items } };

    ghost invariant = { λ s. IsKept (record { types = s.types; units = s.units; predeclared = s.predeclared; used = s.used; seen = s.seen; blocks = s.blocks.items }) };
}

// The place of a unit among the units.
fn place_of(units: &Names, unit: &Name) -> Option<usize>
    ensures value { result ≡ position (same_bytes unit.now) units.now }
    ensures within { IfSome result (λ place. place < length units.now) }
{
    units.as_slice().iter().position(|known| *unit == *known)
}

// The place of a unit among the units, to which it is added where it is new.
fn find_or_add(units: &mut Names, unit: Name) -> Result<u32, AllocError>
    requires { length units.old < 2 ^ 32 }
    ensures ok { IfOk result (λ place. (place ≡ place_of units.old unit) × (units.new ≡ with_unit units.old unit)) }
    ensures few { length units.new < 2 ^ 32 }
    ensures err { OnErr result (units.new ≡ units.old) }
{
    match place_of(units, &unit) {
        Some(place) => Ok(place as u32),
        None => {
            let place = units.len();
            if place >= MOST {
                return Err(AllocError);
            }
            units.push(unit)?;
            Ok(place as u32)
        }
    }
}

impl Scope {
    /// The scope of a unit or program with this name: the predeclared names, no used unit and no open block.
    pub fn new(alloc: Global, name: Name) -> Result<Scope, AllocError>
        ensures { IfOk result (λ scope. scope ≡ first name) }
    {
        let types = type_table(alloc)?;
        let mut units = Names::new(alloc);
        units.push(name)?;
        Ok(Scope {
            types,
            units,
            predeclared: predeclared_names(alloc)?,
            used: Tables::new(alloc),
            seen: 0,
            blocks: Vec::new(alloc),
        })
    }

    /// Adds a used unit with its names behind those that are there. All used units are seen then.
    pub fn add_use(&mut self, names: Symbols) -> Result<(), AllocError>
        ensures ok { OnOk result (self.new ≡ with_used self.old names) }
        ensures err { OnErr result (self.new ≡ self.old) }
    {
        if self.used.len() + self.blocks.len() >= MOST - 1 {
            return Err(AllocError);
        }
        self.used.push(names)?;
        self.seen = self.used.len() as u32;
        Ok(())
    }

    /// Opens a block inside those that are open.
    pub fn begin(&mut self, block: BlockKind) -> Result<(), AllocError>
        ensures ok { OnOk result (self.new ≡ with_block self.old block) }
        ensures err { OnErr result (self.new ≡ self.old) }
    {
        if self.used.len() + self.blocks.len() >= MOST - 1 {
            return Err(AllocError);
        }
        self.blocks.reserve(1)?;
        let symbols = Symbols::new(*self.blocks.allocator());
        self.blocks.push_reserved(OpenBlock {
            kind: block,
            symbols,
        });
        Ok(())
    }

    /// Whether a block is open.
    pub fn is_open(&self) -> bool
        ensures { IsTrue result ↔ (0 < length self.now.blocks) }
    {
        !self.blocks.is_empty()
    }

    /// Closes the innermost block.
    pub fn end(&mut self)
        requires { 0 < length self.old.blocks }
        ensures { self.new ≡ without_block self.old }
    {
        let _block = self.blocks.pop();
    }

    /// Puts a name into the innermost block. Answers false, and changes nothing, where that block has the name.
    pub fn enter(&mut self, name: Name, entry: Entry) -> Result<bool, AllocError>
        requires { 0 < length self.old.blocks }
        ensures is_new { IfOk result (λ is_new. is_new ≡ not (has_innermost self.old name)) }
        ensures entered { IfOk result (λ is_new. self.new ≡ cond is_new (with_name self.old name entry) self.old) }
        ensures err { OnErr result (self.new ≡ self.old) }
    {
        match self.blocks.pop() {
            Some(mut block) => {
                let entered = block.symbols.enter(name, entry);
                self.blocks.push_reserved(block);
                entered
            }
            None => unreachable!(),
        }
    }

    /// What a name means here. The open blocks are searched from the innermost, in a method and in a `with` with the
    /// members of the object or record behind the block's own names; then the used units that are seen, from the last
    /// to the first; then the predeclared names.
    pub fn find(&self, name: &Name) -> Option<Found<'_>>
        ensures { option_map shown result ≡ find self.now name.now }
    {
        let first = self.used.len() as u32 + 1;
        if let Some(found) = in_blocks(&self.types, first, self.blocks.as_slice(), name) {
            return Some(found);
        }
        let seen = self.used.len().min(self.seen as usize);
        match in_units(1, &self.used.as_slice()[..seen], name) {
            Some(found) => Some(found),
            None => in_symbols(0, &self.predeclared, name),
        }
    }

    /// Limits searches to the first `uses` used units, until the next such call.
    pub fn see(&mut self, uses: u32)
        ensures { self.new ≡ record self.old { seen = uses } }
    {
        self.seen = uses;
    }

    /// The place of a unit among the names of units, to which it is added where it is new.
    pub fn unit(&mut self, name: Name) -> Result<u32, AllocError>
        ensures ok { IfOk result (λ place. (place ≡ place_of self.old.units name) × (self.new ≡ record self.old { units = with_unit self.old.units name })) }
        ensures err { OnErr result (self.new ≡ self.old) }
    {
        find_or_add(&mut self.units, name)
    }

    /// Adds a type to the table, with the unit that declares it and its number there.
    pub fn add_type(&mut self, origin: Name, number: u32, one: TypeDef) -> Result<TypeId, TypeError>
        requires { IsAddable self.old.types origin one }
        ensures ok { IfOk result (λ id. (id.0 ≡ length self.old.types.types) × (self.new ≡ record self.old { types = with_type self.old.types origin number one })) }
        ensures err { OnErr result (self.new ≡ self.old) }

        ensures too_large { (bytes : ℕ) → (result ≡ Err (TypeError.TooLarge bytes))
            ↔ ((TYPE_LIMIT < size_over self.old.types.types one) × (bytes ≡ min (size_over self.old.types.types one) u64.MAX)) }
    {
        self.types.add(origin, number, one)
    }

    /// An equal scope.
    pub fn copy(&self, alloc: Global) -> Result<Scope, AllocError>
        ensures { IfOk result (λ copy. copy ≡ self.now) }
    {
        Ok(Scope {
            types: copied_types(alloc, &self.types)?,
            units: copied_names(alloc, self.units.as_slice())?,
            predeclared: self.predeclared.copied(alloc)?,
            used: copied_tables(alloc, self.used.as_slice())?,
            seen: self.seen,
            blocks: copied_blocks(alloc, self.blocks.as_slice())?,
        })
    }

    /// The types and the names of the units, for the unit that is made of them.
    pub fn into_parts(self) -> (Types, Names)
        ensures { result ≡ (self.types, self.units) }
    {
        (self.types, self.units)
    }

    /// The types.
    pub fn types(&self) -> &Types
        ensures { result.now ≡ self.now.types }
    {
        &self.types
    }

    /// The names of units, the unit itself first.
    pub fn units(&self) -> &[Name]
        ensures { result.now ≡ self.now.units }
    {
        self.units.as_slice()
    }

    /// The names of the innermost block, in order. Where no block is open there are none.
    pub fn own_symbols(&self) -> Option<&Symbols>
        ensures { option_copied result ≡ own_symbols self.now }
    {
        match self.blocks.as_slice().last() {
            Some(open) => Some(&open.symbols),
            None => None,
        }
    }

    /// How many blocks are counted.
    pub fn blocks(&self) -> u32
        ensures { result ≡ block_count self.now }
    {
        (self.used.len() + 1 + self.blocks.len()) as u32
    }

    /// The kind of an open block. There is none for the predeclared names and the used units.
    pub fn block(&self, block: u32) -> Option<&BlockKind>
        ensures { option_copied result ≡ kind_of self.now block }
    {
        let first = self.used.len() + 1;
        if (block as usize) < first {
            return None;
        }
        match self.blocks.as_slice().get(block as usize - first) {
            Some(open) => Some(&open.kind),
            None => None,
        }
    }

    /// What an open block itself declares under a name: no members, and nothing of the blocks round it.
    pub fn find_in(&self, block: u32, name: &Name) -> Option<&Entry>
        ensures { option_copied result ≡ found_in self.now block name.now }
    {
        let first = self.used.len() + 1;
        if (block as usize) < first {
            return None;
        }
        match self.blocks.as_slice().get(block as usize - first) {
            Some(open) => open.symbols.find(name),
            None => None,
        }
    }
}
