//! Tables of names, in order of declaration.

ghost use Rattle.std.specs.Prelude.{◌≡◌, ◌++◌, ◌∷◌, [], cond, not, false, IfOk, OnOk, OnErr, Some, option_copied, length, slice_get, ◌<◌};
ghost use Rattle.std.specs.List.{IsDistinct};
ghost use Rattle.std.specs.Map.{keys_of};
ghost use Rattle.type_layout.specs.Words.{same_bytes};
ghost use Rattle.scopes.specs.Symbols.{entry_of, has};

use crate::Entry;
use indexmap::IndexMap;
use std::alloc::{AllocError, Global};
use std::marker::Model;
use type_layout::Name;

/// Names with their entries, in order of declaration. Each name stands once.
#[derive(Drop)]
pub struct Symbols {
    map: IndexMap<Name, Entry>,
}

impl Model for Symbols {
    ghost use Rattle.std.specs.Prelude.{ℕ, List};
    ghost use Rattle.scopes.specs.declared.entries.Entry.{Entry};

    ghost Value = { List (List ℕ × Entry) };

    ghost view = { λ symbols. symbols.map.entries };
}

impl Symbols {
    /// A table without names.
    pub fn new(alloc: Global) -> Symbols
        ensures { result ≡ [] }
    {
        Symbols {
            map: IndexMap::new(alloc),
        }
    }

    /// The number of names.
    pub fn len(&self) -> usize
        ensures value { result ≡ length self.now }
        ensures once { IsDistinct same_bytes (keys_of self.now) }
    {
        self.map.len()
    }

    /// What a name means here.
    pub fn find(&self, name: &Name) -> Option<&Entry>
        ensures { option_copied result ≡ entry_of self.now name.now }
    {
        self.map.get(name)
    }

    /// Whether the name stands here.
    pub fn has(&self, name: &Name) -> bool
        ensures { result ≡ has self.now name.now }
    {
        self.map.contains_key(name)
    }

    /// Puts a name at the end. Answers false, and changes nothing, where the name stands here already.
    pub fn enter(&mut self, name: Name, entry: Entry) -> Result<bool, AllocError>
        ensures is_new { IfOk result (λ is_new. is_new ≡ not (has self.old name)) }
        ensures entered { IfOk result (λ is_new. self.new ≡ cond is_new (self.old ++ (name, entry) ∷ []) self.old) }
        ensures err { OnErr result (self.new ≡ self.old) }
    {
        if self.map.contains_key(&name) {
            return Ok(false);
        }
        match self.map.insert(name, entry) {
            Ok(_) => Ok(true),
            Err(_) => Err(AllocError),
        }
    }

    /// The name at a place, which is in order of declaration, with its entry.
    pub fn at(&self, place: usize) -> (&Name, &Entry)
        requires { place < length self.now }
        ensures { slice_get self.now place ≡ Some (result.0.now, result.1.now) }
    {
        match self.map.get_index(place) {
            Some(pair) => pair,
            None => unreachable!(),
        }
    }

    // Puts a name at the end that doesn't stand here.
    fn enter_new(&mut self, name: Name, entry: Entry) -> Result<(), AllocError>
        requires { has self.old name ≡ false }
        ensures { OnOk result (self.new ≡ self.old ++ (name, entry) ∷ []) }
    {
        let _is_new = self.enter(name, entry)?;
        Ok(())
    }

    /// A copy.
    pub fn copied(&self, alloc: Global) -> Result<Symbols, AllocError>
        ensures { IfOk result (λ copy. copy ≡ self.now) }
    {
        let mut copy = Symbols::new(alloc);
        for place in 0..self.len() {
            let (name, entry) = self.at(place);
            copy.enter_new(name.copied(), entry.copied(alloc)?)?;
        }
        Ok(copy)
    }
}
