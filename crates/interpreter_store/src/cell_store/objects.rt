//! Objects: globals, variables of live activations, and blocks of the heap.

ghost use Rattle.std.specs.Prelude.{◌≡◌, ◌+◌, ◌≤◌, ◌∷◌, [], map, length, slice_get, OnOk, OnErr};
ghost use Rattle.std.specs.Option.{option_map, option_copied, option_flatten};
ghost use Rattle.tp_meaning.specs.Store.{next_serial, object_at, with_new, without, tree_at, value_at, text_at, length_at, followed, replaced, disposed};
ghost use Rattle.tp_meaning.specs.Activations.{variable_object};
ghost use Rattle.interpreter_store.specs.cell_store.Views.{view_spot, view_value, view_tree, view_object, view_slot, view_store};
ghost use Rattle.interpreter_store.specs.cell_store.Finding.{Finds, Gets};
ghost use Rattle.interpreter_store.specs.cell_store.Parts.{exchanged_in, rows_with, block_made, freed};

use crate::cell_store::cells::Tree;
use crate::cell_store::contents::{Spot, Value};
use crate::cell_store::traps::{Stop, Trap};
use common_values::blocks::{AddError, Blocks};
use std::alloc::{AllocError, Global};

/// What an object holds, and for a block the bytes by which it was made.
#[derive(Debug, Drop)]
pub struct Object {
    pub tree: Tree,
    pub bytes: u16,
}

/// The objects by their serial numbers, `None` once they are gone, and the heap's blocks. Serial numbers are not used again.
#[derive(Drop)]
pub struct Store {
    pub objects: Vec<Option<Object>>,
    pub blocks: Blocks,
}

impl Store {
    /// A store of nothing.
    pub fn new(alloc: Global) -> Store
        ensures { view_store result ≡ record { objects = []; rows = [] } }
    {
        Store {
            objects: Vec::new(alloc),
            blocks: Blocks::new(alloc),
        }
    }

    /// The serial number of the next object.
    pub fn next_serial(&self) -> usize
        ensures { result ≡ next_serial (view_store self.now) }
    {
        self.objects.len()
    }

    /// The object with a serial number, while it is there.
    pub fn object(&self, serial: usize) -> Option<&Object>
        ensures { option_map view_object (option_copied result) ≡ object_at (view_store self.now) serial }
    {
        object_in(self.objects.as_slice(), serial)
    }

    /// What a place holds. An object that is gone is an undefined act.
    pub fn tree_at(&self, spot: &Spot) -> Result<&Tree, Trap>
        ensures { Finds (λ tree. view_tree tree.now) result (tree_at (view_store self.now) (view_spot spot.now)) }
    {
        match self.object(spot.object) {
            None => Err(Trap::Act(2)),
            Some(object) => object
                .tree
                .part_at(spot.path.as_slice())
                .ok_or(Trap::IllTyped),
        }
    }

    /// The value of a cell, which must be set.
    pub fn value_at(&self, spot: &Spot) -> Result<&Value, Trap>
        ensures { Finds (λ value. view_value value.now) result (value_at (view_store self.now) (view_spot spot.now)) }
    {
        self.tree_at(spot)?.value()
    }

    /// The text of a string's cells.
    pub fn text_at(&self, alloc: Global, spot: &Spot) -> Result<Vec<u8>, Stop>
        ensures { Gets (λ text. text.items) result (text_at (view_store self.now) (view_spot spot.now)) }
    {
        self.tree_at(spot)?.text(alloc)
    }

    /// The length of a string's cells.
    pub fn length_at(&self, spot: &Spot) -> Result<u8, Stop>
        ensures { Gets (λ count. count) result (length_at (view_store self.now) (view_spot spot.now)) }
    {
        self.tree_at(spot)?.length()
    }

    /// The serial number of the block to which a pointer leads; nil leads nowhere, and so does a pointer to a block that is
    /// gone.
    pub fn followed(&self, pointer: &Value) -> Result<usize, Trap>
        ensures { Finds (λ serial. serial) result (followed (view_store self.now) (view_value pointer.now)) }
    {
        match pointer {
            Value::Nil => Err(Trap::Act(2)),
            Value::Block(serial) => match self.object(*serial) {
                None => Err(Trap::Act(2)),
                Some(_) => Ok(*serial),
            },
            _ => Err(Trap::IllTyped),
        }
    }

    /// Puts another tree to a place. After a trap the store is unchanged.
    pub fn replace(&mut self, spot: &Spot, tree: Tree) -> Result<(), Trap>
        ensures { Finds (λ _. view_store self.new) result (replaced (view_store self.old) (view_spot spot.now) (view_tree tree)) }
    {
        let serial = spot.object;
        if serial < self.objects.len() {
            exchange_in(&mut self.objects[serial], spot.path.as_slice(), tree)
        } else {
            Err(Trap::Act(2))
        }
    }

    /// Makes a variable, which has the next serial number.
    pub fn push(&mut self, tree: Tree) -> Result<(), AllocError>
        ensures ok { OnOk result (view_store self.new ≡ with_new (view_store self.old) (variable_object (view_tree tree) ∷ [])) }
        ensures err { OnErr result (view_store self.new ≡ view_store self.old) }
    {
        match self.objects.push(Some(Object { tree, bytes: 0 })) {
            Ok(()) => Ok(()),
            Err(_) => Err(AllocError),
        }
    }

    /// Lets so many variables be gone, from a serial number on.
    pub fn drop_variables(&mut self, first: usize, count: usize)
        requires { first + count ≤ length self.old.objects.items }
        ensures { view_store self.new ≡ without (view_store self.old) first count }
    {
        'variables: for serial in first..first + count {
            self.objects[serial] = None;
        }
    }

    /// Makes a block of so many bytes, which has the next serial number, in a heap of so many bytes. Error 203 comes where
    /// the sum of the blocks would pass the heap.
    pub fn make(&mut self, tree: Tree, bytes: u16, heap: u32) -> Result<(), Stop>
        ensures { Gets (λ _. view_store self.new) result (block_made (view_tree tree) bytes heap (view_store self.old)) }
    {
        add_block(&mut self.blocks, bytes, heap)?;
        self.objects.push(Some(Object { tree, bytes }))?;
        Ok(())
    }

    /// Disposes of a block by a size, which must be that by which it was made. After a trap the store is unchanged.
    pub fn dispose(&mut self, serial: usize, bytes: u16) -> Result<(), Trap>
        ensures { Finds (λ _. view_store self.new) result (disposed (view_store self.old) serial bytes) }
    {
        if serial < self.objects.len() {
            free(&mut self.objects[serial], bytes)?;
            self.blocks.remove(bytes);
            Ok(())
        } else {
            Err(Trap::Act(2))
        }
    }
}

fn add_block(blocks: &mut Blocks, bytes: u16, heap: u32) -> Result<(), Stop>
    ensures { Gets (λ _. blocks.new) result (rows_with bytes heap blocks.old) }
{
    match blocks.add(bytes, heap) {
        Ok(()) => Ok(()),
        Err(AddError::HeapFull) => Err(Stop::Trapped(Trap::Error(203))),
        Err(AddError::NoMemory) => Err(Stop::OutOfMemory),
    }
}

// Lets a block be gone, if it was made by so many bytes.
fn free(slot: &mut Option<Object>, bytes: u16) -> Result<(), Trap>
    ensures { Finds (λ _. view_slot slot.new) result (freed (view_slot slot.old) bytes) }
{
    match slot.take() {
        None => Err(Trap::Act(2)),
        Some(object) => {
            if object.bytes == bytes {
                Ok(())
            } else {
                *slot = Some(object);
                Err(Trap::Act(5))
            }
        }
    }
}

fn object_in(slots: &[Option<Object>], serial: usize) -> Option<&Object>
    ensures { option_map view_object (option_copied result) ≡ option_flatten (slice_get (map view_slot slots.now) serial) }
{
    if serial < slots.len() {
        slots[serial].as_ref()
    } else {
        None
    }
}

fn exchange_in(slot: &mut Option<Object>, path: &[u32], tree: Tree) -> Result<(), Trap>
    ensures { Finds (λ _. view_slot slot.new) result (exchanged_in (view_slot slot.old) path.now (view_tree tree)) }
{
    match slot.take() {
        None => Err(Trap::Act(2)),
        Some(mut object) => {
            let done = object.tree.exchange(path, tree);
            *slot = Some(object);
            done
        }
    }
}
