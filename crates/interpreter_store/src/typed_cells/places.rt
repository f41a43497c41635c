//! What places hold, and what is put there.

ghost use Rattle.std.specs.Prelude.{◌≡◌, IfOk};
ghost use Rattle.std.specs.Option.{option_map, option_copied};
ghost use Rattle.tp_meaning.specs.Trees.{At};
ghost use Rattle.tp_meaning.specs.Store.{value_at};
ghost use Rattle.tp_meaning.specs.Activations.{inside, loaded_as, loaded, length_as, length_held, held_routine, number_in, assigned, copied, class_spot, class_at, with_class};
ghost use Rattle.interpreter_store.specs.cell_store.Views.{view_key, view_spot, view_value, view_store};
ghost use Rattle.interpreter_store.specs.cell_store.Finding.{Finds, Gets};
ghost use Rattle.interpreter_store.specs.typed_cells.Sorts.{view_reached};

use crate::cell_store::{Key, Spot, Stop, Store, Trap, Tree, Value};
use crate::typed_cells::assignment::{assigned_over, copied_over};
use crate::typed_cells::parts::{class_place, parts_of_type};
use crate::typed_cells::sorts::{Reached, Sort};
use std::alloc::{AllocError, Global};
use type_layout::{Bytes, TypeDef};

fn at_place(alloc: Global, spot: &Spot) -> Result<Value, AllocError>
    ensures { IfOk result (λ value. view_value value ≡ At (view_spot spot.now)) }
{
    Ok(Value::At(spot.copied(alloc)?))
}

fn cell(alloc: Global, spot: &Spot, store: &Store) -> Result<Value, Stop>
    ensures { Gets view_value result (value_at (view_store store.now) (view_spot spot.now)) }
{
    Ok(store.value_at(spot)?.copied(alloc)?)
}

/// What a place of a type holds; of a record, an array or an object the place itself.
pub fn loaded_as(
    alloc: Global,
    one: Option<&TypeDef>,
    spot: &Spot,
    store: &Store,
) -> Result<Value, Stop>
    ensures { Gets view_value result (loaded_as (option_copied one.entry) (view_spot spot.now) (view_store store.now)) }
{
    let Some(one) = one else {
        return Err(Stop::Trapped(Trap::IllTyped));
    };
    match one {
        TypeDef::Str { .. } => Ok(Value::Text(Bytes::from_vec(store.text_at(alloc, spot)?))),
        TypeDef::ArrayOf { .. } | TypeDef::RecordOf { .. } | TypeDef::ObjectOf { .. } => {
            Ok(at_place(alloc, spot)?)
        }
        TypeDef::Ordinal { .. }
        | TypeDef::SetOf { .. }
        | TypeDef::PointerTo { .. }
        | TypeDef::Procedural { .. } => cell(alloc, spot, store),
    }
}

// The length of what a string variable holds.
fn length_as(one: Option<&TypeDef>, spot: &Spot, store: &Store) -> Result<u8, Stop>
    ensures { Gets (λ count. count) result (length_as (option_copied one.entry) (view_spot spot.now) (view_store store.now)) }
{
    match one {
        Some(TypeDef::Str { .. }) => store.length_at(spot),
        _ => Err(Stop::Trapped(Trap::IllTyped)),
    }
}

// Where the class of an instance lies. An object type in a table of its own, which no program has, is answered as out of memory.
fn class_spot(alloc: Global, at: &Reached) -> Result<Spot, Stop>
    ensures { Gets view_spot result (class_spot (view_reached at.now)) }
{
    let Sort::Of { types, ty } = at.sort else {
        return Err(Stop::OutOfMemory);
    };
    let parts = parts_of_type(alloc, types, ty)?;
    let Some(place) = class_place(parts.as_slice()) else {
        return Err(Stop::Trapped(Trap::IllTyped));
    };
    Ok(inside(alloc, &at.spot, place)?)
}

/// The place of a part of another place. A part whose number passes 32 bits is answered as out of memory.
pub fn inside(alloc: Global, spot: &Spot, place: usize) -> Result<Spot, AllocError>
    ensures { IfOk result (λ found. view_spot found ≡ inside (view_spot spot.now) place) }
{
    match u32::try_from(place) {
        Ok(place) => spot.inside(alloc, place),
        Err(_) => Err(AllocError),
    }
}

fn class_copied(class: &Option<Key>) -> Option<Key>
    ensures { option_map view_key result ≡ option_map view_key class.now }
{
    match class {
        None => None,
        Some(class) => Some(class.copied()),
    }
}

impl Reached<'_> {
    /// What it holds; of a record, an array or an object the place itself.
    pub fn loaded(&self, alloc: Global, store: &Store) -> Result<Value, Stop>
        ensures { Gets view_value result (loaded (view_reached self.now) (view_store store.now)) }
    {
        loaded_as(alloc, self.sort.definition(), &self.spot, store)
    }

    /// The length of what a string variable holds, of which the bytes need not be set.
    pub fn length(&self, store: &Store) -> Result<Value, Stop>
        ensures { Gets view_value result (length_held (view_reached self.now) (view_store store.now)) }
    {
        let count = length_as(self.sort.definition(), &self.spot, store)?;
        Ok(Value::Ordinal(i32::from(count)))
    }

    /// The routine that a procedural variable holds.
    pub fn held_routine(&self, store: &Store) -> Result<Key, Trap>
        ensures { Finds view_key result (held_routine (view_reached self.now) (view_store store.now)) }
    {
        let routine = store.value_at(&self.spot)?.routine()?;
        Ok(routine.copied())
    }

    /// The number that an ordinal variable holds.
    pub fn number(&self, store: &Store) -> Result<i32, Trap>
        ensures { Finds (λ z. z) result (number_in (view_reached self.now) (view_store store.now)) }
    {
        store.value_at(&self.spot)?.number()
    }

    /// Assigns a value.
    pub fn assign(&self, alloc: Global, value: &Value, store: &mut Store) -> Result<(), Stop>
        ensures { Gets (λ _. view_store store.new) result (assigned (view_reached self.now) (view_value value.now) (view_store store.old)) }
    {
        let old = store.tree_at(&self.spot)?;
        let tree = assigned_over(alloc, &self.sort, old, value)?;
        store.replace(&self.spot, tree)?;
        Ok(())
    }

    /// Copies a record, an array or an object from another place.
    pub fn copy(&self, alloc: Global, from: &Spot, store: &mut Store) -> Result<(), Stop>
        ensures { Gets (λ _. view_store store.new) result (copied (view_reached self.now) (view_spot from.now) (view_store store.old)) }
    {
        let old = store.tree_at(&self.spot)?;
        let new = store.tree_at(from)?;
        let tree = copied_over(alloc, &self.sort, old, new)?;
        store.replace(&self.spot, tree)?;
        Ok(())
    }

    /// The class of an instance, if it has one.
    pub fn class(&self, alloc: Global, store: &Store) -> Result<Option<Key>, Stop>
        ensures { Gets (λ class. option_map view_key class) result (class_at (view_reached self.now) (view_store store.now)) }
    {
        let spot = class_spot(alloc, self)?;
        let class = store.value_at(&spot)?.class()?;
        Ok(class_copied(class))
    }

    /// Gives an instance a class.
    pub fn set_class(&self, alloc: Global, class: Key, store: &mut Store) -> Result<(), Stop>
        ensures { Gets (λ _. view_store store.new) result (with_class (view_reached self.now) (view_key class) (view_store store.old)) }
    {
        let spot = class_spot(alloc, self)?;
        store.replace(&spot, Tree::Leaf(Some(Value::Class(Some(class)))))?;
        Ok(())
    }
}
