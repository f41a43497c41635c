//! Types with the tables that they stand in, and places with their types.

ghost use Rattle.std.specs.Prelude.{◌≡◌, ◌∷◌, [], slice_get, IfOk};
ghost use Rattle.std.specs.Option.{option_copied};
ghost use Rattle.type_layout.specs.Layouts.{bounds_of, bounds_at};
ghost use Rattle.tp_meaning.specs.Programs.{definition};
ghost use Rattle.interpreter_store.specs.typed_cells.Sorts.{view_sort, view_reached};

use crate::cell_store::Spot;
use std::alloc::{AllocError, Global};
use type_layout::{TypeDef, TypeId, Types};

/// A type and the table that it stands in.
#[derive(Clone, Copy)]
pub enum Sort<'a> {
    /// The only type of a table of its own.
    Alone(&'a TypeDef),
    Of { types: &'a Types, ty: TypeId },
}

/// A place, with the type that it has.
#[derive(Drop)]
pub struct Reached<'a> {
    pub spot: Spot,
    pub sort: Sort<'a>,
}

impl<'a> Reached<'a> {
    /// A copy.
    pub fn copied(&self, alloc: Global) -> Result<Reached<'a>, AllocError>
        ensures { IfOk result (λ copy. view_reached copy ≡ view_reached self.now) }
    {
        Ok(Reached {
            spot: self.spot.copied(alloc)?,
            sort: self.sort,
        })
    }
}

/// The type with an id, if the table has it.
pub(crate) fn type_at(types: &Types, ty: TypeId) -> Option<&TypeDef>
    ensures { option_copied result ≡ slice_get types.now.types ty.0 }
{
    if ty.0 < types.count() {
        Some(types.get(ty))
    } else {
        None
    }
}

/// The bounds of a type, (0, 0) of one that is no ordinal.
pub(crate) fn bounds_of(one: Option<&TypeDef>) -> (i32, i32)
    ensures { result ≡ bounds_of (option_copied one.entry) }
{
    match one {
        Some(TypeDef::Ordinal { low, high, .. }) => (*low, *high),
        _ => (0, 0),
    }
}

fn alone(one: &TypeDef, ty: TypeId) -> Option<&TypeDef>
    ensures { option_copied result ≡ slice_get (one.now ∷ []) ty.0 }
{
    if ty.0 == 0 { Some(one) } else { None }
}

impl<'a> Sort<'a> {
    /// A type of the same table.
    pub fn type_at(&self, ty: TypeId) -> Option<&'a TypeDef>
        ensures { option_copied result ≡ slice_get (view_sort self.now).table.types ty.0 }
    {
        match self {
            Sort::Alone(one) => alone(one, ty),
            Sort::Of { types, .. } => type_at(types, ty),
        }
    }

    /// The type itself, if its table has it.
    pub fn definition(&self) -> Option<&'a TypeDef>
        ensures { option_copied result ≡ definition (view_sort self.now) }
    {
        match self {
            Sort::Alone(one) => Some(one),
            Sort::Of { types, ty } => type_at(types, *ty),
        }
    }

    /// The bounds of a type of the same table.
    pub fn bounds_at(&self, ty: TypeId) -> (i32, i32)
        ensures { result ≡ bounds_at (view_sort self.now).table.types ty }
    {
        bounds_of(self.type_at(ty))
    }
}
