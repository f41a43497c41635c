//! What a variable holds once something is assigned or copied to it.

ghost use Rattle.std.specs.Prelude.{◌≡◌, ◌++◌, ◌∷◌, map, IfOk, OnOk, unsigned_abs};
ghost use Rattle.tp_meaning.specs.Store.{set_over, assigned_over, fields_over, copied_over};
ghost use Rattle.tp_meaning.specs.Trees.{Fork};
ghost use Rattle.tp_meaning.specs.Shapes.{parts_at};
ghost use Rattle.tp_meaning.specs.Programs.{definition};
ghost use Rattle.interpreter_store.specs.cell_store.Views.{view_value, view_tree, view_parts};
ghost use Rattle.interpreter_store.specs.cell_store.Finding.{Finds, Gets};
ghost use Rattle.interpreter_store.specs.typed_cells.Parts.{view_part};
ghost use Rattle.interpreter_store.specs.typed_cells.Sorts.{view_sort};
ghost use Rattle.interpreter_store.specs.typed_cells.Copies.{onto, kept, pointer_cell};

use crate::cell_store::{Stop, Trap, Tree, Value};
use crate::typed_cells::parts::{Part, parts_of_type};
use crate::typed_cells::sorts::Sort;
use crate::typed_cells::trees::of_parts;
use common_values::sets::assigned;
use std::alloc::{AllocError, Global};
use type_layout::{Bytes, TypeDef};

// The size of a bound of a set, which no set type has above 255: such a one is answered as out of memory.
fn set_bound(bound: i32) -> Result<u8, AllocError>
    ensures { IfOk result (λ size. size ≡ unsigned_abs bound) }
{
    match u8::try_from(bound.unsigned_abs()) {
        Ok(size) => Ok(size),
        Err(_) => Err(AllocError),
    }
}

// The elements that have a byte in a set type of these bounds.
fn set_over(alloc: Global, bounds: (i32, i32), value: &Value) -> Result<Tree, Stop>
    ensures { Gets view_tree result (set_over bounds (view_value value.now)) }
{
    match value {
        Value::Elements(set) => {
            let low = set_bound(bounds.0)?;
            let high = set_bound(bounds.1)?;
            let kept = assigned(alloc, low, high, set.as_slice())?;
            Ok(Tree::Leaf(Some(Value::Elements(Bytes::from_vec(kept)))))
        }
        _ => Err(Stop::Trapped(Trap::IllTyped)),
    }
}

// A pointer, which alone a pointer variable takes.
fn pointer_over(value: &Value) -> Result<Tree, Trap>
    ensures { Finds view_tree result (pointer_cell (view_value value.now)) }
{
    match value {
        Value::Nil => Ok(Tree::Leaf(Some(Value::Nil))),
        Value::Block(serial) => Ok(Tree::Leaf(Some(Value::Block(*serial)))),
        _ => Err(Trap::IllTyped),
    }
}

/// What a variable of a type holds once a value is assigned to it: a string is cut, and a set keeps the elements that have
/// a byte there.
pub fn assigned_over(alloc: Global, sort: &Sort, old: &Tree, value: &Value) -> Result<Tree, Stop>
    ensures { let sort = view_sort sort.now in Gets view_tree result (assigned_over sort.table.types (definition sort) (view_tree old.now) (view_value value.now)) }
{
    let Some(one) = sort.definition() else {
        return Err(Stop::Trapped(Trap::IllTyped));
    };
    match one {
        TypeDef::Ordinal { .. } => Ok(Tree::number(value.number()?)),
        TypeDef::Str { .. } => old.with_text(alloc, value.text()?),
        TypeDef::SetOf { base } => set_over(alloc, sort.bounds_at(*base), value),
        TypeDef::PointerTo { .. } => Ok(pointer_over(value)?),
        TypeDef::Procedural { .. } => {
            let routine = value.routine()?;
            Ok(Tree::Leaf(Some(Value::Code(routine.copied()))))
        }
        TypeDef::ArrayOf { .. } | TypeDef::RecordOf { .. } | TypeDef::ObjectOf { .. } => {
            Err(Stop::Trapped(Trap::IllTyped))
        }
    }
}

fn append_copies(alloc: Global, parts: &[Tree], to: &mut Vec<Tree>) -> Result<(), AllocError>
    ensures { OnOk result (map view_tree to.new.items ≡ map view_tree to.old.items ++ map view_tree parts.now) }
{
    'parts: for part in parts {
        to.push(part.copied(alloc)?)?;
    }
    Ok(())
}

// Of a field what the other object holds, and its own class.
fn kept<'t>(part: Part, old: &'t Tree, new: &'t Tree) -> &'t Tree
    ensures { view_tree result.now ≡ kept (view_part part) (view_tree old.now) (view_tree new.now) }
{
    match part {
        Part::Field(_) => new,
        Part::Class => old,
    }
}

// The fields of an object that another one has too, and its own class.
#[cycle(over)]
fn append_over(
    alloc: Global,
    parts: &[Part],
    olds: &[Tree],
    news: &[Tree],
    to: &mut Vec<Tree>,
) -> Result<(), AllocError>
    ensures { OnOk result (view_parts to.new.items ≡ onto (map view_tree to.old.items) (fields_over (map view_part parts.now) (view_parts olds.now) (view_parts news.now))) }
{
    match parts {
        [] => append_copies(alloc, olds, to),
        [part, rest @ ..] => append_part(alloc, *part, rest, olds, news, to),
    }
}

#[cycle(over)]
fn append_part(
    alloc: Global,
    part: Part,
    parts: &[Part],
    olds: &[Tree],
    news: &[Tree],
    to: &mut Vec<Tree>,
) -> Result<(), AllocError>
    ensures { OnOk result (view_parts to.new.items ≡ onto (map view_tree to.old.items) (fields_over (view_part part ∷ map view_part parts.now) (view_parts olds.now) (view_parts news.now))) }
{
    match olds {
        [] => append_copies(alloc, olds, to),
        [old, rest @ ..] => match news {
            [] => append_copies(alloc, olds, to),
            [new, behind @ ..] => append_kept(alloc, part, parts, old, rest, new, behind, to),
        },
    }
}

#[cycle(over)]
fn append_kept(
    alloc: Global,
    part: Part,
    parts: &[Part],
    old: &Tree,
    olds: &[Tree],
    new: &Tree,
    news: &[Tree],
    to: &mut Vec<Tree>,
) -> Result<(), AllocError>
    ensures { OnOk result (view_parts to.new.items ≡ onto (map view_tree to.old.items) (fields_over (view_part part ∷ map view_part parts.now) (Fork (view_tree old.now) (view_parts olds.now)) (Fork (view_tree new.now) (view_parts news.now)))) }
{
    let copy = kept(part, old, new).copied(alloc)?;
    to.push(copy)?;
    append_over(alloc, parts, olds, news, to)
}

// A tree of copies of parts.
fn copied_parts(alloc: Global, parts: &[Tree]) -> Result<Tree, AllocError>
    ensures { IfOk result (λ tree. view_tree tree ≡ view_parts parts.now) }
{
    let mut copies = Vec::new(alloc);
    append_copies(alloc, parts, &mut copies)?;
    Ok(of_parts(copies))
}

fn slices_over(
    alloc: Global,
    parts: &[Part],
    olds: &[Tree],
    news: &[Tree],
) -> Result<Tree, AllocError>
    ensures { IfOk result (λ tree. view_tree tree ≡ fields_over (map view_part parts.now) (view_parts olds.now) (view_parts news.now)) }
{
    let mut over = Vec::new(alloc);
    append_over(alloc, parts, olds, news, &mut over)?;
    Ok(of_parts(over))
}

fn parts_over(alloc: Global, parts: &[Part], olds: &[Tree], new: &Tree) -> Result<Tree, AllocError>
    ensures { IfOk result (λ tree. view_tree tree ≡ fields_over (map view_part parts.now) (view_parts olds.now) (view_tree new.now)) }
{
    match new {
        Tree::Leaf(_) => copied_parts(alloc, olds),
        Tree::Parts(news) => slices_over(alloc, parts, olds, news.as_slice()),
    }
}

// The fields of an object, which keeps its class.
#[tactic(auto, using(crate::proofs::typed_cells::Rows::over_leaf))]
fn fields_over(alloc: Global, parts: &[Part], old: &Tree, new: &Tree) -> Result<Tree, AllocError>
    ensures { IfOk result (λ tree. view_tree tree ≡ fields_over (map view_part parts.now) (view_tree old.now) (view_tree new.now)) }
{
    match old {
        Tree::Leaf(_) => old.copied(alloc),
        Tree::Parts(olds) => parts_over(alloc, parts, olds.as_slice(), new),
    }
}

// The fields of an object of a type, which keeps its class. An object type in a table of its own, which no program has, is answered as out of
// memory.
fn object_over(alloc: Global, sort: &Sort, old: &Tree, new: &Tree) -> Result<Tree, AllocError>
    ensures { let sort = view_sort sort.now in IfOk result (λ tree. view_tree tree ≡ fields_over (parts_at sort.table.types sort.ty) (view_tree old.now) (view_tree new.now)) }
{
    match sort {
        Sort::Alone(_) => Err(AllocError),
        Sort::Of { types, ty } => {
            let parts = parts_of_type(alloc, types, *ty)?;
            fields_over(alloc, parts.as_slice(), old, new)
        }
    }
}

/// What a record, an array or an object holds once another one is copied to it: of an object the fields that the type has.
pub fn copied_over(alloc: Global, sort: &Sort, old: &Tree, new: &Tree) -> Result<Tree, Stop>
    ensures { let sort = view_sort sort.now in Gets view_tree result (copied_over sort.table.types sort.ty (definition sort) (view_tree old.now) (view_tree new.now)) }
{
    let Some(one) = sort.definition() else {
        return Err(Stop::Trapped(Trap::IllTyped));
    };
    match one {
        TypeDef::ArrayOf { .. } | TypeDef::RecordOf { .. } => Ok(new.copied(alloc)?),
        TypeDef::ObjectOf { .. } => Ok(object_over(alloc, sort, old, new)?),
        TypeDef::Ordinal { .. }
        | TypeDef::Str { .. }
        | TypeDef::SetOf { .. }
        | TypeDef::PointerTo { .. }
        | TypeDef::Procedural { .. } => Err(Stop::Trapped(Trap::IllTyped)),
    }
}
