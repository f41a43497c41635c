//! The trees of new variables.

ghost use Rattle.std.specs.Prelude.{◌≡◌, ◌≤◌, ◌++◌, map, take, length, IfOk, OnOk};
ghost use Rattle.type_layout.specs.Storage.{count_between};
ghost use Rattle.tp_meaning.specs.Trees.{many};
ghost use Rattle.tp_meaning.specs.Shapes.{part_tree, parts_tree, tree_by, trees_of, new_tree};
ghost use Rattle.interpreter_store.specs.cell_store.Views.{view_tree, view_parts};
ghost use Rattle.interpreter_store.specs.typed_cells.Parts.{view_part, tree_before};

use crate::cell_store::{Tree, Value};
use crate::typed_cells::parts::{Part, bounds_before, parts_by};
use std::alloc::{AllocError, Global};
use type_layout::{TypeDef, TypeId, Types};

/// A tree of these parts.
#[tactic(auto, using(crate::proofs::cell_store::Rows::view_of_parts))]
pub(crate) fn of_parts(parts: Vec<Tree>) -> Tree
    ensures { view_tree result ≡ view_parts parts.items }
{
    Tree::Parts(parts)
}

fn count_between(low: i32, high: i32) -> u64
    ensures { result ≡ count_between low high }
{
    u64::from(high.abs_diff(low)) + 1
}

// So many copies of a part.
fn many(alloc: Global, count: u64, part: &Tree) -> Result<Tree, AllocError>
    ensures { IfOk result (λ tree. view_tree tree ≡ many count (view_tree part.now)) }
{
    let mut parts = Vec::new(alloc);
    'parts: for _i in 0..count {
        let copy = part.copied(alloc)?;
        parts.push(copy)?;
    }
    Ok(of_parts(parts))
}

/// The tree of a new variable of a type among the first ones of a table.
#[cycle(tree)]
#[tactic(auto, using(crate::proofs::typed_cells::Before::given_within, crate::proofs::typed_cells::Before::given_past))]
fn tree_before(alloc: Global, types: &Types, before: u32, ty: TypeId) -> Result<Tree, AllocError>
    requires { before ≤ length types.now.types }
    ensures { IfOk result (λ tree. view_tree tree ≡ tree_before types.now.types before ty) }
{
    if ty.0 < before {
        tree_by(alloc, types, ty.0, types.get(ty))
    } else {
        Ok(of_parts(Vec::new(alloc)))
    }
}

#[cycle(tree)]
fn tree_by(alloc: Global, types: &Types, before: u32, one: &TypeDef) -> Result<Tree, AllocError>
    requires { before ≤ length types.now.types }
    ensures { IfOk result (λ tree. view_tree tree ≡ tree_by (take before types.now.types) (trees_of (take before types.now.types)) one.now) }
{
    match one {
        TypeDef::Ordinal { .. }
        | TypeDef::SetOf { .. }
        | TypeDef::PointerTo { .. }
        | TypeDef::Procedural { .. } => Ok(Tree::Leaf(None)),
        TypeDef::Str { max } => many(alloc, u64::from(*max) + 1, &Tree::Leaf(None)),
        TypeDef::ArrayOf { index, element } => {
            let (low, high) = bounds_before(types, before, *index);
            let part = tree_before(alloc, types, before, *element)?;
            many(alloc, count_between(low, high), &part)
        }
        TypeDef::RecordOf { .. } | TypeDef::ObjectOf { .. } => {
            let parts = parts_by(alloc, types, before, one)?;
            parts_tree(alloc, types, before, parts.as_slice())
        }
    }
}

#[cycle(tree)]
fn parts_tree(alloc: Global, types: &Types, before: u32, parts: &[Part]) -> Result<Tree, AllocError>
    requires { before ≤ length types.now.types }
    ensures { IfOk result (λ tree. view_tree tree ≡ parts_tree (trees_of (take before types.now.types)) (map view_part parts.now)) }
{
    let mut trees = Vec::new(alloc);
    'parts: for part in parts {
        trees.push(part_tree(alloc, types, before, *part)?)?;
    }
    Ok(of_parts(trees))
}

#[cycle(tree)]
fn part_tree(alloc: Global, types: &Types, before: u32, part: Part) -> Result<Tree, AllocError>
    requires { before ≤ length types.now.types }
    ensures { IfOk result (λ tree. view_tree tree ≡ part_tree (trees_of (take before types.now.types)) (view_part part)) }
{
    match part {
        Part::Field(ty) => tree_before(alloc, types, before, ty),
        Part::Class => Ok(Tree::Leaf(Some(Value::Class(None)))),
    }
}

/// The tree of a new variable of a type: nothing is set, and an instance has no class.
#[tactic(auto, using(crate::proofs::typed_cells::Before::whole))]
pub fn new_tree(alloc: Global, types: &Types, ty: TypeId) -> Result<Tree, AllocError>
    ensures { IfOk result (λ tree. view_tree tree ≡ new_tree types.now.types ty) }
{
    tree_before(alloc, types, types.count(), ty)
}
