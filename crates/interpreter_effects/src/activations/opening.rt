//! The variables of a new activation, and what its call gives as it ends.

ghost use Rattle.std.specs.Prelude.{◌≡◌, ◌++◌, Some, map, length, IfOk, OnOk};
ghost use Rattle.std.specs.Option.{option_map, option_copied};
ghost use Rattle.typed_tree.specs.type_fits.Routines.{variables_of};
ghost use Rattle.tp_meaning.specs.Trees.{At, holding};
ghost use Rattle.tp_meaning.specs.Shapes.{new_tree};
ghost use Rattle.tp_meaning.specs.Store.{with_new, without};
ghost use Rattle.tp_meaning.specs.Activations.{passed, argument_tree, argument_trees, self_trees, result_trees, variable_object, opened, result_of, class_set_in, class_set};
ghost use Rattle.interpreter_store.specs.cell_store.Views.{view_key, view_spot, view_value, view_tree, view_store};
ghost use Rattle.interpreter_store.specs.cell_store.Finding.{Gets};
ghost use Rattle.interpreter_effects.specs.activations.Views.{view_callee};
ghost use Rattle.interpreter_effects.specs.activations.Parts.{behind};

use crate::activations::callee::Callee;
use crate::activations::routines::{is_constructor, result_number, variables_of};
use interpreter_store::cell_store::{Key, Spot, Stop, Store, Trap, Tree, Value};
use interpreter_store::typed_cells::{
    Reached, Sort, assigned_over, copied_over, loaded_as, new_tree,
};
use std::alloc::{AllocError, Global};
use type_layout::{Param, TypeId, Types};

// A cell that holds a place.
fn place_cell(alloc: Global, spot: &Spot) -> Result<Tree, AllocError>
    ensures { IfOk result (λ tree. view_tree tree ≡ holding (At (view_spot spot.now))) }
{
    Ok(Tree::Leaf(Some(Value::At(spot.copied(alloc)?))))
}

// A record, an array or an object by value is copied to a new variable, whose own instance has no class.
fn passed(
    alloc: Global,
    types: &Types,
    ty: TypeId,
    value: &Value,
    store: &Store,
) -> Result<Tree, Stop>
    ensures { Gets view_tree result (passed types.now.types ty (view_value value.now) (view_store store.now)) }
{
    let sort = Sort::Of { types, ty };
    match value {
        Value::At(spot) => {
            let from = store.tree_at(spot)?;
            let new = new_tree(alloc, types, ty)?;
            copied_over(alloc, &sort, &new, from)
        }
        _ => {
            let new = new_tree(alloc, types, ty)?;
            assigned_over(alloc, &sort, &new, value)
        }
    }
}

fn argument_tree(
    alloc: Global,
    types: &Types,
    param: &Param,
    value: &Value,
    store: &Store,
) -> Result<Tree, Stop>
    ensures { Gets view_tree result (argument_tree types.now.types param.now (view_value value.now) (view_store store.now)) }
{
    if param.by_ref {
        Ok(place_cell(alloc, value.spot()?)?)
    } else {
        passed(alloc, types, param.ty, value, store)
    }
}

#[tactic(auto, using(crate::proofs::activations::Opened::behind_push))]
fn append_arguments(
    alloc: Global,
    types: &Types,
    params: &[Param],
    args: &[Value],
    store: &Store,
    to: &mut Vec<Tree>,
) -> Result<(), Stop>
    ensures { Gets (λ _. map view_tree to.new.items) result (behind (map view_tree to.old.items) (argument_trees types.now.types params.now (map view_value args.now) (view_store store.now))) }
{
    match params {
        [] => match args {
            [] => Ok(()),
            [..] => Err(Stop::Trapped(Trap::IllTyped)),
        },
        [param, params @ ..] => match args {
            [] => Err(Stop::Trapped(Trap::IllTyped)),
            [value, args @ ..] => {
                let tree = argument_tree(alloc, types, param, value, store)?;
                to.push(tree)?;
                append_arguments(alloc, types, params, args, store, to)
            }
        },
    }
}

fn append_self(
    alloc: Global,
    owner: Option<TypeId>,
    own: Option<&Spot>,
    to: &mut Vec<Tree>,
) -> Result<(), Stop>
    ensures { Gets (λ _. map view_tree to.new.items) result (behind (map view_tree to.old.items) (self_trees owner (option_map view_spot (option_copied own.entry)))) }
{
    match (owner, own) {
        (None, None) => Ok(()),
        (Some(_), Some(spot)) => {
            to.push(place_cell(alloc, spot)?)?;
            Ok(())
        }
        _ => Err(Stop::Trapped(Trap::IllTyped)),
    }
}

fn append_result(
    alloc: Global,
    types: &Types,
    ty: Option<TypeId>,
    to: &mut Vec<Tree>,
) -> Result<(), AllocError>
    ensures { OnOk result (map view_tree to.new.items ≡ map view_tree to.old.items ++ result_trees types.now.types ty) }
{
    match ty {
        None => Ok(()),
        Some(ty) => {
            to.push(new_tree(alloc, types, ty)?)?;
            Ok(())
        }
    }
}

fn append_locals(
    alloc: Global,
    types: &Types,
    locals: &[TypeId],
    to: &mut Vec<Tree>,
) -> Result<(), AllocError>
    ensures { OnOk result (map view_tree to.new.items ≡ map view_tree to.old.items ++ map (new_tree types.now.types) locals.now) }
{
    'locals: for ty in locals {
        to.push(new_tree(alloc, types, *ty)?)?;
    }
    Ok(())
}

// Makes variables of these trees, in order.
fn push_all(trees: Vec<Tree>, store: &mut Store) -> Result<(), AllocError>
    ensures { OnOk result (view_store store.new ≡ with_new (view_store store.old) (map variable_object (map view_tree trees.items))) }
{
    'trees: for tree in trees {
        store.push(tree)?;
    }
    Ok(())
}

// The trees of a routine's variables, in the order of their numbers.
fn variable_trees(
    alloc: Global,
    callee: &Callee,
    own: Option<&Spot>,
    args: &[Value],
    store: &Store,
) -> Result<Vec<Tree>, Stop>
    ensures { Gets (λ trees. with_new (view_store store.now) (map variable_object (map view_tree trees.items))) result (opened (view_callee callee.now) (option_map view_spot (option_copied own.entry)) (map view_value args.now) (view_store store.now)) }
{
    let types = &callee.unit.types;
    let routine = callee.routine;
    let mut trees = Vec::new(alloc);
    append_arguments(
        alloc,
        types,
        routine.header.params.as_slice(),
        args,
        store,
        &mut trees,
    )?;
    append_self(alloc, routine.owner, own, &mut trees)?;
    append_result(alloc, types, routine.header.result, &mut trees)?;
    append_locals(alloc, types, routine.locals.as_slice(), &mut trees)?;
    Ok(trees)
}

// An instance takes the class for which its constructor is called.
fn instance_class_set(
    alloc: Global,
    callee: &Callee,
    own: Option<&Spot>,
    class: Key,
    store: &mut Store,
) -> Result<(), Stop>
    ensures { Gets (λ _. view_store store.new) result (class_set_in (view_callee callee.now) callee.now.routine.now.owner (option_map view_spot (option_copied own.entry)) (Some (view_key class)) (view_store store.old)) }
{
    match (callee.routine.owner, own) {
        (Some(owner), Some(own)) => {
            let at = Reached {
                spot: own.copied(alloc)?,
                sort: Sort::Of {
                    types: &callee.unit.types,
                    ty: owner,
                },
            };
            at.set_class(alloc, class, store)
        }
        _ => Err(Stop::Trapped(Trap::IllTyped)),
    }
}

impl Callee<'_> {
    /// Makes its variables.
    pub fn open(
        &self,
        alloc: Global,
        own: Option<&Spot>,
        args: &[Value],
        store: &mut Store,
    ) -> Result<(), Stop>
        ensures { Gets (λ _. view_store store.new) result (opened (view_callee self.now) (option_map view_spot (option_copied own.entry)) (map view_value args.now) (view_store store.old)) }
    {
        let trees = variable_trees(alloc, self, own, args, store)?;
        push_all(trees, store)?;
        Ok(())
    }

    /// Gives an instance its class, where the routine is a constructor that is called for one.
    pub fn set_class(
        &self,
        alloc: Global,
        own: Option<&Spot>,
        class: Option<Key>,
        store: &mut Store,
    ) -> Result<(), Stop>
        ensures { Gets (λ _. view_store store.new) result (class_set (view_callee self.now) (option_map view_spot (option_copied own.entry)) (option_map view_key class) (view_store store.old)) }
    {
        if !is_constructor(self.routine.header.kind) {
            return Ok(());
        }
        match class {
            None => Ok(()),
            Some(class) => instance_class_set(alloc, self, own, class, store),
        }
    }

    /// What it gives as it ends, where its first variable has a serial number.
    pub fn result_of(&self, alloc: Global, first: usize, store: &Store) -> Result<Value, Stop>
        ensures { Gets view_value result (result_of (view_callee self.now) first (view_store store.now)) }
    {
        let Some(ty) = self.routine.header.result else {
            return Ok(Value::Void);
        };
        let number = result_number(self.routine)?;
        let serial = first.checked_add(number).ok_or(Stop::OutOfMemory)?;
        let sort = Sort::Of {
            types: &self.unit.types,
            ty,
        };
        loaded_as(alloc, sort.definition(), &Spot::whole(alloc, serial), store)
    }

    /// Lets its variables be gone.
    pub fn close(&self, alloc: Global, first: usize, store: &mut Store) -> Result<(), AllocError>
        ensures { OnOk result (view_store store.new ≡ without (view_store store.old) first (length (variables_of self.now.routine.now))) }
    {
        let count = variables_of(alloc, self.routine)?.len();
        match first.checked_add(count) {
            Some(end) if end <= store.objects.len() => {
                store.drop_variables(first, count);
                Ok(())
            }
            _ => Err(AllocError),
        }
    }
}
