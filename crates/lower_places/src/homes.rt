//! Where the variables of a routine lie in its activation record, and their types.

ghost use Rattle.std.specs.Prelude.{◌≡◌, ◌≤◌, ◌^◌, ◌⊎◌, ◌++◌, Some, None, IfOk, OnErr, length, slice_get};
ghost use Rattle.std.specs.Option.{option_map};
ghost use Rattle.typed_tree.specs.Frames.{frame_of};
ghost use Rattle.typed_tree.specs.type_fits.Routines.{listed, variables_of};
ghost use Rattle.tp_meaning.specs.Activations.{is_self_of};
ghost use Rattle.lower_places.specs.Frames.{home_of_param, home_of_own, home_of_result, home_from_result, home_from_instance, home_of};
ghost use Rattle.lower_places.specs.Placed.{placed};

use crate::records::{copy_at, instance_at, own_at, parameter_at, result_at, string_at};
use crate::sizes::{is_copied_type, is_string};
use std::alloc::AllocError;
use type_layout::{Param, TypeId, Types};
use typed_tree::Routine;

/// Where a variable lies, so far from BP: itself, or a far pointer to it.
#[derive(Clone, Copy, Debug, PartialEq, Eq)]
pub enum Home {
    In(i32),
    Behind(i32),
}

fn home_of_param(
    types: &Types,
    routine: &Routine,
    number: usize,
    param: &Param,
) -> Result<Home, AllocError>
    ensures value { IfOk result (λ home. home ≡ placed types.now.types routine.now (home_of_param types.now.types number param.now)) }
    ensures cause { OnErr result ((length routine.now.header.params ≤ number) ⊎ (2 ^ 31 ≤ frame_of types.now.types routine.now)) }
{
    if param.by_ref {
        Ok(Home::Behind(parameter_at(types, routine, number)?))
    } else if is_copied_type(types, param.ty) {
        Ok(Home::In(copy_at(types, routine, number)?))
    } else {
        Ok(Home::In(parameter_at(types, routine, number)?))
    }
}

fn home_of_typed(types: &Types, routine: &Routine, ty: TypeId) -> Result<Home, AllocError>
    ensures value { IfOk result (λ home. home ≡ placed types.now.types routine.now (home_of_result types.now.types ty)) }
    ensures cause { OnErr result (2 ^ 31 ≤ frame_of types.now.types routine.now) }
{
    if is_string(types, ty) {
        Ok(Home::Behind(string_at(types, routine)?))
    } else {
        Ok(Home::In(result_at(types, routine)?))
    }
}

/// Where the result of a function lies.
pub fn home_of_result(types: &Types, routine: &Routine) -> Result<Home, AllocError>
    ensures value { IfOk result (λ home. option_map (λ ty. placed types.now.types routine.now (home_of_result types.now.types ty)) routine.now.header.result ≡ Some home) }
    ensures cause { OnErr result ((routine.now.header.result ≡ None) ⊎ (2 ^ 31 ≤ frame_of types.now.types routine.now)) }
{
    match routine.header.result {
        None => Err(AllocError),
        Some(ty) => home_of_typed(types, routine, ty),
    }
}

// Where a variable of the routine's own lies.
#[tactic(auto, using(crate::proofs::Variables::own_home, crate::proofs::Variables::own_missing))]
fn home_of_own(types: &Types, routine: &Routine, number: usize) -> Result<Home, AllocError>
    ensures value { IfOk result (λ home. option_map (placed types.now.types routine.now) (home_of_own routine.now number) ≡ Some home) }
    ensures cause { OnErr result ((home_of_own routine.now number ≡ None) ⊎ (2 ^ 31 ≤ frame_of types.now.types routine.now)) }
{
    Ok(Home::In(own_at(types, routine, number)?))
}

// A variable behind the parameters and Self.
#[tactic(auto, using(crate::proofs::Variables::behind_result))]
fn home_from_result(types: &Types, routine: &Routine, number: usize) -> Result<Home, AllocError>
    ensures value { IfOk result (λ home. option_map (placed types.now.types routine.now) (home_from_result types.now.types routine.now routine.now.header.result number) ≡ Some home) }
    ensures cause { OnErr result ((home_from_result types.now.types routine.now routine.now.header.result number ≡ None) ⊎ (2 ^ 31 ≤ frame_of types.now.types routine.now)) }
{
    match routine.header.result {
        None => home_of_own(types, routine, number),
        Some(ty) => {
            if number == 0 {
                home_of_typed(types, routine, ty)
            } else {
                home_of_own(types, routine, number - 1)
            }
        }
    }
}

// A variable behind the parameters.
#[tactic(auto, using(crate::proofs::Variables::behind_instance))]
fn home_from_instance(types: &Types, routine: &Routine, number: usize) -> Result<Home, AllocError>
    ensures value { IfOk result (λ home. option_map (placed types.now.types routine.now) (home_from_instance types.now.types routine.now routine.now.owner number) ≡ Some home) }
    ensures cause { OnErr result ((home_from_instance types.now.types routine.now routine.now.owner number ≡ None) ⊎ (2 ^ 31 ≤ frame_of types.now.types routine.now)) }
{
    match routine.owner {
        None => home_from_result(types, routine, number),
        Some(_) => {
            if number == 0 {
                Ok(Home::Behind(instance_at(types, routine)?))
            } else {
                home_from_result(types, routine, number - 1)
            }
        }
    }
}

/// Where the variable with a number lies: the parameters, Self, the result, and the routine's own are numbered in this
/// order.
#[tactic(auto, using(crate::proofs::Variables::behind_params))]
pub fn home_of(types: &Types, routine: &Routine, number: u32) -> Result<Home, AllocError>
    ensures value { IfOk result (λ home. option_map (placed types.now.types routine.now) (home_of types.now.types routine.now number) ≡ Some home) }
    ensures cause { OnErr result ((home_of types.now.types routine.now number ≡ None) ⊎ (2 ^ 31 ≤ frame_of types.now.types routine.now)) }
{
    let params = routine.header.params.as_slice();
    let place = number as usize;
    if place < params.len() {
        home_of_param(types, routine, place, &params[place])
    } else {
        home_from_instance(types, routine, place - params.len())
    }
}

#[tactic(auto, using(crate::proofs::Variables::type_behind))]
fn type_from_result(routine: &Routine, number: usize) -> Option<TypeId>
    ensures { result ≡ slice_get (listed routine.now.header.result ++ routine.now.locals) number }
{
    let locals = routine.locals.as_slice();
    match routine.header.result {
        None => locals.get(number).copied(),
        Some(ty) => {
            if number == 0 {
                Some(ty)
            } else {
                locals.get(number - 1).copied()
            }
        }
    }
}

#[tactic(auto, using(crate::proofs::Variables::type_behind))]
fn type_from_instance(routine: &Routine, number: usize) -> Option<TypeId>
    ensures { result ≡ slice_get (listed routine.now.owner ++ (listed routine.now.header.result ++ routine.now.locals)) number }
{
    match routine.owner {
        None => type_from_result(routine, number),
        Some(owner) => {
            if number == 0 {
                Some(owner)
            } else {
                type_from_result(routine, number - 1)
            }
        }
    }
}

/// The type of the variable with a number.
#[tactic(auto, using(crate::proofs::Variables::type_of_param, crate::proofs::Variables::type_past_params))]
pub fn type_of_variable(routine: &Routine, number: u32) -> Option<TypeId>
    ensures { result ≡ slice_get (variables_of routine.now) number }
{
    let params = routine.header.params.as_slice();
    let place = number as usize;
    if place < params.len() {
        Some(params[place].ty)
    } else {
        type_from_instance(routine, place - params.len())
    }
}

/// Whether the variable with a number is Self of a method.
pub fn is_self(routine: &Routine, number: u32) -> bool
    ensures { result ≡ is_self_of routine.now number }
{
    routine.owner.is_some() && number as usize == routine.header.params.len()
}
