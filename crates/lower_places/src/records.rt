//! Activation records: where the parts of one lie, by how far from BP.
//!
//! From the top: a pointer to where a string result goes, Self, the parameters in order, the word of a class, the static
//! link; the return address and the caller's BP; copies of arguments, a result that is no string, the routine's own
//! variables; and the evaluation stack.

ghost use Rattle.std.specs.Prelude.{◌≡◌, ◌+◌, ◌≤◌, ◌<◌, ◌^◌, ◌⊎◌, IfOk, OnOk, OnErr, List, length, max};
ghost use Rattle.type_layout.specs.declared.definitions.TypeDef.{TypeDef};
ghost use Rattle.typed_tree.specs.Frames.{frame_of};
ghost use Rattle.lower_places.specs.Frames.{StringResult, Instance, Parameter, ClassWord, CopyOf, ResultValue, OwnVariable, from_bp, bp_depth, depth_of, part_at};

use crate::sizes::{
    argument_bytes, before_own, copies_bytes, front, instance_bytes, params_bytes, result_argument,
    return_bytes, static_bytes, sum, variables_bytes,
};
use std::alloc::AllocError;
use type_layout::Types;
use typed_tree::Routine;

/// What ends so many bytes below the caller's SP, so far from BP that lies so many bytes below it.
#[tactic(auto, unfolding(crate::specs::Frames::from_bp))]
pub(crate) fn from_bp(bp: u32, depth: u32) -> Result<i32, AllocError>
    ensures value { IfOk result (λ at. at ≡ from_bp bp depth) }
    ensures cause { OnErr result (2 ^ 31 ≤ max bp depth) }
{
    if depth <= bp {
        let above = bp - depth;
        if above > 0x7fff_ffff {
            return Err(AllocError);
        }
        Ok(above as i32)
    } else {
        let below = depth - bp;
        if below > 0x7fff_ffff {
            return Err(AllocError);
        }
        Ok(-(below as i32))
    }
}

// How far below the caller's SP the lowest byte of the links lies.
#[tactic(auto, using(crate::proofs::Depths::links_depth))]
fn bp_depth(types: &Types, routine: &Routine) -> Result<u32, AllocError>
    ensures value { IfOk result (λ depth. depth ≡ bp_depth types.now.types routine.now) }
    ensures cause { OnErr result (2 ^ 32 ≤ bp_depth types.now.types routine.now) }
{
    sum(argument_bytes(types, routine)?, return_bytes(routine))
}

// Where a part lies that ends so far below the caller's SP.
fn at_depth(types: &Types, routine: &Routine, depth: u32) -> Result<i32, AllocError>
    ensures value { IfOk result (λ at. at ≡ from_bp (bp_depth types.now.types routine.now) depth) }
    ensures cause { OnErr result (2 ^ 31 ≤ max (bp_depth types.now.types routine.now) depth) }
{
    from_bp(bp_depth(types, routine)?, depth)
}

/// Where the pointer lies to where a string result goes.
#[tactic(auto, using(crate::proofs::Depths::string_depth, crate::proofs::Depths::string_bound, crate::proofs::Depths::bp_bound))]
pub(crate) fn string_at(types: &Types, routine: &Routine) -> Result<i32, AllocError>
    ensures value { IfOk result (λ at. at ≡ part_at types.now.types routine.now StringResult) }
    ensures cause { OnErr result (2 ^ 31 ≤ frame_of types.now.types routine.now) }
{
    at_depth(
        types,
        routine,
        result_argument(types, routine.header.result),
    )
}

/// Where the far pointer to the instance of a method lies.
#[tactic(auto, using(crate::proofs::Depths::instance_depth, crate::proofs::Depths::instance_bound, crate::proofs::Depths::bp_bound))]
pub fn instance_at(types: &Types, routine: &Routine) -> Result<i32, AllocError>
    ensures value { IfOk result (λ at. at ≡ part_at types.now.types routine.now Instance) }
    ensures cause { OnErr result (2 ^ 31 ≤ frame_of types.now.types routine.now) }
{
    let before = result_argument(types, routine.header.result);
    at_depth(types, routine, before + instance_bytes(routine))
}

/// Where the word of a class lies that a constructor or destructor is handed.
#[tactic(auto, using(crate::proofs::Depths::class_place))]
pub fn class_word_at(routine: &Routine) -> i32
    ensures { (types : List TypeDef) → result ≡ part_at types routine.now ClassWord }
{
    (return_bytes(routine) + static_bytes(routine)) as i32
}

/// Where the argument for a parameter lies.
#[tactic(auto, using(crate::proofs::Depths::parameter_depth, crate::proofs::Depths::parameter_bound, crate::proofs::Depths::bp_bound))]
pub fn parameter_at(types: &Types, routine: &Routine, number: usize) -> Result<i32, AllocError>
    ensures value { IfOk result (λ at. at ≡ part_at types.now.types routine.now (Parameter number)) }
    ensures there { OnOk result (number < length routine.now.header.params) }
    ensures cause { OnErr result ((length routine.now.header.params ≤ number) ⊎ (2 ^ 31 ≤ frame_of types.now.types routine.now)) }
{
    let before = result_argument(types, routine.header.result) + instance_bytes(routine);
    let first = front(routine.header.params.as_slice(), number)?;
    let depth = sum(before, params_bytes(types, first)?)?;
    at_depth(types, routine, depth)
}

/// Where the copy of an argument lies.
#[tactic(auto, using(crate::proofs::Depths::copy_place, crate::proofs::Depths::copy_bound))]
pub fn copy_at(types: &Types, routine: &Routine, number: usize) -> Result<i32, AllocError>
    ensures value { IfOk result (λ at. at ≡ part_at types.now.types routine.now (CopyOf number)) }
    ensures there { OnOk result (number < length routine.now.header.params) }
    ensures cause { OnErr result ((length routine.now.header.params ≤ number) ⊎ (2 ^ 31 ≤ frame_of types.now.types routine.now)) }
{
    let first = front(routine.header.params.as_slice(), number)?;
    let depth = copies_bytes(types, first)?;
    from_bp(0, depth)
}

/// Where a result lies that is no string.
#[tactic(auto, using(crate::proofs::Depths::result_place, crate::proofs::Depths::result_bound))]
pub(crate) fn result_at(types: &Types, routine: &Routine) -> Result<i32, AllocError>
    ensures value { IfOk result (λ at. at ≡ part_at types.now.types routine.now ResultValue) }
    ensures cause { OnErr result (2 ^ 31 ≤ frame_of types.now.types routine.now) }
{
    from_bp(0, before_own(types, routine)?)
}

/// Where a variable of the routine's own lies.
#[tactic(auto, using(crate::proofs::Depths::own_place, crate::proofs::Depths::own_bound))]
pub(crate) fn own_at(types: &Types, routine: &Routine, number: usize) -> Result<i32, AllocError>
    ensures value { IfOk result (λ at. at ≡ part_at types.now.types routine.now (OwnVariable number)) }
    ensures there { OnOk result (number < length routine.now.locals) }
    ensures cause { OnErr result ((length routine.now.locals ≤ number) ⊎ (2 ^ 31 ≤ frame_of types.now.types routine.now)) }
{
    let first = front(routine.locals.as_slice(), number)?;
    let depth = sum(before_own(types, routine)?, variables_bytes(types, first)?)?;
    from_bp(0, depth)
}
