//! The stack that an activation takes, and the weight of a unit.

ghost use Rattle.std.specs.Prelude.{◌≡◌, ◌<◌, ◌≤◌, ◌+◌, length, slice_get, sum_by};
ghost use Rattle.typed_tree.specs.Slots.{capped};
ghost use Rattle.typed_tree.specs.Frames.{param_bytes, copy_bytes, is_copied, is_string, even_size, class_argument, result_argument, result_bytes, argument_bytes, local_bytes, need_of, frame_of, routine_weight, weight_of, at_routine, HoldsItsParts, StaysWithinNeed};

use crate::slots::slot_of_type;
use crate::statement_needs::need_of_stmt;
use crate::statement_weights::weight_of_stmt;
use crate::{Routine, Unit};
use type_layout::{Kind, Param, TypeDef, TypeId, Types, size_of};

fn param_bytes(types: &Types, param: &Param) -> u64
    ensures { result ≡ param_bytes types.now.types param.now }
{
    if param.by_ref {
        4
    } else if slot_of_type(types, param.ty) == 2 {
        2
    } else {
        4
    }
}

// Whether a routine copies what is passed to it by value.
fn is_copied(types: &Types, id: TypeId) -> bool
    ensures { result ≡ is_copied (slice_get types.now.types id.0) }
{
    if id.0 < types.count() {
        match types.get(id) {
            TypeDef::Str { .. }
            | TypeDef::SetOf { .. }
            | TypeDef::ArrayOf { .. }
            | TypeDef::RecordOf { .. }
            | TypeDef::ObjectOf { .. } => true,
            TypeDef::Ordinal { .. } | TypeDef::PointerTo { .. } | TypeDef::Procedural { .. } =>
                false,
        }
    } else {
        false
    }
}

fn is_string(types: &Types, id: TypeId) -> bool
    ensures { result ≡ is_string (slice_get types.now.types id.0) }
{
    if id.0 < types.count() {
        match types.get(id) {
            TypeDef::Str { .. } => true,
            _ => false,
        }
    } else {
        false
    }
}

fn even_size(types: &Types, id: TypeId) -> u64
    ensures { result ≡ even_size types.now.types id }
{
    if id.0 < types.count() {
        let size = u64::from(size_of(types, id));
        size + size % 2
    } else {
        0
    }
}

fn copy_bytes(types: &Types, param: &Param) -> u64
    ensures { result ≡ copy_bytes types.now.types param.now }
{
    if param.by_ref {
        0
    } else if is_copied(types, param.ty) {
        even_size(types, param.ty)
    } else {
        0
    }
}

fn class_argument(kind: Kind) -> u64
    ensures { result ≡ class_argument kind }
{
    match kind {
        Kind::Procedure | Kind::Function => 0,
        Kind::Constructor | Kind::Destructor => 2,
    }
}

fn result_argument(types: &Types, ty: Option<TypeId>) -> u64
    ensures { result ≡ result_argument types.now.types ty }
{
    match ty {
        None => 0,
        Some(id) => { if is_string(types, id) { 4 } else { 0 } }
    }
}

fn result_bytes(types: &Types, ty: Option<TypeId>) -> u64
    ensures { result ≡ result_bytes types.now.types ty }
{
    match ty {
        None => 0,
        Some(id) => {
            if is_string(types, id) {
                0
            } else {
                even_size(types, id)
            }
        }
    }
}

fn bytes_of_params(types: &Types, params: &[Param]) -> u64
    ensures { result ≡ capped (sum_by (param_bytes types.now.types) params.now) }
{
    let mut sum = 0u64;
    for param in params {
        sum = sum.saturating_add(param_bytes(types, param));
    }
    sum
}

fn bytes_of_copies(types: &Types, params: &[Param]) -> u64
    ensures { result ≡ capped (sum_by (copy_bytes types.now.types) params.now) }
{
    let mut sum = 0u64;
    for param in params {
        sum = sum.saturating_add(copy_bytes(types, param));
    }
    sum
}

fn bytes_of_variables(types: &Types, variables: &[TypeId]) -> u64
    ensures { result ≡ capped (sum_by (even_size types.now.types) variables.now) }
{
    let mut sum = 0u64;
    for id in variables {
        sum = sum.saturating_add(even_size(types, *id));
    }
    sum
}

fn argument_bytes(types: &Types, routine: &Routine) -> u64
    ensures { result ≡ capped (argument_bytes types.now.types routine.now) }
{
    let own = if routine.owner.is_some() { 4u64 } else { 0 };
    let class = class_argument(routine.header.kind);
    let outcome = result_argument(types, routine.header.result);
    bytes_of_params(types, routine.header.params.as_slice()).saturating_add(own.saturating_add(
        class.saturating_add(outcome),
    ))
}

fn local_bytes(types: &Types, routine: &Routine) -> u64
    ensures { result ≡ capped (local_bytes types.now.types routine.now) }
{
    let copies = bytes_of_copies(types, routine.header.params.as_slice());
    let outcome = result_bytes(types, routine.header.result);
    bytes_of_variables(types, routine.locals.as_slice()).saturating_add(copies.saturating_add(
        outcome,
    ))
}

fn frame_of_routine(types: &Types, routine: &Routine) -> u64
    ensures { result ≡ capped (frame_of types.now.types routine.now) }
{
    let link = if routine.outer.is_some() { 2u64 } else { 0 };
    let return_address = if routine.far { 4u64 } else { 2 };
    let inner = local_bytes(types, routine).saturating_add(need_of_stmt(types, &routine.body));
    let saved = return_address.saturating_add(inner.saturating_add(2));
    argument_bytes(types, routine).saturating_add(link.saturating_add(saved))
}

fn weight_of_routine(routine: &Routine) -> u64
    ensures { result ≡ capped (routine_weight routine.now) }
{
    let params = routine.header.params.len() as u64;
    let locals = routine.locals.len() as u64;
    let entry = params
        .saturating_add(locals)
        .saturating_mul(48)
        .saturating_add(160);
    weight_of_stmt(&routine.body).saturating_add(entry)
}

/// The bytes of the evaluation stack that the body of a routine uses, or the greatest u64 where they pass it.
pub fn need_of(unit: &Unit, routine: u32) -> u64
    requires { routine < length unit.now.routines }
    ensures value { result ≡ capped (at_routine (need_of unit.now.types.types) unit.now.routines routine) }
    ensures enough { (one : Routine) → StaysWithinNeed unit.now.types.types one }
{
    let routine = &unit.routines.as_slice()[routine as usize];
    need_of_stmt(&unit.types, &routine.body)
}

/// The bytes of stack that an activation of a routine takes, or the greatest u64 where they pass it: its arguments,
/// its static link where it is nested, the return address, the saved BP, its locals and its evaluation stack.
pub fn frame_of(unit: &Unit, routine: u32) -> u64
    requires { routine < length unit.now.routines }
    ensures value { result ≡ capped (at_routine (frame_of unit.now.types.types) unit.now.routines routine) }
    ensures parts { (one : Routine) → HoldsItsParts unit.now.types.types one }
{
    let routine = &unit.routines.as_slice()[routine as usize];
    frame_of_routine(&unit.types, routine)
}

/// The bytes that a routine takes for itself, or the greatest u64 where they pass it: its variables, its copies of
/// arguments, a result that is no string, and its evaluation stack.
pub fn own_bytes(types: &Types, routine: &Routine) -> u64
    ensures { result ≡ capped (local_bytes types.now.types routine.now + need_of types.now.types routine.now) }
{
    local_bytes(types, routine).saturating_add(need_of_stmt(types, &routine.body))
}

/// A bound on the bytes of code of a unit, or the greatest u64 where it passes that.
pub fn weight_of(unit: &Unit) -> u64
    ensures { result ≡ capped (weight_of unit.now.routines) }
{
    let mut sum = 0u64;
    for routine in unit.routines.as_slice() {
        sum = sum.saturating_add(weight_of_routine(routine));
    }
    sum
}
