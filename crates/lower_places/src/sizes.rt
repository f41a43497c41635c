//! The bytes of the parts of an activation record.

ghost use Rattle.std.specs.Prelude.{◌≡◌, ◌+◌, ◌≤◌, ◌<◌, ◌^◌, IfOk, OnOk, OnErr, List, length, slice_get, sum_by, take};
ghost use Rattle.type_layout.specs.Layouts.{size_of};
ghost use Rattle.typed_tree.specs.Frames.{param_bytes, copy_bytes, is_copied, is_string, even_size, class_argument, result_argument, result_bytes, local_bytes};
ghost use Rattle.lower_places.specs.Frames.{instance_bytes, static_bytes, return_bytes, copies, handed_bytes};

use std::alloc::AllocError;
use type_layout::{Kind, Param, TypeDef, TypeId, Types, size_of};
use typed_tree::{Routine, slot_of_type};

pub(crate) fn sum(one: u32, other: u32) -> Result<u32, AllocError>
    ensures value { IfOk result (λ total. total ≡ one + other) }
    ensures cause { OnErr result (2 ^ 32 ≤ one + other) }
{
    one.checked_add(other).ok_or(AllocError)
}

/// The bytes of a value of a type, 0 of one that isn't there.
#[tactic(auto, using(crate::proofs::Tables::size_past))]
pub fn size_at(types: &Types, ty: TypeId) -> u32
    ensures value { result ≡ size_of types.now.types ty }
    ensures limit { result ≤ 65520 }
{
    if ty.0 < types.count() {
        size_of(types, ty)
    } else {
        0
    }
}

fn even_size(types: &Types, ty: TypeId) -> u32
    ensures value { result ≡ even_size types.now.types ty }
    ensures limit { result ≤ 65521 }
{
    let size = size_at(types, ty);
    size + size % 2
}

pub(crate) fn is_string(types: &Types, ty: TypeId) -> bool
    ensures { result ≡ is_string (slice_get types.now.types ty.0) }
{
    if ty.0 < types.count() {
        match types.get(ty) {
            TypeDef::Str { .. } => true,
            _ => false,
        }
    } else {
        false
    }
}

// Whether values of a type are copied by the routine that they are handed to.
pub(crate) fn is_copied_type(types: &Types, ty: TypeId) -> bool
    ensures { result ≡ is_copied (slice_get types.now.types ty.0) }
{
    if ty.0 < types.count() {
        match types.get(ty) {
            TypeDef::Str { .. }
            | TypeDef::SetOf { .. }
            | TypeDef::ArrayOf { .. }
            | TypeDef::RecordOf { .. }
            | TypeDef::ObjectOf { .. } => true,
            TypeDef::Ordinal { .. } | TypeDef::PointerTo { .. } | TypeDef::Procedural { .. } =>
                false,
        }
    } else {
        false
    }
}

/// Whether a routine copies what is handed to it for a parameter.
pub fn is_copied(types: &Types, param: &Param) -> bool
    ensures { result ≡ copies types.now.types param.now }
{
    if param.by_ref {
        false
    } else {
        is_copied_type(types, param.ty)
    }
}

fn param_bytes(types: &Types, param: &Param) -> u32
    ensures { result ≡ param_bytes types.now.types param.now }
{
    if param.by_ref {
        4
    } else if slot_of_type(types, param.ty) == 2 {
        2
    } else {
        4
    }
}

// The bytes of the arguments for parameters.
pub(crate) fn params_bytes(types: &Types, params: &[Param]) -> Result<u32, AllocError>
    ensures value { IfOk result (λ bytes. bytes ≡ sum_by (param_bytes types.now.types) params.now) }
    ensures cause { OnErr result (2 ^ 32 ≤ sum_by (param_bytes types.now.types) params.now) }
{
    let mut bytes = 0u32;
    for param in params {
        bytes = sum(bytes, param_bytes(types, param))?;
    }
    Ok(bytes)
}

fn copy_bytes(types: &Types, param: &Param) -> u32
    ensures { result ≡ copy_bytes types.now.types param.now }
{
    if param.by_ref {
        0
    } else if is_copied_type(types, param.ty) {
        even_size(types, param.ty)
    } else {
        0
    }
}

// The bytes of the copies of arguments for parameters.
pub(crate) fn copies_bytes(types: &Types, params: &[Param]) -> Result<u32, AllocError>
    ensures value { IfOk result (λ bytes. bytes ≡ sum_by (copy_bytes types.now.types) params.now) }
    ensures cause { OnErr result (2 ^ 32 ≤ sum_by (copy_bytes types.now.types) params.now) }
{
    let mut bytes = 0u32;
    for param in params {
        bytes = sum(bytes, copy_bytes(types, param))?;
    }
    Ok(bytes)
}

fn variable_bytes(types: &Types, ty: &TypeId) -> u32
    ensures { result ≡ even_size types.now.types ty.now }
{
    even_size(types, *ty)
}

pub(crate) fn variables_bytes(types: &Types, variables: &[TypeId]) -> Result<u32, AllocError>
    ensures value { IfOk result (λ bytes. bytes ≡ sum_by (even_size types.now.types) variables.now) }
    ensures cause { OnErr result (2 ^ 32 ≤ sum_by (even_size types.now.types) variables.now) }
{
    let mut bytes = 0u32;
    for ty in variables {
        bytes = sum(bytes, variable_bytes(types, ty))?;
    }
    Ok(bytes)
}

// The bytes of the pointer to where a string result goes.
pub(crate) fn result_argument(types: &Types, outcome: Option<TypeId>) -> u32
    ensures value { result ≡ result_argument types.now.types outcome }
    ensures limit { result ≤ 4 }
{
    match outcome {
        None => 0,
        Some(ty) => { if is_string(types, ty) { 4 } else { 0 } }
    }
}

// The bytes of a result that is no string.
fn result_bytes(types: &Types, outcome: Option<TypeId>) -> u32
    ensures { result ≡ result_bytes types.now.types outcome }
{
    match outcome {
        None => 0,
        Some(ty) => {
            if is_string(types, ty) {
                0
            } else {
                even_size(types, ty)
            }
        }
    }
}

// The bytes of the word of a class.
fn class_bytes(kind: Kind) -> u32
    ensures value { result ≡ class_argument kind }
    ensures limit { result ≤ 2 }
{
    match kind {
        Kind::Procedure | Kind::Function => 0,
        Kind::Constructor | Kind::Destructor => 2,
    }
}

// The bytes of the far pointer to Self.
pub(crate) fn instance_bytes(routine: &Routine) -> u32
    ensures value { result ≡ instance_bytes routine.now }
    ensures limit { result ≤ 4 }
{
    if routine.owner.is_some() { 4 } else { 0 }
}

// The bytes of the static link.
pub(crate) fn static_bytes(routine: &Routine) -> u32
    ensures value { result ≡ static_bytes routine.now }
    ensures limit { result ≤ 2 }
{
    if routine.outer.is_some() { 2 } else { 0 }
}

/// The bytes of the return address and the caller's BP.
pub fn return_bytes(routine: &Routine) -> u32
    ensures value { result ≡ return_bytes routine.now }
    ensures limit { result ≤ 6 }
{
    if routine.far { 6 } else { 4 }
}

/// The bytes of all arguments, the static link among them.
pub fn argument_bytes(types: &Types, routine: &Routine) -> Result<u32, AllocError>
    ensures value { IfOk result (λ bytes. bytes ≡ handed_bytes types.now.types routine.now) }
    ensures cause { OnErr result (2 ^ 32 ≤ handed_bytes types.now.types routine.now) }
{
    let first = result_argument(types, routine.header.result) + instance_bytes(routine);
    let last = class_bytes(routine.header.kind) + static_bytes(routine);
    let params = params_bytes(types, routine.header.params.as_slice())?;
    sum(params, first + last)
}

// The bytes of copies, and of a result that is no string.
pub(crate) fn before_own(types: &Types, routine: &Routine) -> Result<u32, AllocError>
    ensures value { IfOk result (λ bytes. bytes ≡ sum_by (copy_bytes types.now.types) routine.now.header.params + result_bytes types.now.types routine.now.header.result) }
    ensures cause { OnErr result (2 ^ 32 ≤ sum_by (copy_bytes types.now.types) routine.now.header.params + result_bytes types.now.types routine.now.header.result) }
{
    let copies = copies_bytes(types, routine.header.params.as_slice())?;
    sum(copies, result_bytes(types, routine.header.result))
}

/// The bytes of copies, a result that is no string, and the routine's own variables, which lie above the evaluation stack.
pub fn local_bytes(types: &Types, routine: &Routine) -> Result<u32, AllocError>
    ensures value { IfOk result (λ bytes. bytes ≡ local_bytes types.now.types routine.now) }
    ensures cause { OnErr result (2 ^ 32 ≤ local_bytes types.now.types routine.now) }
{
    let before = before_own(types, routine)?;
    sum(before, variables_bytes(types, routine.locals.as_slice())?)
}

// The front of a list, with the entry at a place.
pub(crate) fn front<T>(items: &[T], number: usize) -> Result<&[T], AllocError>
    ensures value { IfOk result (λ front. front.now ≡ take (number + 1) items.now) }
    ensures there { OnOk result (number < length items.now) }
    ensures cause { OnErr result (length items.now ≤ number) }
{
    if number < items.len() {
        Ok(&items[..number + 1])
    } else {
        Err(AllocError)
    }
}
