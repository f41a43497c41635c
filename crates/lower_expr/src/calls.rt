//! Calls, behind their arguments.

use flat_code::flat_builders::{op, set, then};
use flat_code::{Address, FlatExpr, FlatExprs, FlatList, FlatOp, FlatResult, FlatStmt};
use lower_places::{Scene, Shape, Sort};
use lower_values::{
    Form, clear_at, form_of, high_in, long_words, low_in, next_slot, push_class, push_link,
    runtime, signed_byte, single, slot_place, text_words, with_result, words_with, words_without,
};
use runtime_units::numbers::RuntimeRoutine;
use std::alloc::AllocError;
use type_layout::{Host, Kind, RoutineId, TypeId};
use typed_tree::{Arg, Destructor, Expr, PlaceExpr};

// ---- results

// Where the bytes of a result go that is no string.
fn result_place(
    scene: &Scene,
    ty: Option<TypeId>,
    slot: u32,
) -> Result<Option<FlatResult>, AllocError> {
    let Some(ty) = ty else {
        return Ok(None);
    };
    let shape = scene.shape(ty)?;
    let at = slot_place(scene, slot, Form::of(shape).bytes())?;
    match shape {
        Shape::Number { host, .. } => Ok(Some(FlatResult {
            at,
            bytes: (host.width() % 256) as u8,
        })),
        Shape::Far => Ok(Some(FlatResult { at, bytes: 4 })),
        Shape::Text { .. } => Ok(None),
        Shape::Set { .. } | Shape::Whole { .. } => Err(AllocError),
    }
}

// A result of one byte becomes a word.
fn extended(scene: &Scene, ty: Option<TypeId>, slot: u32) -> Result<FlatList, AllocError> {
    let alloc = scene.alloc;
    let Some(ty) = ty else {
        return Ok(Vec::new(alloc));
    };
    let at = scene.slot_at(slot, 2)?;
    let byte = FlatExpr::Byte(Address::Local(at));
    match scene.shape(ty)? {
        Shape::Number {
            host: Host::ShortInt,
            ..
        } => single(alloc, set(at, signed_byte(alloc, byte)?)),
        Shape::Number { host, .. } if host.width() == 1 => single(alloc, set(at, byte)),
        _ => Ok(Vec::new(alloc)),
    }
}

// ---- classes

// The word of a class: where its virtual method table lies, and one more.
fn class_word(scene: &Scene, sort: &Sort) -> Result<FlatExpr, AllocError> {
    let (unit, number) = scene.class_of(sort)?;
    op(
        scene.alloc,
        FlatOp::Add,
        FlatExpr::VmtOf { unit, number },
        FlatExpr::Number(1),
    )
}

// The word of the class that a constructor gives the instance at a place: 0 where that is Self.
fn class_for(scene: &Scene, place: &PlaceExpr) -> Result<FlatExpr, AllocError> {
    if scene.is_self(place)? {
        Ok(FlatExpr::Number(0))
    } else {
        class_word(scene, &scene.sort_of_place(place)?)
    }
}

// The method in a virtual slot of the instance to which the far pointer in a slot leads is found.
fn method_found(
    scene: &Scene,
    target: &Sort,
    entry: u32,
    slot: u32,
) -> Result<FlatList, AllocError> {
    let class = target.class_offset().ok_or(AllocError)?;
    let place = entry.checked_add(1).ok_or(AllocError)?;
    if place > 0x3fff {
        return Err(AllocError);
    }
    let scratch = scene.scratch(0)?;
    let args = vec![in scene.alloc;
        high_in(scene, slot)?,
        low_in(scene, slot)?,
        FlatExpr::Number(class),
        FlatExpr::Number((4 * place) as u16),
        FlatExpr::SegmentOf(scratch),
    ]?;
    single(
        scene.alloc,
        FlatStmt::Runtime {
            number: RuntimeRoutine::Method.number(),
            args,
            result: Some(FlatResult {
                at: scratch,
                bytes: 4,
            }),
        },
    )
}

// ---- calls

// A routine of the unit Overlay.
fn overlay_call(
    scene: &Scene,
    number: u32,
    args: &[Arg],
    slot: u32,
) -> Result<FlatList, AllocError> {
    let alloc = scene.alloc;
    match (number, args) {
        (0, [Arg::Value(name)]) => {
            let (segment, offset) = text_words(scene, form_of(scene, name)?, slot)?;
            let words = vec![in alloc; segment, offset]?;
            single(alloc, runtime(RuntimeRoutine::OvrInit, words))
        }
        (1, [Arg::Value(size)]) => {
            let (low, high) = long_words(scene, form_of(scene, size)?, slot)?;
            let words = vec![in alloc; low, high]?;
            single(alloc, runtime(RuntimeRoutine::OvrSetBuf, words))
        }
        (2, []) => single(alloc, runtime(RuntimeRoutine::OvrClearBuf, Vec::new(alloc))),
        _ => Err(AllocError),
    }
}

// The class of the instance of a call that may be that of a constructor.
fn class_given(
    scene: &Scene,
    kind: Kind,
    own: &Option<Box<PlaceExpr>>,
) -> Result<FlatExpr, AllocError> {
    match (kind, own) {
        (Kind::Constructor, Some(place)) => class_for(scene, place),
        _ => Ok(FlatExpr::Number(0)),
    }
}

fn routine_call(
    scene: &Scene,
    ty: Option<TypeId>,
    routine: RoutineId,
    own: &Option<Box<PlaceExpr>>,
    args: &[Arg],
    slot: u32,
) -> Result<FlatList, AllocError> {
    let kind = scene.kind_of(routine)?;
    let mut words = if own.is_some() {
        words_with(scene, ty, args, slot)?
    } else {
        words_without(scene, ty, args, slot, slot)?
    };
    push_class(&mut words, kind, class_given(scene, kind, own)?)?;
    push_link(scene, &mut words, routine)?;
    let call = FlatStmt::Call {
        routine,
        args: words,
        result: result_place(scene, ty, slot)?,
    };
    then(single(scene.alloc, call)?, extended(scene, ty, slot)?)
}

fn called_through(
    scene: &Scene,
    ty: Option<TypeId>,
    pointer: Address,
    words: FlatExprs,
    slot: u32,
) -> Result<FlatList, AllocError> {
    let call = FlatStmt::CallThrough {
        pointer,
        args: words,
        result: result_place(scene, ty, slot)?,
    };
    then(single(scene.alloc, call)?, extended(scene, ty, slot)?)
}

fn virtual_call(
    scene: &Scene,
    ty: Option<TypeId>,
    target: &Sort,
    entry: u32,
    args: &[Arg],
    slot: u32,
) -> Result<FlatList, AllocError> {
    let found = method_found(scene, target, entry, slot)?;
    let mut words = words_with(scene, ty, args, slot)?;
    push_class(&mut words, target.virtual_kind(entry)?, FlatExpr::Number(0))?;
    then(
        found,
        called_through(scene, ty, scene.scratch(0)?, words, slot)?,
    )
}

// A call of the routine that the far pointer in a slot leads to, behind which the arguments lie.
fn variable_call(
    scene: &Scene,
    ty: Option<TypeId>,
    args: &[Arg],
    slot: u32,
) -> Result<FlatList, AllocError> {
    let words = words_without(scene, ty, args, slot, next_slot(slot, 4)?)?;
    let pointer = Address::Through {
        slot: scene.slot_at(slot, 4)?,
        plus: 0,
    };
    called_through(scene, ty, pointer, words, slot)
}

/// A new block for what a pointer type of the unit points to; a far pointer to it comes to the slot of 4 bytes.
pub fn made_block(scene: &Scene, target: &Sort, slot: u32) -> Result<FlatList, AllocError> {
    let alloc = scene.alloc;
    let size = (target.size() % 0x1_0000) as u16;
    let words = vec![in alloc; FlatExpr::Number(size)]?;
    let at = scene.slot_at(slot, 4)?;
    let made = single(alloc, with_result(RuntimeRoutine::New, words, at, 4))?;
    if !target.holds_class() {
        return Ok(made);
    }
    then(
        made,
        single(
            alloc,
            clear_at(alloc, high_in(scene, slot)?, low_in(scene, slot)?, size)?,
        )?,
    )
}

// The call of a method on the instance to which the far pointer in a slot leads, with the word of a class.
fn method_call(
    scene: &Scene,
    routine: RoutineId,
    class: FlatExpr,
    args: &[Arg],
    slot: u32,
) -> Result<FlatList, AllocError> {
    let mut words = words_with(scene, None, args, slot)?;
    push_class(&mut words, scene.kind_of(routine)?, class)?;
    push_link(scene, &mut words, routine)?;
    let call = FlatStmt::Call {
        routine,
        args: words,
        result: None,
    };
    single(scene.alloc, call)
}

/// The call of a destructor on the instance of a type to which the far pointer in a slot leads; its arguments lie behind
/// that.
pub fn call_destructor(
    scene: &Scene,
    destructor: Destructor,
    target: &Sort,
    args: &[Arg],
    slot: u32,
) -> Result<FlatList, AllocError> {
    match destructor {
        Destructor::Slot { slot: entry, .. } => virtual_call(
            scene, None, target, entry, args, slot,
        ),
        Destructor::Routine(routine) => {
            method_call(scene, routine, FlatExpr::Number(0), args, slot)
        }
    }
}

/// The call that an expression is, behind its instance, its variable or its new block, and its arguments.
pub fn call(scene: &Scene, expr: &Expr, slot: u32) -> Result<FlatList, AllocError> {
    match expr {
        Expr::Call {
            ty,
            routine,
            own,
            args,
        } => {
            if scene.is_overlay(routine.unit) {
                overlay_call(scene, routine.number, args.as_slice(), slot)
            } else {
                routine_call(scene, *ty, *routine, own, args.as_slice(), slot)
            }
        }
        Expr::CallVirtual {
            ty,
            own,
            slot: entry,
            args,
            ..
        } => {
            let target = scene.sort_of_place(own)?;
            virtual_call(scene, *ty, &target, *entry, args.as_slice(), slot)
        }
        Expr::CallThrough { ty, args, .. } => variable_call(scene, *ty, args.as_slice(), slot),
        Expr::Make { ty, routine, args } => {
            let target = scene.sort(*ty).target()?;
            let class = class_word(scene, &target)?;
            method_call(scene, *routine, class, args.as_slice(), slot)
        }
        _ => Err(AllocError),
    }
}
