//! The words that calls hand over.

ghost use Rattle.std.specs.Prelude.{◌≡◌, ◌++◌, [], ◌∷◌, IfOk, OnOk};
ghost use Rattle.typed_tree.specs.Expressions.{view_args};
ghost use Rattle.flat_code.specs.View.{view_expr, view_exprs};
ghost use Rattle.lower_values.specs.Words.{four_words, pointer_to, argument_words, arguments_words, class_words, result_words, words_without, words_with};

use crate::forms::{high_in, low_in, next_slot, slot_of_arg, slot_place, word_in};
use flat_code::{Address, FlatExpr, FlatExprs};
use lower_places::{Scene, Shape};
use std::alloc::AllocError;
use type_layout::{Kind, RoutineId, TypeId};
use typed_tree::Arg;

#[tactic(auto, using(crate::proofs::Rows::view_exprs_append))]
fn push(words: &mut FlatExprs, word: FlatExpr) -> Result<(), AllocError>
    ensures { OnOk result (view_exprs words.new.items ≡ view_exprs words.old.items ++ view_expr word ∷ []) }
{
    words.push(word)?;
    Ok(())
}

// The far pointer in a slot of 4 bytes, or the words of a LongInt, the upper one first.
fn push_four(scene: &Scene, words: &mut FlatExprs, slot: u32) -> Result<(), AllocError>
    ensures { OnOk result (view_exprs words.new.items ≡ view_exprs words.old.items ++ four_words scene.now.locals slot) }
{
    push(words, high_in(scene, slot)?)?;
    push(words, low_in(scene, slot)?)
}

// A far pointer to a place.
fn push_place(words: &mut FlatExprs, at: Address) -> Result<(), AllocError>
    ensures { OnOk result (view_exprs words.new.items ≡ view_exprs words.old.items ++ pointer_to at) }
{
    push(words, FlatExpr::SegmentOf(at))?;
    push(words, FlatExpr::AddressOf(at))
}

// The argument in a slot: a word, 4 bytes, or a far pointer to the slot of a string or a set.
fn push_argument(
    scene: &Scene,
    words: &mut FlatExprs,
    slot: u32,
    bytes: u32,
) -> Result<(), AllocError>
    ensures { OnOk result (view_exprs words.new.items ≡ view_exprs words.old.items ++ argument_words scene.now.locals slot bytes) }
{
    match bytes {
        2 => push(words, word_in(scene, slot)?),
        4 => push_four(scene, words, slot),
        _ => push_place(words, slot_place(scene, slot, bytes)?),
    }
}

fn push_arguments(
    scene: &Scene,
    words: &mut FlatExprs,
    args: &[Arg],
    slot: u32,
) -> Result<(), AllocError>
    ensures { OnOk result (view_exprs words.new.items ≡ view_exprs words.old.items ++ arguments_words scene.now.locals scene.now.unit.now.types.types (view_args args.now) slot) }
{
    match args {
        [] => Ok(()),
        [one, rest @ ..] => {
            let bytes = slot_of_arg(&scene.unit.types, one);
            push_argument(scene, words, slot, bytes)?;
            push_arguments(scene, words, rest, next_slot(slot, bytes)?)
        }
    }
}

/// The word of a class for a constructor, and 0 for a destructor.
pub fn push_class(words: &mut FlatExprs, kind: Kind, class: FlatExpr) -> Result<(), AllocError>
    ensures { OnOk result (view_exprs words.new.items ≡ view_exprs words.old.items ++ class_words kind (view_expr class)) }
{
    match kind {
        Kind::Procedure | Kind::Function => Ok(()),
        Kind::Constructor => push(words, class),
        Kind::Destructor => push(words, FlatExpr::Number(0)),
    }
}

/// The static link of a routine inside another.
pub fn push_link(
    scene: &Scene,
    words: &mut FlatExprs,
    routine: RoutineId,
) -> Result<(), AllocError> {
    match scene.link_for(routine)? {
        None => Ok(()),
        Some(link) => push(words, FlatExpr::AddressOf(link)),
    }
}

// Where a string result goes.
fn push_result(
    scene: &Scene,
    words: &mut FlatExprs,
    ty: Option<TypeId>,
    slot: u32,
) -> Result<(), AllocError>
    ensures { OnOk result (view_exprs words.new.items ≡ view_exprs words.old.items ++ result_words scene.now.locals scene.now.unit.now.types.types ty slot) }
{
    let Some(ty) = ty else {
        return Ok(());
    };
    match scene.shape(ty)? {
        Shape::Text { .. } => push_place(words, slot_place(scene, slot, 256)?),
        _ => Ok(()),
    }
}

/// The words of where a string result goes, which begins at a slot, and of arguments from another slot on.
pub fn words_without(
    scene: &Scene,
    ty: Option<TypeId>,
    args: &[Arg],
    slot: u32,
    first: u32,
) -> Result<FlatExprs, AllocError>
    ensures { IfOk result (λ exprs. view_exprs exprs.items ≡ words_without scene.now.locals scene.now.unit.now.types.types ty (view_args args.now) slot first) }
{
    let mut words = Vec::new(scene.alloc);
    push_result(scene, &mut words, ty, slot)?;
    push_arguments(scene, &mut words, args, first)?;
    Ok(words)
}

/// The same with an instance, to which the far pointer in the slot leads; the arguments lie behind that.
pub fn words_with(
    scene: &Scene,
    ty: Option<TypeId>,
    args: &[Arg],
    slot: u32,
) -> Result<FlatExprs, AllocError>
    ensures { IfOk result (λ exprs. view_exprs exprs.items ≡ words_with scene.now.locals scene.now.unit.now.types.types ty (view_args args.now) slot) }
{
    let mut words = Vec::new(scene.alloc);
    push_result(scene, &mut words, ty, slot)?;
    push_four(scene, &mut words, slot)?;
    push_arguments(scene, &mut words, args, next_slot(slot, 4)?)?;
    Ok(words)
}
