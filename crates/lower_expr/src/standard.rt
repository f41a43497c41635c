//! Standard functions, behind their arguments.

use crate::calls::made_block;
use flat_code::flat_builders::then;
use flat_code::{FlatExpr, FlatList};
use lower_places::Scene;
use lower_values::{
    Form, asked, concatenated, copied, found, given_word, high_in, low_in, of_value, single,
    with_result, word_in,
};
use runtime_units::numbers::RuntimeRoutine;
use std::alloc::AllocError;
use type_layout::TypeId;
use typed_tree::Arg;
use typed_tree::standard::{CONCAT, COPY, EOF, EOLN, NEW, POS, SIZE_OF};

// The size of the variable to which the far pointer in a slot leads: that of its class, if it has one.
fn size(scene: &Scene, arg: &Arg, stored: Form, slot: u32) -> Result<FlatList, AllocError> {
    let Arg::Place(place) = arg else {
        return Err(AllocError);
    };
    let sort = scene.sort_of_place(place)?;
    let Some(class) = sort.class_offset() else {
        let bytes = FlatExpr::Number((sort.size() % 0x1_0000) as u16);
        return given_word(scene, bytes, stored, slot);
    };
    let args = vec![in scene.alloc;
        high_in(scene, slot)?,
        low_in(scene, slot)?,
        FlatExpr::Number(class),
        FlatExpr::SegmentOf(scene.scratch(0)?),
    ]?;
    let at = scene.slot_at(slot, 2)?;
    let told = single(
        scene.alloc,
        with_result(RuntimeRoutine::ClassSize, args, at, 2),
    )?;
    then(
        told,
        given_word(scene, word_in(scene, slot)?, stored, slot)?,
    )
}

/// What a standard function gives, whose arguments lie in slots one behind the other; it comes to the first slot.
pub fn standard(
    scene: &Scene,
    ty: Option<TypeId>,
    number: u32,
    args: &[Arg],
    slot: u32,
) -> Result<FlatList, AllocError> {
    let ty = ty.ok_or(AllocError)?;
    let stored = Form::of(scene.shape(ty)?);
    match (number, args) {
        (CONCAT, _) => concatenated(scene, args, slot),
        (COPY, [Arg::Value(text), Arg::Value(place), Arg::Value(count)]) => {
            copied(scene, text, place, count, slot)
        }
        (POS, [Arg::Value(part), Arg::Value(text)]) => found(scene, part, text, slot),
        (SIZE_OF, [arg]) => size(scene, arg, stored, slot),
        (EOF, []) => asked(scene, RuntimeRoutine::Eof, slot),
        (EOLN, []) => asked(scene, RuntimeRoutine::Eoln, slot),
        (NEW, []) => made_block(scene, &scene.sort(ty).target()?, slot),
        (_, [Arg::Value(value)]) => of_value(scene, number, value, stored, slot),
        _ => Err(AllocError),
    }
}
