//! Standard procedures. Their arguments stand in slots, one behind another; of a variable a far pointer stands there.

ghost use Rattle.std.specs.Prelude.{◌≡◌, ◌+◌, IfOk};
ghost use Rattle.flat_code.specs.declared.tree.Address.TheVariants.{Through};
ghost use Rattle.flat_code.specs.Tree.{Code, Do};
ghost use Rattle.flat_code.specs.View.{view_expr, view_list, view_stmt};
ghost use Rattle.lower_places.specs.Reaches.{scratch_address};
ghost use Rattle.lower_values.specs.Forms.{slot_at};
ghost use Rattle.lower_stmt.specs.Procedures.{through, step_word, step_words, long_moved, word_moved, moved, deleted, inserted, width_word, told, valued, val_stored};

use crate::heap::{block_freed, block_made};
use crate::items::keep_scratch;
use crate::words::compute;
use flat_code::flat_builders::{op, then};
use flat_code::{Address, FlatExpr, FlatList, FlatOp, FlatStmt};
use lower_expr::lower_args;
use lower_places::{Scene, Shape, Spot};
use lower_values::{
    Form, form_of, high_in, long_words, low_in, low_word, number, pair, runtime, single, text_words,
};
use runtime_units::numbers::RuntimeRoutine;
use std::alloc::AllocError;
use type_layout::Host;
use typed_tree::standard::{DEC, DELETE, DISPOSE, INC, INSERT, NEW, STR, VAL};
use typed_tree::{Arg, PlaceExpr};

/// The slot behind one of so many bytes.
fn behind(slot: u32, bytes: u32) -> Result<u32, AllocError>
    ensures { IfOk result (λ next. next ≡ slot + bytes) }
{
    slot.checked_add(bytes).ok_or(AllocError)
}

/// What the far pointer in a slot leads to, some bytes on.
pub fn through(scene: &Scene, slot: u32, plus: u16) -> Result<Address, AllocError>
    ensures { IfOk result (λ at. at ≡ Through (slot_at scene.now.locals slot 4) plus) }
{
    let slot = scene.slot_at(slot, 4)?;
    Ok(Address::Through { slot, plus })
}

/// How a variable that is a number is stored.
fn host_at(scene: &Scene, place: &PlaceExpr) -> Result<Host, AllocError> {
    match scene.sort_of_place(place)?.shape()? {
        Shape::Number { host, .. } => Ok(host),
        _ => Err(AllocError),
    }
}

/// The size of a variable that is a string.
fn max_at(scene: &Scene, place: &PlaceExpr) -> Result<u8, AllocError> {
    match scene.sort_of_place(place)?.shape()? {
        Shape::Text { max } => Ok(max),
        _ => Err(AllocError),
    }
}

// ---- Inc and Dec

/// By how much a variable changes, as a word: by 1, or by the number in a slot.
fn step_word(scene: &Scene, by: Option<Form>, slot: u32) -> Result<FlatExpr, AllocError>
    ensures { IfOk result (λ word. view_expr word ≡ step_word scene.now.locals by slot) }
{
    match by {
        None => Ok(number(1)),
        Some(form) => low_word(scene, form, slot),
    }
}

/// The same as two words.
fn step_words(
    scene: &Scene,
    by: Option<Form>,
    slot: u32,
) -> Result<(FlatExpr, FlatExpr), AllocError>
    ensures { IfOk result (λ words. (view_expr words.0, view_expr words.1) ≡ step_words scene.now.locals by slot) }
{
    match by {
        None => Ok((number(1), number(0))),
        Some(form) => long_words(scene, form, slot),
    }
}

/// The LongInt to which the far pointer in a slot leads changes by what stands behind that.
fn long_moved(
    scene: &Scene,
    by: Option<Form>,
    down: bool,
    slot: u32,
) -> Result<FlatStmt, AllocError>
    ensures { IfOk result (λ stmt. (next : Code) → view_stmt stmt next ≡ Do (long_moved scene.now.locals by down slot) next) }
{
    let to = through(scene, slot, 0)?;
    let by = step_words(scene, by, behind(slot, 4)?)?;
    let args = vec![in scene.alloc;
        FlatExpr::Word(to),
        FlatExpr::Word(through(scene, slot, 2)?),
        by.0,
        by.1,
    ]?;
    if down {
        Ok(compute(RuntimeRoutine::Difference, args, to, 4))
    } else {
        Ok(compute(RuntimeRoutine::Sum, args, to, 4))
    }
}

/// The same of a number of one or two bytes.
fn word_moved(
    scene: &Scene,
    width: u32,
    by: Option<Form>,
    down: bool,
    slot: u32,
) -> Result<FlatStmt, AllocError>
    ensures { IfOk result (λ stmt. (next : Code) → view_stmt stmt next ≡ Do (word_moved scene.now.locals width by down slot) next) }
{
    let to = through(scene, slot, 0)?;
    let operator = if down { FlatOp::Sub } else { FlatOp::Add };
    let by = step_word(scene, by, behind(slot, 4)?)?;
    if width == 1 {
        let value = op(scene.alloc, operator, FlatExpr::Byte(to), by)?;
        Ok(FlatStmt::StoreByte { to, value })
    } else {
        let value = op(scene.alloc, operator, FlatExpr::Word(to), by)?;
        Ok(FlatStmt::StoreWord { to, value })
    }
}

/// Inc and Dec of a number that is stored as a host.
fn moved(
    scene: &Scene,
    host: Host,
    by: Option<Form>,
    down: bool,
    slot: u32,
) -> Result<FlatList, AllocError>
    ensures { IfOk result (λ list. view_list list.items ≡ moved scene.now.locals host by down slot) }
{
    if host.width() == 4 {
        single(scene.alloc, long_moved(scene, by, down, slot)?)
    } else {
        let stmt = word_moved(scene, host.width(), by, down, slot)?;
        single(scene.alloc, stmt)
    }
}

// ---- strings

/// Delete: a variable, a place and a count.
fn deleted(scene: &Scene, place: Form, count: Form, slot: u32) -> Result<FlatList, AllocError>
    ensures { IfOk result (λ list. view_list list.items ≡ deleted scene.now.locals place count slot) }
{
    let second = behind(slot, 4)?;
    let place_words = long_words(scene, place, second)?;
    let count_words = long_words(scene, count, behind(second, place.bytes())?)?;
    let args = vec![in scene.alloc;
        high_in(scene, slot)?,
        low_in(scene, slot)?,
        place_words.0,
        place_words.1,
        count_words.0,
        count_words.1,
    ]?;
    single(scene.alloc, runtime(RuntimeRoutine::Delete, args))
}

/// Insert: a text, a variable of a size and a place.
fn inserted(
    scene: &Scene,
    part: Form,
    max: u8,
    place: Form,
    slot: u32,
) -> Result<FlatList, AllocError>
    ensures { IfOk result (λ list. view_list list.items ≡ inserted scene.now.locals part max place slot) }
{
    let second = behind(slot, part.bytes())?;
    let part_words = text_words(scene, part, slot)?;
    let place_words = long_words(scene, place, behind(second, 4)?)?;
    let args = vec![in scene.alloc;
        part_words.0,
        part_words.1,
        high_in(scene, second)?,
        low_in(scene, second)?,
        place_words.0,
        place_words.1,
        FlatExpr::Number(u16::from(max)),
    ]?;
    single(scene.alloc, runtime(RuntimeRoutine::Insert, args))
}

/// The width of a field in a slot, or 0.
fn width_word(scene: &Scene, width: Option<Form>, slot: u32) -> Result<FlatExpr, AllocError>
    ensures { IfOk result (λ word. view_expr word ≡ width_word scene.now.locals width slot) }
{
    match width {
        None => Ok(number(0)),
        Some(form) => low_word(scene, form, slot),
    }
}

/// Str: a number, the width of its field if it is given, and a variable of a size.
fn told(
    scene: &Scene,
    value: Form,
    width: Option<Form>,
    max: u8,
    slot: u32,
) -> Result<FlatList, AllocError>
    ensures { IfOk result (λ list. view_list list.items ≡ told scene.now.locals value width max slot) }
{
    let second = behind(slot, value.bytes())?;
    let third = match width {
        None => second,
        Some(form) => behind(second, form.bytes())?,
    };
    let words = long_words(scene, value, slot)?;
    let args = vec![in scene.alloc;
        high_in(scene, third)?,
        low_in(scene, third)?,
        FlatExpr::Number(u16::from(max)),
        words.0,
        words.1,
        width_word(scene, width, second)?,
    ]?;
    single(scene.alloc, runtime(RuntimeRoutine::Str, args))
}

/// Leaves what Val gives of a text in the scratch.
fn valued(
    scene: &Scene,
    routine: RuntimeRoutine,
    text: Form,
    bytes: u8,
    slot: u32,
) -> Result<FlatStmt, AllocError>
    ensures { IfOk result (λ stmt. (next : Code) → view_stmt stmt next ≡ Do (valued scene.now.locals routine text bytes (scratch_address scene.now.unit.now 0) slot) next) }
{
    let words = text_words(scene, text, slot)?;
    let args = vec![in scene.alloc; words.0, words.1]?;
    Ok(compute(routine, args, scene.scratch(0)?, bytes))
}

/// Val: a text, a variable for its value and one for the place of a fault, which are stored as hosts. The value is stored
/// first; above the place stands a word 0.
fn val_stored(
    scene: &Scene,
    text: Form,
    host: Host,
    place: Host,
    slot: u32,
) -> Result<FlatList, AllocError>
    ensures { IfOk result (λ list. view_list list.items ≡ val_stored scene.now.locals text host place (scratch_address scene.now.unit.now 0) (scratch_address scene.now.unit.now 2) slot) }
{
    let second = behind(slot, text.bytes())?;
    let to = through(scene, second, 0)?;
    let value = pair(
        scene.alloc,
        valued(scene, RuntimeRoutine::ValValue, text, 4, slot)?,
        keep_scratch(scene, host.width(), to)?,
    )?;
    let to = through(scene, behind(second, 4)?, 0)?;
    let above = FlatStmt::StoreWord {
        to: scene.scratch(2)?,
        value: number(0),
    };
    let fault = pair(
        scene.alloc,
        valued(scene, RuntimeRoutine::ValPlace, text, 2, slot)?,
        above,
    )?;
    let kept = single(scene.alloc, keep_scratch(scene, place.width(), to)?)?;
    then(value, then(fault, kept)?)
}

// ---- all of them

/// What a standard procedure does once its arguments stand in their slots.
fn performed(scene: &Scene, number: u32, args: &[Arg], slot: u32) -> Result<FlatList, AllocError> {
    match (number, args) {
        (INC | DEC, [Arg::Place(place)]) => {
            moved(scene, host_at(scene, place)?, None, number == DEC, slot)
        }
        (INC | DEC, [Arg::Place(place), Arg::Value(by)]) => {
            let by = Some(form_of(scene, by)?);
            moved(scene, host_at(scene, place)?, by, number == DEC, slot)
        }
        (DELETE, [Arg::Place(_), Arg::Value(place), Arg::Value(count)]) => {
            deleted(scene, form_of(scene, place)?, form_of(scene, count)?, slot)
        }
        (INSERT, [Arg::Value(part), Arg::Place(to), Arg::Value(place)]) => {
            let max = max_at(scene, to)?;
            inserted(
                scene,
                form_of(scene, part)?,
                max,
                form_of(scene, place)?,
                slot,
            )
        }
        (STR, [Arg::Value(value), Arg::Place(to)]) => {
            told(
                scene,
                form_of(scene, value)?,
                None,
                max_at(scene, to)?,
                slot,
            )
        }
        (STR, [Arg::Value(value), Arg::Value(width), Arg::Place(to)]) => {
            let width = Some(form_of(scene, width)?);
            told(
                scene,
                form_of(scene, value)?,
                width,
                max_at(scene, to)?,
                slot,
            )
        }
        (VAL, [Arg::Value(text), Arg::Place(to), Arg::Place(place)]) => {
            let (host, place) = (host_at(scene, to)?, host_at(scene, place)?);
            val_stored(scene, form_of(scene, text)?, host, place, slot)
        }
        (NEW, [Arg::Place(to)]) => { block_made(scene, &scene.sort_of_place(to)?.target()?, slot) }
        (DISPOSE, [Arg::Value(pointer)]) => { block_freed(scene, &scene.target_of(pointer)?, slot) }
        _ => Err(AllocError),
    }
}

/// A call of a standard procedure.
pub fn lower_procedure(
    scene: &Scene,
    number: u32,
    args: &[Arg],
    spot: Spot,
) -> Result<FlatList, AllocError> {
    let code = lower_args(scene, args, spot)?;
    then(code, performed(scene, number, args, spot.slot)?)
}
