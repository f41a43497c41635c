//! Standard functions of strings, behind their arguments.

ghost use Rattle.std.specs.Prelude.{◌≡◌, IfOk};
ghost use Rattle.typed_tree.specs.Expressions.{view_expr as view_tree, view_args};
ghost use Rattle.flat_code.specs.View.{view_expr, view_list};
ghost use Rattle.lower_values.specs.TextFunctions.{length_at, length_of, copied, found, behind_all, added, chained};

use crate::access::load_word;
use crate::forms::{Form, form_of, long_words, next_slot, slot_of_arg, slot_place, text_words};
use crate::nodes::{pair, runtime, single, with_result};
use crate::texts::joined;
use flat_code::flat_builders::then;
use flat_code::{Address, FlatExpr, FlatList, FlatStmt};
use lower_places::{Reach, Scene};
use runtime_units::numbers::RuntimeRoutine;
use std::alloc::AllocError;
use type_layout::Host;
use typed_tree::{Arg, Expr};

/// The length of the string at a place goes to a slot.
pub fn length_at(scene: &Scene, from: Reach, slot: u32) -> Result<FlatList, AllocError>
    ensures { IfOk result (λ list. view_list list.items ≡ length_at scene.now.locals from slot) }
{
    load_word(scene, from, Host::Byte, slot)
}

/// The length of the string in a slot goes to that slot.
pub fn length_of(scene: &Scene, form: Form, slot: u32) -> Result<FlatList, AllocError>
    ensures { IfOk result (λ list. view_list list.items ≡ length_of scene.now.locals form slot) }
{
    let from = match form {
        Form::Text => slot_place(scene, slot, 256)?,
        Form::Literal => Address::Through {
            slot: scene.slot_at(slot, 4)?,
            plus: 0,
        },
        _ => return Err(AllocError),
    };
    length_at(scene, Reach::At(from), slot)
}

/// A piece of the string in a slot, by the two ordinals behind it, comes to that slot.
pub fn copied(
    scene: &Scene,
    text: &Expr,
    place: &Expr,
    count: &Expr,
    slot: u32,
) -> Result<FlatList, AllocError>
    ensures { IfOk result (λ list. view_list list.items ≡ copied scene.now.locals scene.now.unit.now.types.types (view_tree text.now) (view_tree place.now) (view_tree count.now) slot) }
{
    let form = form_of(scene, text)?;
    let place_form = form_of(scene, place)?;
    let place_slot = next_slot(slot, form.bytes())?;
    let count_slot = next_slot(place_slot, place_form.bytes())?;
    let to = slot_place(scene, slot, 256)?;
    let from = text_words(scene, form, slot)?;
    let first = long_words(scene, place_form, place_slot)?;
    let bytes = long_words(scene, form_of(scene, count)?, count_slot)?;
    let args = vec![in scene.alloc;
        FlatExpr::SegmentOf(to),
        FlatExpr::AddressOf(to),
        from.0,
        from.1,
        first.0,
        first.1,
        bytes.0,
        bytes.1,
    ]?;
    single(scene.alloc, runtime(RuntimeRoutine::Copy, args))
}

/// Where the string in a slot stands first in the one behind it, or 0, comes to that slot.
pub fn found(scene: &Scene, part: &Expr, text: &Expr, slot: u32) -> Result<FlatList, AllocError>
    ensures { IfOk result (λ list. view_list list.items ≡ found scene.now.locals scene.now.unit.now.types.types (view_tree part.now) (view_tree text.now) slot) }
{
    let form = form_of(scene, part)?;
    let first = text_words(scene, form, slot)?;
    let next = next_slot(slot, form.bytes())?;
    let second = text_words(scene, form_of(scene, text)?, next)?;
    let args = vec![in scene.alloc; first.0, first.1, second.0, second.1]?;
    let at = scene.slot_at(slot, 2)?;
    single(scene.alloc, with_result(RuntimeRoutine::Pos, args, at, 2))
}

// The slot behind all arguments.
fn behind_all(scene: &Scene, args: &[Arg], slot: u32) -> Result<u32, AllocError>
    ensures { IfOk result (λ behind. behind ≡ behind_all scene.now.unit.now.types.types (view_args args.now) slot) }
{
    match args {
        [] => Ok(slot),
        [one, rest @ ..] => {
            let next = next_slot(slot, slot_of_arg(&scene.unit.types, one))?;
            behind_all(scene, rest, next)
        }
    }
}

// An empty string, for what begins with none.
fn empty(scene: &Scene) -> Result<(FlatExpr, FlatExpr), AllocError> {
    let scratch = scene.scratch(0)?;
    Ok((FlatExpr::SegmentOf(scratch), FlatExpr::AddressOf(scratch)))
}

// A string in a slot is joined to what stands at a place.
fn added(scene: &Scene, text: &Expr, slot: u32, to: Address) -> Result<FlatList, AllocError>
    ensures { IfOk result (λ list. view_list list.items ≡ added scene.now.locals scene.now.unit.now.types.types (view_tree text.now) slot to) }
{
    let first = (FlatExpr::SegmentOf(to), FlatExpr::AddressOf(to));
    joined(
        scene,
        to,
        first,
        text_words(scene, form_of(scene, text)?, slot)?,
    )
}

// The strings in slots one behind the other are joined to what stands at a place behind them all.
fn chained(scene: &Scene, args: &[Arg], slot: u32, to: Address) -> Result<FlatList, AllocError>
    ensures { IfOk result (λ list. view_list list.items ≡ chained scene.now.locals scene.now.unit.now.types.types (view_args args.now) slot to) }
{
    match args {
        [] => Ok(Vec::new(scene.alloc)),
        [Arg::Value(text), rest @ ..] => {
            let one = added(scene, text, slot, to)?;
            let next = next_slot(slot, form_of(scene, text)?.bytes())?;
            then(one, chained(scene, rest, next, to)?)
        }
        _ => Err(AllocError),
    }
}

/// All strings are joined behind them, and go from there to the first slot, upward.
pub fn concatenated(scene: &Scene, args: &[Arg], slot: u32) -> Result<FlatList, AllocError> {
    let alloc = scene.alloc;
    let behind = slot_place(scene, behind_all(scene, args, slot)?, 256)?;
    let start = pair(
        alloc,
        FlatStmt::StoreByte {
            to: behind,
            value: FlatExpr::Number(0),
        },
        FlatStmt::StoreByte {
            to: scene.scratch(0)?,
            value: FlatExpr::Number(0),
        },
    )?;
    let made = then(start, chained(scene, args, slot, behind)?)?;
    let result = (FlatExpr::SegmentOf(behind), FlatExpr::AddressOf(behind));
    let moved = joined(scene, slot_place(scene, slot, 256)?, empty(scene)?, result)?;
    then(made, moved)
}
