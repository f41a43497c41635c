//! Operators on strings, and on pointers.

ghost use Rattle.std.specs.Prelude.{◌≡◌, IfOk};
ghost use Rattle.flat_code.specs.View.{view_expr, view_exprs, view_list};
ghost use Rattle.lower_values.specs.Texts.{joined, both, compared, text_binary, pointer_binary};

use crate::forms::{Form, high_in, low_in, next_slot, slot_place, text_words, word_in};
use crate::nodes::{not, pair, runtime, single, with_result};
use crate::word_operators::related;
use flat_code::flat_builders::{op, set};
use flat_code::{Address, FlatExpr, FlatExprs, FlatList, FlatOp};
use lower_places::Scene;
use runtime_units::numbers::RuntimeRoutine;
use std::alloc::AllocError;
use typed_tree::BinaryOp;

/// A string goes to a place of 256 bytes behind another one, cut to 255 bytes.
pub fn joined(
    scene: &Scene,
    to: Address,
    first: (FlatExpr, FlatExpr),
    second: (FlatExpr, FlatExpr),
) -> Result<FlatList, AllocError>
    ensures { IfOk result (λ list. view_list list.items ≡ joined to (view_expr first.0, view_expr first.1) (view_expr second.0, view_expr second.1)) }
{
    let args = vec![in scene.alloc;
        FlatExpr::SegmentOf(to),
        FlatExpr::AddressOf(to),
        first.0,
        first.1,
        second.0,
        second.1,
    ]?;
    single(scene.alloc, runtime(RuntimeRoutine::Concat, args))
}

fn both(scene: &Scene, left: Form, right: Form, slot: u32) -> Result<FlatExprs, AllocError>
    ensures { IfOk result (λ exprs. view_exprs exprs.items ≡ both scene.now.locals left right slot) }
{
    let first = text_words(scene, left, slot)?;
    let second = text_words(scene, right, next_slot(slot, left.bytes())?)?;
    Ok(vec![in scene.alloc; first.0, first.1, second.0, second.1]?)
}

// How two strings are ordered, and then the order against 0.
fn compared(
    scene: &Scene,
    operator: BinaryOp,
    args: FlatExprs,
    slot: u32,
) -> Result<FlatList, AllocError>
    ensures { IfOk result (λ list. view_list list.items ≡ compared scene.now.locals operator (view_exprs args.items) slot) }
{
    let alloc = scene.alloc;
    let at = scene.slot_at(slot, 2)?;
    let order = word_in(scene, slot)?;
    let value = related(alloc, operator, FlatOp::Less, order, FlatExpr::Number(0))?;
    pair(
        alloc,
        with_result(RuntimeRoutine::Compare, args, at, 2),
        set(at, value),
    )
}

/// An operator on the strings in two slots, one behind the other.
pub fn text_binary(
    scene: &Scene,
    operator: BinaryOp,
    left: Form,
    right: Form,
    slot: u32,
) -> Result<FlatList, AllocError>
    ensures { IfOk result (λ list. view_list list.items ≡ text_binary scene.now.locals operator left right slot) }
{
    match operator {
        BinaryOp::Add => {
            let first = text_words(scene, left, slot)?;
            let second = text_words(scene, right, next_slot(slot, left.bytes())?)?;
            joined(scene, slot_place(scene, slot, 256)?, first, second)
        }
        _ => compared(scene, operator, both(scene, left, right, slot)?, slot),
    }
}

/// Whether the far pointers in two slots, one behind the other, are the same.
pub fn pointer_binary(scene: &Scene, operator: BinaryOp, slot: u32) -> Result<FlatList, AllocError>
    ensures { IfOk result (λ list. view_list list.items ≡ pointer_binary scene.now.locals operator slot) }
{
    let alloc = scene.alloc;
    let other = next_slot(slot, 4)?;
    let low = op(
        alloc,
        FlatOp::Equal,
        low_in(scene, slot)?,
        low_in(scene, other)?,
    )?;
    let high = op(
        alloc,
        FlatOp::Equal,
        high_in(scene, slot)?,
        high_in(scene, other)?,
    )?;
    let same = op(alloc, FlatOp::And, low, high)?;
    let value = match operator {
        BinaryOp::Equal => same,
        BinaryOp::NotEqual => not(alloc, same)?,
        _ => return Err(AllocError),
    };
    single(alloc, set(scene.slot_at(slot, 2)?, value))
}
