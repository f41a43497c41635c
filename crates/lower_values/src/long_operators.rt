//! Operators on LongInts.

ghost use Rattle.std.specs.Prelude.{◌≡◌, IfOk};
ghost use Rattle.flat_code.specs.View.{view_exprs, view_list};
ghost use Rattle.lower_values.specs.LongOperators.{long_result, told, on_bits, long_shift, long_binary, long_negation, long_unary};

use crate::forms::{Form, high_in, low_in, low_word, next_slot, two_longs, word_in};
use crate::nodes::{not, pair, single, with_result};
use flat_code::flat_builders::{op, set};
use flat_code::{FlatExpr, FlatExprs, FlatList, FlatOp};
use lower_places::Scene;
use runtime_units::numbers::RuntimeRoutine;
use std::alloc::AllocError;
use typed_tree::{BinaryOp, UnaryOp};

/// A routine of the runtime gives a LongInt to a slot.
pub fn long_result(
    scene: &Scene,
    routine: RuntimeRoutine,
    args: FlatExprs,
    slot: u32,
) -> Result<FlatList, AllocError>
    ensures { IfOk result (λ list. view_list list.items ≡ long_result scene.now.locals routine (view_exprs args.items) slot) }
{
    let at = scene.slot_at(slot, 4)?;
    single(scene.alloc, with_result(routine, args, at, 4))
}

/// A routine of the runtime gives a truth value to a slot, or what is contrary to it.
pub fn told(
    scene: &Scene,
    routine: RuntimeRoutine,
    args: FlatExprs,
    contrary: bool,
    slot: u32,
) -> Result<FlatList, AllocError>
    ensures { IfOk result (λ list. view_list list.items ≡ told scene.now.locals routine (view_exprs args.items) contrary slot) }
{
    let alloc = scene.alloc;
    let at = scene.slot_at(slot, 2)?;
    let tell = with_result(routine, args, at, 2);
    if contrary {
        pair(alloc, tell, set(at, not(alloc, word_in(scene, slot)?)?))
    } else {
        single(alloc, tell)
    }
}

// An operator on bits, of the words of both.
fn on_bits(scene: &Scene, one: FlatOp, slot: u32) -> Result<FlatList, AllocError>
    ensures { IfOk result (λ list. view_list list.items ≡ on_bits scene.now.locals one slot) }
{
    let alloc = scene.alloc;
    let other = next_slot(slot, 4)?;
    let low = op(alloc, one, low_in(scene, slot)?, low_in(scene, other)?)?;
    let high = op(alloc, one, high_in(scene, slot)?, high_in(scene, other)?)?;
    pair(
        alloc,
        set(scene.slot_at(slot, 4)?, low),
        set(scene.slot_at(slot, 2)?, high),
    )
}

/// A shift of the LongInt in a slot by the ordinal in the next one.
pub fn long_shift(
    scene: &Scene,
    operator: BinaryOp,
    right: Form,
    slot: u32,
) -> Result<FlatList, AllocError>
    ensures { IfOk result (λ list. view_list list.items ≡ long_shift scene.now.locals operator right slot) }
{
    let args = vec![in scene.alloc;
        low_in(scene, slot)?,
        high_in(scene, slot)?,
        low_word(scene, right, next_slot(slot, 4)?)?,
    ]?;
    match operator {
        BinaryOp::ShiftLeft => long_result(scene, RuntimeRoutine::LeftShift, args, slot),
        BinaryOp::ShiftRight => long_result(scene, RuntimeRoutine::RightShift, args, slot),
        _ => Err(AllocError),
    }
}

/// An operator on the LongInts in two slots, one behind the other.
pub fn long_binary(scene: &Scene, operator: BinaryOp, slot: u32) -> Result<FlatList, AllocError>
    ensures { IfOk result (λ list. view_list list.items ≡ long_binary scene.now.locals operator slot) }
{
    let other = next_slot(slot, 4)?;
    let onward = two_longs(scene, slot, other)?;
    let back = two_longs(scene, other, slot)?;
    match operator {
        BinaryOp::Add => long_result(scene, RuntimeRoutine::Sum, onward, slot),
        BinaryOp::Subtract => long_result(scene, RuntimeRoutine::Difference, onward, slot),
        BinaryOp::Multiply => long_result(scene, RuntimeRoutine::Product, onward, slot),
        BinaryOp::Divide => long_result(scene, RuntimeRoutine::Quotient, onward, slot),
        BinaryOp::Modulo => long_result(scene, RuntimeRoutine::Remainder, onward, slot),
        BinaryOp::And => on_bits(scene, FlatOp::And, slot),
        BinaryOp::Or => on_bits(scene, FlatOp::Or, slot),
        BinaryOp::Xor => on_bits(scene, FlatOp::Xor, slot),
        BinaryOp::Equal => told(scene, RuntimeRoutine::Equal, onward, false, slot),
        BinaryOp::NotEqual => told(scene, RuntimeRoutine::Equal, onward, true, slot),
        BinaryOp::Less => told(scene, RuntimeRoutine::Less, onward, false, slot),
        BinaryOp::LessOrEqual => told(scene, RuntimeRoutine::Less, back, true, slot),
        BinaryOp::Greater => told(scene, RuntimeRoutine::Less, back, false, slot),
        BinaryOp::GreaterOrEqual => told(scene, RuntimeRoutine::Less, onward, true, slot),
        BinaryOp::ShiftLeft | BinaryOp::ShiftRight | BinaryOp::In => Err(AllocError),
    }
}

/// The negative of the LongInt in a slot.
pub fn long_negation(scene: &Scene, slot: u32) -> Result<FlatList, AllocError>
    ensures { IfOk result (λ list. view_list list.items ≡ long_negation scene.now.locals slot) }
{
    let args = vec![in scene.alloc; low_in(scene, slot)?, high_in(scene, slot)?]?;
    long_result(scene, RuntimeRoutine::Negation, args, slot)
}

/// An operator on the LongInt in a slot.
pub fn long_unary(scene: &Scene, operator: UnaryOp, slot: u32) -> Result<FlatList, AllocError>
    ensures { IfOk result (λ list. view_list list.items ≡ long_unary scene.now.locals operator slot) }
{
    let alloc = scene.alloc;
    match operator {
        UnaryOp::Plus => Ok(Vec::new(alloc)),
        UnaryOp::Minus => long_negation(scene, slot),
        UnaryOp::Not => {
            let low = op(
                alloc,
                FlatOp::Xor,
                low_in(scene, slot)?,
                FlatExpr::Number(0xffff),
            )?;
            let high = op(
                alloc,
                FlatOp::Xor,
                high_in(scene, slot)?,
                FlatExpr::Number(0xffff),
            )?;
            pair(
                alloc,
                set(scene.slot_at(slot, 4)?, low),
                set(scene.slot_at(slot, 2)?, high),
            )
        }
    }
}
