//! Operators on sets, and sets that are made of elements.

ghost use Rattle.std.specs.Prelude.{◌≡◌, IfOk, [], ◌∷◌};
ghost use Rattle.flat_code.specs.View.{view_expr, view_exprs, view_list};
ghost use Rattle.lower_values.specs.Sets.{places, combined, compared, set_binary, membership, emptied, included, with_element, outside, compare_of, is_empty, with_span};

use crate::forms::{Form, long_words, low_word, next_slot, slot_place, word_in};
use crate::long_operators::told;
use crate::nodes::{clear, runtime, single};
use flat_code::flat_builders::{op, when};
use flat_code::{Address, FlatExpr, FlatExprs, FlatList, FlatOp};
use lower_places::Scene;
use runtime_units::numbers::RuntimeRoutine;
use std::alloc::{AllocError, Global};
use type_layout::Host;
use typed_tree::BinaryOp;

// The segments and the offsets of two places.
fn places(alloc: Global, one: Address, other: Address) -> Result<FlatExprs, AllocError>
    ensures { IfOk result (λ exprs. view_exprs exprs.items ≡ places (one ∷ other ∷ [])) }
{
    Ok(vec![in alloc;
        FlatExpr::SegmentOf(one),
        FlatExpr::AddressOf(one),
        FlatExpr::SegmentOf(other),
        FlatExpr::AddressOf(other),
    ]?)
}

fn combined(scene: &Scene, routine: RuntimeRoutine, slot: u32) -> Result<FlatList, AllocError>
    ensures { IfOk result (λ list. view_list list.items ≡ combined scene.now.locals routine slot) }
{
    let left = slot_place(scene, slot, 32)?;
    let right = slot_place(scene, next_slot(slot, 32)?, 32)?;
    let args = vec![in scene.alloc;
        FlatExpr::SegmentOf(left),
        FlatExpr::AddressOf(left),
        FlatExpr::SegmentOf(left),
        FlatExpr::AddressOf(left),
        FlatExpr::SegmentOf(right),
        FlatExpr::AddressOf(right),
    ]?;
    single(scene.alloc, runtime(routine, args))
}

fn compared(
    scene: &Scene,
    routine: RuntimeRoutine,
    onward: bool,
    contrary: bool,
    slot: u32,
) -> Result<FlatList, AllocError>
    ensures { IfOk result (λ list. view_list list.items ≡ compared scene.now.locals routine onward contrary slot) }
{
    let left = slot_place(scene, slot, 32)?;
    let right = slot_place(scene, next_slot(slot, 32)?, 32)?;
    let args = if onward {
        places(scene.alloc, left, right)?
    } else {
        places(scene.alloc, right, left)?
    };
    told(scene, routine, args, contrary, slot)
}

/// An operator on the sets in two slots, one behind the other.
pub fn set_binary(scene: &Scene, operator: BinaryOp, slot: u32) -> Result<FlatList, AllocError>
    ensures { IfOk result (λ list. view_list list.items ≡ set_binary scene.now.locals operator slot) }
{
    match operator {
        BinaryOp::Add => combined(scene, RuntimeRoutine::Union, slot),
        BinaryOp::Subtract => combined(scene, RuntimeRoutine::SetDifference, slot),
        BinaryOp::Multiply => combined(scene, RuntimeRoutine::Intersection, slot),
        BinaryOp::Equal => compared(scene, RuntimeRoutine::SameSet, true, false, slot),
        BinaryOp::NotEqual => compared(scene, RuntimeRoutine::SameSet, true, true, slot),
        BinaryOp::LessOrEqual => compared(scene, RuntimeRoutine::Subset, true, false, slot),
        BinaryOp::GreaterOrEqual => compared(scene, RuntimeRoutine::Subset, false, false, slot),
        _ => Err(AllocError),
    }
}

/// Whether the ordinal in a slot is an element of the set in the next one.
pub fn membership(scene: &Scene, left: Form, slot: u32) -> Result<FlatList, AllocError>
    ensures { IfOk result (λ list. view_list list.items ≡ membership scene.now.locals left slot) }
{
    let (low, high) = long_words(scene, left, slot)?;
    let set = slot_place(scene, next_slot(slot, left.bytes())?, 32)?;
    let args = vec![in scene.alloc;
        low,
        high,
        FlatExpr::SegmentOf(set),
        FlatExpr::AddressOf(set),
    ]?;
    told(scene, RuntimeRoutine::Member, args, false, slot)
}

/// The set in a slot becomes empty.
pub fn emptied(scene: &Scene, slot: u32) -> Result<FlatList, AllocError>
    ensures { IfOk result (λ list. view_list list.items ≡ emptied scene.now.locals slot) }
{
    single(
        scene.alloc,
        clear(scene.alloc, scene.slot_at(slot, 32)?, 32)?,
    )
}

/// The set in a slot gets the ordinals from one word to another.
pub fn included(
    scene: &Scene,
    set: u32,
    low: FlatExpr,
    high: FlatExpr,
) -> Result<FlatList, AllocError>
    ensures { IfOk result (λ list. view_list list.items ≡ included scene.now.locals set (view_expr low) (view_expr high)) }
{
    let to = slot_place(scene, set, 32)?;
    let args = vec![in scene.alloc; FlatExpr::SegmentOf(to), FlatExpr::AddressOf(to), low, high]?;
    single(scene.alloc, runtime(RuntimeRoutine::Include, args))
}

/// The set in a slot gets the ordinal in another slot.
pub fn with_element(scene: &Scene, set: u32, form: Form, slot: u32) -> Result<FlatList, AllocError>
    ensures { IfOk result (λ list. view_list list.items ≡ with_element scene.now.locals set form slot) }
{
    included(
        scene,
        set,
        low_word(scene, form, slot)?,
        low_word(scene, form, slot)?,
    )
}

// A word that is 0 where an ordinal in a slot lies in 0..65535.
fn outside(scene: &Scene, form: Form, slot: u32) -> Result<FlatExpr, AllocError>
    ensures { IfOk result (λ expr. view_expr expr ≡ outside scene.now.locals form slot) }
{
    match form {
        Form::Word(host) if host.least() < 0 => op(
            scene.alloc,
            FlatOp::Less,
            word_in(scene, slot)?,
            FlatExpr::Number(0),
        ),
        Form::Word(_) => Ok(FlatExpr::Number(0)),
        Form::Long => word_in(scene, slot),
        _ => Err(AllocError),
    }
}

// Whether two ordinals are words that are compared in one way.
fn compare_of(low: Form, high: Form) -> Option<FlatOp>
    ensures { result ≡ compare_of low high }
{
    match (low, high) {
        (Form::Word(one), Form::Word(other)) => {
            if (one.least() < 0) == (other.least() < 0) {
                Some(if one.least() < 0 {
                    FlatOp::Less
                } else {
                    FlatOp::Below
                })
            } else {
                None
            }
        }
        _ => None,
    }
}

// Not 0 where a range adds no elements, or is out of all bounds.
fn is_empty(scene: &Scene, low: Form, high: Form, slot: u32) -> Result<FlatExpr, AllocError>
    ensures { IfOk result (λ expr. view_expr expr ≡ is_empty scene.now.locals low high slot) }
{
    let alloc = scene.alloc;
    let next = next_slot(slot, low.bytes())?;
    let first = low_word(scene, low, slot)?;
    let last = low_word(scene, high, next)?;
    if let Some(less) = compare_of(low, high) {
        return op(alloc, less, last, first);
    }
    let past = op(alloc, FlatOp::Below, last, first)?;
    let bounds = op(
        alloc,
        FlatOp::Or,
        outside(scene, low, slot)?,
        outside(scene, high, next)?,
    )?;
    op(alloc, FlatOp::Or, bounds, past)
}

/// The set in a slot gets the ordinals from one to another, in two further slots. A range that is empty adds none, whatever
/// its bounds are.
pub fn with_span(
    scene: &Scene,
    set: u32,
    low: Form,
    high: Form,
    slot: u32,
) -> Result<FlatList, AllocError>
    ensures { IfOk result (λ list. view_list list.items ≡ with_span scene.now.locals set low high slot) }
{
    let alloc = scene.alloc;
    let first = low_word(scene, low, slot)?;
    let last = low_word(scene, high, next_slot(slot, low.bytes())?)?;
    let test = is_empty(scene, low, high, slot)?;
    single(
        alloc,
        when(test, Vec::new(alloc), included(scene, set, first, last)?),
    )
}
