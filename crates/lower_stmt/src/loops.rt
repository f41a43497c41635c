//! Loops. `Leave 1` leaves the innermost one.

ghost use Rattle.std.specs.Prelude.{◌≡◌, IfOk};
ghost use Rattle.flat_code.specs.View.{view_list};
ghost use Rattle.lower_places.specs.Reaches.{scratch_address};
ghost use Rattle.lower_stmt.specs.Loops.{leave, while_held, repeated, turned, turns, counted};

use crate::counters::{Counter, bounds_tested, is_last, less, stepped};
use flat_code::flat_builders::{repeat, then, when};
use flat_code::{FlatList, FlatStmt};
use lower_places::{Reach, Scene};
use lower_values::{pair, single, slot_place, store, word_in};
use std::alloc::{AllocError, Global};

fn leave(alloc: Global) -> Result<FlatList, AllocError>
    ensures { IfOk result (λ list. view_list list.items ≡ leave) }
{
    single(alloc, FlatStmt::Leave { loops: 1 })
}

/// A `while` by the truth value in a slot. The body has a loop of its own, whose turn comes between the test and the body.
pub fn while_held(
    scene: &Scene,
    test: FlatList,
    body: FlatList,
    slot: u32,
) -> Result<FlatList, AllocError>
    ensures { IfOk result (λ list. view_list list.items ≡ while_held scene.now.locals (view_list test.items) (view_list body.items) slot) }
{
    let alloc = scene.alloc;
    let turn = single(alloc, repeat(then(body, leave(alloc)?)?))?;
    let word = word_in(scene, slot)?;
    let chosen = single(alloc, when(word, turn, leave(alloc)?))?;
    single(alloc, repeat(then(test, chosen)?))
}

/// A `repeat` by the truth value in a slot.
pub fn repeated(
    scene: &Scene,
    body: FlatList,
    test: FlatList,
    slot: u32,
) -> Result<FlatList, AllocError>
    ensures { IfOk result (λ list. view_list list.items ≡ repeated scene.now.locals (view_list body.items) (view_list test.items) slot) }
{
    let alloc = scene.alloc;
    let word = word_in(scene, slot)?;
    let end = single(alloc, when(word, leave(alloc)?, Vec::new(alloc)))?;
    single(alloc, repeat(then(body, then(test, end)?)?))
}

/// How a `for` counts.
#[derive(Clone, Copy)]
pub struct Counting {
    pub counter: Counter,
    pub down: bool,
    pub checked: bool,
}

/// The end of a turn: the variable is compared with the last value, which stands in a slot, and stepped.
fn turned(scene: &Scene, counter: Counter, down: bool, slot: u32) -> Result<FlatList, AllocError>
    ensures { IfOk result (λ list. view_list list.items ≡ turned scene.now.locals counter.host counter.at down slot (scratch_address scene.now.unit.now 0)) }
{
    let alloc = scene.alloc;
    let (test, ended) = is_last(scene, counter, slot)?;
    let on = single(alloc, stepped(scene, counter, down)?)?;
    let chosen = single(alloc, when(ended, leave(alloc)?, on))?;
    then(test, chosen)
}

/// The turns of a `for` whose first value, in a slot, isn't past its last one, in the next slot. That one moves down.
fn turns(
    scene: &Scene,
    counting: Counting,
    body: FlatList,
    slot: u32,
) -> Result<FlatList, AllocError>
    ensures { IfOk result (λ list. view_list list.items ≡ turns scene.now.locals counting.counter.host counting.counter.low counting.counter.high counting.counter.at counting.down (view_list body.items) slot (scratch_address scene.now.unit.now 0)) }
{
    let Counting { counter, down, .. } = counting;
    let bytes = counter.form().bytes();
    let next = slot.checked_add(bytes).ok_or(AllocError)?;
    let to = Reach::At(counter.at);
    let begun = store(scene, to, counter.shape(), slot, false)?;
    let moved = FlatStmt::Copy {
        to: slot_place(scene, slot, bytes)?,
        from: slot_place(scene, next, bytes)?,
        bytes: (bytes % 0x1_0000) as u16,
    };
    let turn = then(body, turned(scene, counter, down, slot)?)?;
    then(begun, pair(scene.alloc, moved, repeat(turn))?)
}

/// A `for`, behind code that leaves its first value in a slot and the last one in the next.
pub fn counted(
    scene: &Scene,
    counting: Counting,
    bounds: FlatList,
    body: FlatList,
    slot: u32,
) -> Result<FlatList, AllocError>
    ensures { IfOk result (λ list. view_list list.items ≡ counted scene.now.locals counting.counter.host counting.counter.low counting.counter.high counting.counter.at counting.down counting.checked (view_list bounds.items) (view_list body.items) slot (scratch_address scene.now.unit.now 0)) }
{
    let alloc = scene.alloc;
    let form = counting.counter.form();
    let next = slot.checked_add(form.bytes()).ok_or(AllocError)?;
    let (least, greatest) = if counting.down {
        (next, slot)
    } else {
        (slot, next)
    };
    let (test, is_past) = less(scene, form, greatest, least)?;
    let tests = if counting.checked {
        bounds_tested(scene, counting.counter, least, greatest)?
    } else {
        Vec::new(alloc)
    };
    let all = then(tests, turns(scene, counting, body, slot)?)?;
    let chosen = single(alloc, when(is_past, Vec::new(alloc), all))?;
    then(bounds, then(test, chosen)?)
}
