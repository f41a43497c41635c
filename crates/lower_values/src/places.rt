//! Elements and fields of places.

ghost use Rattle.std.specs.Prelude.{◌≡◌, IfOk};
ghost use Rattle.flat_code.specs.View.{view_expr, view_list};
ghost use Rattle.lower_values.specs.Places.{distance, moved_on, indexed, inside, through};

use crate::conversions::ranged;
use crate::forms::{Form, low_word, next_slot};
use crate::nodes::{number, single};
use flat_code::flat_builders::{op, set, then, word};
use flat_code::{Address, FlatExpr, FlatList, FlatOp, FlatStmt};
use lower_places::{Reach, Scene, further};
use std::alloc::{AllocError, Global};

// How many bytes an element lies behind the first one.
fn distance(alloc: Global, index: FlatExpr, low: i32, size: u32) -> Result<FlatExpr, AllocError>
    ensures { IfOk result (λ expr. view_expr expr ≡ distance (view_expr index) low size) }
{
    let count = if low == 0 {
        index
    } else {
        op(alloc, FlatOp::Sub, index, number(low))?
    };
    if size == 1 {
        Ok(count)
    } else {
        let bytes = FlatExpr::Number((size % 0x1_0000) as u16);
        op(alloc, FlatOp::Mul, count, bytes)
    }
}

fn moved_on(
    scene: &Scene,
    index: Form,
    low: i32,
    size: u32,
    slot: u32,
) -> Result<FlatList, AllocError>
    ensures { IfOk result (λ list. view_list list.items ≡ moved_on scene.now.locals index low size slot) }
{
    let alloc = scene.alloc;
    let next = next_slot(slot, 4)?;
    let bytes = distance(alloc, low_word(scene, index, next)?, low, size)?;
    let at = scene.slot_at(slot, 4)?;
    single(alloc, set(at, op(alloc, FlatOp::Add, word(at), bytes)?))
}

/// The far pointer in a slot of 4 bytes goes on to an element, of so many bytes, of an array or a string with these bounds,
/// whose index lies in the next slot. With `checked`, an index outside the bounds is error 201.
pub fn indexed(
    scene: &Scene,
    bounds: (i32, i32),
    size: u32,
    index: Form,
    checked: bool,
    slot: u32,
) -> Result<FlatList, AllocError>
    ensures { IfOk result (λ list. view_list list.items ≡ indexed scene.now.locals bounds size index checked slot) }
{
    let moved = moved_on(scene, index, bounds.0, size, slot)?;
    if !checked {
        return Ok(moved);
    }
    let tested = ranged(scene, index, bounds.0, bounds.1, next_slot(slot, 4)?)?;
    then(tested, moved)
}

/// What lies so many bytes into a place; a far pointer that lies in the record of another activation comes to the slot first.
pub fn inside(
    scene: &Scene,
    reach: Reach,
    offset: u16,
    slot: u32,
) -> Result<(FlatList, Reach), AllocError>
    ensures { IfOk result (λ found. (view_list found.0.items, found.1) ≡ inside scene.now.locals reach offset slot) }
{
    match reach {
        Reach::At(at) => Ok((Vec::new(scene.alloc), Reach::At(further(at, offset)?))),
        Reach::Beyond(from) => {
            let at = scene.slot_at(slot, 4)?;
            let fetched = FlatStmt::Copy {
                to: Address::Local(at),
                from,
                bytes: 4,
            };
            Ok((
                single(scene.alloc, fetched)?,
                Reach::At(Address::Through {
                    slot: at,
                    plus: offset,
                }),
            ))
        }
    }
}

/// What the far pointer in a slot of 4 bytes leads to.
pub fn through(scene: &Scene, slot: u32) -> Result<Reach, AllocError>
    ensures { IfOk result (λ reach. reach ≡ through scene.now.locals slot) }
{
    let slot = scene.slot_at(slot, 4)?;
    Ok(Reach::At(Address::Through { slot, plus: 0 }))
}
