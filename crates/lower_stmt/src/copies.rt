//! Copies of records, arrays and objects.

ghost use Rattle.std.specs.Prelude.{◌≡◌, IfOk};
ghost use Rattle.flat_code.specs.View.{view_list};
ghost use Rattle.lower_stmt.specs.Copies.{part_copied, copied};

use flat_code::flat_builders::then;
use flat_code::{Address, FlatList, FlatStmt};
use lower_expr::lower_place;
use lower_places::{Reach, Scene, Shape, Spot, further, literals_of_place};
use lower_values::{point, single};
use std::alloc::{AllocError, Global};
use typed_tree::PlaceExpr;

/// Code that finds a place, with slots from a spot on, and its address behind that. A far pointer in the record of another activation
/// comes to the slot of the spot first.
pub fn found(
    scene: &Scene,
    place: &PlaceExpr,
    spot: Spot,
) -> Result<(FlatList, Address), AllocError> {
    let (code, reach) = lower_place(scene, place, spot)?;
    match reach {
        Reach::At(at) => Ok((code, at)),
        Reach::Beyond(_) => {
            let slot = scene.slot_at(spot.slot, 4)?;
            let code = then(code, point(scene, reach, spot.slot)?)?;
            Ok((code, Address::Through { slot, plus: 0 }))
        }
    }
}

/// Copies the bytes from a place in a value on, up to another one, if there are any.
fn part_copied(
    alloc: Global,
    to: Address,
    from: Address,
    start: u16,
    end: u16,
) -> Result<FlatList, AllocError>
    ensures { IfOk result (λ list. view_list list.items ≡ part_copied to from start end) }
{
    let bytes = end.saturating_sub(start);
    if bytes == 0 {
        return Ok(Vec::new(alloc));
    }
    let to = further(to, start)?;
    let from = further(from, start)?;
    single(alloc, FlatStmt::Copy { to, from, bytes })
}

/// Copies a structured value of so many bytes. An object keeps the class that it has.
pub fn copied(
    alloc: Global,
    to: Address,
    from: Address,
    size: u16,
    class: Option<u16>,
) -> Result<FlatList, AllocError>
    ensures { IfOk result (λ list. view_list list.items ≡ copied to from size class) }
{
    match class {
        None => part_copied(alloc, to, from, 0, size),
        Some(class) => {
            let front = part_copied(alloc, to, from, 0, class)?;
            let behind = class.checked_add(2).ok_or(AllocError)?;
            then(front, part_copied(alloc, to, from, behind, size)?)
        }
    }
}

/// Copies a record, an array or an object from one place to another.
pub fn lower_copy(
    scene: &Scene,
    to: &PlaceExpr,
    from: &PlaceExpr,
    spot: Spot,
) -> Result<FlatList, AllocError> {
    let Shape::Whole { size, class } = scene.sort_of_place(to)?.shape()? else {
        return Err(AllocError);
    };
    let (first, target) = found(scene, to, spot)?;
    let behind = spot.above(4).after(literals_of_place(to));
    let (second, source) = found(scene, from, behind)?;
    let copies = copied(scene.alloc, target, source, size, class)?;
    then(first, then(second, copies)?)
}
