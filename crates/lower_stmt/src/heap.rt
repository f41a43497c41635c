//! New and Dispose.

ghost use Rattle.std.specs.Prelude.{◌≡◌, IfOk};
ghost use Rattle.flat_code.specs.Tree.{Code, Do};
ghost use Rattle.flat_code.specs.View.{view_expr, view_list, view_stmt};
ghost use Rattle.lower_places.specs.Reaches.{scratch_address};
ghost use Rattle.lower_stmt.specs.Heap.{made, freed, nil_refused, instance_freed};

use crate::procedures::through;
use crate::words::compute;
use flat_code::flat_builders::{op, then, when};
use flat_code::{FlatExpr, FlatList, FlatOp, FlatStmt};
use lower_expr::{call_destructor, lower_args, lower_expr};
use lower_places::{Scene, Sort, Spot, literals_of_expr};
use lower_values::{clear_at, high_in, low_in, runtime, single};
use runtime_units::numbers::RuntimeRoutine;
use std::alloc::AllocError;
use typed_tree::{Arg, Destructor, Expr};

/// A new block of so many bytes for the pointer variable to which the far pointer in a slot leads. With `cleared` it begins as
/// zeros, so that an instance in it has no class.
fn made(scene: &Scene, size: u16, cleared: bool, slot: u32) -> Result<FlatList, AllocError>
    ensures { IfOk result (λ list. view_list list.items ≡ made scene.now.locals size cleared slot) }
{
    let alloc = scene.alloc;
    let to = through(scene, slot, 0)?;
    let args = vec![in alloc; FlatExpr::Number(size)]?;
    let made = single(alloc, compute(RuntimeRoutine::New, args, to, 4))?;
    if !cleared {
        return Ok(made);
    }
    let segment = FlatExpr::Word(through(scene, slot, 2)?);
    let zeros = clear_at(alloc, segment, FlatExpr::Word(to), size)?;
    then(made, single(alloc, zeros)?)
}

/// New for a pointer variable, to which the far pointer in a slot leads.
pub fn block_made(scene: &Scene, target: &Sort, slot: u32) -> Result<FlatList, AllocError> {
    let size = (target.size() % 0x1_0000) as u16;
    made(scene, size, target.holds_class(), slot)
}

/// The block of so many bytes is freed to which the pointer in a slot leads.
fn freed(scene: &Scene, size: FlatExpr, slot: u32) -> Result<FlatStmt, AllocError>
    ensures { IfOk result (λ stmt. (next : Code) → view_stmt stmt next ≡ Do (freed scene.now.locals (view_expr size) slot) next) }
{
    let args = vec![in scene.alloc; high_in(scene, slot)?, low_in(scene, slot)?, size]?;
    Ok(runtime(RuntimeRoutine::Dispose, args))
}

/// Dispose of the block to which the pointer in a slot leads, by the size of the type that it points to.
pub fn block_freed(scene: &Scene, target: &Sort, slot: u32) -> Result<FlatList, AllocError> {
    let size = FlatExpr::Number((target.size() % 0x1_0000) as u16);
    single(scene.alloc, freed(scene, size, slot)?)
}

/// Error 204 where the pointer in a slot is nil.
fn nil_refused(scene: &Scene, slot: u32) -> Result<FlatList, AllocError>
    ensures { IfOk result (λ list. view_list list.items ≡ nil_refused scene.now.locals slot) }
{
    let alloc = scene.alloc;
    let test = op(
        alloc,
        FlatOp::Or,
        low_in(scene, slot)?,
        high_in(scene, slot)?,
    )?;
    let error = single(alloc, FlatStmt::Error(204))?;
    single(alloc, when(test, Vec::new(alloc), error))
}

/// The block to which the pointer in a slot leads is freed by the size of the class that its instance says so many bytes
/// on.
fn instance_freed(scene: &Scene, class: u16, slot: u32) -> Result<FlatList, AllocError>
    ensures { IfOk result (λ list. view_list list.items ≡ instance_freed scene.now.locals class (scratch_address scene.now.unit.now 0) slot) }
{
    let alloc = scene.alloc;
    let scratch = scene.scratch(0)?;
    let args = vec![in alloc;
        high_in(scene, slot)?,
        low_in(scene, slot)?,
        FlatExpr::Number(class),
        FlatExpr::SegmentOf(scratch),
    ]?;
    let size = single(alloc, compute(RuntimeRoutine::ClassSize, args, scratch, 2))?;
    let freed = freed(scene, FlatExpr::Word(scratch), slot)?;
    then(size, single(alloc, freed)?)
}

/// Dispose with a destructor. The pointer stays in the slot of the spot.
pub fn lower_unmake(
    scene: &Scene,
    pointer: &Expr,
    destructor: Destructor,
    args: &[Arg],
    spot: Spot,
) -> Result<FlatList, AllocError> {
    let target = scene.target_of(pointer)?;
    let class = target.class_offset().ok_or(AllocError)?;
    let code = lower_expr(scene, pointer, spot)?;
    let code = then(code, nil_refused(scene, spot.slot)?)?;
    let behind = spot.above(4).after(literals_of_expr(pointer));
    let code = then(code, lower_args(scene, args, behind)?)?;
    let called = call_destructor(scene, destructor, &target, args, spot.slot)?;
    then(
        code,
        then(called, instance_freed(scene, class, spot.slot)?)?,
    )
}
