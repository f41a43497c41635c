//! Pieces and loops of the runtime's routines on strings, as flat code.

ghost use Rattle.std.specs.Prelude.{◌≡◌, IfOk, ℕ, ◌+◌, ◌<◌, List, length, slice_index_or};
ghost use Rattle.flat_code.specs.Memory.{Cells};
ghost use Rattle.flat_code.specs.Tree.{Code, End};
ghost use Rattle.flat_code.specs.View.{view_expr, view_stmt, view_list};
ghost use Rattle.flat_code.specs.Plain.{view_routine};
ghost use Rattle.runtime_proofs.specs.strings_in_memory.Strings.{HasBytes, place};
ghost use Rattle.runtime_proofs.specs.string_loops.Laid.{laid_back};
ghost use Rattle.runtime_proofs.specs.string_loops.Pieces.{behind as behind_code, set_behind as set_behind_code, raise as raise_code, lessen as lessen_code, limit as limit_code, limit_count as limit_count_code, place_before as place_before_code, count_behind as count_behind_code, procedure_of, leave, forward_step, forward_round, forward as forward_code, backward_step, backward_round, backward as backward_code};

use flat_code::flat_builders::{op, repeat, set, when, word};
use flat_code::{Address, FlatExpr, FlatList, FlatOp, FlatRoutine, FlatStmt};
use std::alloc::{AllocError, Global};
use type_layout::Name;

/// The byte so far behind a pointer.
pub fn behind(pointer: i32, plus: u16) -> FlatExpr
    ensures { view_expr result ≡ behind_code pointer plus }
{
    let slot = pointer;
    FlatExpr::Byte(Address::Through { slot, plus })
}

/// Stores a byte so far behind a pointer.
pub fn set_behind(pointer: i32, plus: u16, value: FlatExpr) -> FlatStmt
    ensures { (next : Code) → view_stmt result next ≡ set_behind_code pointer plus (view_expr value) next }
{
    let to = Address::Through {
        slot: pointer,
        plus,
    };
    FlatStmt::StoreByte { to, value }
}

/// Adds a value to a word.
pub fn raise(alloc: Global, at: i32, value: FlatExpr) -> Result<FlatStmt, AllocError>
    ensures { IfOk result (λ stmt. (next : Code) → view_stmt stmt next ≡ raise_code at (view_expr value) next) }
{
    Ok(set(at, op(alloc, FlatOp::Add, word(at), value)?))
}

/// Takes a value off a word.
pub fn lessen(alloc: Global, at: i32, value: FlatExpr) -> Result<FlatStmt, AllocError>
    ensures { IfOk result (λ stmt. (next : Code) → view_stmt stmt next ≡ lessen_code at (view_expr value) next) }
{
    Ok(set(at, op(alloc, FlatOp::Sub, word(at), value)?))
}

/// A word becomes another one where that is less.
pub fn limit(alloc: Global, at: i32, other: i32) -> Result<FlatStmt, AllocError>
    ensures { IfOk result (λ stmt. (next : Code) → view_stmt stmt next ≡ limit_code at other next) }
{
    let less = op(alloc, FlatOp::Below, word(other), word(at))?;
    let taken = vec![in alloc; set(at, word(other))]?;
    Ok(when(less, taken, Vec::new(alloc)))
}

/// A word becomes the count that a LongInt gives, where that is less.
pub fn limit_count(alloc: Global, at: i32, low: i32, high: i32) -> Result<FlatStmt, AllocError>
    ensures { IfOk result (λ stmt. (next : Code) → view_stmt stmt next ≡ limit_count_code at low high next) }
{
    let negative = op(alloc, FlatOp::Less, word(high), FlatExpr::Number(0))?;
    let none = vec![in alloc; set(at, FlatExpr::Number(0))]?;
    let few = vec![in alloc; limit(alloc, at, low)?]?;
    let other = vec![in alloc; when(word(high), Vec::new(alloc), few)]?;
    Ok(when(negative, none, other))
}

/// A word becomes how many bytes of a string stand before the place that a LongInt names, at most all.
pub fn place_before(
    alloc: Global,
    at: i32,
    low: i32,
    high: i32,
    length: i32,
) -> Result<FlatList, AllocError>
    ensures { IfOk result (λ list. view_list list.items ≡ place_before_code at low high length End) }
{
    let most = op(alloc, FlatOp::Add, word(length), FlatExpr::Number(1))?;
    let less = vec![in alloc; lessen(alloc, at, FlatExpr::Number(1))?]?;
    Ok(vec![in alloc;
        set(at, most),
        limit_count(alloc, at, low, high)?,
        when(word(at), less, Vec::new(alloc)),
    ]?)
}

/// A word becomes how many of the bytes behind others a LongInt asks for, at most all.
pub fn count_behind(
    alloc: Global,
    at: i32,
    before: i32,
    low: i32,
    high: i32,
    length: i32,
) -> Result<FlatList, AllocError>
    ensures { IfOk result (λ list. view_list list.items ≡ count_behind_code at before low high length End) }
{
    let most = op(alloc, FlatOp::Sub, word(length), word(before))?;
    Ok(vec![in alloc; set(at, most), limit_count(alloc, at, low, high)?]?)
}

/// A routine of the runtime without a result, with so many bytes of arguments and locals.
pub fn procedure(name: Name, arguments: u32, locals: u32, body: FlatList) -> FlatRoutine
    ensures { view_routine result ≡ procedure_of arguments locals (view_list body.items) }
{
    FlatRoutine {
        name,
        far: true,
        arguments,
        locals,
        frame: 0,
        result: None,
        body,
    }
}

fn leave(alloc: Global) -> Result<FlatList, AllocError>
    ensures { IfOk result (λ list. view_list list.items ≡ leave) }
{
    Ok(vec![in alloc; FlatStmt::Leave { loops: 1 }]?)
}

fn forward_step(alloc: Global, to: i32, from: i32, left: i32) -> Result<FlatList, AllocError>
    ensures { IfOk result (λ list. view_list list.items ≡ forward_step to from left) }
{
    Ok(vec![in alloc;
        set_behind(to, 1, behind(from, 1)),
        raise(alloc, to, FlatExpr::Number(1))?,
        raise(alloc, from, FlatExpr::Number(1))?,
        lessen(alloc, left, FlatExpr::Number(1))?,
    ]?)
}

fn forward_round(alloc: Global, to: i32, from: i32, left: i32) -> Result<FlatList, AllocError>
    ensures { IfOk result (λ list. view_list list.items ≡ forward_round to from left) }
{
    let step = forward_step(alloc, to, from, left)?;
    Ok(vec![in alloc; when(word(left), step, leave(alloc)?)]?)
}

/// Moves so many bytes, the first one first: each stands one byte behind its pointer.
pub fn forward(alloc: Global, to: i32, from: i32, left: i32) -> Result<FlatStmt, AllocError>
    ensures { IfOk result (λ stmt. (next : Code) → view_stmt stmt next ≡ forward_code to from left next) }
{
    Ok(repeat(forward_round(alloc, to, from, left)?))
}

fn backward_step(alloc: Global, to: i32, from: i32, left: i32) -> Result<FlatList, AllocError>
    ensures { IfOk result (λ list. view_list list.items ≡ backward_step to from left) }
{
    Ok(vec![in alloc;
        set_behind(to, 0, behind(from, 0)),
        lessen(alloc, to, FlatExpr::Number(1))?,
        lessen(alloc, from, FlatExpr::Number(1))?,
        lessen(alloc, left, FlatExpr::Number(1))?,
    ]?)
}

fn backward_round(alloc: Global, to: i32, from: i32, left: i32) -> Result<FlatList, AllocError>
    ensures { IfOk result (λ list. view_list list.items ≡ backward_round to from left) }
{
    let step = backward_step(alloc, to, from, left)?;
    Ok(vec![in alloc; when(word(left), step, leave(alloc)?)]?)
}

/// Moves so many bytes, the last one first: each pointer leads to the last one.
pub fn backward(alloc: Global, to: i32, from: i32, left: i32) -> Result<FlatStmt, AllocError>
    ensures { IfOk result (λ stmt. (next : Code) → view_stmt stmt next ≡ backward_code to from left next) }
{
    Ok(repeat(backward_round(alloc, to, from, left)?))
}

/// The law of bytes that were stored from the last one to the first: they stand there, as far as
/// offsets reach. It does nothing.
pub fn loop_laws()
    ensures { (m : Cells) (segment offset i : ℕ) (bytes : List ℕ) → i + length bytes < 65536 → ((k : ℕ) → k < length bytes → slice_index_or bytes k 0 < 256) → HasBytes (laid_back m (place segment offset) i bytes) (place segment offset) i bytes }
{}
