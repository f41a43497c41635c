//! The runtime's concatenation and Insert, as flat code.

ghost use Rattle.std.specs.Prelude.{◌≡◌, IfOk};
ghost use Rattle.flat_code.specs.View.{view_list};
ghost use Rattle.flat_code.specs.Plain.{view_routine};
ghost use Rattle.flat_code.specs.Program.{FlatProgram, Choice, UnitCode, runtime_key};
ghost use Rattle.flat_code.specs.Legal.{StackFits};
ghost use Rattle.runtime_proofs.specs.routine_proofs.Specifications.{IsHeld};
ghost use Rattle.rt_strings.specs.string_joins.Routines.{join_lengths, join_ends, join_second, join_whole, join_first, concat_routine, insert_place, insert_lengths, insert_whole, insert_ends, insert_behind, insert_count, insert_part, insert_routine};
ghost use Rattle.rt_strings.specs.string_joins.Specifications.{concat_number, insert_number, Joins, Inserts};

use flat_code::flat_builders::{name, op, set, then, word};
use flat_code::{FlatExpr, FlatList, FlatOp, FlatRoutine};
use runtime_proofs::string_loops::{
    backward, behind, forward, lessen, limit, place_before, procedure, raise, set_behind,
};
use std::alloc::{AllocError, Global};

// The second string is cut to the room behind the first.
fn join_lengths(alloc: Global) -> Result<FlatList, AllocError>
    ensures { IfOk result (λ list. view_list list.items ≡ join_lengths) }
{
    let room = op(alloc, FlatOp::Sub, FlatExpr::Number(255), word(-2))?;
    let whole = op(alloc, FlatOp::Add, word(-2), word(-4))?;
    Ok(vec![in alloc;
        set(-2, behind(10, 0)),
        set(-4, behind(6, 0)),
        set(-6, room),
        limit(alloc, -4, -6)?,
        set(-6, whole),
    ]?)
}

fn join_ends(alloc: Global) -> Result<FlatList, AllocError>
    ensures { IfOk result (λ list. view_list list.items ≡ join_ends) }
{
    Ok(vec![in alloc;
        raise(alloc, 14, word(-2))?,
        raise(alloc, 14, word(-4))?,
        raise(alloc, 6, word(-4))?,
    ]?)
}

fn join_second(alloc: Global) -> Result<FlatList, AllocError>
    ensures { IfOk result (λ list. view_list list.items ≡ join_second) }
{
    Ok(vec![in alloc; backward(alloc, 14, 6, -4)?]?)
}

fn join_whole(alloc: Global) -> Result<FlatList, AllocError>
    ensures { IfOk result (λ list. view_list list.items ≡ join_whole) }
{
    Ok(vec![in alloc;
        lessen(alloc, 14, word(-2))?,
        set_behind(14, 0, word(-6)),
        set(-4, word(-2)),
    ]?)
}

fn join_first(alloc: Global) -> Result<FlatList, AllocError>
    ensures { IfOk result (λ list. view_list list.items ≡ join_first) }
{
    Ok(vec![in alloc; forward(alloc, 14, 10, -4)?]?)
}

/// One string behind another. The second is moved first, its last byte first, since it may stand where
/// bytes of the target lie.
pub fn concat(alloc: Global) -> Result<FlatRoutine, AllocError>
    ensures { IfOk result (λ routine. view_routine routine ≡ concat_routine) }
{
    let first = then(join_whole(alloc)?, join_first(alloc)?)?;
    let second = then(join_second(alloc)?, first)?;
    let moved = then(join_ends(alloc)?, second)?;
    let body = then(join_lengths(alloc)?, moved)?;
    Ok(procedure(name(b"CONCAT"), 12, 6, body))
}

fn insert_place(alloc: Global) -> Result<FlatList, AllocError>
    ensures { IfOk result (λ list. view_list list.items ≡ insert_place) }
{
    let length = vec![in alloc; set(-2, behind(12, 0))]?;
    then(length, place_before(alloc, -4, 10, 8, -2)?)
}

// What is put in, and what stands behind it then, are cut to the room.
fn insert_lengths(alloc: Global) -> Result<FlatList, AllocError>
    ensures { IfOk result (λ list. view_list list.items ≡ insert_lengths) }
{
    let room = op(alloc, FlatOp::Sub, word(6), word(-4))?;
    let rest = op(alloc, FlatOp::Sub, word(-2), word(-4))?;
    Ok(vec![in alloc;
        set(-14, room),
        set(-6, behind(16, 0)),
        limit(alloc, -6, -14)?,
        lessen(alloc, -14, word(-6))?,
        set(-8, rest),
        limit(alloc, -8, -14)?,
    ]?)
}

fn insert_whole(alloc: Global) -> Result<FlatList, AllocError>
    ensures { IfOk result (λ list. view_list list.items ≡ insert_whole) }
{
    let front = op(alloc, FlatOp::Add, word(-4), word(-6))?;
    let whole = op(alloc, FlatOp::Add, front, word(-8))?;
    Ok(vec![in alloc; set_behind(12, 0, whole)]?)
}

fn insert_ends(alloc: Global) -> Result<FlatList, AllocError>
    ensures { IfOk result (λ list. view_list list.items ≡ insert_ends) }
{
    let target = op(alloc, FlatOp::Add, word(12), word(-6))?;
    Ok(vec![in alloc;
        raise(alloc, 12, word(-4))?,
        set(-10, word(14)),
        set(-12, target),
        raise(alloc, -12, word(-8))?,
        raise(alloc, 12, word(-8))?,
    ]?)
}

fn insert_behind(alloc: Global) -> Result<FlatList, AllocError>
    ensures { IfOk result (λ list. view_list list.items ≡ insert_behind) }
{
    Ok(vec![in alloc; backward(alloc, -12, 12, -8)?]?)
}

fn insert_count(alloc: Global) -> Result<FlatList, AllocError>
    ensures { IfOk result (λ list. view_list list.items ≡ insert_count) }
{
    Ok(vec![in alloc; set(-8, word(-6))]?)
}

fn insert_part(alloc: Global) -> Result<FlatList, AllocError>
    ensures { IfOk result (λ list. view_list list.items ≡ insert_part) }
{
    Ok(vec![in alloc; forward(alloc, 12, 16, -8)?]?)
}

/// Insert: a part is put before a place of a string.
pub fn insert(alloc: Global) -> Result<FlatRoutine, AllocError>
    ensures { IfOk result (λ routine. view_routine routine ≡ insert_routine) }
{
    let part = then(insert_count(alloc)?, insert_part(alloc)?)?;
    let moved = then(insert_behind(alloc)?, part)?;
    let ends = then(insert_ends(alloc)?, moved)?;
    let whole = then(insert_whole(alloc)?, ends)?;
    let lengths = then(insert_lengths(alloc)?, whole)?;
    let body = then(insert_place(alloc)?, lengths)?;
    Ok(procedure(name(b"INSERT"), 14, 14, body))
}

/// The laws of the routines: in each program whose unit of strings holds them under their numbers, and
/// wherever its parts lie, they do what the runtime promises. It does nothing.
pub fn join_laws()
    ensures concat { (program : FlatProgram) (choice : Choice) (unit : UnitCode) → StackFits program choice → IsHeld program (runtime_key concat_number) unit concat_routine → Joins program choice }
    ensures insert { (program : FlatProgram) (choice : Choice) (unit : UnitCode) → StackFits program choice → IsHeld program (runtime_key insert_number) unit insert_routine → Inserts program choice }
{}
