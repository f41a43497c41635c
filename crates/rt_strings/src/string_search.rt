//! The runtime's Pos, as flat code.

ghost use Rattle.std.specs.Prelude.{◌≡◌, IfOk};
ghost use Rattle.flat_code.specs.View.{view_expr, view_list};
ghost use Rattle.flat_code.specs.Plain.{view_routine};
ghost use Rattle.flat_code.specs.Program.{FlatProgram, Choice, UnitCode, runtime_key};
ghost use Rattle.flat_code.specs.Legal.{StackFits};
ghost use Rattle.runtime_proofs.specs.routine_proofs.Specifications.{IsHeld};
ghost use Rattle.runtime_proofs.specs.string_loops.Pieces.{leave};
ghost use Rattle.rt_strings.specs.string_search.Routines.{count_places, search_start, next_place, match_step, match_round, matched, decide, search_round, position_routine};
ghost use Rattle.rt_strings.specs.string_search.Specifications.{position_number, Searches};

use flat_code::flat_builders::{name, op, repeat, routine, set, then, when, word};
use flat_code::{FlatExpr, FlatList, FlatOp, FlatRoutine, FlatStmt};
use runtime_proofs::string_loops::{behind, lessen, raise};
use std::alloc::{AllocError, Global};

fn leave(alloc: Global) -> Result<FlatList, AllocError>
    ensures { IfOk result (λ list. view_list list.items ≡ leave) }
{
    Ok(vec![in alloc; FlatStmt::Leave { loops: 1 }]?)
}

// How many places there are; none for an empty part.
fn count_places(alloc: Global) -> Result<FlatList, AllocError>
    ensures { IfOk result (λ list. view_list list.items ≡ count_places) }
{
    let short = op(alloc, FlatOp::Below, word(-6), word(-4))?;
    let none = vec![in alloc; set(-6, FlatExpr::Number(0))]?;
    let some = vec![in alloc; lessen(alloc, -6, word(-4))?]?;
    let tried = vec![in alloc;
        raise(alloc, -6, FlatExpr::Number(1))?,
        when(short, none, some),
    ]?;
    let empty = vec![in alloc; set(-6, FlatExpr::Number(0))]?;
    Ok(vec![in alloc; when(word(-4), tried, empty)]?)
}

fn search_start(alloc: Global) -> Result<FlatList, AllocError>
    ensures { IfOk result (λ list. view_list list.items ≡ search_start) }
{
    let first = vec![in alloc;
        set(-2, FlatExpr::Number(0)),
        set(-4, behind(10, 0)),
        set(-6, behind(6, 0)),
        set(-8, FlatExpr::Number(0)),
        set(-10, FlatExpr::Number(1)),
    ]?;
    then(first, count_places(alloc)?)
}

fn next_place(alloc: Global) -> Result<FlatList, AllocError>
    ensures { IfOk result (λ list. view_list list.items ≡ next_place) }
{
    let whole = vec![in alloc; set(-8, word(-4))]?;
    Ok(vec![in alloc; when(word(-6), whole, leave(alloc)?)]?)
}

fn match_step(alloc: Global) -> Result<FlatList, AllocError>
    ensures { IfOk result (λ list. view_list list.items ≡ match_step) }
{
    Ok(vec![in alloc;
        raise(alloc, 10, FlatExpr::Number(1))?,
        raise(alloc, 6, FlatExpr::Number(1))?,
        lessen(alloc, -8, FlatExpr::Number(1))?,
    ]?)
}

// Until two bytes differ, or none of the part is left.
fn match_round(alloc: Global) -> Result<FlatList, AllocError>
    ensures { IfOk result (λ list. view_list list.items ≡ match_round) }
{
    let same = op(alloc, FlatOp::Equal, behind(10, 1), behind(6, 1))?;
    let step = vec![in alloc; when(same, match_step(alloc)?, leave(alloc)?)]?;
    Ok(vec![in alloc; when(word(-8), step, leave(alloc)?)]?)
}

fn matched(alloc: Global) -> Result<FlatExpr, AllocError>
    ensures { IfOk result (λ expr. view_expr expr ≡ matched) }
{
    op(alloc, FlatOp::Sub, word(-4), word(-8))
}

// The place is the result, or both pointers go back, and the text's one byte on.
fn decide(alloc: Global) -> Result<FlatList, AllocError>
    ensures { IfOk result (λ list. view_list list.items ≡ decide) }
{
    let back = vec![in alloc;
        lessen(alloc, 10, matched(alloc)?)?,
        lessen(alloc, 6, matched(alloc)?)?,
        raise(alloc, 6, FlatExpr::Number(1))?,
        raise(alloc, -10, FlatExpr::Number(1))?,
        lessen(alloc, -6, FlatExpr::Number(1))?,
    ]?;
    let found = vec![in alloc; set(-2, word(-10)), FlatStmt::Leave { loops: 1 }]?;
    Ok(vec![in alloc; when(word(-8), back, found)]?)
}

fn search_round(alloc: Global) -> Result<FlatList, AllocError>
    ensures { IfOk result (λ list. view_list list.items ≡ search_round) }
{
    let matching = vec![in alloc; repeat(match_round(alloc)?)]?;
    then(next_place(alloc)?, then(matching, decide(alloc)?)?)
}

/// Pos: the first place of a part in a text, or 0.
pub fn position(alloc: Global) -> Result<FlatRoutine, AllocError>
    ensures { IfOk result (λ routine. view_routine routine ≡ position_routine) }
{
    let rounds = vec![in alloc; repeat(search_round(alloc)?)]?;
    let body = then(search_start(alloc)?, rounds)?;
    Ok(routine(name(b"POS"), 8, 10, -2, 2, body))
}

/// The law of the routine: in each program whose unit of strings holds it under its number, and wherever
/// its parts lie, it does what the runtime promises. It does nothing.
pub fn search_laws()
    ensures { (program : FlatProgram) (choice : Choice) (unit : UnitCode) → StackFits program choice → IsHeld program (runtime_key position_number) unit position_routine → Searches program choice }
{}
