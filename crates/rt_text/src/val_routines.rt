//! The runtime's Val, as flat code.

ghost use Rattle.std.specs.Prelude.{◌≡◌, IfOk};
ghost use Rattle.flat_code.specs.View.{view_expr, view_list};
ghost use Rattle.flat_code.specs.Plain.{view_routine};
ghost use Rattle.flat_code.specs.Program.{FlatProgram, Choice, UnitCode, runtime_key};
ghost use Rattle.flat_code.specs.Legal.{StackFits};
ghost use Rattle.runtime_proofs.specs.routine_proofs.Specifications.{IsHeld};
ghost use Rattle.runtime_proofs.specs.string_loops.Pieces.{leave};
ghost use Rattle.rt_text.specs.val_routines.Routines.{begin_text, next_byte, pass_byte, is_gap, gap_round, go_on, numeral_round, end_val, val_code, val_value_routine, val_place_routine};
ghost use Rattle.rt_text.specs.val_routines.Specifications.{val_value_number, val_place_number, GivesValue, GivesPlace};

use crate::numeral_steps::{begin_numeral, give_sign, is_byte, is_number, numeral_step};
use flat_code::flat_builders::{name, op, repeat, routine, set, then, when, word};
use flat_code::{FlatExpr, FlatList, FlatOp, FlatRoutine, FlatStmt};
use runtime_proofs::string_loops::{behind, lessen, raise};
use std::alloc::{AllocError, Global};

fn begin_text(alloc: Global) -> Result<FlatList, AllocError>
    ensures { IfOk result (λ list. view_list list.items ≡ begin_text) }
{
    Ok(vec![in alloc;
        set(-16, word(8)),
        set(-18, word(6)),
        set(-20, behind(6, 0)),
        set(-22, FlatExpr::Number(1)),
    ]?)
}

fn next_byte(alloc: Global) -> Result<FlatList, AllocError>
    ensures { IfOk result (λ list. view_list list.items ≡ next_byte) }
{
    Ok(vec![in alloc; set(-2, behind(-18, 1))]?)
}

fn pass_byte(alloc: Global) -> Result<FlatList, AllocError>
    ensures { IfOk result (λ list. view_list list.items ≡ pass_byte) }
{
    Ok(vec![in alloc;
        raise(alloc, -18, FlatExpr::Number(1))?,
        raise(alloc, -22, FlatExpr::Number(1))?,
        lessen(alloc, -20, FlatExpr::Number(1))?,
    ]?)
}

fn leave(alloc: Global) -> Result<FlatList, AllocError>
    ensures { IfOk result (λ list. view_list list.items ≡ leave) }
{
    Ok(vec![in alloc; FlatStmt::Leave { loops: 1 }]?)
}

fn is_gap(alloc: Global) -> Result<FlatExpr, AllocError>
    ensures { IfOk result (λ expr. view_expr expr ≡ is_gap) }
{
    op(
        alloc,
        FlatOp::Or,
        is_byte(alloc, b' ')?,
        is_byte(alloc, b'\t')?,
    )
}

// A blank or a tab is passed.
fn gap_round(alloc: Global) -> Result<FlatList, AllocError>
    ensures { IfOk result (λ list. view_list list.items ≡ gap_round) }
{
    let pass = when(is_gap(alloc)?, pass_byte(alloc)?, leave(alloc)?);
    let round = then(next_byte(alloc)?, vec![in alloc; pass]?)?;
    Ok(vec![in alloc; when(word(-20), round, leave(alloc)?)]?)
}

fn go_on(alloc: Global) -> Result<FlatList, AllocError>
    ensures { IfOk result (λ list. view_list list.items ≡ go_on) }
{
    let stops = is_number(alloc, -4, 4)?;
    Ok(vec![in alloc; when(stops, leave(alloc)?, pass_byte(alloc)?)]?)
}

fn numeral_round(alloc: Global) -> Result<FlatList, AllocError>
    ensures { IfOk result (λ list. view_list list.items ≡ numeral_round) }
{
    let step = then(numeral_step(alloc)?, go_on(alloc)?)?;
    let round = then(next_byte(alloc)?, step)?;
    Ok(vec![in alloc; when(word(-20), round, leave(alloc)?)]?)
}

// A whole numeral has code 0, and anything else the value 0.
fn end_val(alloc: Global) -> Result<FlatList, AllocError>
    ensures { IfOk result (λ list. view_list list.items ≡ end_val) }
{
    let whole = then(
        vec![in alloc; set(-22, FlatExpr::Number(0))]?,
        give_sign(alloc)?,
    )?;
    let none = vec![in alloc;
        set(-10, FlatExpr::Number(0)),
        set(-12, FlatExpr::Number(0)),
    ]?;
    Ok(vec![in alloc; when(is_number(alloc, -4, 3)?, whole, none)]?)
}

fn val_code(alloc: Global) -> Result<FlatList, AllocError>
    ensures { IfOk result (λ list. view_list list.items ≡ val_code) }
{
    let numeral = vec![in alloc; repeat(numeral_round(alloc)?)]?;
    let rest = then(numeral, end_val(alloc)?)?;
    let text = then(vec![in alloc; repeat(gap_round(alloc)?)]?, rest)?;
    then(begin_numeral(alloc)?, then(begin_text(alloc)?, text)?)
}

/// Val's value: a LongInt, which is 0 where the string is no numeral.
pub fn val_value(alloc: Global) -> Result<FlatRoutine, AllocError>
    ensures { IfOk result (λ routine. view_routine routine ≡ val_value_routine) }
{
    let body = val_code(alloc)?;
    Ok(routine(name(b"VALVALUE"), 4, 22, -12, 4, body))
}

/// Val's code: 0, or the place of the first byte by which no numeral goes on.
pub fn val_place(alloc: Global) -> Result<FlatRoutine, AllocError>
    ensures { IfOk result (λ routine. view_routine routine ≡ val_place_routine) }
{
    let body = val_code(alloc)?;
    Ok(routine(name(b"VALPLACE"), 4, 22, -22, 2, body))
}

/// The laws of the routines: in each program whose unit of text holds them under their numbers, and
/// wherever its parts lie, they give what the runtime promises. It does nothing.
pub fn val_laws()
    ensures value { (program : FlatProgram) (choice : Choice) (unit : UnitCode) → StackFits program choice → IsHeld program (runtime_key val_value_number) unit val_value_routine → GivesValue program choice }
    ensures place { (program : FlatProgram) (choice : Choice) (unit : UnitCode) → StackFits program choice → IsHeld program (runtime_key val_place_number) unit val_place_routine → GivesPlace program choice }
{}
