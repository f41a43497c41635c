//! How a text goes to the output in a field of a width.

ghost use Rattle.std.specs.Prelude.{◌≡◌, IfOk};
ghost use Rattle.flat_code.specs.View.{view_list};
ghost use Rattle.rt_text.specs.write_text.Showing.{begin_item, set_due, blanks_round, print_blanks, move_text, print_item, print_padded, print_plain, print_text, show_text as show_text_code};

use flat_code::flat_builders::{op, repeat, set, then, when, word};
use flat_code::{FlatExpr, FlatList, FlatOp, FlatStmt};
use runtime_proofs::string_loops::{forward, lessen};
use runtime_proofs::text_memory::{item_offset, item_segment, print, set_segment};
use std::alloc::{AllocError, Global};

// No blanks yet, and the pointer leads to the byte before the buffer's room.
fn begin_item(alloc: Global) -> Result<FlatList, AllocError>
    ensures { IfOk result (λ list. view_list list.items ≡ begin_item) }
{
    Ok(vec![in alloc;
        set(-8, FlatExpr::Number(0)),
        set(-14, word(-6)),
        set(-12, item_offset(255)),
        set_segment(-10),
    ]?)
}

// How many blanks are due.
fn set_due(alloc: Global) -> Result<FlatList, AllocError>
    ensures { IfOk result (λ list. view_list list.items ≡ set_due) }
{
    let less = op(alloc, FlatOp::Less, word(-6), word(6))?;
    let due = op(alloc, FlatOp::Sub, word(6), word(-6))?;
    Ok(vec![in alloc; when(less, vec![in alloc; set(-8, due)]?, Vec::new(alloc))]?)
}

fn blanks_round(alloc: Global) -> Result<FlatList, AllocError>
    ensures { IfOk result (λ list. view_list list.items ≡ blanks_round) }
{
    let many = op(alloc, FlatOp::Below, FlatExpr::Number(256), word(-8))?;
    let blanks = print(alloc, item_segment(), item_offset(0), FlatExpr::Number(256))?;
    let fewer = lessen(alloc, -8, FlatExpr::Number(256))?;
    let leave = vec![in alloc; FlatStmt::Leave { loops: 1 }]?;
    Ok(vec![in alloc; when(many, vec![in alloc; blanks, fewer]?, leave)]?)
}

// Blanks that don't fit before the buffer's room.
fn print_blanks(alloc: Global) -> Result<FlatList, AllocError>
    ensures { IfOk result (λ list. view_list list.items ≡ print_blanks) }
{
    Ok(vec![in alloc; repeat(blanks_round(alloc)?)]?)
}

fn move_text(alloc: Global) -> Result<FlatList, AllocError>
    ensures { IfOk result (λ list. view_list list.items ≡ move_text) }
{
    Ok(vec![in alloc; forward(alloc, -12, -4, -14)?]?)
}

// The other blanks and the text, in one go.
fn print_item(alloc: Global) -> Result<FlatList, AllocError>
    ensures { IfOk result (λ list. view_list list.items ≡ print_item) }
{
    let from = op(alloc, FlatOp::Sub, item_offset(256), word(-8))?;
    let count = op(alloc, FlatOp::Add, word(-8), word(-6))?;
    Ok(vec![in alloc; print(alloc, item_segment(), from, count)?]?)
}

fn print_padded(alloc: Global) -> Result<FlatList, AllocError>
    ensures { IfOk result (λ list. view_list list.items ≡ print_padded) }
{
    let text = then(move_text(alloc)?, print_item(alloc)?)?;
    then(print_blanks(alloc)?, text)
}

// No blank is due.
fn print_plain(alloc: Global) -> Result<FlatList, AllocError>
    ensures { IfOk result (λ list. view_list list.items ≡ print_plain) }
{
    let from = op(alloc, FlatOp::Add, word(-4), FlatExpr::Number(1))?;
    Ok(vec![in alloc; print(alloc, word(-2), from, word(-6))?]?)
}

fn print_text(alloc: Global) -> Result<FlatList, AllocError>
    ensures { IfOk result (λ list. view_list list.items ≡ print_text) }
{
    Ok(vec![in alloc; when(word(-8), print_padded(alloc)?, print_plain(alloc)?)]?)
}

/// A text goes to the output: at -2 and -4 stands a pointer to the byte before it, at -6 its length,
/// and at 6 the width of its field. The words from -8 down to -14 are used.
pub fn show_text(alloc: Global) -> Result<FlatList, AllocError>
    ensures { IfOk result (λ list. view_list list.items ≡ show_text_code) }
{
    let shown = then(set_due(alloc)?, print_text(alloc)?)?;
    then(begin_item(alloc)?, shown)
}
