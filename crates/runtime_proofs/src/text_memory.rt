//! What the runtime's routines on text keep in memory, and the pieces of flat code by which they
//! reach it, write and read.

ghost use Rattle.std.specs.Prelude.{◌≡◌, IfOk, ℕ};
ghost use Rattle.flat_code.specs.Program.{FlatProgram, Choice};
ghost use Rattle.flat_code.specs.Meaning.{Frame};
ghost use Rattle.runtime_proofs.specs.routine_proofs.Activation.{IsPlaced};
ghost use Rattle.runtime_proofs.specs.text_memory.EffectLaws.{Prints, Fetches, TellsEnd};
ghost use Rattle.flat_code.specs.Tree.{Code};
ghost use Rattle.flat_code.specs.View.{view_expr, view_stmt};
ghost use Rattle.runtime_proofs.specs.text_memory.Pieces.{item_at as item_place, ahead_at as ahead_place, item_offset as item_offset_code, item_segment as item_segment_code, set_segment as set_segment_code, print as print_code, fetch as fetch_code};

use flat_code::{Address, FlatExpr, FlatResult, FlatStmt};
use std::alloc::{AllocError, Global};

/// The place so many bytes into the item buffer, whose first 256 bytes are blanks.
pub fn item_at(plus: u16) -> Address
    ensures { result ≡ item_place plus }
{
    Address::Global {
        unit: 0,
        number: 0,
        plus,
    }
}

/// The word that tells the byte that was read ahead; 256 tells that there is none.
pub fn ahead_at() -> Address
    ensures { result ≡ ahead_place }
{
    Address::Global {
        unit: 0,
        number: 1,
        plus: 0,
    }
}

/// The offset of a byte of the item buffer.
pub fn item_offset(plus: u16) -> FlatExpr
    ensures { view_expr result ≡ item_offset_code plus }
{
    FlatExpr::AddressOf(item_at(plus))
}

/// The segment of the item buffer.
pub fn item_segment() -> FlatExpr
    ensures { view_expr result ≡ item_segment_code }
{
    FlatExpr::SegmentOf(item_at(0))
}

/// A word becomes the segment of the item buffer.
pub fn set_segment(at: i32) -> FlatStmt
    ensures { (next : Code) → view_stmt result next ≡ set_segment_code at next }
{
    let to = Address::Local(at);
    let value = item_segment();
    FlatStmt::StoreWord { to, value }
}

/// So many bytes from a place on go to the output.
pub fn print(
    alloc: Global,
    segment: FlatExpr,
    offset: FlatExpr,
    count: FlatExpr,
) -> Result<FlatStmt, AllocError>
    ensures { IfOk result (λ stmt. (next : Code) → view_stmt stmt next ≡ print_code (view_expr segment) (view_expr offset) (view_expr count) next) }
{
    let args = vec![in alloc; FlatExpr::Number(1), segment, offset, count]?;
    Ok(FlatStmt::Runtime {
        number: 0,
        args,
        result: None,
    })
}

/// A word becomes the next byte of the input, or FFFFh at its end.
pub fn fetch(alloc: Global, at: i32) -> FlatStmt
    ensures { (next : Code) → view_stmt result next ≡ fetch_code at next }
{
    let at = Address::Local(at);
    FlatStmt::Runtime {
        number: 1,
        args: Vec::new(alloc),
        result: Some(FlatResult { at, bytes: 2 }),
    }
}

/// The laws of the effects of the machine by which routines write and read, for each activation of a
/// routine whose stack lies in a segment. It does nothing.
pub fn effect_laws()
    ensures print { (program : FlatProgram) (choice : Choice) (own : Frame) (sp above : ℕ) → IsPlaced choice own sp above → Prints program choice own sp above }
    ensures fetch { (program : FlatProgram) (choice : Choice) (own : Frame) (sp above : ℕ) → IsPlaced choice own sp above → Fetches program choice own sp above }
    ensures ends { (program : FlatProgram) (choice : Choice) (own : Frame) (sp above : ℕ) → IsPlaced choice own sp above → TellsEnd program choice own sp above }
{}
