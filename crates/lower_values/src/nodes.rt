//! Nodes of flat code from their parts.

ghost use Rattle.std.specs.Prelude.{◌≡◌, IfOk, [], ◌∷◌};
ghost use Rattle.flat_code.specs.Tree.{Code, End, Do};
ghost use Rattle.flat_code.specs.View.{view_expr, view_exprs, view_stmt, view_list};
ghost use Rattle.lower_values.specs.Nodes.{number, high_number, contrary, truth, signed_byte, kept, extension, runtime, with_result, clear, clear_at};

use flat_code::flat_builders::op;
use flat_code::{Address, FlatExpr, FlatExprs, FlatList, FlatOp, FlatResult, FlatStmt};
use runtime_units::numbers::RuntimeRoutine;
use std::alloc::{AllocError, Global};
use type_layout::Host;

/// A list of one statement.
pub fn single(alloc: Global, stmt: FlatStmt) -> Result<FlatList, AllocError>
    ensures { IfOk result (λ list. view_list list.items ≡ view_stmt stmt End) }
{
    Ok(vec![in alloc; stmt]?)
}

/// A list of two statements.
pub fn pair(alloc: Global, first: FlatStmt, second: FlatStmt) -> Result<FlatList, AllocError>
    ensures { IfOk result (λ list. view_list list.items ≡ view_stmt first (view_stmt second End)) }
{
    Ok(vec![in alloc; first, second]?)
}

/// The low word of a number.
pub fn number(z: i32) -> FlatExpr
    ensures { view_expr result ≡ number z }
{
    FlatExpr::Number((z.cast_unsigned() % 0x1_0000) as u16)
}

/// The word above the low one.
pub fn high_number(z: i32) -> FlatExpr
    ensures { view_expr result ≡ high_number z }
{
    FlatExpr::Number((z.cast_unsigned() / 0x1_0000) as u16)
}

/// 1 where a word is 0, else 0.
pub fn not(alloc: Global, word: FlatExpr) -> Result<FlatExpr, AllocError>
    ensures { IfOk result (λ expr. view_expr expr ≡ contrary (view_expr word)) }
{
    op(alloc, FlatOp::Equal, word, FlatExpr::Number(0))
}

/// 0 where a word is 0, else 1.
pub fn truth(alloc: Global, word: FlatExpr) -> Result<FlatExpr, AllocError>
    ensures { IfOk result (λ expr. view_expr expr ≡ truth (view_expr word)) }
{
    op(alloc, FlatOp::Below, FlatExpr::Number(0), word)
}

/// A byte with its sign, as a word.
pub fn signed_byte(alloc: Global, byte: FlatExpr) -> Result<FlatExpr, AllocError>
    ensures { IfOk result (λ expr. view_expr expr ≡ signed_byte (view_expr byte)) }
{
    let turned = op(alloc, FlatOp::Xor, byte, FlatExpr::Number(128))?;
    op(alloc, FlatOp::Sub, turned, FlatExpr::Number(128))
}

/// What is left of a word in the bytes of a host, as a word of its own.
pub fn kept(alloc: Global, host: Host, word: FlatExpr) -> Result<FlatExpr, AllocError>
    ensures { IfOk result (λ expr. view_expr expr ≡ kept host (view_expr word)) }
{
    match host {
        Host::Integer | Host::Word | Host::LongInt => Ok(word),
        Host::ShortInt => {
            let byte = op(alloc, FlatOp::And, word, FlatExpr::Number(255))?;
            signed_byte(alloc, byte)
        }
        Host::Byte | Host::Char | Host::Boolean | Host::Enumeration => {
            op(alloc, FlatOp::And, word, FlatExpr::Number(255))
        }
    }
}

/// The word above one that is a number of a host: its sign, or 0.
pub fn extension(alloc: Global, host: Host, word: FlatExpr) -> Result<FlatExpr, AllocError>
    ensures { IfOk result (λ expr. view_expr expr ≡ extension host (view_expr word)) }
{
    if host.least() < 0 {
        let below = op(alloc, FlatOp::Less, word, FlatExpr::Number(0))?;
        op(alloc, FlatOp::Sub, FlatExpr::Number(0), below)
    } else {
        Ok(FlatExpr::Number(0))
    }
}

/// A routine of the runtime without a result.
pub fn runtime(routine: RuntimeRoutine, args: FlatExprs) -> FlatStmt
    ensures { (next : Code) → view_stmt result next ≡ Do (runtime routine (view_exprs args.items)) next }
{
    FlatStmt::Runtime {
        number: routine.number(),
        args,
        result: None,
    }
}

/// A routine of the runtime with a result of so many bytes, so far from BP.
pub fn with_result(routine: RuntimeRoutine, args: FlatExprs, at: i32, bytes: u8) -> FlatStmt
    ensures { (next : Code) → view_stmt result next ≡ Do (with_result routine (view_exprs args.items) at bytes) next }
{
    FlatStmt::Runtime {
        number: routine.number(),
        args,
        result: Some(FlatResult {
            at: Address::Local(at),
            bytes,
        }),
    }
}

/// So many bytes from a place on become zeros.
pub fn clear_at(
    alloc: Global,
    segment: FlatExpr,
    offset: FlatExpr,
    count: u16,
) -> Result<FlatStmt, AllocError>
    ensures { IfOk result (λ stmt. (next : Code) → view_stmt stmt next ≡ Do (clear_at (view_expr segment) (view_expr offset) count) next) }
{
    let args = vec![in alloc; segment, offset, FlatExpr::Number(count)]?;
    Ok(runtime(RuntimeRoutine::Clear, args))
}

/// So many bytes become zeros, from one so far from BP on.
pub fn clear(alloc: Global, at: i32, count: u16) -> Result<FlatStmt, AllocError>
    ensures { IfOk result (λ stmt. (next : Code) → view_stmt stmt next ≡ Do (clear at count) next) }
{
    let to = Address::Local(at);
    clear_at(
        alloc,
        FlatExpr::SegmentOf(to),
        FlatExpr::AddressOf(to),
        count,
    )
}
