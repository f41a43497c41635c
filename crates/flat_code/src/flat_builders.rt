//! Nodes of flat code, and routines and units of the runtime, from their parts.

ghost use Rattle.std.specs.Prelude.{◌≡◌, IfOk, Some, true};
ghost use Rattle.type_layout.specs.Words.{IsName};
ghost use Rattle.flat_code.specs.Tree.{Word, Op, StoreWord, Do, If, Loop, Code, ◌then◌};
ghost use Rattle.flat_code.specs.View.{view_expr, view_stmt, view_list};
ghost use Rattle.flat_code.specs.Plain.{view_routine};

use crate::{Address, FlatExpr, FlatList, FlatOp, FlatResult, FlatRoutine, FlatStmt};
use std::alloc::{AllocError, Global};
use type_layout::Name;

/// An operator on two values.
pub fn op(alloc: Global, op: FlatOp, a: FlatExpr, b: FlatExpr) -> Result<FlatExpr, AllocError>
    ensures { IfOk result (λ expr. view_expr expr ≡ Op op (view_expr a) (view_expr b)) }
{
    let a = Box::new(alloc, a)?;
    let b = Box::new(alloc, b)?;
    Ok(FlatExpr::Op { op, a, b })
}

/// The word so far from BP.
pub fn word(at: i32) -> FlatExpr
    ensures { view_expr result ≡ Word (Address.Local at) }
{
    FlatExpr::Word(Address::Local(at))
}

/// Stores a word so far from BP.
pub fn set(at: i32, value: FlatExpr) -> FlatStmt
    ensures { (next : Code) → view_stmt result next ≡ Do (StoreWord (Address.Local at) (view_expr value)) next }
{
    let to = Address::Local(at);
    FlatStmt::StoreWord { to, value }
}

/// Either of two lists, by a test.
pub fn when(test: FlatExpr, yes: FlatList, no: FlatList) -> FlatStmt
    ensures { (next : Code) → view_stmt result next ≡ If (view_expr test) (view_list yes.items) (view_list no.items) next }
{
    FlatStmt::If { test, yes, no }
}

/// A loop.
pub fn repeat(body: FlatList) -> FlatStmt
    ensures { (next : Code) → view_stmt result next ≡ Loop (view_list body.items) next }
{
    FlatStmt::Loop(body)
}

/// One list and then another.
pub fn then(mut first: FlatList, mut next: FlatList) -> Result<FlatList, AllocError>
    ensures { IfOk result (λ list. view_list list.items ≡ view_list first.items then view_list next.items) }
{
    first.append(&mut next)?;
    Ok(first)
}

/// A name that is known to be one.
pub fn name(text: &[u8]) -> Name
    requires { IsName text.now }
    ensures { result ≡ text.now }
{
    match Name::new(text) {
        Some(name) => name,
        None => unreachable!(),
    }
}

/// A routine of the runtime, with so many bytes of arguments and locals, whose result begins so far from BP.
pub fn routine(
    name: Name,
    arguments: u32,
    locals: u32,
    at: i32,
    bytes: u8,
    body: FlatList,
) -> FlatRoutine
    ensures { view_routine result ≡ record { far = true; arguments = arguments; locals = locals; frame = 0; result = Some (record { at = Address.Local at; bytes = bytes }); body = view_list body.items } }
{
    let at = Address::Local(at);
    FlatRoutine {
        name,
        far: true,
        arguments,
        locals,
        frame: 0,
        result: Some(FlatResult { at, bytes }),
        body,
    }
}
