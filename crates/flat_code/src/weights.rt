//! The code that flat code asks for.

ghost use Rattle.std.specs.Prelude.{◌≡◌, ◌≤◌};
ghost use Rattle.flat_code.specs.Tree.{End};
ghost use Rattle.flat_code.specs.View.{view_expr, view_exprs, view_stmt, view_list};
ghost use Rattle.flat_code.specs.Plain.{view_routine, view_unit};
ghost use Rattle.flat_code.specs.Weights.{
  capped,
  address_weight,
  op_weight,
  expr_weight,
  exprs_weight,
  result_weight,
  runtime_weight,
  call_weight,
  code_weight,
  routine_weight,
  unit_weight,
};

use crate::tree::{Address, FlatExpr, FlatOp, FlatResult, FlatStmt};
use crate::unit::{FlatRoutine, FlatUnit};

fn weight_of_address(at: Address) -> u64
    ensures weight { result ≡ address_weight at }
    ensures small { result ≤ 1024 }
{
    match at {
        Address::Global { .. } | Address::Local(_) => 3,
        Address::Outer { levels, .. } => 4 + 4 * u64::from(levels),
        Address::Through { .. } => 8,
    }
}

fn weight_of_op(op: FlatOp) -> u64
    ensures { result ≡ op_weight op }
{
    match op {
        FlatOp::MulHigh => 4,
        FlatOp::Div | FlatOp::Mod => 40,
        FlatOp::DivUnsigned | FlatOp::ModUnsigned => 20,
        FlatOp::Equal | FlatOp::Less | FlatOp::Below => 8,
        _ => 2,
    }
}

fn weight_of_expr(expr: &FlatExpr) -> u64
    ensures { result ≡ capped (expr_weight (view_expr expr.now)) }
{
    match expr {
        FlatExpr::Number(_) | FlatExpr::VmtOf { .. } => 3,
        FlatExpr::Byte(at) => 3 + weight_of_address(*at),
        FlatExpr::Word(at) | FlatExpr::AddressOf(at) | FlatExpr::SegmentOf(at) => {
            1 + weight_of_address(*at)
        }
        FlatExpr::Op { op, a, b } => {
            weight_of_expr(a)
                .saturating_add(weight_of_expr(b))
                .saturating_add(4 + weight_of_op(*op))
        }
    }
}

fn weight_of_args(args: &[FlatExpr]) -> u64
    ensures { result ≡ capped (exprs_weight (view_exprs args.now)) }
{
    let mut sum = 0u64;
    for arg in args {
        sum = sum.saturating_add(weight_of_expr(arg).saturating_add(1));
    }
    sum
}

fn weight_of_result(place: Option<FlatResult>) -> u64
    ensures weight { result ≡ result_weight place }
    ensures small { result ≤ 1030 }
{
    match place {
        None => 0,
        Some(place) => 6 + weight_of_address(place.at),
    }
}

fn weight_of_call(call: u64, args: &[FlatExpr], wanted: Option<FlatResult>) -> u64
    ensures { result ≡ capped (call_weight call (view_exprs args.now) wanted) }
{
    weight_of_args(args)
        .saturating_add(weight_of_result(wanted))
        .saturating_add(call)
}

fn weight_of_runtime(number: u16) -> u64
    ensures { result ≡ runtime_weight number }
{
    if number < 5 { 32 } else { 5 }
}

#[cycle(weights)]
fn weight_of_stmt(stmt: &FlatStmt) -> u64
    ensures { result ≡ capped (code_weight (view_stmt stmt.now End)) }
{
    match stmt {
        FlatStmt::StoreByte { to, value } | FlatStmt::StoreWord { to, value } => {
            weight_of_expr(value).saturating_add(1 + weight_of_address(*to))
        }
        FlatStmt::Copy { to, from, .. } => 14 + weight_of_address(*to) + weight_of_address(*from),
        FlatStmt::If { test, yes, no } => {
            let branches = weight_of_list(yes.as_slice()).saturating_add(weight_of_list(
                no.as_slice(),
            ));
            weight_of_expr(test)
                .saturating_add(branches)
                .saturating_add(10)
        }
        FlatStmt::Loop(body) => weight_of_list(body.as_slice()).saturating_add(4),
        FlatStmt::Leave { .. } | FlatStmt::Return => 3,
        FlatStmt::Call {
            args,
            result: wanted,
            ..
        } => weight_of_call(5, args.as_slice(), *wanted),
        FlatStmt::CallThrough {
            pointer,
            args,
            result: wanted,
        } => weight_of_call(1 + weight_of_address(*pointer), args.as_slice(), *wanted),
        FlatStmt::Runtime {
            number,
            args,
            result: wanted,
        } => weight_of_call(weight_of_runtime(*number), args.as_slice(), *wanted),
        FlatStmt::StoreRoutine { to, .. } => 17 + weight_of_address(*to),
        FlatStmt::Error(_) => 8,
    }
}

#[cycle(weights)]
fn weight_of_list(list: &[FlatStmt]) -> u64
    ensures { result ≡ capped (code_weight (view_list list.now)) }
{
    let mut sum = 0u64;
    for stmt in list {
        sum = sum.saturating_add(weight_of_stmt(stmt));
    }
    sum
}

fn weight_of_routine(routine: &FlatRoutine) -> u64
    ensures { result ≡ capped (routine_weight (view_routine routine.now)) }
{
    weight_of_list(routine.body.as_slice())
        .saturating_add(weight_of_result(routine.result))
        .saturating_add(40)
}

/// A bound on the bytes of code that a unit asks for, or the greatest u64 where it passes that.
pub fn flat_weight_of(unit: &FlatUnit) -> u64
    ensures { result ≡ capped (unit_weight (view_unit unit.now)) }
{
    let mut sum = 0u64;
    for routine in unit.routines.as_slice() {
        sum = sum.saturating_add(weight_of_routine(routine));
    }
    sum
}
