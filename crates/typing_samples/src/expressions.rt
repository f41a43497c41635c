//! Typed expressions in short.
//!
//! A variable is `UNIT.LEVEL.NUMBER`; `P^`, `P[E]` and `P.N` are what a pointer leads to, an element and a field, with `!` where an
//! index is tested. An expression is `k`, `l`, `c`, `r`, `u`, `b`, `e`, `f` or `s` for a constant, what a place holds, a conversion, a
//! test, an operator with one or two operands, a set, a call of a function, or of a standard one, with the number of its type or
//! routine and its parts; behind a routine stands the type of its result. Calls on an object are `m UNIT.NUMBER` or, of a slot,
//! `v SLOT`, with `!` where a class is asked for; a call through a variable is `t`, a routine as a value `p`, and a new block with a
//! constructor `n`.

use crate::line::{Line, put, put_bytes, put_number, put_numbered, put_operator, put_sign};
use type_layout::{RoutineId, TypeId};
use typed_tree::{Arg, Expr, PlaceExpr, SetElement, Value, Variable};

/// A variable by its unit, level and number.
pub fn show_variable(out: &mut Line, variable: Variable) {
    put_number(out, i64::from(variable.unit));
    put_numbered(out, ".", i64::from(variable.level));
    put_numbered(out, ".", i64::from(variable.number));
}

/// A type by its number, behind a text.
pub fn show_type(out: &mut Line, text: &str, ty: TypeId) {
    put_numbered(out, text, i64::from(ty.0));
}

fn show_elements(out: &mut Line, elements: &[u8]) {
    put(out, "=[");
    for element in elements {
        put_numbered(out, " ", i64::from(*element));
    }
    put(out, " ]");
}

fn show_chars(out: &mut Line, bytes: &[u8]) {
    put(out, "='");
    put_bytes(out, bytes);
    put(out, "'");
}

/// A value behind its type.
pub fn show_value(out: &mut Line, ty: TypeId, value: &Value) {
    show_type(out, "k", ty);
    match value {
        Value::Number(number) => put_numbered(out, "=", i64::from(*number)),
        Value::Chars(bytes) => show_chars(out, bytes.as_slice()),
        Value::Nil => put(out, "=nil"),
        Value::Elements(elements) => show_elements(out, elements.as_slice()),
    }
}

// The type of a result, if there is one.
fn show_result(out: &mut Line, ty: Option<TypeId>) {
    if let Some(ty) = ty {
        show_type(out, ":", ty);
    }
}

fn show_mark(out: &mut Line, marked: bool, mark: &str) {
    if marked {
        put(out, mark);
    }
}

fn show_bounds(out: &mut Line, ty: TypeId, low: i32, high: i32) {
    show_type(out, "r", ty);
    put_numbered(out, " ", i64::from(low));
    put_numbered(out, "..", i64::from(high));
    put(out, " ");
}

/// A place in short.
#[cycle(shown)]
pub fn show_place(out: &mut Line, place: &PlaceExpr) {
    match place {
        PlaceExpr::Var(variable) => show_variable(out, *variable),
        PlaceExpr::Deref { pointer } => {
            show_expr(out, pointer);
            put(out, "^");
        }
        PlaceExpr::Index {
            place,
            index,
            checked,
        } => {
            show_place(out, place);
            put(out, "[");
            show_mark(out, *checked, "!");
            show_expr(out, index);
            put(out, "]");
        }
        PlaceExpr::FieldOf { place, number } => {
            show_place(out, place);
            put_numbered(out, ".", i64::from(*number));
        }
    }
}

/// A routine by its unit and number.
pub fn show_routine(out: &mut Line, text: &str, routine: RoutineId) {
    put_numbered(out, text, i64::from(routine.unit));
    put_numbered(out, ".", i64::from(routine.number));
}

/// A slot; one where a class is asked for is marked.
pub fn show_slot(out: &mut Line, text: &str, slot: u32, checked: bool) {
    put_numbered(out, text, i64::from(slot));
    show_mark(out, checked, "!");
}

fn show_typed_routine(out: &mut Line, text: &str, ty: TypeId, routine: RoutineId) {
    show_type(out, text, ty);
    show_routine(out, "=", routine);
}

/// Arguments, each behind a blank.
#[cycle(shown)]
pub fn show_args(out: &mut Line, args: &[Arg]) {
    for arg in args {
        show_arg(out, arg);
    }
}

#[cycle(shown)]
fn show_arg(out: &mut Line, arg: &Arg) {
    match arg {
        Arg::Value(value) => {
            put(out, " ");
            show_expr(out, value);
        }
        Arg::Place(place) => {
            put(out, " var ");
            show_place(out, place);
        }
    }
}

#[cycle(shown)]
fn show_all(out: &mut Line, elements: &[SetElement]) {
    put(out, " [");
    for element in elements {
        show_element(out, element);
    }
    put(out, " ]");
}

#[cycle(shown)]
fn show_element(out: &mut Line, element: &SetElement) {
    put(out, " ");
    match element {
        SetElement::One(one) => show_expr(out, one),
        SetElement::Span(low, high) => {
            show_expr(out, low);
            put(out, "..");
            show_expr(out, high);
        }
    }
}

/// An expression in short.
#[cycle(shown)]
pub fn show_expr(out: &mut Line, expr: &Expr) {
    match expr {
        Expr::Const { ty, value } => show_value(out, *ty, value),
        Expr::Load { ty, place } => {
            show_type(out, "l", *ty);
            put(out, " ");
            show_place(out, place);
        }
        Expr::Convert { ty, operand } => {
            show_type(out, "c", *ty);
            put(out, " ");
            show_expr(out, operand);
        }
        Expr::Range {
            ty,
            operand,
            low,
            high,
        } => {
            show_bounds(out, *ty, *low, *high);
            show_expr(out, operand);
        }
        Expr::Unary { ty, op, operand } => {
            show_type(out, "u", *ty);
            put_sign(out, *op);
            show_expr(out, operand);
        }
        Expr::SetOf { ty, elements } => {
            show_type(out, "e", *ty);
            show_all(out, elements.as_slice());
        }
        Expr::Binary {
            ty,
            op,
            left,
            right,
            early,
        } => {
            show_type(out, "b", *ty);
            put_operator(out, *op);
            show_mark(out, *early, " early");
            put(out, " (");
            show_expr(out, left);
            put(out, ", ");
            show_expr(out, right);
            put(out, ")");
        }
        Expr::Call {
            ty,
            routine,
            own: None,
            args,
        } => {
            put_numbered(out, "f", i64::from(routine.number));
            show_result(out, *ty);
            show_args(out, args.as_slice());
        }
        Expr::Call {
            ty,
            routine,
            own: Some(own),
            args,
        } => {
            show_routine(out, "m", *routine);
            show_result(out, *ty);
            put(out, " ");
            show_place(out, own);
            show_args(out, args.as_slice());
        }
        Expr::CallVirtual {
            ty,
            own,
            slot,
            checked,
            args,
        } => {
            show_slot(out, "v", *slot, *checked);
            show_result(out, *ty);
            put(out, " ");
            show_place(out, own);
            show_args(out, args.as_slice());
        }
        Expr::CallThrough { ty, place, args } => {
            put(out, "t");
            show_result(out, *ty);
            put(out, " ");
            show_place(out, place);
            show_args(out, args.as_slice());
        }
        Expr::RoutineValue { ty, routine } => show_typed_routine(out, "p", *ty, *routine),
        Expr::Make { ty, routine, args } => {
            show_typed_routine(out, "n", *ty, *routine);
            show_args(out, args.as_slice());
        }
        Expr::Std { ty, number, args } => {
            put_numbered(out, "s", i64::from(*number));
            show_result(out, *ty);
            show_args(out, args.as_slice());
        }
    }
}
