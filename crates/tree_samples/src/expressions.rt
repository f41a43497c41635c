//! Expressions and places from constants.

use std::alloc::{AllocError, Global};
use type_layout::{Bytes, RoutineId, TypeId};
use typed_tree::{Arg, BinaryOp, Expr, PlaceExpr, SetElement, UnaryOp, Value, Variable};

/// An expression, with its type.
#[cycle(sample)]
pub enum ExprSample {
    /// The constant of a number.
    Number(TypeId, i32),
    Text(TypeId, &'static str),
    Elements(TypeId, &'static [u8]),
    Nil(TypeId),
    RoutineValue(TypeId, RoutineId),
    Load(TypeId, &'static PlaceSample),
    Unary(TypeId, UnaryOp, &'static ExprSample),
    /// With whether the right side is left out where the left one decides.
    Binary(TypeId, BinaryOp, &'static ExprSample, &'static ExprSample, bool),
    Convert(TypeId, &'static ExprSample),
    Range(TypeId, &'static ExprSample, i32, i32),
    SetOf(TypeId, &'static [ElementSample]),
    /// With the type of the result, and the arguments.
    Call(Option<TypeId>, Callee, &'static [ArgSample]),
}

/// What a call calls.
#[cycle(sample)]
pub enum Callee {
    Routine(RoutineId),
    /// A method, on an instance.
    Method(RoutineId, &'static PlaceSample),
    /// The method in a slot of an instance's class, and whether an instance without a class is an error.
    Virtual(&'static PlaceSample, u32, bool),
    /// The routine that a variable holds.
    Through(&'static PlaceSample),
    Standard(u32),
    /// A constructor on a new block of the type that a pointer type leads to.
    Make(TypeId, RoutineId),
}

/// A place.
#[cycle(sample)]
pub enum PlaceSample {
    Var(Variable),
    Deref(&'static ExprSample),
    /// With whether the index is tested.
    Index(&'static PlaceSample, &'static ExprSample, bool),
    FieldOf(&'static PlaceSample, u32),
}

/// What a set constructor lists.
#[cycle(sample)]
pub enum ElementSample {
    One(ExprSample),
    Span(ExprSample, ExprSample),
}

/// An argument.
#[cycle(sample)]
pub enum ArgSample {
    Value(ExprSample),
    Place(PlaceSample),
}

fn boxed(alloc: Global, one: Expr) -> Result<Box<Expr>, AllocError> {
    Ok(Box::new(alloc, one)?)
}

fn constant(alloc: Global, ty: TypeId, value: Value) -> Result<Box<Expr>, AllocError> {
    boxed(alloc, Expr::Const { ty, value })
}

fn text(alloc: Global, ty: TypeId, bytes: &[u8]) -> Result<Box<Expr>, AllocError> {
    let chars = Bytes::from_slice(alloc, bytes)?;
    constant(alloc, ty, Value::Chars(chars))
}

fn members(alloc: Global, ty: TypeId, list: &[u8]) -> Result<Box<Expr>, AllocError> {
    let elements = Bytes::from_slice(alloc, list)?;
    constant(alloc, ty, Value::Elements(elements))
}

/// The expression of a sample.
#[cycle(builds)]
pub fn expression(alloc: Global, sample: &ExprSample) -> Result<Box<Expr>, AllocError> {
    match sample {
        ExprSample::Number(ty, number) => constant(alloc, *ty, Value::Number(*number)),
        ExprSample::Text(ty, chars) => text(alloc, *ty, chars.as_bytes()),
        ExprSample::Elements(ty, list) => members(alloc, *ty, list),
        ExprSample::Nil(ty) => constant(alloc, *ty, Value::Nil),
        ExprSample::RoutineValue(ty, routine) => boxed(
            alloc,
            Expr::RoutineValue {
                ty: *ty,
                routine: *routine,
            },
        ),
        ExprSample::Load(ty, from) => loaded(alloc, *ty, from),
        ExprSample::Unary(ty, op, one) => unary(alloc, *ty, *op, one),
        ExprSample::Binary(ty, op, one, other, early) => {
            let left = expression(alloc, one)?;
            let right = expression(alloc, other)?;
            boxed(
                alloc,
                Expr::Binary {
                    ty: *ty,
                    op: *op,
                    left,
                    right,
                    early: *early,
                },
            )
        }
        ExprSample::Convert(ty, one) => converted(alloc, *ty, one),
        ExprSample::Range(ty, one, low, high) => ranged(alloc, *ty, one, (*low, *high)),
        ExprSample::SetOf(ty, list) => set_of(alloc, *ty, list),
        ExprSample::Call(ty, callee, list) => {
            let args = arguments(alloc, list)?;
            called(alloc, callee, *ty, args)
        }
    }
}

#[cycle(builds)]
fn loaded(alloc: Global, ty: TypeId, from: &PlaceSample) -> Result<Box<Expr>, AllocError> {
    let place = place(alloc, from)?;
    boxed(alloc, Expr::Load { ty, place })
}

#[cycle(builds)]
fn unary(
    alloc: Global,
    ty: TypeId,
    op: UnaryOp,
    one: &ExprSample,
) -> Result<Box<Expr>, AllocError> {
    let operand = expression(alloc, one)?;
    boxed(alloc, Expr::Unary { ty, op, operand })
}

#[cycle(builds)]
fn converted(alloc: Global, ty: TypeId, one: &ExprSample) -> Result<Box<Expr>, AllocError> {
    let operand = expression(alloc, one)?;
    boxed(alloc, Expr::Convert { ty, operand })
}

#[cycle(builds)]
fn ranged(
    alloc: Global,
    ty: TypeId,
    one: &ExprSample,
    bounds: (i32, i32),
) -> Result<Box<Expr>, AllocError> {
    let (low, high) = bounds;
    let operand = expression(alloc, one)?;
    boxed(
        alloc,
        Expr::Range {
            ty,
            operand,
            low,
            high,
        },
    )
}

#[cycle(builds)]
fn element(alloc: Global, sample: &ElementSample) -> Result<SetElement, AllocError> {
    match sample {
        ElementSample::One(one) => Ok(SetElement::One(unboxed(expression(alloc, one)?))),
        ElementSample::Span(one, other) => {
            let low = expression(alloc, one)?;
            let high = expression(alloc, other)?;
            Ok(SetElement::Span(unboxed(low), unboxed(high)))
        }
    }
}

fn unboxed(one: Box<Expr>) -> Expr {
    Box::into_inner(one)
}

#[cycle(builds)]
fn set_of(alloc: Global, ty: TypeId, list: &[ElementSample]) -> Result<Box<Expr>, AllocError> {
    let mut elements = Vec::new(alloc);
    for sample in list {
        elements.push(element(alloc, sample)?)?;
    }
    boxed(alloc, Expr::SetOf { ty, elements })
}

#[cycle(builds)]
fn argument(alloc: Global, sample: &ArgSample) -> Result<Arg, AllocError> {
    match sample {
        ArgSample::Value(one) => Ok(Arg::Value(unboxed(expression(alloc, one)?))),
        ArgSample::Place(one) => Ok(Arg::Place(laid_open(place(alloc, one)?))),
    }
}

fn laid_open(one: Box<PlaceExpr>) -> PlaceExpr {
    Box::into_inner(one)
}

/// The arguments of a list.
#[cycle(builds)]
pub(crate) fn arguments(alloc: Global, list: &[ArgSample]) -> Result<Vec<Arg>, AllocError> {
    let mut args = Vec::new(alloc);
    for sample in list {
        args.push(argument(alloc, sample)?)?;
    }
    Ok(args)
}

#[cycle(builds)]
fn called(
    alloc: Global,
    callee: &Callee,
    ty: Option<TypeId>,
    args: Vec<Arg>,
) -> Result<Box<Expr>, AllocError> {
    let call = match callee {
        Callee::Routine(routine) => Expr::Call {
            ty,
            routine: *routine,
            own: None,
            args,
        },
        Callee::Method(routine, instance) => Expr::Call {
            ty,
            routine: *routine,
            own: Some(place(alloc, instance)?),
            args,
        },
        Callee::Virtual(instance, slot, checked) => Expr::CallVirtual {
            ty,
            own: place(alloc, instance)?,
            slot: *slot,
            checked: *checked,
            args,
        },
        Callee::Through(variable) => Expr::CallThrough {
            ty,
            place: place(alloc, variable)?,
            args,
        },
        Callee::Standard(number) => Expr::Std {
            ty,
            number: *number,
            args,
        },
        Callee::Make(pointer, routine) => Expr::Make {
            ty: *pointer,
            routine: *routine,
            args,
        },
    };
    boxed(alloc, call)
}

fn boxed_place(alloc: Global, one: PlaceExpr) -> Result<Box<PlaceExpr>, AllocError> {
    Ok(Box::new(alloc, one)?)
}

/// The place of a sample.
#[cycle(builds)]
pub fn place(alloc: Global, sample: &PlaceSample) -> Result<Box<PlaceExpr>, AllocError> {
    match sample {
        PlaceSample::Var(variable) => boxed_place(alloc, PlaceExpr::Var(*variable)),
        PlaceSample::Deref(one) => {
            let pointer = expression(alloc, one)?;
            boxed_place(alloc, PlaceExpr::Deref { pointer })
        }
        PlaceSample::Index(whole, one, checked) => {
            let place = place(alloc, whole)?;
            let index = expression(alloc, one)?;
            boxed_place(
                alloc,
                PlaceExpr::Index {
                    place,
                    index,
                    checked: *checked,
                },
            )
        }
        PlaceSample::FieldOf(whole, number) => {
            let place = place(alloc, whole)?;
            boxed_place(
                alloc,
                PlaceExpr::FieldOf {
                    place,
                    number: *number,
                },
            )
        }
    }
}
