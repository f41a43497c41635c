//! Typed expressions and places.

use type_layout::{Bytes, RoutineId, TypeId};

/// A constant's value: the number of an ordinal, the bytes of a string, nil, or the elements of a set, rising.
#[derive(Debug, Drop)]
pub enum Value {
    Number(i32),
    Chars(Bytes),
    Nil,
    Elements(Bytes),
}

/// A variable. At level 0 it is a global of the unit at this place among the unit's names; at level k + 1 it
/// belongs to the routine that is reached over k static links. A routine's variables are its parameters, then
/// its own. The place that an open `with` holds is number 2^31 + k of level 1, where k other `with`s are open.
#[derive(Clone, Copy, Debug, PartialEq, Eq)]
pub struct Variable {
    pub unit: u32,
    pub level: u32,
    pub number: u32,
}

/// The operators with one operand.
#[derive(Clone, Copy, Debug, PartialEq, Eq)]
pub enum UnaryOp {
    Plus,
    Minus,
    Not,
}

/// The operators with two operands. On strings `Add` joins them; on sets `Add`, `Subtract` and `Multiply` are
/// union, difference and intersection.
#[derive(Clone, Copy, Debug, PartialEq, Eq)]
pub enum BinaryOp {
    Add,
    Subtract,
    Multiply,
    Divide,
    Modulo,
    ShiftLeft,
    ShiftRight,
    And,
    Or,
    Xor,
    Equal,
    NotEqual,
    Less,
    LessOrEqual,
    Greater,
    GreaterOrEqual,
    In,
}

/// An expression with its type. The type of a call is that of its result, which a procedure does not have.
#[cycle(expression)]
#[derive(Drop)]
pub enum Expr {
    Const {
        ty: TypeId,
        value: Value,
    },
    /// A routine as a value of a procedural type.
    RoutineValue {
        ty: TypeId,
        routine: RoutineId,
    },
    /// What a variable holds; of a record, an array or an object the place itself.
    Load {
        ty: TypeId,
        place: Box<PlaceExpr>,
    },
    Unary {
        ty: TypeId,
        op: UnaryOp,
        operand: Box<Expr>,
    },
    /// With `early`, an `and` or `or` of Booleans leaves out its right side where the left one decides.
    Binary {
        ty: TypeId,
        op: BinaryOp,
        left: Box<Expr>,
        right: Box<Expr>,
        early: bool,
    },
    /// The operand by the low bytes of another predefined type, or a Char as a string.
    Convert {
        ty: TypeId,
        operand: Box<Expr>,
    },
    /// The operand, which must lie within the bounds.
    Range {
        ty: TypeId,
        operand: Box<Expr>,
        low: i32,
        high: i32,
    },
    SetOf {
        ty: TypeId,
        elements: Vec<SetElement>,
    },
    /// A call of a routine, or of a method with its instance.
    Call {
        ty: Option<TypeId>,
        routine: RoutineId,
        own: Option<Box<PlaceExpr>>,
        args: Vec<Arg>,
    },
    /// A call of the method in a slot of the instance's class. With `checked`, an instance without a class is error 210.
    CallVirtual {
        ty: Option<TypeId>,
        own: Box<PlaceExpr>,
        slot: u32,
        checked: bool,
        args: Vec<Arg>,
    },
    /// A call of the routine that a procedural variable holds.
    CallThrough {
        ty: Option<TypeId>,
        place: Box<PlaceExpr>,
        args: Vec<Arg>,
    },
    /// A call of a standard routine, which has one of the numbers in `standard`.
    Std {
        ty: Option<TypeId>,
        number: u32,
        args: Vec<Arg>,
    },
    /// A new block, on which a constructor was called.
    Make {
        ty: TypeId,
        routine: RoutineId,
        args: Vec<Arg>,
    },
}

/// A place in memory.
#[cycle(expression)]
#[derive(Drop)]
pub enum PlaceExpr {
    Var(Variable),
    Deref {
        pointer: Box<Expr>,
    },
    Index {
        place: Box<PlaceExpr>,
        index: Box<Expr>,
        checked: bool,
    },
    FieldOf {
        place: Box<PlaceExpr>,
        number: u32,
    },
}

/// What a set constructor lists: an ordinal, or all from one to another.
#[cycle(expression)]
#[derive(Drop)]
pub enum SetElement {
    One(Expr),
    Span(Expr, Expr),
}

/// An argument: a value, or the place that a `var` parameter takes.
#[cycle(expression)]
#[derive(Drop)]
pub enum Arg {
    Value(Expr),
    Place(PlaceExpr),
}
