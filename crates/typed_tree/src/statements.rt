//! Typed statements.

use crate::{Arg, Expr, PlaceExpr, Variable};
use type_layout::{RoutineId, TypeId};

/// The labels of a `case` from `low` to `high`; one label alone is both.
#[derive(Clone, Copy, Debug, PartialEq, Eq)]
pub struct LabelRange {
    pub low: i32,
    pub high: i32,
}

/// The destructor that `Dispose` calls: a routine, or the one in a slot of the instance's class. With `checked`, an instance
/// without a class is error 210.
#[derive(Clone, Copy, Debug, PartialEq, Eq)]
pub enum Destructor {
    Routine(RoutineId),
    Slot { slot: u32, checked: bool },
}

/// A value that is written, and its width.
#[derive(Drop)]
pub struct WriteItem {
    pub value: Box<Expr>,
    pub width: Option<Box<Expr>>,
}

/// A place that is read, and its type. With `checked`, a number outside the bounds of the type is error 201.
#[derive(Drop)]
pub struct ReadItem {
    pub place: Box<PlaceExpr>,
    pub ty: TypeId,
    pub checked: bool,
}

/// A statement. One that is missing is a `Block` of none.
#[cycle(statement)]
#[derive(Drop)]
pub enum Stmt {
    Assign {
        place: Box<PlaceExpr>,
        value: Box<Expr>,
    },
    /// A record, array or object from one place to another.
    CopyAll {
        to: Box<PlaceExpr>,
        from: Box<PlaceExpr>,
    },
    Run {
        call: Box<Expr>,
    },
    If {
        condition: Box<Expr>,
        yes: Box<Stmt>,
        no: Box<Stmt>,
    },
    While {
        condition: Box<Expr>,
        body: Box<Stmt>,
    },
    Repeat {
        body: Box<Stmt>,
        condition: Box<Expr>,
    },
    Block {
        statements: Vec<Stmt>,
    },
    Case {
        selector: Box<Expr>,
        arms: Vec<Arm>,
        other: Box<Stmt>,
    },
    /// The type is the variable's. With `checked`, a bound outside the bounds of the type is error 201 where the loop turns.
    For {
        variable: Variable,
        ty: TypeId,
        from: Box<Expr>,
        to: Box<Expr>,
        down: bool,
        checked: bool,
        body: Box<Stmt>,
    },
    With {
        place: Box<PlaceExpr>,
        body: Box<Stmt>,
    },
    /// With `line`, the end of the line follows.
    WriteItems {
        items: Vec<WriteItem>,
        line: bool,
    },
    /// With `line`, the rest of the line is skipped.
    ReadItems {
        items: Vec<ReadItem>,
        line: bool,
    },
    Halt {
        code: Box<Expr>,
    },
    Exit,
    /// Calls a destructor on a block and frees it.
    Unmake {
        pointer: Box<Expr>,
        destructor: Destructor,
        args: Vec<Arg>,
    },
}

/// A branch of a `case`.
#[cycle(statement)]
#[derive(Drop)]
pub struct Arm {
    pub labels: Vec<LabelRange>,
    pub body: Stmt,
}
