//! What waits for a part of a program that runs.

use crate::Flow;
use crate::interpreter_frames::callable::Callable;
use interpreter_effects::activations::{Activation, Callee};
use interpreter_effects::standard_effects::Operand;
use interpreter_store::cell_store::Value;
use interpreter_store::typed_cells::{Reached, Sort};
use type_layout::{RoutineId, TypeId};
use typed_tree::{
    Arg, Arm, BinaryOp, Destructor, Expr, PlaceExpr, ReadItem, SetElement, Stmt, UnaryOp, Variable,
    WriteItem,
};

/// A `for` loop.
#[derive(Clone, Copy)]
pub struct Counting<'a> {
    pub variable: Variable,
    pub ty: TypeId,
    pub down: bool,
    pub checked: bool,
    pub body: &'a Box<Stmt>,
}

/// What waits for a value, and what is known already.
#[derive(Drop)]
pub enum OnValue<'a> {
    Unary {
        ty: TypeId,
        op: UnaryOp,
    },
    Left {
        ty: TypeId,
        op: BinaryOp,
        right: &'a Box<Expr>,
        early: bool,
    },
    Right {
        ty: TypeId,
        op: BinaryOp,
        left: Value,
    },
    Convert {
        ty: TypeId,
    },
    Range {
        low: i32,
        high: i32,
    },
    Element {
        rest: &'a [SetElement],
        set: Vec<u8>,
    },
    First {
        last: &'a Expr,
        rest: &'a [SetElement],
        set: Vec<u8>,
    },
    Last {
        first: Value,
        rest: &'a [SetElement],
        set: Vec<u8>,
    },
    Deref {
        pointer: &'a Box<Expr>,
    },
    Index {
        at: Reached<'a>,
        checked: bool,
    },
    Argument {
        sort: Sort<'a>,
        rest: &'a [Arg],
        front: Vec<Operand<'a>>,
        call: Callable<'a>,
    },
    /// The constructor's call of a new block.
    Made {
        serial: usize,
    },
    /// The destructor's call for a block.
    Freed {
        at: Reached<'a>,
    },
    Assign {
        at: Reached<'a>,
    },
    Run,
    If {
        yes: &'a Box<Stmt>,
        no: &'a Box<Stmt>,
    },
    While {
        condition: &'a Box<Expr>,
        body: &'a Box<Stmt>,
    },
    Until {
        body: &'a Box<Stmt>,
        condition: &'a Box<Expr>,
    },
    Case {
        arms: &'a [Arm],
        other: &'a Box<Stmt>,
    },
    From {
        counting: Counting<'a>,
        to: &'a Box<Expr>,
    },
    To {
        counting: Counting<'a>,
        first: i32,
    },
    Write {
        sort: Sort<'a>,
        width: &'a Option<Box<Expr>>,
        rest: &'a [WriteItem],
        line: bool,
    },
    Width {
        sort: Sort<'a>,
        value: Value,
        rest: &'a [WriteItem],
        line: bool,
    },
    Halt,
    Unmake {
        pointer: &'a Box<Expr>,
        destructor: Destructor,
        args: &'a [Arg],
    },
}

/// What waits for a place.
#[derive(Drop)]
pub enum OnPlace<'a> {
    Load,
    /// The variable of which Length is asked for.
    Length,
    Indexed {
        index: &'a Box<Expr>,
        checked: bool,
    },
    Field {
        number: u32,
    },
    /// The instance of a method that is called by its name.
    Own {
        routine: RoutineId,
        own: &'a Box<PlaceExpr>,
        args: &'a [Arg],
    },
    /// The instance of a method that is called by its class.
    OfClass {
        slot: u32,
        checked: bool,
        args: &'a [Arg],
    },
    Through {
        args: &'a [Arg],
    },
    Argument {
        rest: &'a [Arg],
        front: Vec<Operand<'a>>,
        call: Callable<'a>,
    },
    AssignTo {
        value: &'a Box<Expr>,
    },
    CopyTo {
        from: &'a Box<PlaceExpr>,
    },
    CopyFrom {
        to: Reached<'a>,
    },
    With {
        body: &'a Box<Stmt>,
    },
    Read {
        item: &'a ReadItem,
        rest: &'a [ReadItem],
        line: bool,
    },
}

/// A routine that was called in an activation, and the serial number of its first variable.
#[derive(Drop)]
pub struct Return<'a> {
    pub callee: Callee<'a>,
    pub first: usize,
    pub caller: Activation<'a>,
}

/// What waits for the end of a statement.
#[derive(Drop)]
pub enum OnFlow<'a> {
    Block {
        rest: &'a [Stmt],
    },
    While {
        condition: &'a Box<Expr>,
        body: &'a Box<Stmt>,
    },
    Repeat {
        body: &'a Box<Stmt>,
        condition: &'a Box<Expr>,
    },
    Turn {
        counting: Counting<'a>,
        last: i32,
    },
    /// The body of a `with`.
    With,
    /// The body of a routine.
    Return(Box<Return<'a>>),
}

/// What waits for a part that runs.
#[derive(Drop)]
pub enum Frame<'a> {
    Value(OnValue<'a>),
    Place(OnPlace<'a>),
    Flow(OnFlow<'a>),
}

/// What comes next: a part of the program runs, or one has run and gives what it gives.
#[derive(Drop)]
pub enum Next<'a> {
    Evaluate(&'a Expr),
    Locate(&'a PlaceExpr),
    Execute(&'a Stmt),
    Value(Value),
    Place(Reached<'a>),
    Flow(Flow),
}

/// What a step leads to.
#[derive(Drop)]
pub enum Step<'a> {
    Goes(Next<'a>),
    /// Nothing waits for this value.
    Gave(Value),
}
