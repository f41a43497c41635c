//! Statements.

use crate::expression::{Argument, Designator, Expression, SimpleExpression};
use crate::identifier::Identifier;
use pascal_grammar::{Direction, Position};

/// Which way a `for` counts, and where that stands.
#[derive(Clone, Copy, Debug, PartialEq, Eq)]
pub struct PlacedDirection {
    pub direction: Direction,
    pub position: Position,
}

/// Statements between `begin` and `end`, at least one.
#[cycle(statement)]
#[derive(Drop)]
pub struct CompoundStatement {
    pub position: Position,
    pub statements: Vec<Statement>,
}

/// A statement. The position of each is that of its first lexeme; one that begins with a designator stands where that does.
#[cycle(statement)]
#[derive(Drop)]
pub enum Statement {
    Empty,
    Assignment {
        target: Box<Designator>,
        value: Expression,
    },
    /// A call for which no arguments are written.
    BareCall {
        callee: Box<Designator>,
    },
    /// A call with the arguments in its parentheses, of which there is at least one.
    ProcedureCall {
        callee: Box<Designator>,
        arguments: Vec<Argument>,
    },
    Compound(CompoundStatement),
    If {
        position: Position,
        condition: Expression,
        body: Box<Statement>,
        otherwise: ElsePart,
    },
    Case {
        position: Position,
        selector: Expression,
        arms: Vec<CaseArm>,
        /// Whether a semicolon stands behind the last arm.
        semicolon: bool,
        otherwise: CaseElse,
    },
    While {
        position: Position,
        condition: Expression,
        body: Box<Statement>,
    },
    Repeat {
        position: Position,
        statements: Vec<Statement>,
        condition: Expression,
    },
    For {
        position: Position,
        variable: Identifier,
        first: Expression,
        direction: PlacedDirection,
        last: Expression,
        body: Box<Statement>,
    },
    With {
        position: Position,
        designator: Box<Designator>,
        rest: Box<WithRest>,
    },
}

/// What an `if` does where its condition fails.
#[cycle(statement)]
#[derive(Drop)]
pub enum ElsePart {
    Absent,
    Present(Box<Statement>),
}

/// What a `case` does where no label is met.
#[cycle(statement)]
#[derive(Drop)]
pub enum CaseElse {
    Absent,
    Present(Vec<Statement>),
}

/// What stands behind a designator of a `with`: the body, or one more designator, which is open inside the one before.
#[cycle(statement)]
#[derive(Drop)]
pub enum WithRest {
    Body(Box<Statement>),
    Next(Box<Designator>, Box<WithRest>),
}

/// A label of a `case`.
#[derive(Drop)]
pub enum CaseLabel {
    Single(SimpleExpression),
    Range(SimpleExpression, SimpleExpression),
}

/// A statement of a `case` behind its labels, of which there is at least one.
#[cycle(statement)]
#[derive(Drop)]
pub enum CaseArm {
    Arm {
        labels: Vec<CaseLabel>,
        body: Statement,
    },
}
