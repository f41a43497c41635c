//! Expressions.

use crate::identifier::Identifier;
use pascal_grammar::{Adder, Multiplier, Position, Relator, Sign};
use type_layout::Bytes;

/// A sign before a term or a factor, and where it stands.
#[derive(Clone, Copy, Debug, PartialEq, Eq)]
pub struct PlacedSign {
    pub sign: Sign,
    pub position: Position,
}

/// An expression: one simple expression, or two that are compared.
#[cycle(expression)]
#[derive(Drop)]
pub enum Expression {
    Simple(Box<SimpleExpression>),
    Relation {
        left: Box<SimpleExpression>,
        relator: Relator,
        position: Position,
        right: Box<SimpleExpression>,
    },
}

/// Terms that are added from the left on; a sign before the first belongs to it alone.
#[cycle(expression)]
#[derive(Drop)]
pub enum SimpleExpression {
    Term(Term),
    Signed(PlacedSign, Term),
    Sum {
        left: Box<SimpleExpression>,
        adder: Adder,
        position: Position,
        sign: Option<PlacedSign>,
        right: Term,
    },
}

/// Factors that are multiplied from the left on.
#[cycle(expression)]
#[derive(Drop)]
pub enum Term {
    Factor(Box<Factor>),
    Product {
        left: Box<Term>,
        multiplier: Multiplier,
        position: Position,
        sign: Option<PlacedSign>,
        right: Box<Factor>,
    },
}

/// An operand. The position of each is that of its first lexeme.
#[cycle(expression)]
#[derive(Drop)]
pub enum Factor {
    Number {
        value: i32,
        position: Position,
    },
    Text {
        bytes: Bytes,
        position: Position,
    },
    /// `^X`, the control character of a letter.
    Control {
        position: Position,
        letter: Identifier,
    },
    Nil {
        position: Position,
    },
    Negation {
        position: Position,
        operand: Box<Factor>,
    },
    Group {
        position: Position,
        inner: Box<Expression>,
    },
    Set {
        position: Position,
        elements: Vec<Element>,
    },
    Designator(Designator),
    /// A call with arguments, or a conversion.
    Call {
        callee: Designator,
        arguments: Vec<Argument>,
    },
}

/// An element of a set constructor.
#[cycle(expression)]
#[derive(Drop)]
pub enum Element {
    Single(Expression),
    Range(Expression, Expression),
}

/// An argument, with the width behind a colon if there is one.
#[cycle(expression)]
#[derive(Drop)]
pub enum Argument {
    Plain(Expression),
    Wide(Expression, Expression),
}

/// What an index stands behind.
#[derive(Clone, Copy, Debug, PartialEq, Eq)]
pub enum IndexMark {
    Bracket,
    Comma,
}

/// A name with its selectors, the last one outermost. The position of a selector is that of its first lexeme.
#[cycle(expression)]
#[derive(Drop)]
pub enum Designator {
    Name(Identifier),
    Field {
        owner: Box<Designator>,
        position: Position,
        field: Identifier,
    },
    Index {
        owner: Box<Designator>,
        mark: IndexMark,
        position: Position,
        index: Box<Expression>,
    },
    Dereference {
        owner: Box<Designator>,
        position: Position,
    },
}
