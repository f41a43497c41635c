//! The tree of a Turbo Pascal source, with a variant for each construct.
#![tactic(auto)]

mod expression;
pub mod expression_tree;
mod identifier;
pub mod source_tree;
mod statement;
pub mod statement_tree;
pub mod type_tree;

pub use expression::{
    Argument, Designator, Element, Expression, Factor, IndexMark, PlacedSign, SimpleExpression,
    Term,
};
pub use identifier::Identifier;
pub use statement::{
    CaseArm, CaseElse, CaseLabel, CompoundStatement, ElsePart, PlacedDirection, Statement, WithRest,
};
