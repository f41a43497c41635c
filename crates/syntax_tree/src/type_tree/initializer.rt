//! The initializers of typed constants.

use crate::{Identifier, SimpleExpression};
use pascal_grammar::Position;

/// The initializer of a typed constant or of a part of one.
#[cycle(initializer)]
#[derive(Drop)]
pub enum Initializer {
    /// One that doesn't begin with a parenthesis.
    Value(SimpleExpression),
    /// Values in parentheses, at least one, for the elements of an array.
    List {
        position: Position,
        items: Vec<Initializer>,
    },
    /// Values of fields in parentheses, at least one.
    Record {
        position: Position,
        fields: Vec<FieldValue>,
    },
}

/// A field and its value.
#[cycle(initializer)]
#[derive(Drop)]
pub enum FieldValue {
    Field {
        name: Identifier,
        value: Initializer,
    },
}
