//! Types.

use crate::type_tree::parameter::{Method, NamedType, ParameterGroup};
use crate::{Identifier, SimpleExpression};
use pascal_grammar::Position;

/// A type. The position of each is that of its first lexeme; of a name and of a subrange it is that of its first part.
#[cycle(types)]
#[derive(Drop)]
pub enum TypeDenoter {
    Name(Identifier),
    /// A subrange, whose first bound doesn't begin with a parenthesis.
    Range(Box<SimpleExpression>, Box<SimpleExpression>),
    /// The constants of an enumeration, at least one.
    Enumeration {
        position: Position,
        names: Vec<Identifier>,
    },
    Pointer {
        position: Position,
        target: PointerTarget,
    },
    /// Strings, up to the length in brackets if there is one.
    String {
        position: Position,
        length: Option<Box<SimpleExpression>>,
    },
    Procedure {
        position: Position,
        parameters: Vec<ParameterGroup>,
    },
    Function {
        position: Position,
        parameters: Vec<ParameterGroup>,
        result: NamedType,
    },
    Object {
        position: Position,
        ancestor: Option<Identifier>,
        fields: Vec<FieldGroup>,
        /// Whether a semicolon stands behind the last fields.
        semicolon: bool,
        methods: Vec<Method>,
    },
    Packed {
        position: Position,
        inner: StructuredType,
    },
    Structured(StructuredType),
}

/// What may be packed.
#[cycle(types)]
#[derive(Drop)]
pub enum StructuredType {
    /// The types of the indexes, at least one, and that of the elements.
    Array {
        position: Position,
        indexes: Vec<TypeDenoter>,
        element: Box<TypeDenoter>,
    },
    Record {
        position: Position,
        fields: Vec<FieldGroup>,
        /// Whether a semicolon stands behind the last fields.
        semicolon: bool,
    },
    Set {
        position: Position,
        element: Box<TypeDenoter>,
    },
}

/// Fields of one type, at least one.
#[cycle(types)]
#[derive(Drop)]
pub enum FieldGroup {
    Fields {
        names: Vec<Identifier>,
        of: TypeDenoter,
    },
}

/// What a pointer points to. A name of one letter could also begin a subrange of control characters, so the grammar tells it
/// from longer ones.
#[derive(Debug, Drop)]
pub enum PointerTarget {
    Letter(Identifier),
    Long(Identifier),
}
