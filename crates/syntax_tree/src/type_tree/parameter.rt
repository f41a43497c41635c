//! Parameters, results and methods.

use crate::Identifier;
use pascal_grammar::Position;

/// The type of a parameter or of a result, by its name.
#[derive(Debug, Drop)]
pub enum NamedType {
    Name(Identifier),
    /// The word `string`.
    String(Position),
}

/// Parameters of one type, of which there is at least one.
#[derive(Drop)]
pub enum ParameterGroup {
    /// Behind `var`, where that stands.
    Variable {
        position: Position,
        names: Vec<Identifier>,
        of: NamedType,
    },
    Value {
        names: Vec<Identifier>,
        of: NamedType,
    },
}

/// The header of a method in its type. The position is that of its first word; no parameters are an empty list.
#[derive(Drop)]
pub enum MethodHeader {
    Procedure {
        position: Position,
        name: Identifier,
        parameters: Vec<ParameterGroup>,
    },
    /// The result may be left out only where an earlier header has it.
    Function {
        position: Position,
        name: Identifier,
        parameters: Vec<ParameterGroup>,
        result: Option<NamedType>,
    },
    Constructor {
        position: Position,
        name: Identifier,
        parameters: Vec<ParameterGroup>,
    },
    Destructor {
        position: Position,
        name: Identifier,
        parameters: Vec<ParameterGroup>,
    },
}

/// A method in its type.
#[derive(Drop)]
pub struct Method {
    pub header: MethodHeader,
    pub is_virtual: bool,
}
