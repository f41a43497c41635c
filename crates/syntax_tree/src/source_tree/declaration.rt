//! Declarations.

use crate::type_tree::{Initializer, MethodHeader, NamedType, ParameterGroup, TypeDenoter};
use crate::{CompoundStatement, Identifier, SimpleExpression};
use pascal_grammar::Position;

/// A name for a value, or a variable with a first value.
#[derive(Drop)]
pub enum ConstantDeclaration {
    Plain {
        name: Identifier,
        value: SimpleExpression,
    },
    Typed {
        name: Identifier,
        denoter: TypeDenoter,
        value: Initializer,
    },
}

/// A name for a type.
#[derive(Drop)]
pub struct TypeDeclaration {
    pub name: Identifier,
    pub denoter: TypeDenoter,
}

/// Variables of one type, of which there is at least one.
#[derive(Drop)]
pub struct VariableDeclaration {
    pub names: Vec<Identifier>,
    pub denoter: TypeDenoter,
}

/// Constants, types or variables, at least one, behind the word that begins them. The position is that of the word.
#[derive(Drop)]
pub enum DeclarationPart {
    Constants {
        position: Position,
        constants: Vec<ConstantDeclaration>,
    },
    Types {
        position: Position,
        types: Vec<TypeDeclaration>,
    },
    Variables {
        position: Position,
        variables: Vec<VariableDeclaration>,
    },
}

/// The header of a routine that is no method. The position is that of its first word; no parameters are an empty list.
#[derive(Drop)]
pub enum RoutineHeader {
    Procedure {
        position: Position,
        name: Identifier,
        parameters: Vec<ParameterGroup>,
    },
    /// The result may be left out only where an earlier header has it.
    Function {
        position: Position,
        name: Identifier,
        parameters: Vec<ParameterGroup>,
        result: Option<NamedType>,
    },
}

/// The declarations and the statements of a routine.
#[cycle(declaration)]
#[derive(Drop)]
pub struct Block {
    pub declarations: Vec<Declaration>,
    pub body: CompoundStatement,
}

/// A routine.
#[cycle(declaration)]
#[derive(Drop)]
pub enum Routine {
    /// A header whose block stands further on.
    Forward(RoutineHeader),
    Plain {
        header: RoutineHeader,
        block: Block,
    },
    /// A method of the object type that is named.
    Method {
        header: MethodHeader,
        owner: Identifier,
        block: Block,
    },
}

/// A declaration of a block.
#[cycle(declaration)]
#[derive(Drop)]
pub enum Declaration {
    Part(DeclarationPart),
    Routine(Routine),
}
