//! Programs and units.

use crate::source_tree::declaration::{Declaration, DeclarationPart, RoutineHeader};
use crate::{CompoundStatement, Identifier};
use pascal_grammar::Position;

/// What a unit declares in its interface part.
#[derive(Drop)]
pub enum InterfaceDeclaration {
    Part(DeclarationPart),
    /// A routine whose block stands in the implementation part.
    Header(RoutineHeader),
}

/// The name of a program, and the files behind it, which have no use.
#[derive(Drop)]
pub struct ProgramHeading {
    pub position: Position,
    pub name: Identifier,
    pub files: Vec<Identifier>,
}

/// A source.
#[derive(Drop)]
pub enum Tree {
    Program {
        heading: Option<ProgramHeading>,
        /// The used units; without any there is no uses clause.
        uses: Vec<Identifier>,
        declarations: Vec<Declaration>,
        body: CompoundStatement,
    },
    Unit {
        position: Position,
        name: Identifier,
        /// The used units: those of the interface part, then those of the implementation part.
        uses: Vec<Identifier>,
        /// How many of them the interface part names.
        interface_uses: usize,
        interface: Vec<InterfaceDeclaration>,
        declarations: Vec<Declaration>,
        /// The statements that initialise the unit, if there are any.
        body: Option<CompoundStatement>,
    },
}
