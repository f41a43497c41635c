//! The tree of a whole Turbo Pascal source: declarations, routines, programs and units.

mod declaration;
mod source;
mod uses;

pub use declaration::{
    Block, ConstantDeclaration, Declaration, DeclarationPart, Routine, RoutineHeader,
    TypeDeclaration, VariableDeclaration,
};
pub use source::{InterfaceDeclaration, ProgramHeading, Tree};
pub use uses::{interface_uses, uses_of};
