//! Names where they stand.

use pascal_grammar::Position;
use type_layout::Name;

/// A name, and where it stands.
#[derive(Debug, Drop)]
pub struct Identifier {
    pub name: Name,
    pub position: Position,
}
