//! A type with its origin.

use type_layout::{Name, TypeDef};

/// A type, the unit that declares it, and its number there.
#[derive(Debug, Drop)]
pub struct TypeEntry {
    pub origin: Name,
    pub number: u32,
    pub one: TypeDef,
}
