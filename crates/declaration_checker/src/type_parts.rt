//! Parts of type declarations, and object types.

mod counts;
mod laws;
mod methods;
mod objects;
mod parts;
mod promised;

pub use laws::type_part_laws;
pub use parts::{method_count, type_part};
