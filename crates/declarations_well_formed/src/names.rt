//! Declarations of types add types, and names of types and of values.

mod laws;

pub use laws::type_name_laws;
