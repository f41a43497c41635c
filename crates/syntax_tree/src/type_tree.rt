//! The types, first values and parameters of a Turbo Pascal source as a tree, with a variant for each construct.

mod initializer;
mod parameter;
mod types;

pub use initializer::{FieldValue, Initializer};
pub use parameter::{Method, MethodHeader, NamedType, ParameterGroup};
pub use types::{FieldGroup, PointerTarget, StructuredType, TypeDenoter};
