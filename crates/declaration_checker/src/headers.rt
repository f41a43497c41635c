//! Headers of routines and methods, and types by their names.

mod headers;
mod laws;
mod limits;
mod names;
mod parameters;

pub use headers::{function_header, method_header, procedure_header, routine_header};
pub use laws::header_laws;
pub use limits::ARGUMENT_LIMIT;
pub use names::{named_type, type_named};
