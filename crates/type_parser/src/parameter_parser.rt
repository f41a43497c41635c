//! Names, parameters, results and methods of Turbo Pascal, read from lexemes.

mod list;
mod lookahead;
mod method;
mod names;
mod parameter;
mod read;

pub use list::push;
pub use lookahead::deeper;
pub use read::{read_identifiers, read_methods, read_parameters, read_result, read_result_type};
