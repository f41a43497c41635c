//! Unit files: what a unit shows, what it uses, and its code, read and written.
#![tactic(auto)]

mod error;
pub mod interface_file;
mod laws;
mod reading;
mod tail;
pub mod type_file;
mod unit;
mod writing;

pub use error::UnitFileError;
pub use laws::one_spelling;
pub use reading::read_unit;
pub use unit::{Interfaces, UnitRecord};
pub use writing::write_unit;
