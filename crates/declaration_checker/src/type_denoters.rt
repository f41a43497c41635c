//! Types of a source into the table of types.

mod additions;
mod bounds;
mod denoters;
mod enumerations;
mod fields;
mod laws;
mod promises;

pub use additions::{added, entered};
pub use denoters::{judged_denoter, judged_fields};
pub use laws::denoter_laws;
pub use promises::Promise;
