//! The linker: from the object units of a program to its executable and its overlays.
#![tactic(auto)]

mod data_segment;
mod error;
mod filling;
mod homes;
mod image;
mod linking;
mod overlaid;
mod overlays;
mod part;
mod parts;
mod placement;
mod reached;
mod sizes;
mod stubs;
mod unit;
mod writable;

pub use error::LinkError;
pub use linking::{Linked, link};
pub use unit::{LinkUnit, Overlays, RUNTIME_UNITS, Setting};
