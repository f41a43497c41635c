//! The store of a run: trees of cells, and objects by serial numbers.

mod cells;
mod contents;
mod laws;
mod objects;
mod traps;

pub use cells::Tree;
pub use contents::{Key, Path, Spot, Value};
pub use laws::store_laws;
pub use objects::{Object, Store};
pub use traps::{Stop, Trap};
