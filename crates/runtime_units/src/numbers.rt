//! The runtime by name: its units, the numbers of its routines, and the data that others name.

mod laws;
mod numbers;

pub use laws::number_laws;
pub use numbers::{RuntimeGlobal, RuntimeRoutine, RuntimeUnit};
