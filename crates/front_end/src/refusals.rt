//! From the error of a phase to the outcome of a command.

mod checking;
mod gathering;
mod ordering;

pub use checking::{check_outcome, class_outcome};
pub use gathering::gather_outcome;
pub use ordering::order_outcome;
