//! How a command of `tp` ends, and what it says of that.

mod line;
mod outcome;
mod refusal;
mod words;

pub use line::write_line;
pub use outcome::Outcome;
pub use refusal::{CheckKind, ClassKind, Refusal, What};
