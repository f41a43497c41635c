//! The 8086 code of lists of flat statements, beside what it refers to.

mod numbers;
mod statements;

pub use numbers::Numbers;
pub use statements::push_body;
