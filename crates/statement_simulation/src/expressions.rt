//! The code of an expression leaves its value in AX.

mod laws;

pub use laws::expression_law;
