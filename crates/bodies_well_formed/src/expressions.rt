//! Each expression that is typed by the rules has a typed node.

mod laws;

pub use laws::checked_expression_law;
