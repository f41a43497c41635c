//! Each statement that is typed by the rules has a node that is well formed.

mod laws;

pub use laws::checked_statement_law;
