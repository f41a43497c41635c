//! The laws on the tables of checked units.

mod laws;

pub use laws::table_laws;
