//! A closed scope has a table that rules may rely on.

mod laws;

pub use laws::{fit_front_law, sound_table_law};
