//! Checked units are well formed.

mod laws;

pub use crate::parts::part_keeping_law;
pub use laws::checked_unit_laws;
