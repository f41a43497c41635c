//! Where units start.

use type_layout::Name;

/// The main or initialisation part of a unit.
#[derive(Drop)]
pub struct Initial {
    pub unit: Name,
    pub number: u32,
}
