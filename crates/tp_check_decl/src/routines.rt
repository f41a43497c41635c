//! Routines that a block declares, with what is declared inside them.

mod blocks;
mod drafts;
mod headings;
mod insides;
mod laws;
mod method_headings;
mod methods;
mod repeats;

pub use blocks::{all_judged, part_judged};
pub use drafts::{Announced, Draft, Made, Site, Slot};
pub use headings::heading;
pub use laws::routine_laws;
