//! What the directives of a source say for the whole of it.

mod collected;

pub use collected::{Directives, Overlaid, OverlaidUnits, directives_of};
