//! The two effects of the machine that are routines: overlays are cleared, and the installed flag is set.

mod laws;

pub use laws::service_law;
