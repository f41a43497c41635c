//! The overlay manager: brings overlays into the buffer as calls and returns trap, and sends others out.
#![tactic(auto)]

mod filling;
mod laws;
mod loading;
pub mod overlay_run;
mod ovr;
mod program;
mod serving;
mod stubbing;
mod tables;
mod tally;
mod traps;

pub use filling::LoadStop;
pub use laws::return_law;
pub use loading::load_overlay;
pub use ovr::{Ovr, clear_buffer, service};
pub use serving::ServiceStop;
pub use tally::Tally;
