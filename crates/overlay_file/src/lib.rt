//! Overlay files: the code of overlays and their fixups, read and written; and the stubs that stand for overlays in an
//! image.
#![tactic(auto)]

mod error;
mod laws;
mod overlay;
mod reading;
mod stubs;
mod writing;

pub use error::OvrError;
pub use laws::one_spelling;
pub use overlay::{Offsets, OverlayCode8086, OvrEntry, OvrIndex, Stub};
pub use reading::read_ovr;
pub use stubs::stub;
pub use writing::write_ovr;
