//! Calls through stubs of overlays, and error 208.

mod laws;

pub use laws::stub_law;
