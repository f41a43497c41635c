//! What is asked of the literals and the `with`s of sources is so of each that is gathered.

mod laws;

pub use laws::written_source_laws;
