//! Set constructors: what they ask of their elements, and their nodes.

mod bases;
mod laws;
mod sets;

pub use bases::set_over;
pub use laws::set_laws;
pub use sets::constructed;
