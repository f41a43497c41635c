//! Opening programs that overlay nothing.

mod laws;

pub use laws::plain_opening_law;
