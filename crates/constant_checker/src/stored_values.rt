//! Values as the bytes that variables hold.

mod bytes;
mod laws;

pub use bytes::{with_ordinal, with_set, with_string};
pub use laws::stored_laws;
