//! Types and headers as bytes of a unit file: read from the front of what is left, and written.

mod entry;
mod parts;
mod types;
mod writing;

pub use entry::TypeEntry;
pub use parts::{header_of, id_below};
pub use types::types_of;
pub use writing::{push_header, push_id, push_types};
