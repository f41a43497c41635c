//! Where the parts of a program come to lie: prefix sums, the segments of code, stubs, data, stack and heap, and the bytes
//! of stubs.
#![tactic(auto)]

mod error;
mod layout;
mod stub_bytes;
mod sums;

pub use error::LayoutError;
pub use layout::{LAYOUT_DATA, LAYOUT_PARAGRAPHS, LAYOUT_RELOCATIONS, Layout, Sizes, lay_out};
pub use stub_bytes::{index_of, push_stub};
pub use sums::{Numbers, Sums, even, paragraphs, prefix_sums, sum};
