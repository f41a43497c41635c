//! What the names and numbers in the units of a program lead to.

mod classes;
mod globals;
mod sources;
mod units;

pub use classes::{class_key, class_size, class_sort, method_in, size_in};
pub use globals::global_serial;
pub use sources::Sources;
pub use units::{
    heap_of, is_overlaid, is_overlay, is_overlay_file, key_of, routine_key, stack_of, unit_named,
};
