//! Parts of a file: bytes, numbers, truth values, names, numbers that may be absent, and bytes behind their count, read
//! from the front of what is left, and written.

mod error;
mod reading;
mod writing;

pub use error::PartError;
pub use reading::{
    byte_of, bytes_of, damaged, long_of, name_of, option_of, signed_of, some_bytes, truth_of,
    word_of,
};
pub use writing::{
    push_bytes, push_count, push_long, push_name, push_option, push_signed, push_truth, push_word,
};
