//! The 8086 code of flat statements that hold no others, beside what it refers to.

mod calls;
mod copies;
mod steps;
mod stores;

pub use copies::push_copy;
pub use steps::{
    push_acting, push_byte_of, push_calling, push_calling_through, push_store_routine, push_word_of,
};
pub use stores::push_given;
