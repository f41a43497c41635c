//! The meaning of a typed program, shown: the input read, the meaning asked for, and what it writes written.

mod shown;

pub use shown::show_meaning;
