//! What rows of data have in common: how a program reads them, their numbers, bytes and texts, their arguments, and the answers that are
//! written bit by bit.
//!
//! What is no number or no text is a mistake of the row. The readers of single words tell it as an error; [`Args`] and [`Line`] need no exit for
//! what goes wrong: the row is wrong, or the line lost, and the answer says so.
#![tactic(auto)]

mod args;
mod bytes;
mod line;
mod numbers;
mod start;
mod texts;

pub use args::Args;
pub use bytes::{bytes_in, text_bytes, text_in};
pub use line::{
    Line, empty_line, part, put, put_all, put_bytes, put_number, put_numbered, put_runs, put_shown,
    put_signed, put_text, put_told, put_truth,
};
pub use numbers::{number, whole, word};
pub use start::{Rows, check_rows};
pub use texts::repeated;
