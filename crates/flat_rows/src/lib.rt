//! Flat programs that are written out as text, and what they show.
//!
//! The crate's README has the notation. What can't be read makes the program wrong, which its answer then says, so that what reads it
//! needs no exits.
#![tactic(auto)]

mod addresses;
mod data;
mod expressions;
mod program;
mod shown;
mod statements;
mod units;

pub use program::{Program, read_program, without_runtime};
pub use shown::{Shown, meaning_of, put_end, put_meaning, put_output};
