//! The pure functions of the language's values: strings, sets, numerals, written text, input, blocks
//! of the heap, and what the integer types store. The meaning of programs and the runtime cite these
//! definitions.
#![tactic(auto)]

pub mod behaviour;
pub mod bits;
pub mod blocks;
pub mod input;
pub mod integers;
pub mod numerals;
pub mod ordinals;
pub mod sets;
pub mod strings;
pub mod written;
