//! What a program means, wherever its statements lie in memory.

mod laws;

pub use laws::same_meaning_law;
