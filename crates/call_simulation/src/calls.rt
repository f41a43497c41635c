//! Calls: the instructions of a call lead to the routine's first line, with its arguments and a return address on the stack.

mod laws;

pub use laws::call_law;
