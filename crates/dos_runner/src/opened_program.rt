//! Opening a program: its executable file and its overlay file are read and compared, and the machine and the overlay manager
//! made with which its run begins.

mod error;
mod laws;
mod matching;
mod opening;
mod stubs;

pub use error::OpenError;
pub use laws::one_reason;
pub use opening::{Opened, open_program};
