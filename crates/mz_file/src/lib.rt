//! Executable files: the MZ format with the block that the runner reads, and how a program starts.
#![tactic(auto)]

mod cause;
mod executable;
mod loading;
mod reading;
mod writing;

pub use cause::{ExeCause, ExeError};
pub use executable::{Block, Exe, FarList, Segments};
pub use loading::{LoadError, load};
pub use reading::{check_exe, read_exe};
pub use writing::write_exe;
