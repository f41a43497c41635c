//! What a program asks of the outside: a source of bytes, sinks for bytes, and a folder of files.
#![tactic(auto)]

mod calls;
mod faults;
mod folders;
mod memory_files;
mod memory_sink;
mod memory_source;
mod reading;
mod real_files;
mod real_sink;
mod real_source;
mod sinks;
mod sources;
pub mod whole_input;

pub use faults::{Failed, ReadError, WriteError};
pub use folders::Files;
pub use memory_files::MemoryFiles;
pub use memory_sink::MemorySink;
pub use memory_source::MemorySource;
pub use reading::{read_file, read_prefix, read_source};
pub use real_files::RealFiles;
pub use real_sink::RealSink;
pub use real_source::RealSource;
pub use sinks::{Sink, write_all};
pub use sources::Source;
