//! Laws on the interfaces of the sources of one program.

mod laws;

pub use laws::consistent_interface_laws;
