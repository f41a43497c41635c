//! The virtual slots of object types, and the routine that answers a slot in each class.
#![tactic(auto)]

mod building;
mod class;
mod dispatch;
mod faults;
mod rules;

pub use building::classes;
pub use class::Class;
pub use dispatch::Classes;
pub use faults::ClassError;
pub use rules::same_header;
